//! Rows of cells in hand that are divided between two leaves.
//!
//! 1. The right half comes in memory of its own, and the free leaf's cells get it when the rows have moved: so running
//!    out of memory leaves them as they were.

ghost use Rattle.std.specs.Prelude.{◌≡◌, ◌≤◌, length, Some, OnErr, OnOk};
ghost use Rattle.pass_moves.specs.LeafArray.Segments.{rows_of};
ghost use Rattle.leaf_index.specs.Index.{IsTaken};
ghost use Rattle.pass_moves.specs.LeafStore.Ranges.{IsLive};
ghost use Rattle.pass_moves.specs.Moving.{values_of};
ghost use Rattle.pass_moves.specs.Spreading.{KeepsContents};
ghost use Rattle.pass_splits.specs.Splitting.{DividesCells, IsNextFree, TakesLeaf};

use graph_model::{Key, LEAF_SEGMENTS, NoMemory};
use leaf_index::LeafIndex;
use pass_moves::below::{Leaf, TakenCell, split_entry};
use pass_moves::{exchange, mark};
use std::alloc::Global;

/// Divides the rows of the left cells between them and the right ones, and gives the leaf of these, which is the next
/// free one, an entry. The rows move in the space that is lent, and in memory for the right leaf.
pub(crate) fn split_next(
    left: &mut [TakenCell],
    right: &mut [TakenCell],
    index: &mut LeafIndex,
    space: &mut Leaf,
    other: u32,
    alloc: Global,
) -> Result<(), NoMemory>
    requires eight { (length left.old ≡ 8) × (length right.old ≡ 8) }
    requires live { IsLive index.old.entries (values_of left.old) }
    requires many { 207 ≤ length (rows_of (values_of left.old)) }
    requires next { IsNextFree index.old (Some other) }
    ensures ok { OnOk result (TakesLeaf other index.old index.new
        × ((live : IsLive index.old.entries (values_of left.old))
        → DividesCells other index.old.entries index.new.entries left.old right.old left.new right.new live)) }
    ensures err { OnErr result ((index.new ≡ index.old) × (right.new ≡ right.old) × KeepsContents left.old left.new) }
{
    let Some(leaf) = index.take_free() else {
        unreachable!()
    };
    match split_rows(left, right, index, space, leaf, alloc) {
        Ok(()) => Ok(()),
        Err(refused) => {
            // The leaf was taken last, so it is the next to be free once more, as before the call.
            index.give_back(leaf);
            Err(refused)
        }
    }
}

/// The same of a leaf that was taken.
fn split_rows(
    left: &mut [TakenCell],
    right: &mut [TakenCell],
    index: &mut LeafIndex,
    space: &mut Leaf,
    other: u32,
    alloc: Global,
) -> Result<(), NoMemory>
    requires eight { (length left.old ≡ 8) × (length right.old ≡ 8) }
    requires live { IsLive index.old.entries (values_of left.old) }
    requires many { 207 ≤ length (rows_of (values_of left.old)) }
    requires taken { IsTaken index.old other }
    ensures ok { OnOk result ((live : IsLive index.old.entries (values_of left.old))
        → DividesCells other index.old.entries index.new.entries left.old right.old left.new right.new live) }
    ensures others { index.new ≡ record index.old { entries = index.new.entries } }
    ensures err { OnErr result ((index.new ≡ index.old) × (right.new ≡ right.old) × KeepsContents left.old left.new) }
{
    // Memory comes first, before a row moves. The cells of the free leaf need not be asked what they hold: they get
    // these segments whole.
    let mut free = Leaf::new(alloc, Key::END, Key::END)?;
    exchange(left, &mut space.segments);
    let done = split_entry(index, alloc, space, &mut free, other);
    exchange(left, &mut space.segments);
    done?;
    // Only where it is done: else what was in these cells stays there.
    exchange(right, &mut free.segments);
    mark(left, 0, LEAF_SEGMENTS);
    mark(right, 0, LEAF_SEGMENTS);
    Ok(())
}
