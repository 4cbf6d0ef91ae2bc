//! Leaves that are split.
//!
//! 1. The index has the new entry before rows move, so that running out of memory leaves all as it was.

ghost use Rattle.std.specs.Prelude.{◌≡◌, ◌≤◌, [], length, IfErr, IfOk, OnErr, OnOk};
ghost use Rattle.std.specs.List.{AllByRecursion};
ghost use Rattle.leaf_table.specs.VersionSegment.Rows.{IsSegment};
ghost use Rattle.leaf_table.specs.LeafArray.Leaves.{IsLeaf};
ghost use Rattle.leaf_table.specs.LeafArray.Segments.{AreSame, rows_of};
ghost use Rattle.leaf_index.specs.Index.{IsTaken};
ghost use Rattle.leaf_store.specs.Merging.{KeepsParts};
ghost use Rattle.leaf_store.specs.Moving.{CanSplit, KeepsOne, MovesAcross, SplitsThere};
ghost use Rattle.leaf_store.specs.Ranges.{IsLive, IsOutOfLeaves, SplitsEntry, SplitsLeaf};
ghost use Rattle.leaf_store.specs.Table.{IsKept, leaves_of, segments_at};

use crate::range::{halve_range, join_range};
use graph_model::{Key, NoMemory};
use leaf_index::LeafIndex;
use leaf_table::below::{Leaf, split_key, split_leaf};
use leaf_table::{Place, cuts_of, put_leaf};
use std::alloc::Global;
use txn_manager::RoomRefusal;

/// Memory for a leaf, all of whose segments are empty at the last key.
fn empty_leaf(alloc: Global) -> Result<Box<Leaf>, NoMemory>
    ensures leaf { IfOk result (λ leaf. IsLeaf leaf.value.segments) }
    ensures empty { IfOk result (λ leaf. rows_of leaf.value.segments ≡ []) }
{
    let leaf = Leaf::new(alloc, Key::END, Key::END)?;
    Ok(Box::new(alloc, leaf)?)
}

/// Divides the rows of a live leaf between it and a leaf without rows, and gives this one an entry.
pub fn split_entry(
    index: &mut LeafIndex,
    alloc: Global,
    left: &mut Leaf,
    right: &mut Leaf,
    leaf: u32,
) -> Result<(), NoMemory>
    requires live { IsLive index.old.entries left.old.segments }
    requires right { IsLeaf right.old.segments }
    requires empty { rows_of right.old.segments ≡ [] }
    requires many { 207 ≤ length (rows_of left.old.segments) }
    requires taken { IsTaken index.old leaf }
    ensures ok { OnOk result ((live : IsLive index.old.entries left.old.segments) → SplitsEntry leaf
        index.old.entries index.new.entries left.old.segments left.new.segments right.new.segments live) }
    ensures left { OnOk result (AllByRecursion IsSegment left.new.segments) }
    ensures right { OnOk result (AllByRecursion IsSegment right.new.segments) }
    ensures others { index.new ≡ record index.old { entries = index.new.entries } }
    ensures err { OnErr result (index.new ≡ index.old) }
    ensures same { OnErr result (AreSame left.old.segments left.new.segments) }
{
    let cuts = cuts_of(left);
    let key = split_key(left);
    halve_range(index, alloc, cuts[0], cuts, key, leaf)?;
    match split_leaf(left, right, alloc) {
        Ok(_key) => {
            index.set_separators(cuts[0], cuts_of(left));
            index.set_separators(key, cuts_of(right));
            Ok(())
        }
        Err(refused) => {
            join_range(index, cuts[0], cuts, key);
            Err(refused)
        }
    }
}

/// Divides the rows of a live leaf between it and a taken one.
fn split_with(
    index: &mut LeafIndex,
    leaves: &mut Vec<Option<Box<Leaf>>>,
    alloc: Global,
    leaf: usize,
    other: u32,
) -> Result<(), NoMemory>
    requires live { IsLive index.old.entries (segments_at leaves.old.items leaf) }
    requires many { 207 ≤ length (rows_of (segments_at leaves.old.items leaf)) }
    requires taken { IsTaken index.old other }
    requires count { length leaves.old.items ≡ index.old.leaves }
    ensures ok { OnOk result ((live : IsLive index.old.entries (segments_at leaves.old.items leaf))
        → live.entry.leaf ≡ leaf
        → SplitsLeaf index.old index.new leaves.old.items leaves.new.items leaf other) }
    ensures err { OnErr result (KeepsOne index.old index.new leaves.old.items leaves.new.items leaf) }
{
    // The memory of the new leaf comes before the index or a row changes.
    let mut right = empty_leaf(alloc)?;
    match &mut leaves[leaf] {
        Some(left) => split_entry(index, alloc, left, &mut right, other)?,
        None => unreachable!(),
    }
    put_leaf(leaves, other as usize, right);
    Ok(())
}

/// Splits the leaf at the place, in which no window has room, and answers the number of the right half.
pub(crate) fn split_at(
    index: &mut LeafIndex,
    leaves: &mut Vec<Option<Box<Leaf>>>,
    alloc: Global,
    place: Place,
) -> Result<u32, RoomRefusal>
    requires kept { IsKept index.old leaves.old.items }
    requires can { CanSplit place index.old leaves.old.items }
    ensures ok { IfOk result (λ other.
        SplitsThere place other index.old index.new leaves.old.items leaves.new.items) }
    ensures moved { MovesAcross index.old index.new leaves.old.items leaves.new.items }
    ensures err { OnErr result (KeepsParts
        (leaves_of index.old leaves.old.items) (leaves_of index.new leaves.new.items)) }
    ensures refused { IfErr result (λ refusal.
        IsOutOfLeaves refusal index.old index.new leaves.old.items leaves.new.items) }
{
    let Some(leaf) = index.take_free() else {
        let leaves = index.leaves();
        return Err(RoomRefusal::Full { leaves });
    };
    match split_with(index, leaves, alloc, place.leaf, leaf) {
        Ok(()) => {
            index.is_index();
            Ok(leaf)
        }
        Err(_) => {
            // The number is free again, as if it had never been taken.
            index.give_back(leaf);
            Err(RoomRefusal::NoMemory)
        }
    }
}
