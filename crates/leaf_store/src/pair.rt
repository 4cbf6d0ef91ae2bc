//! Neighbours with few rows, of which one leaf is made.
//!
//! 1. The left one gets the whole range, and the right one is retired; its memory is given back at once, since the
//!    store has one owner.

ghost use Rattle.std.specs.Prelude.{◌≡◌, ◌+◌, ◌*◌, ◌<◌, ◌≤◌, None, IfSome, IsOk, OnErr, OnOk, length, sum};
ghost use Rattle.std.specs.List.{AllByRecursion};
ghost use Rattle.leaf_table.specs.VersionSegment.Rows.{IsSegment};
ghost use Rattle.leaf_table.specs.LeafArray.Leaves.{IsLeaf};
ghost use Rattle.leaf_table.specs.LeafArray.Segments.{records_of, rows_of};
ghost use Rattle.leaf_store.specs.Leaves.{record_count};
ghost use Rattle.leaf_store.specs.Merging.{Compacts, KeepsParts};
ghost use Rattle.leaf_store.specs.Moving.{KeepsTwo};
ghost use Rattle.leaf_store.specs.Pairs.{AreNeighbours, IsApartBehind, IsFirstFoundPair, IsPairBehind, IsRangeIn, MergesEntries, MergesLeaf};
ghost use Rattle.leaf_store.specs.Table.{IsKept, leaves_of, segments_at};

use graph_model::{Key, NoMemory};
use leaf_index::{LeafIndex, LeafRange};
use leaf_table::below::{Leaf, merge_leaves};
use leaf_table::{counts_of, cuts_of, put_leaf};
use std::alloc::Global;
use std::mem::replace;

/// How many rows two neighbours have together at most that become one leaf: half of those to which windows of a whole
/// leaf are filled, so that a leaf that was merged isn't split by the next few rows.
pub const MERGE_ROWS: usize = 104;

/// The stamps of retired leaves are below this one, so that all of them can be freed.
pub const STAMPS_END: u64 = u64::MAX;

/// Two neighbours by their numbers, and where they begin.
#[derive(Clone, Copy, Debug, PartialEq, Eq)]
pub(crate) struct Pair {
    pub(crate) left: u32,
    pub(crate) right: u32,
    pub(crate) low: Key,
}

/// A leaf with the next one, if there is one and both have few rows.
pub(crate) fn pair_at(
    index: &LeafIndex,
    leaves: &Vec<Option<Box<Leaf>>>,
    range: LeafRange,
) -> Option<Pair>
    requires kept { IsKept index.now leaves.now.items }
    requires range { IsRangeIn index.now.entries range }
    ensures some { IfSome result (IsPairBehind index.now leaves.now.items range) }
    ensures none { result ≡ None → IsApartBehind index.now.entries leaves.now.items range }
{
    if !range.high.is_below(Key::END) {
        return None;
    }
    let next = index.leaf_at(range.high);
    let rows = rows_at(leaves, range.leaf as usize) + rows_at(leaves, next.leaf as usize);
    if rows > MERGE_ROWS {
        return None;
    }
    Some(Pair {
        left: range.leaf,
        right: next.leaf,
        low: range.low,
    })
}

/// How many rows a leaf has.
fn rows_at(leaves: &Vec<Option<Box<Leaf>>>, leaf: usize) -> usize
    requires { IsLeaf (segments_at leaves.now.items leaf) }
    ensures rows { result ≡ length (rows_of (segments_at leaves.now.items leaf)) }
    ensures small { result ≤ 255 * 8 }
{
    match &leaves[leaf] {
        Some(leaf) => total(&counts_of(leaf)),
        None => unreachable!(),
    }
}

/// How many rows all segments have.
pub(crate) fn total(counts: &[u8]) -> usize
    requires { length counts.now ≤ 8 }
    ensures total { result ≡ sum counts.now }
    ensures small { result ≤ 255 * length counts.now }
{
    let mut total = 0;
    for count in counts {
        total += usize::from(*count);
    }
    total
}

/// Brings all rows of two neighbours to the left one, and retires the right one.
fn merge_entries(
    index: &mut LeafIndex,
    alloc: Global,
    left: &mut Leaf,
    right: &mut Leaf,
    number: u32,
    stamp: u64,
) -> Result<(), NoMemory>
    requires live { AreNeighbours index.old.entries left.old.segments right.old.segments number }
    requires few { length (rows_of left.old.segments) + length (rows_of right.old.segments) ≤ 104 }
    ensures ok { OnOk result ((live : AreNeighbours index.old.entries left.old.segments right.old.segments number)
        → MergesEntries stamp number index.old index.new left.old.segments right.old.segments left.new.segments live) }
    ensures sound { OnOk result (AllByRecursion IsSegment left.new.segments) }
    ensures err { OnErr result
        (KeepsTwo index.old index.new left.old.segments left.new.segments right.old.segments right.new.segments) }
    ensures settled { records_of left.old.segments ≡ 0 → records_of right.old.segments ≡ 0 → IsOk result }
{
    let low = left.segments[0].low();
    let cut = right.segments[0].low();
    // The only step that takes memory, so it comes before the index changes.
    merge_leaves(left, right, alloc)?;
    index.drop_leaf(cut);
    index.retire(number, stamp);
    index.set_separators(low, cuts_of(left));
    Ok(())
}

/// Makes one leaf of the first two neighbours with few rows, where no leaf has a sparse window.
pub(crate) fn merge_pair(
    index: &mut LeafIndex,
    leaves: &mut Vec<Option<Box<Leaf>>>,
    alloc: Global,
    pair: Pair,
    stamp: u64,
) -> Result<(), NoMemory>
    requires kept { IsKept index.old leaves.old.items }
    requires pair { IsFirstFoundPair index.old leaves.old.items pair }
    requires stamp { stamp < STAMPS_END }
    ensures kept { IsKept index.new leaves.new.items }
    ensures compacts { Compacts (leaves_of index.old leaves.old.items) (leaves_of index.new leaves.new.items) stamp }
    ensures ok { OnOk result (MergesLeaf pair.left
        (leaves_of index.old leaves.old.items) (leaves_of index.new leaves.new.items) stamp) }
    ensures err { OnErr result (KeepsParts
        (leaves_of index.old leaves.old.items) (leaves_of index.new leaves.new.items)) }
    ensures settled { record_count (leaves_of index.old leaves.old.items) ≡ 0 → IsOk result }
{
    let Some(mut right) = replace(&mut leaves[pair.right as usize], None) else {
        unreachable!()
    };
    let merged = match &mut leaves[pair.left as usize] {
        Some(left) => merge_entries(index, alloc, left, &mut right, pair.right, stamp),
        None => unreachable!(),
    };
    match merged {
        Ok(()) => {
            index.is_index();
            Ok(())
        }
        Err(refused) => {
            // As it was: it is still live, with its rows.
            put_leaf(leaves, pair.right as usize, right);
            Err(refused)
        }
    }
}
