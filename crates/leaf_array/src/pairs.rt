//! Rows that move between two leaves.
//!
//! 1. Segments change places with others, so their rows and records stay where they are in memory.
//! 2. Between two such exchanges each leaf's rows are divided within it.

ghost use Rattle.std.specs.Prelude.{◌≡◌, ◌+◌, ◌-◌, ◌*◌, ◌/◌, ◌≤◌, ◌++◌, [], length, sum, OnOk, OnErr, IfOk, IsOk};
ghost use Rattle.std.specs.List.{AllByRecursion};
ghost use Rattle.density_tree.specs.Division.{evenly};
ghost use Rattle.graph_model.specs.declared.row.Key.{Key};
ghost use Rattle.leaf_array.specs.Leaves.{IsLeaf, IsPacked, Splits, GivesHalf, Merges, TakesAll, IsPlaced, KeepRoom};
ghost use Rattle.leaf_array.specs.Segments.{rows_of, records_of, counts_of, low_or, high_or, AreChained, AreSame, HaveRoom, UseRoom, KeepsRows, IsDivided};

use crate::counting::{records_in, reserve, rows_in};
use crate::leaf::Leaf;
use crate::neighbours::divide;
use crate::window::divide_evenly;
use density_tree::spread_counts;
use graph_model::{Key, NoMemory};
use std::alloc::Global;
use version_segment::VersionSegment;

/// Moves the second half of a full leaf's rows to a leaf without rows, and answers the least key that this one
/// may have now. Where the number is odd the first half has one row more.
pub fn split_leaf(left: &mut Leaf, right: &mut Leaf, alloc: Global) -> Result<Key, NoMemory>
    requires left { IsLeaf left.old.segments }
    requires right { IsLeaf right.old.segments }
    requires many { 207 ≤ length (rows_of left.old.segments) }
    requires empty { rows_of right.old.segments ≡ [] }
    ensures ok { IfOk result (λ key. Splits left.old.segments left.new.segments right.new.segments key) }
    ensures left { OnErr result (AreSame left.old.segments left.new.segments) }
    ensures right { OnErr result (AreSame right.old.segments right.new.segments) }
    ensures settled { records_of left.old.segments ≡ 0 → IsOk result }
{
    // All memory that rows with records may need on their way comes first, so that a split is whole or not begun.
    reserve_both(&mut left.segments, &mut right.segments)?;
    let rows = rows_in(&left.segments);
    let given = rows / 2;
    // Four segments for each half, which then change places as they are.
    divide(&mut left.segments, &halves(rows - given, given));
    let key = give_half(&mut left.segments, &mut right.segments);
    // Each half over eight segments, so that both leaves have room everywhere.
    divide_evenly(&mut left.segments, alloc);
    divide_evenly(&mut right.segments, alloc);
    Ok(key)
}

/// Moves all rows of the right one of two neighbours to the left one, which has the whole range then.
pub fn merge_leaves(left: &mut Leaf, right: &mut Leaf, alloc: Global) -> Result<(), NoMemory>
    requires left { IsLeaf left.old.segments }
    requires right { IsLeaf right.old.segments }
    requires neighbours { (other : Key) → high_or left.old.segments other ≡ low_or right.old.segments other }
    requires few { length (rows_of left.old.segments) + length (rows_of right.old.segments) ≤ 104 }
    ensures ok { OnOk result (Merges left.old.segments right.old.segments left.new.segments right.new.segments) }
    ensures left { OnErr result (AreSame left.old.segments left.new.segments) }
    ensures right { OnErr result (AreSame right.old.segments right.new.segments) }
    ensures settled { records_of left.old.segments ≡ 0 → records_of right.old.segments ≡ 0 → IsOk result }
{
    reserve_both(&mut left.segments, &mut right.segments)?;
    pack(&mut left.segments);
    pack(&mut right.segments);
    take_all(&mut left.segments, &mut right.segments);
    divide_evenly(&mut left.segments, alloc);
    Ok(())
}

/// Makes room in each segment for all records of two leaves, as often as their rows are divided.
fn reserve_both(left: &mut [VersionSegment], right: &mut [VersionSegment]) -> Result<(), NoMemory>
    ensures left_room { OnOk result (HaveRoom (16 * (records_of left.old + records_of right.old)) left.new) }
    ensures right_room { OnOk result (HaveRoom (16 * (records_of left.old + records_of right.old)) right.new) }
    ensures left { AreSame left.old left.new }
    ensures right { AreSame right.old right.new }
    ensures settled { records_of left.old ≡ 0 → records_of right.old ≡ 0 → IsOk result }
{
    let left_records = records_in(left).ok_or(NoMemory)?;
    let right_records = records_in(right).ok_or(NoMemory)?;
    let records = left_records.checked_add(right_records).ok_or(NoMemory)?;
    let room = records.checked_mul(16).ok_or(NoMemory)?;
    reserve(left, room)?;
    reserve(right, room)
}

/// So many rows, divided evenly among four segments, and so many among the next four.
fn halves(front: usize, back: usize) -> [u32; 8]
    requires front { front ≤ 128 }
    requires back { back ≤ 128 }
    ensures { result ≡ evenly front 4 ++ evenly back 4 }
{
    let mut counts = [0; 8];
    let (first, second) = counts.split_at_mut(4);
    first.copy_from_slice(spread_counts(front as u32, 4).as_slice());
    second.copy_from_slice(spread_counts(back as u32, 4).as_slice());
    counts
}

/// Exchanges the last four segments of the left leaf with the first four of the right one, which has no rows. Both
/// leaves have other fence keys then.
fn give_half(left: &mut [VersionSegment], right: &mut [VersionSegment]) -> Key
    requires left { IsLeaf left.old }
    requires right { IsLeaf right.old }
    requires empty { rows_of right.old ≡ [] }
    ensures gives { GivesHalf left.old left.new right.new result }
    ensures room { KeepRoom left.old right.old left.new right.new }
{
    let (_, moved) = left.split_at_mut(4);
    let (front, free) = right.split_at_mut(4);
    moved.swap_with_slice(front);
    let low = front[0].low();
    let high = front[3].high();
    place_all(moved, low);
    place_all(free, high);
    low
}

/// Brings all rows of a leaf to its first four segments.
fn pack(segments: &mut [VersionSegment])
    requires leaf { IsLeaf segments.old }
    requires few { length (rows_of segments.old) ≤ 128 }
    requires spare { HaveRoom (length segments.old * records_of segments.old) segments.old }
    ensures keeps { KeepsRows segments.old segments.new }
    ensures packed { IsPacked segments.new }
    ensures used { UseRoom (length segments.old * records_of segments.old) segments.old segments.new }
{
    let rows = rows_in(segments);
    divide(segments, &halves(rows, 0));
}

/// Exchanges the last four segments of the left one of two packed neighbours with the first four of the right one,
/// and puts all segments that have no rows at the end.
fn take_all(left: &mut [VersionSegment], right: &mut [VersionSegment])
    requires left { IsPacked left.old }
    requires right { IsPacked right.old }
    requires neighbours { (other : Key) → high_or left.old other ≡ low_or right.old other }
    ensures takes { TakesAll left.old right.old left.new right.new }
    ensures room { KeepRoom left.old right.old left.new right.new }
{
    let (_, free) = left.split_at_mut(4);
    let (moved, rest) = right.split_at_mut(4);
    let high = rest[3].high();
    free.swap_with_slice(moved);
    place_all(moved, high);
    place_all(rest, high);
}

/// Sets all fence keys of segments without rows.
fn place_all(segments: &mut [VersionSegment], at: Key)
    requires { rows_of segments.old ≡ [] }
    ensures { IsPlaced at segments.old segments.new }
{
    let Some((first, rest)) = segments.split_first_mut() else {
        return;
    };
    first.place_at(at);
    place_all(rest, at);
}
