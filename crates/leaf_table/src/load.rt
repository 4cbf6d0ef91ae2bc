//! Memory for all leaves of a load.
//!
//! 1. It is made before the first leaf is put under an index, so that the rows may be let go of by then.
//! 2. Several threads make it of rows in two lists, of which the first is let go of before the leaves of the second are
//!    made: all rows are never in memory beside all leaves.

ghost use Rattle.std.specs.Prelude.{◌≡◌, ◌+◌, ◌*◌, ◌++◌, ◌<◌, ◌≤◌, length, take, drop, IfOk, IfSome};
ghost use Rattle.std.specs.Thread.{IsSync};
ghost use Rattle.graph_model.specs.Rows.{first_key, end_key};
ghost use Rattle.gap_segment.specs.Fenced.{AreSorted, AreWithin};
ghost use Rattle.leaf_table.specs.Settled.{AreLeavesFrom, AreLoadLeaves, IsLeafFrom, IsLeafOf};

use crate::fill::{FULL_LEAF, first_leaf, leaf_from};
use crate::table::{empty_table, put_leaf};
use graph_model::{NoMemory, Row};
use leaf_array::Leaf;
use rayon::current_num_threads;
use std::alloc::Global;
use std::marker::Sync;
use std::thread::{Threads, for_each_mut};

/// Memory for the leaves of a load, with their rows.
#[derive(Drop)]
pub struct LoadLeaves {
    /// The first leaf, which begins with the first key.
    pub first: Box<Leaf>,
    /// Those after it, one behind the other, no more than a store may have. None where there was no memory.
    pub rest: Vec<Option<Box<Leaf>>>,
    /// How many rows the load has.
    pub rows: usize,
}

/// The leaves of these rows, no more than so many after the first.
pub fn leaves_of(alloc: Global, leaves: u32, rows: &[Row]) -> Result<LoadLeaves, NoMemory>
    requires sorted { AreSorted rows.now }
    requires within { AreWithin first_key end_key rows.now }
    ensures { IfOk result (AreLoadLeaves rows.now) }
{
    let first = first_leaf(alloc, rows)?;
    let count = (rows.len() / FULL_LEAF).min(leaves as usize);
    let mut rest = empty_table(alloc, count as u32)?;
    'leaves: for place in 0..rest.len() {
        let at = FULL_LEAF + FULL_LEAF * place;
        if at < rows.len() {
            put_leaf(&mut rest, place, leaf_from(alloc, rows, at)?);
        }
    }
    Ok(LoadLeaves {
        first,
        rest,
        rows: rows.len(),
    })
}

/// The same by several threads, of rows in two lists of which the second goes on where the first ends.
pub fn leaves_of_halves<R: Threads + Sync>(
    rt: &R,
    alloc: Global,
    leaves: u32,
    front: Vec<Row>,
    back: Vec<Row>,
) -> Result<LoadLeaves, NoMemory>
    requires sorted { AreSorted (front.items ++ back.items) }
    requires within { AreWithin first_key end_key (front.items ++ back.items) }
    ensures { IfOk result (AreLoadLeaves (front.items ++ back.items)) }
{
    let rows = front.len() + back.len();
    let head = rows_from(alloc, front.as_slice(), back.as_slice(), 0)?;
    let first = first_leaf(alloc, head.as_slice())?;
    let count = (rows / FULL_LEAF).min(leaves as usize);
    let mut rest = empty_table(alloc, count as u32)?;
    let begun = (front.len() / FULL_LEAF).min(rest.len());
    let behind = (FULL_LEAF + FULL_LEAF * begun).saturating_sub(front.len());
    let (near, far) = rest.as_mut_slice().split_at_mut(begun);
    make_leaves(
        rt,
        alloc,
        front.as_slice(),
        back.as_slice(),
        FULL_LEAF,
        near,
    );
    // From here on the rows of the first list are in leaves.
    drop(front);
    make_leaves(rt, alloc, &[], back.as_slice(), behind, far);
    Ok(LoadLeaves { first, rest, rows })
}

/// Makes memory for leaves, by several threads: the first with the rows from a place on, and the others behind it. None
/// where there was no memory, or no rows. The rows are in two lists.
fn make_leaves<R: Threads + Sync>(
    rt: &R,
    alloc: Global,
    front: &[Row],
    back: &[Row],
    first: usize,
    made: &mut [Option<Box<Leaf>>],
)
    requires sorted { AreSorted (front.now ++ back.now) }
    requires within { AreWithin first_key end_key (front.now ++ back.now) }
    ensures made { AreLeavesFrom (front.now ++ back.now) first made.new }
    ensures count { length made.new ≡ length made.old }
{
    let rows = front.len() + back.len();
    let make = |place: usize, memory: &mut Option<Box<Leaf>>|
        requires sorted { AreSorted (front.now ++ back.now) }
        requires within { AreWithin first_key end_key (front.now ++ back.now) }
        requires rows { rows ≡ length front.now + length back.now }
        ensures { IfSome memory.exit.now (IsLeafFrom (front.entry.now ++ back.entry.now) (first + 208 * place)) }
    {
        let at = first.saturating_add(FULL_LEAF.saturating_mul(place));
        *memory = if at < rows {
            leaf_of_both(alloc, front, back, at).ok()
        } else {
            None
        };
    };
    for_each_mut(rt, made, current_num_threads(rt).max(1), &make);
}

/// Memory for the leaf with the rows from a place on, where these are in two lists.
fn leaf_of_both(
    alloc: Global,
    front: &[Row],
    back: &[Row],
    at: usize,
) -> Result<Box<Leaf>, NoMemory>
    requires sorted { AreSorted (front.now ++ back.now) }
    requires within { AreWithin first_key end_key (front.now ++ back.now) }
    requires more { at < length front.now + length back.now }
    ensures { IfOk result (IsLeafFrom (front.now ++ back.now) at) }
{
    if front.len() <= at {
        return leaf_from(alloc, back, at - front.len());
    }
    // The row behind a leaf tells where the leaf ends.
    if front.len() - at > FULL_LEAF {
        return leaf_from(alloc, front, at);
    }
    let rows = rows_from(alloc, front, back, at)?;
    leaf_from(alloc, rows.as_slice(), 0)
}

/// The rows of the leaf that begins at a place, and the one behind them, where these are in two lists.
fn rows_from(alloc: Global, front: &[Row], back: &[Row], at: usize) -> Result<Vec<Row>, NoMemory>
    requires { at ≤ length front.now }
    ensures { IfOk result (λ rows. rows.items ≡ take 209 (drop at (front.now ++ back.now))) }
{
    let (_, rest) = front.split_at(at);
    let (here, _) = rest.split_at(rest.len().min(FULL_LEAF + 1));
    let (behind, _) = back.split_at(back.len().min(FULL_LEAF + 1 - here.len()));
    let mut rows = Vec::from_slice(alloc, here)?;
    rows.extend_from_slice(behind)?;
    Ok(rows)
}
