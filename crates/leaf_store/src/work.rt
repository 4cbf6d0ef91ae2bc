//! What there is to do with leaves that wait.
//!
//! 1. The first leaf of the queue is looked at, and if nothing is to be done with it, the next one. So what is found
//!    is the first in key order.

ghost use Rattle.std.specs.Prelude.{◌≡◌, None, IfSome, map};
ghost use Rattle.leaf_queue.specs.Queue.{IsFirst};
ghost use Rattle.leaf_store.specs.Merging.{IsCompact};
ghost use Rattle.leaf_store.specs.Pairs.{IsApartBehind, IsPairAhead, IsRangeIn};
ghost use Rattle.leaf_store.specs.Table.{IsKept, leaves_of, part_of};
ghost use Rattle.leaf_store.specs.Queued.{IsApartAhead, IsDone, IsNextPair, IsTended, IsWork};

use crate::pair::{Pair, pair_at};
use crate::queue::live_range;
use crate::sparse::{SparseWindow, sparse_at};
use leaf_index::{LeafIndex, LeafRange};
use leaf_queue::{LeafQueue, WaitStage, Waiting};
use leaf_table::below::Leaf;

/// A window that is to be spread, or two leaves that are to become one.
#[derive(Clone, Copy, Debug, PartialEq, Eq)]
pub(crate) enum QueuedWork {
    Spread(SparseWindow),
    Merge(Pair),
}

/// The first that there is to do, if there is anything. All windows come before all pairs.
pub(crate) fn find_work(
    index: &LeafIndex,
    leaves: &Vec<Option<Box<Leaf>>>,
    queue: &mut LeafQueue,
) -> Option<QueuedWork>
    requires { IsTended index.now leaves.now.items queue.old }
    ensures tended { IsTended index.now leaves.now.items queue.new }
    ensures some { IfSome result (IsWork index.now leaves.now.items) }
    ensures none { result ≡ None → IsCompact (leaves_of index.now leaves.now.items) }
{
    'waiting: loop {
        let Some(first) = queue.first() else {
            return None;
        };
        if let Some(work) = work_at(index, leaves, queue, first) {
            return Some(work);
        }
        // Nothing to do at this stage: it waits for the next one, or not any more.
        queue.pass(first);
    }
}

/// What there is to do with the first leaf that waits, if it is live.
fn work_at(
    index: &LeafIndex,
    leaves: &Vec<Option<Box<Leaf>>>,
    queue: &LeafQueue,
    first: Waiting,
) -> Option<QueuedWork>
    requires tended { IsTended index.now leaves.now.items queue.now }
    requires first { IsFirst queue.now first }
    ensures some { IfSome result (IsWork index.now leaves.now.items) }
    ensures none { result ≡ None → IsDone (map (part_of leaves.now.items) index.now.entries) first }
{
    let Some(range) = live_range(index, leaves, first) else {
        return None;
    };
    match first.stage {
        WaitStage::Windows => match sparse_at(leaves, first.leaf) {
            Some(window) => Some(QueuedWork::Spread(SparseWindow {
                leaf: first.leaf,
                window,
            })),
            None => None,
        },
        WaitStage::Neighbours => match next_pair(index, leaves, range) {
            Some(pair) => Some(QueuedWork::Merge(pair)),
            None => None,
        },
    }
}

/// The leaf with the one before, or else with the next, if both have few rows.
fn next_pair(index: &LeafIndex, leaves: &Vec<Option<Box<Leaf>>>, range: LeafRange) -> Option<Pair>
    requires kept { IsKept index.now leaves.now.items }
    requires range { IsRangeIn index.now.entries range }
    ensures some { IfSome result (IsNextPair index.now leaves.now.items range) }
    ensures ahead { result ≡ None → IsApartAhead index.now.entries leaves.now.items range }
    ensures behind { result ≡ None → IsApartBehind index.now.entries leaves.now.items range }
{
    match pair_before(index, leaves, range) {
        Some(pair) => Some(pair),
        None => pair_at(index, leaves, range),
    }
}

/// The leaf before with this one, if there is one and both have few rows.
fn pair_before(index: &LeafIndex, leaves: &Vec<Option<Box<Leaf>>>, range: LeafRange) -> Option<Pair>
    requires kept { IsKept index.now leaves.now.items }
    ensures some { IfSome result (IsPairAhead index.now leaves.now.items range.low) }
    ensures none { result ≡ None → IsApartAhead index.now.entries leaves.now.items range }
{
    let Some(before) = index.leaf_before(range.low) else {
        return None;
    };
    pair_at(index, leaves, before)
}
