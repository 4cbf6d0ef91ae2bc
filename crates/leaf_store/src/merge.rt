//! Rows of leaves with few rows are brought together, and retired leaves are freed.
//!
//! 1. The first sparse window in key order is spread: one with a segment that has too few rows, and enough rows in all.
//!    Only where no leaf has one the first two neighbours with few rows become one leaf.

ghost use Rattle.std.specs.Prelude.{◌≡◌, ◌<◌, [], length, IsOk, OnErr, OnOk};
ghost use Rattle.leaf_index.specs.Calls.{freed_of};
ghost use Rattle.leaf_store.specs.Leaves.{record_count};
ghost use Rattle.leaf_store.specs.Merging.{Compacts, FreesRetired, IsMergeStep, KeepsParts, MergesTwo};
ghost use Rattle.leaf_store.specs.Pairs.{IsFirstFoundPair};
ghost use Rattle.leaf_store.specs.Queued.{IsTended};
ghost use Rattle.leaf_store.specs.Table.{leaves_of};

use crate::pair::{Pair, STAMPS_END, merge_pair};
use crate::queue::enqueue;
use crate::room::spread_queued;
use crate::store::LeafStore;
use crate::work::{QueuedWork, find_work};
use graph_model::NoMemory;
use leaf_index::LeafIndex;
use leaf_queue::LeafQueue;
use leaf_table::below::Leaf;
use std::alloc::Global;

impl LeafStore {
    /// Spreads a window or makes one leaf of two, and answers whether there was either. The stamp is for the leaf that
    /// goes. Only leaves that wait are looked at: those whose number of rows may have changed since they were passed.
    pub fn merge_step(&mut self, stamp: u64) -> Result<bool, NoMemory>
        requires { stamp < STAMPS_END }
        ensures compacts { Compacts self.old self.new stamp }
        ensures steps { IsMergeStep self.old self.new stamp result }
        ensures settled { record_count self.old ≡ 0 → IsOk result }
    {
        match find_work(&self.index, &self.leaves, &mut self.queue) {
            Some(QueuedWork::Spread(found)) => {
                let (leaf, window) = (found.leaf, found.window);
                spread_queued(
                    &mut self.index,
                    &mut self.leaves,
                    &mut self.queue,
                    self.alloc,
                    leaf,
                    window,
                )?;
                Ok(true)
            }
            Some(QueuedWork::Merge(pair)) => {
                merge_queued(
                    &mut self.index,
                    &mut self.leaves,
                    &mut self.queue,
                    self.alloc,
                    pair,
                    stamp,
                )?;
                Ok(true)
            }
            None => Ok(false),
        }
    }

    /// Frees the retired leaves with a stamp below the given one, and answers how many. All are below `STAMPS_END`.
    pub fn free_retired(&mut self, until: u64) -> u32
        ensures freed { FreesRetired until self.old self.new }
        ensures count { result ≡ length (freed_of until self.old.retired) }
        ensures all { until ≡ STAMPS_END → self.new.retired ≡ [] }
    {
        let freed = self.index.free_retired(until, usize::MAX);
        self.index.is_index();
        freed
    }
}

/// Makes one leaf of two neighbours, which waits to be looked at then.
fn merge_queued(
    index: &mut LeafIndex,
    leaves: &mut Vec<Option<Box<Leaf>>>,
    queue: &mut LeafQueue,
    alloc: Global,
    pair: Pair,
    stamp: u64,
) -> Result<(), NoMemory>
    requires tended { IsTended index.old leaves.old.items queue.old }
    requires pair { IsFirstFoundPair index.old leaves.old.items pair }
    requires stamp { stamp < STAMPS_END }
    ensures tended { IsTended index.new leaves.new.items queue.new }
    ensures compacts { Compacts (leaves_of index.old leaves.old.items) (leaves_of index.new leaves.new.items) stamp }
    ensures ok { OnOk result (MergesTwo
        (leaves_of index.old leaves.old.items) (leaves_of index.new leaves.new.items) stamp) }
    ensures err { OnErr result (KeepsParts
        (leaves_of index.old leaves.old.items) (leaves_of index.new leaves.new.items)) }
    ensures settled { record_count (leaves_of index.old leaves.old.items) ≡ 0 → IsOk result }
{
    merge_pair(index, leaves, alloc, pair, stamp)?;
    enqueue(queue, leaves, pair.left as usize);
    Ok(())
}
