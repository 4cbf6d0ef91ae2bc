//! How many records and retired leaves there are.
//!
//! 1. Leaves are counted by their keys, so one that is free or retired counts nothing.

ghost use Rattle.std.specs.Prelude.{◌≡◌, ◌-◌, ◌^◌, length, min};
ghost use Rattle.leaf_table.specs.LeafArray.Leaves.{IsLeaf};
ghost use Rattle.leaf_table.specs.LeafArray.Segments.{records_of};
ghost use Rattle.leaf_store.specs.Leaves.{record_count};
ghost use Rattle.leaf_store.specs.Table.{IsKept, leaves_of, segments_at};

use crate::store::LeafStore;
use graph_model::Key;
use leaf_index::LeafIndex;
use leaf_table::below::Leaf;

impl LeafStore {
    /// How many records stand in all rows, up to the last number.
    pub fn record_count(&self) -> u64
        ensures { result ≡ min (record_count self.now) (2 ^ 64 - 1) }
    {
        count_records(&self.index, &self.leaves) as u64
    }

    /// How many leaves are retired.
    pub fn retired_count(&self) -> u32
        ensures { result ≡ length self.now.retired }
    {
        self.index.retired()
    }
}

/// How many records the rows of all live leaves have, up to the last number.
fn count_records(index: &LeafIndex, leaves: &Vec<Option<Box<Leaf>>>) -> usize
    requires { IsKept index.now leaves.now.items }
    ensures { result ≡ min (record_count (leaves_of index.now leaves.now.items)) (2 ^ 64 - 1) }
{
    let mut records: usize = 0;
    let mut key = Key { src: 0, second: 0 };
    'leaves: while key.is_below(Key::END) {
        let range = index.leaf_at(key);
        records = records.saturating_add(records_at(leaves, range.leaf as usize));
        key = range.high;
    }
    records
}

/// How many the rows of a leaf have.
fn records_at(leaves: &Vec<Option<Box<Leaf>>>, leaf: usize) -> usize
    requires { IsLeaf (segments_at leaves.now.items leaf) }
    ensures { result ≡ min (records_of (segments_at leaves.now.items leaf)) (2 ^ 64 - 1) }
{
    match &leaves[leaf] {
        Some(leaf) => leaf.records(),
        None => unreachable!(),
    }
}
