//! Leaves by their numbers, under an index.
//!
//! 1. Four cells are read ahead, so that they wait for memory side by side. Kept is the sum of what was read, in
//!    `ahead` (`leaf_table::ahead` says why that is harmless).
//! 2. A leaf has all keys of its range and no others, so whoever goes by ranges comes to each leaf once.

ghost use Rattle.std.specs.Prelude.{◌≡◌, ◌≤◌, ◌-◌, true, false, length, IfOk};
ghost use Rattle.graph_model.specs.declared.limits.TheConstants.{MAX_LEAVES};
ghost use Rattle.graph_model.specs.declared.row.Key.{Key};
ghost use Rattle.graph_model.specs.Rows.{is_below, is_between, end_key};
ghost use Rattle.leaf_store.specs.Leaves.{AreLeaves, CellsAreApart, HasWholeCells, IsLeafOf, KeysHaveCells, cell_at};
ghost use Rattle.leaf_store.specs.Changes.{AreNew};

use crate::place::place_near;
use crate::queue::queue_thin;
use graph_model::{Key, NoMemory};
use leaf_index::LeafIndex;
use leaf_queue::LeafQueue;
use leaf_table::below::{Leaf, NOWHERE, VersionSegment};
use leaf_table::{
    Finger, Place, count_with_memory, cuts_of, empty_table, fingers_at, put_leaf, sum_ahead,
    sum_leaf_ahead,
};
use std::alloc::Global;
use std::marker::Model;

/// The live leaves of a store. A leaf that was never live has no memory.
#[derive(Drop)]
pub struct LeafStore {
    pub(crate) alloc: Global,
    /// Which leaf has which keys.
    pub(crate) index: LeafIndex,
    /// By their numbers; none of a number that isn't live.
    pub(crate) leaves: Vec<Option<Box<Leaf>>>,
    /// Those that wait to be looked at.
    pub(crate) queue: LeafQueue,
    /// What was read ahead, kept so that no compiler leaves out the reads.
    pub(crate) ahead: u64,
}

impl Model for LeafStore {
    ghost use Rattle.leaf_store.specs.Leaves.{Leaves};
    ghost use Rattle.leaf_store.specs.Table.{leaves_of};
    ghost use Rattle.leaf_store.specs.Queued.{IsTended};

    ghost Value = { Leaves };

    ghost view = { λ s. leaves_of s.index s.leaves.items };

    ghost invariant = { λ s. IsTended s.index s.leaves.items s.queue };
}

impl LeafStore {
    /// No rows, in so many leaves, all of which but the first are free.
    pub fn new(alloc: Global, leaves: u32) -> Result<LeafStore, NoMemory>
        requires some { 1 ≤ leaves }
        requires few { leaves ≤ MAX_LEAVES }
        ensures { IfOk result (λ s. AreNew leaves s) }
    {
        let index = LeafIndex::new(alloc, leaves)?;
        index.is_index();
        // One leaf covers all keys, so each key has a cell before there is a row.
        let first = Leaf::new(alloc, Key { src: 0, second: 0 }, Key::END)?;
        let _cuts = cuts_of(&first);
        let memory = Box::new(alloc, first)?;
        let mut table = empty_table(alloc, leaves)?;
        put_leaf(&mut table, 0, memory);
        let mut queue = LeafQueue::new(alloc, leaves)?;
        queue_thin(&index, &table, &mut queue);
        Ok(LeafStore {
            alloc,
            index,
            leaves: table,
            queue,
            ahead: 0,
        })
    }

    /// What holds of each store.
    pub fn is_sound(&self)
        ensures sound { AreLeaves self.now }
        ensures there { KeysHaveCells self.now }
        ensures apart { CellsAreApart self.now }
        ensures few { length self.now.parts ≤ self.now.limit }
        ensures limit { self.now.limit ≤ MAX_LEAVES }
    {
        self.index.is_index();
    }

    /// How many leaves there are, live or not.
    pub fn limit(&self) -> u32
        ensures { result ≡ self.now.limit }
    {
        self.index.leaves()
    }

    /// How many leaves are neither free nor retired.
    pub fn leaves_in_use(&self) -> u32
        ensures { result ≡ (self.now.limit - length self.now.free) - length self.now.retired }
    {
        self.index.in_use()
    }

    /// Finds a key's cell for the calls to come.
    pub fn find(&self, key: Key) -> Finger {
        Finger {
            cell: self.index.route(key).cell,
            row: NOWHERE,
        }
    }

    /// Finds the cells of four keys side by side, and their rows there. What the calls to come will read of them is
    /// read ahead, which is more where rows come into the cells of the first two.
    pub fn find_four(&mut self, keys: [Key; 4], rows_come: bool) -> [Finger; 4]
        ensures { self.new ≡ self.old }
    {
        let likely = self.index.likely_leaves(keys);
        self.ahead = count_with_memory(&self.leaves, likely);
        let cells = [
            self.index.route_in(keys[0], likely[0]).cell,
            self.index.route_in(keys[1], likely[1]).cell,
            self.index.route_in(keys[2], likely[2]).cell,
            self.index.route_in(keys[3], likely[3]).cell,
        ];
        self.ahead = self.ahead.wrapping_add(sum_ahead(
            &self.leaves,
            keys,
            cells.map(Place::of_cell),
            rows_come,
        ));
        fingers_at(&self.leaves, keys, cells)
    }

    /// Reads ahead the changed rows of the leaf that has the key, as for one. Answers where its first cell is.
    pub fn read_leaf_ahead(&mut self, key: Key) -> Finger
        ensures { self.new ≡ self.old }
    {
        let leaf = self.index.leaf_at(key).leaf;
        self.ahead = sum_leaf_ahead(&self.leaves, leaf as usize);
        Finger::of_leaf(leaf)
    }

    /// The range of the leaf that has the key. No cell is partly in it.
    pub fn leaf_range(&self, key: Key) -> KeyRange
        requires { is_below key end_key ≡ true }
        ensures holds { is_between result.low result.high key ≡ true }
        ensures whole { HasWholeCells self.now result.low result.high }
        ensures leaf { IsLeafOf self.now result.low result.high }
        ensures within { is_below end_key result.high ≡ false }
    {
        let range = self.index.leaf_at(key);
        KeyRange {
            low: range.low,
            high: range.high,
        }
    }

    /// Lends the cell whose fence keys hold the key.
    pub fn segment(&self, key: Key, near: Finger) -> &VersionSegment
        requires { is_below key end_key ≡ true }
        ensures cell { result.now ≡ cell_at self.now key }
        ensures holds { is_between result.now.low result.now.high key ≡ true }
        ensures same { (q : Key) → is_between result.now.low result.now.high q ≡ true
            → cell_at self.now q ≡ result.now }
    {
        let place = place_near(&self.index, key, near.cell);
        match &self.leaves[place.leaf] {
            Some(leaf) => &leaf.segments[place.segment],
            None => unreachable!(),
        }
    }
}

/// What a prune took away, and where the cell or the leaf that was pruned ends.
#[derive(Clone, Copy, Debug, PartialEq, Eq)]
pub struct Pruned {
    pub records: usize,
    pub high: Key,
}

/// The keys from the low one on and below the high one.
#[derive(Clone, Copy, Debug, PartialEq, Eq)]
pub struct KeyRange {
    pub low: Key,
    pub high: Key,
}
