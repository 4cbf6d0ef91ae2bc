//! What nobody can see any more is taken away, leaf by leaf and cell by cell.
//!
//! 1. It changes the view of no open transaction and takes no memory, so it may be done between any two calls.

ghost use Rattle.std.specs.Prelude.{◌≡◌, ◌<◌, ◌≤◌, ◌^◌, true, length};
ghost use Rattle.graph_model.specs.declared.row.Key.{Key};
ghost use Rattle.graph_model.specs.Graph.{Graph};
ghost use Rattle.graph_model.specs.Rows.{is_below, end_key};
ghost use Rattle.graph_model.specs.Transactions.{stamp_in};
ghost use Rattle.store_model.specs.Versions.{prune};
ghost use Rattle.leaf_store.specs.Leaves.{contents_of, record_count, weight};
ghost use Rattle.leaf_rows.specs.Loaded.{AreSettled};
ghost use Rattle.leaf_rows.specs.Laying.{PrunesKeys, PrunesLeaf, SweepsCell};

use crate::reader::Known;
use crate::rows::LeafRows;
use graph_model::Key;
use leaf_store::{Finger, Pruned};
use txn_manager::TxnManager;

impl LeafRows {
    /// Takes away what nobody can see from the horizon on, in all rows.
    pub fn settle(&mut self, manager: &TxnManager, horizon: u64)
        requires { horizon ≤ length manager.now.journal }
        ensures contents { (q : Key) → contents_of self.new q
            ≡ prune (stamp_in manager.now.journal) horizon (contents_of self.old q) }
        ensures limit { self.new.limit ≡ self.old.limit }
        ensures weight { weight self.new ≤ weight self.old }
    {
        self.store.is_sound();
        let mut key = Key::of_vertex(0);
        'leaves: while key.is_below(Key::end()) {
            let pruned = self.sweep_leaf(key, manager, horizon);
            key = pruned.high;
        }
    }

    /// Rows that have nothing but the values of a graph have no records.
    pub fn settled_rows_have_no_records(&self)
        ensures { (g : Graph) → AreSettled self.now g → record_count self.now ≡ 0 }
    {
        self.store.is_sound();
    }

    /// Takes it away in the rows of the leaf that has the key. Answers how many records went, up to the last number,
    /// and where the leaf ends.
    pub fn sweep_leaf(&mut self, key: Key, manager: &TxnManager, horizon: u64) -> Pruned
        requires within { is_below key end_key ≡ true }
        requires known { horizon ≤ length manager.now.journal }
        ensures prunes { PrunesLeaf (stamp_in manager.now.journal) horizon self.old self.new key result }
        ensures fits { result.high.second < 2 ^ 64 }
        ensures limit { self.new.limit ≡ self.old.limit }
        ensures weight { weight self.new ≤ weight self.old }
    {
        let near = self.read_leaf_ahead(key);
        self.sweep_cells(key, near, manager, horizon)
    }

    /// Reads ahead what a sweep of the leaf that has the key will read, and answers where its first cell is. Nothing
    /// that contracts see changes.
    fn read_leaf_ahead(&mut self, key: Key) -> Finger
        ensures { self.new ≡ self.old }
    {
        self.store.read_leaf_ahead(key)
    }

    /// The sweep itself, of one cell after the other.
    fn sweep_cells(&mut self, key: Key, first: Finger, manager: &TxnManager, horizon: u64) -> Pruned
        requires within { is_below key end_key ≡ true }
        requires known { horizon ≤ length manager.now.journal }
        ensures prunes { PrunesLeaf (stamp_in manager.now.journal) horizon self.old self.new key result }
        ensures fits { result.high.second < 2 ^ 64 }
        ensures limit { self.new.limit ≡ self.old.limit }
        ensures weight { weight self.new ≤ weight self.old }
    {
        let range = self.store.leaf_range(key);
        let mut records: usize = 0;
        let mut next = range.low;
        let mut near = first;
        'cells: while next.is_below(range.high) {
            // It answers where the cell ends, by which the next one is found: a number may be another cell's by then,
            // so it says no more than where to look first.
            let pruned = self.sweep(next, near, manager, horizon);
            records = records.saturating_add(pruned.records);
            next = pruned.high;
            near = near.next_cell();
        }
        Pruned {
            records,
            high: range.high,
        }
    }

    /// Takes it away in the rows of a key's cell, and answers how many records went, and where the cell ends.
    fn sweep(&mut self, key: Key, near: Finger, manager: &TxnManager, horizon: u64) -> Pruned
        requires within { is_below key end_key ≡ true }
        requires known { horizon ≤ length manager.now.journal }
        ensures prunes { PrunesKeys (stamp_in manager.now.journal) horizon self.old self.new key }
        ensures cell { SweepsCell self.old self.new key result }
        ensures fits { result.high.second < 2 ^ 64 }
    {
        self.store.is_sound();
        let pruned = self.store.prune(key, near, horizon, &mut Known { manager });
        self.store.is_sound();
        pruned
    }
}
