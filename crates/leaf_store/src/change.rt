//! Changes of one cell.
//!
//! 1. A call changes the cell of its key alone, and keeps its fence keys.
//! 2. Where the number of rows has changed the leaf waits to be looked at, unless it is thick.

ghost use Rattle.std.specs.Prelude.{◌≡◌, ◌≤◌, true, OnOk};
ghost use Rattle.graph_model.specs.Rows.{is_below, end_key};
ghost use Rattle.undo_chain.specs.States.{Grows};
ghost use Rattle.leaf_table.specs.VersionSegment.Checks.{AreNamedRows};
ghost use Rattle.leaf_table.specs.VersionSegment.Changes.{MayChange, changed, records_for};
ghost use Rattle.leaf_store.specs.Leaves.{cell_at, spare_at, versions_of};
ghost use Rattle.leaf_store.specs.Changes.{ChangesVersions, KeepsCells, KeepsRecordRoom, PrunesCell, UsesRecords};

use crate::place::place_near;
use crate::queue::queue_change;
use crate::store::{LeafStore, Pruned};
use graph_model::{Key, NoMemory, TxnName};
use leaf_table::Finger;
use leaf_table::below::RowChange;
use undo_chain::States;

impl LeafStore {
    /// Makes room in the key's cell for four writes or touches.
    pub fn reserve(&mut self, key: Key, near: Finger) -> Result<(), NoMemory>
        requires { is_below key end_key ≡ true }
        ensures ok { OnOk result (4 ≤ spare_at self.new key) }
        ensures room { KeepsRecordRoom self.old self.new }
        ensures kept { KeepsCells self.old self.new }
    {
        let place = place_near(&self.index, key, near.cell);
        match &mut self.leaves[place.leaf] {
            Some(leaf) => {
                let segment = &mut leaf.segments[place.segment];
                segment.is_segment();
                segment.reserve()
            }
            None => unreachable!(),
        }
    }

    /// Changes the key's row in its cell.
    pub fn change(&mut self, key: Key, near: Finger, by: TxnName, change: RowChange)
        requires within { is_below key end_key ≡ true }
        requires may { MayChange change by key (cell_at self.old key) }
        ensures changed { ChangesVersions self.old self.new key (changed change by (versions_of self.old key)) }
        ensures spare { UsesRecords (records_for change) self.old self.new }
    {
        let place = place_near(&self.index, key, near.cell);
        let (before, rows) = match &mut self.leaves[place.leaf] {
            Some(leaf) => {
                let segment = &mut leaf.segments[place.segment];
                let before = segment.len();
                segment.change(key, near.row, by, change);
                let rows = segment.len();
                (before, rows)
            }
            None => unreachable!(),
        };
        // Only other numbers of rows make a window sparse, or two neighbours one leaf.
        queue_change(&mut self.queue, &self.leaves, place.leaf, before, rows);
    }

    /// Takes away what nobody can see from the horizon on. Where no record is left their memory is given back.
    pub fn prune<S: States>(
        &mut self,
        key: Key,
        near: Finger,
        horizon: u64,
        states: &mut S,
    ) -> Pruned
        requires within { is_below key end_key ≡ true }
        requires known { horizon ≤ (S.knowledge states.old).known }
        requires named { AreNamedRows (S.knowledge states.old).names (cell_at self.old key).rows }
        ensures pruned { PrunesCell (S.knowledge states.old).stamps horizon self.old self.new key result }
        ensures grows { Grows (S.knowledge states.old) (S.knowledge states.new) }
    {
        let alloc = self.alloc;
        let place = place_near(&self.index, key, near.cell);
        let (before, rows, pruned) = match &mut self.leaves[place.leaf] {
            Some(leaf) => {
                let segment = &mut leaf.segments[place.segment];
                let before = segment.len();
                let records = segment.prune(horizon, states);
                // A settled cell needs no room for records until its next write, which takes it before it begins.
                segment.release(alloc);
                let rows = segment.len();
                let high = segment.high();
                (before, rows, Pruned { records, high })
            }
            None => unreachable!(),
        };
        queue_change(&mut self.queue, &self.leaves, place.leaf, before, rows);
        pruned
    }
}
