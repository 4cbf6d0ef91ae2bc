//! Rows of leaves with few rows are brought together, and retired leaves are freed where leaves are needed.
//!
//! Each key keeps what it has, whatever a call answers.

ghost use Rattle.std.specs.Prelude.{◌≡◌, ◌<◌, ◌≤◌, [], false, true, length, IfErr, IsOk, OnOk};
ghost use Rattle.leaf_index.specs.Calls.{freed_of};
ghost use Rattle.leaf_store.specs.declared.pair.TheConstants.{STAMPS_END};
ghost use Rattle.leaf_store.specs.Changes.{IsRoomRefusal, NeedsRoom};
ghost use Rattle.leaf_store.specs.Leaves.{record_count, room_at};
ghost use Rattle.leaf_store.specs.Merging.{FreesRetired, IsCompact, IsMergeStep};
ghost use Rattle.row_writes.specs.Written.{AreRows, written_keys};
ghost use Rattle.leaf_rows.specs.Laying.{HaveRoom, IsNoPlace, IsSpent, KeepsContents};
ghost use Rattle.leaf_rows.specs.Placing.{MakesRoomOrFrees, PlacesOrFrees};

use crate::held::FoundInLeaves;
use crate::rows::LeafRows;
use graph_model::{Key, NoMemory};
use txn_manager::RoomRefusal;

impl LeafRows {
    /// Spreads the first window in key order that has a segment with too few rows and enough rows in all. Where no leaf
    /// has one it makes one leaf of the first two neighbours with few rows. Answers whether there was either. The stamp
    /// is for the leaf that goes.
    pub fn merge_step(&mut self, stamp: u64) -> Result<bool, NoMemory>
        requires { stamp < STAMPS_END }
        ensures contents { KeepsContents self.old self.new }
        ensures steps { IsMergeStep self.old self.new stamp result }
        ensures settled { record_count self.old ≡ 0 → IsOk result }
    {
        self.store.is_sound();
        let did = self.store.merge_step(stamp);
        self.store.is_sound();
        did
    }

    /// Makes such steps until nothing is left to do, or memory runs out.
    pub fn merge_all(&mut self, stamp: u64)
        requires { stamp < STAMPS_END }
        ensures contents { KeepsContents self.old self.new }
        ensures compact { record_count self.old ≡ 0 → IsCompact self.new }
    {
        'steps: loop {
            self.store.is_sound();
            match self.merge_step(stamp) {
                Ok(true) => {}
                Ok(false) => return,
                // Where memory is refused a store with more leaves than it needs is as right; only its size is a matter
                // of this.
                Err(_) => return,
            }
        }
    }

    /// Frees the retired leaves with a stamp below the given one, and answers how many. All are below `STAMPS_END`.
    pub fn free_retired(&mut self, until: u64) -> u32
        ensures contents { KeepsContents self.old self.new }
        ensures freed { FreesRetired until self.old self.new }
        ensures count { result ≡ length (freed_of until self.old.retired) }
        ensures all { until ≡ STAMPS_END → self.new.retired ≡ [] }
    {
        self.store.free_retired(until)
    }

    /// Makes room for the rows of a write that are missing. Where no leaf is free the retired ones with a stamp below
    /// the given one are freed for it.
    pub fn make_room_or_free(
        &mut self,
        found: &FoundInLeaves,
        until: u64,
    ) -> Result<(), RoomRefusal>
        requires { AreRows found.now.rows }
        ensures contents { KeepsContents self.old self.new }
        ensures ok { OnOk result (HaveRoom self.new (written_keys found.now.rows)) }
        ensures places { PlacesOrFrees until (written_keys found.now.rows) self.old self.new result }
        ensures full { IfErr result (λ refusal. IsNoPlace self.new (written_keys found.now.rows) refusal) }
        ensures spent { IfErr result (λ refusal. IsSpent until self.new refusal) }
    {
        match self.make_room(found) {
            Ok(()) => Ok(()),
            Err(RoomRefusal::NoMemory) => Err(RoomRefusal::NoMemory),
            Err(RoomRefusal::Full { leaves }) => {
                // Only now, since to look for leaves that may be freed is a walk over all that are retired.
                if self.free_retired(until) == 0 {
                    return Err(RoomRefusal::Full { leaves });
                }
                self.make_room(found)
            }
        }
    }

    /// The same for so many rows in a key's cell, which has room for fewer.
    pub fn make_cell_room_or_free(
        &mut self,
        key: Key,
        need: u8,
        until: u64,
    ) -> Result<(), RoomRefusal>
        requires { NeedsRoom self.old key need }
        ensures contents { KeepsContents self.old self.new }
        ensures ok { OnOk result (need ≤ room_at self.new key) }
        ensures made { OnOk result (MakesRoomOrFrees until self.old self.new key need) }
        ensures refused { IfErr result (λ refusal. IsRoomRefusal self.old key need refusal self.new) }
        ensures spent { IfErr result (λ refusal. IsSpent until self.new refusal) }
    {
        match self.make_cell_room(key, need) {
            Ok(()) => Ok(()),
            Err(RoomRefusal::NoMemory) => Err(RoomRefusal::NoMemory),
            Err(RoomRefusal::Full { leaves }) => {
                if self.free_retired(until) == 0 {
                    return Err(RoomRefusal::Full { leaves });
                }
                self.make_cell_room(key, need)
            }
        }
    }
}
