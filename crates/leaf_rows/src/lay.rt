//! Writes into the rows of a store, and back.
//!
//! 1. Room for rows and for records was made before, so a write that has begun is made whole.
//! 2. Writes are taken back with the newest first: each record has what stood there before its own write.

ghost use Rattle.std.specs.Prelude.{◌≡◌, ◌+◌, ◌≤◌, not, count_by, OnOk, OnErr};
ghost use Rattle.std.specs.List.{AllByRecursion};
ghost use Rattle.graph_model.specs.declared.row.Key.{Key};
ghost use Rattle.graph_model.specs.Refused.{IsWithinLimits};
ghost use Rattle.store_model.specs.Layers.{before_write, undone};
ghost use Rattle.undo_chain.specs.declared.touched.Touched.TheVariants.{Never};
ghost use Rattle.leaf_store.specs.Leaves.{contents_of, has_row, weight};
ghost use Rattle.row_writes.specs.Written.{AreRows, rows_after, touched_keys, written_keys};
ghost use Rattle.leaf_rows.specs.Laying.{HasTouchedNone, HaveRoom, HaveRows, Stays};

use crate::held::{FoundInLeaves, LeafFingers};
use crate::rows::LeafRows;
use graph_model::{Kind, NoMemory, TxnName, Write};
use leaf_store::Finger;
use row_writes::WrittenRows;
use undo_chain::Touched;

impl LeafRows {
    /// Puts a write into its rows, for which there is room.
    pub fn lay(
        &mut self,
        by: TxnName,
        found: &FoundInLeaves,
        earlier: Touched,
    ) -> Result<(), NoMemory>
        requires rows { AreRows found.now.rows }
        requires ends { HaveRows self.old (touched_keys found.now.rows) }
        requires never { earlier ≡ Never → HasTouchedNone self.old by }
        requires room { HaveRoom self.old (written_keys found.now.rows) }
        ensures ok { OnOk result ((q : Key) → contents_of self.new q
            ≡ rows_after by found.now.rows q (contents_of self.old q)) }
        ensures weight { OnOk result (weight self.new
            ≤ weight self.old + count_by (λ k. not (has_row self.old k)) (written_keys found.now.rows)) }
        ensures limit { self.new.limit ≡ self.old.limit }
        ensures err { OnErr result (Stays self.old self.new) }
    {
        row_writes::lay(self, by, found, earlier)
    }

    /// Takes the newest write of a transaction back.
    fn undo_write(&mut self, kind: Kind, by: TxnName, write: Write)
        requires { IsWithinLimits write }
        ensures contents { (q : Key) → contents_of self.new q ≡ before_write kind by write q (contents_of self.old q) }
        ensures limit { self.new.limit ≡ self.old.limit }
        ensures weight { weight self.new ≤ weight self.old }
    {
        let found = FoundInLeaves {
            rows: WrittenRows::of(kind, write),
            near: LeafFingers::alike(Finger::nowhere()),
        };
        row_writes::undo(self, by, &found);
    }

    /// Takes back the newest writes that a transaction has made, the last one first. Takes no memory.
    pub fn undo_all(&mut self, kind: Kind, by: TxnName, writes: &[Write])
        requires { AllByRecursion IsWithinLimits writes.now }
        ensures contents { (q : Key) → contents_of self.new q ≡ undone kind by writes.now q (contents_of self.old q) }
        ensures limit { self.new.limit ≡ self.old.limit }
        ensures weight { weight self.new ≤ weight self.old }
    {
        let mut left = writes.len();
        'writes: while left > 0 {
            left -= 1;
            self.undo_write(kind, by, writes[left]);
        }
    }
}
