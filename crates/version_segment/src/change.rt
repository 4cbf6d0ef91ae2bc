//! The changes that a transaction makes of a row, as one value.
//!
//! 1. Whoever holds cells lends them through one function for all changes, so each kind of cell implements one.

ghost use Rattle.std.specs.Prelude.{◌≤◌, ◌+◌};
ghost use Rattle.row_table.specs.Rows.{versions_at, ChangesKey};
ghost use Rattle.version_segment.specs.Changes.{MayChange, changed, records_for};

use crate::segment::VersionSegment;
use graph_model::{Key, TxnName};
use row_table::below::Touched;

/// What a transaction does to a row.
#[derive(Clone, Copy, Debug, PartialEq, Eq)]
pub enum RowChange {
    /// Gives it a value, or takes the one that is there away.
    Write { value: Option<u64> },
    /// Takes the newest write of it back, if there is one.
    Undo,
    /// Notes that an edge is added at its vertex.
    Touch { earlier: Touched },
    /// Takes the transaction's touch away, if there is one.
    Untouch,
}

impl VersionSegment {
    /// Changes a row, which is looked for near a place first. A wrong place costs time alone. Takes no memory.
    pub fn change(&mut self, key: Key, near: usize, by: TxnName, change: RowChange)
        requires { MayChange change by key self.old }
        ensures changed { ChangesKey self.old self.new key (changed change by (versions_at self.old key)) }
        ensures spare { self.old.spare ≤ self.new.spare + records_for change }
    {
        match change {
            RowChange::Write { value } => self.write_near(key, near, value, by),
            RowChange::Undo => self.undo_newest(key),
            RowChange::Touch { earlier } => self.touch_near(key, near, by, earlier),
            RowChange::Untouch => self.untouch_row(key, by),
        }
    }
}
