//! A row that is looked for once, for all that is asked of it.
//!
//! 1. What a key without a row has is nothing.
//! 2. The view lends the records of the table, so nothing changes while somebody asks.

ghost use Rattle.std.specs.Prelude.{◌≡◌, ◌≤◌};
ghost use Rattle.std.specs.FinMap.Entries.{find};
ghost use Rattle.graph_model.specs.Rows.{key_cmp};
ghost use Rattle.store_model.specs.Stamped.{read_stamped};
ghost use Rattle.head_map.specs.UndoChain.States.{Grows};
ghost use Rattle.row_table.specs.Checks.{IsNamed, IsChecked, newest_of, newest_and_touches, drops_of};
ghost use Rattle.row_table.specs.Parts.{versioned, AreParts};
ghost use Rattle.row_table.specs.Rows.{or_nothing};

use crate::checks::{combined, drop_cause, newest_cause, touch_cause};
use crate::found::{FoundRow, find_row};
use crate::rows::RowTable;
use graph_model::{Cause, Key};
use head_map::below::{Chains, Snapshot, States};
use std::marker::Model;

/// The place at which no row stands, for whoever has not looked for a key yet.
pub const NOWHERE: usize = 18446744073709551615;

/// What a key has in a table.
#[derive(Drop)]
pub struct RowView<'a> {
    /// The records of all rows.
    chains: &'a Chains,
    /// None where the key has no row.
    row: Option<FoundRow>,
}

impl<'a> Model for RowView<'a> {
    ghost use Rattle.std.specs.Prelude.{Option, IfSome};
    ghost use Rattle.std.specs.Option.{option_map};
    ghost use Rattle.store_model.specs.Stamped.{StampedVersions};
    ghost use Rattle.head_map.specs.UndoChain.Chains.{list_at, IsHeadOf};
    ghost use Rattle.row_table.specs.Parts.{of_lists};

    ghost Value = { Option StampedVersions };

    ghost view = { λ r. option_map
        (λ f. of_lists f.value (list_at r.chains.now f.undos) (list_at r.chains.now f.touches)) r.row };

    ghost invariant = { λ r. IfSome r.row (λ f. IsHeadOf r.chains.now f.undos × IsHeadOf r.chains.now f.touches) };
}

/// Looks the key's row up, first at the place where it was found before. Any place is allowed.
pub fn look_up<'a>(rows: &RowTable, chains: &'a Chains, key: Key, near: usize) -> RowView<'a>
    requires { AreParts rows.now.fenced rows.now.heads.entries chains.now }
    ensures { result ≡ find key_cmp key (versioned chains.now rows.now.heads.entries rows.now.fenced.rows) }
{
    // All that is asked of a row afterwards goes from here, with no second search.
    match find_row(rows, key, near) {
        Ok(row) => RowView {
            chains,
            row: Some(row),
        },
        Err(_) => RowView { chains, row: None },
    }
}

impl RowView<'_> {
    /// The value for a snapshot.
    pub fn value<S: States>(&self, snapshot: &Snapshot, states: &mut S) -> Option<u64>
        requires known { snapshot.now.start ≤ (S.knowledge states.old).known }
        requires named { IsNamed (S.knowledge states.old).names (or_nothing self.now) }
        ensures value { result ≡ read_stamped (S.knowledge states.old).stamps snapshot.now.start snapshot.now.own
            (or_nothing self.now) }
        ensures grows { Grows (S.knowledge states.old) (S.knowledge states.new) }
    {
        match self.row {
            Some(row) => self.chains.value_at(row.undos, row.value, snapshot, states),
            None => None,
        }
    }

    /// Who stands against a write of the row's value: the newest writer, or nobody.
    pub fn cause<S: States>(&self, snapshot: &Snapshot, states: &mut S) -> Option<Cause>
        requires { IsNamed (S.knowledge states.old).names (or_nothing self.now) }
        ensures checked { IsChecked (S.knowledge states.old) (S.knowledge states.new) snapshot.now
            (newest_of (or_nothing self.now)) result }
        ensures grows { Grows (S.knowledge states.old) (S.knowledge states.new) }
    {
        match self.row {
            Some(row) => newest_cause(self.chains, row.undos, snapshot, states),
            None => None,
        }
    }

    /// Who stands against the removal of the row's vertex: the newest writer, and those who have added an edge there.
    pub fn removal_cause<S: States>(&self, snapshot: &Snapshot, states: &mut S) -> Option<Cause>
        requires { IsNamed (S.knowledge states.old).names (or_nothing self.now) }
        ensures checked { IsChecked (S.knowledge states.old) (S.knowledge states.new) snapshot.now
            (newest_and_touches (or_nothing self.now)) result }
        ensures grows { Grows (S.knowledge states.old) (S.knowledge states.new) }
    {
        match self.row {
            Some(row) => {
                let newest = newest_cause(self.chains, row.undos, snapshot, states);
                // Touches too: an edge that was added at the vertex stands against its removal.
                let touches = touch_cause(self.chains, row.touches, snapshot, states);
                combined(newest, touches)
            }
            None => None,
        }
    }

    /// Who stands against an edge at the row's vertex: those who have removed it.
    pub fn drop_cause<S: States>(&self, snapshot: &Snapshot, states: &mut S) -> Option<Cause>
        requires { IsNamed (S.knowledge states.old).names (or_nothing self.now) }
        ensures checked { IsChecked (S.knowledge states.old) (S.knowledge states.new) snapshot.now
            (drops_of (or_nothing self.now)) result }
        ensures grows { Grows (S.knowledge states.old) (S.knowledge states.new) }
    {
        match self.row {
            Some(row) => drop_cause(self.chains, row.undos, row.value, snapshot, states),
            None => None,
        }
    }
}
