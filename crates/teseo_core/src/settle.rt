//! The end of a run: rows without records, and the journal.
//!
//! 1. No transaction is open, so nobody reads what came before the newest graph.

ghost use Rattle.std.specs.Prelude.{◌≡◌, ◌-◌, ◌^◌, ◌↔◌, [], length, min, true};
ghost use Rattle.leaf_rows.specs.LeafStore.Leaves.{record_count};
ghost use Rattle.teseo_core.specs.Keeping.{IsSettled, KeepsService, NoneOpen};

use crate::pass::OwnerPass;
use crate::store::Core;
use graph_model::{Journal, Kind};
use leaf_rows::{LeafRows, STAMPS_END};
use std::marker::Model;
use txn_manager::Totals;

/// The journal that an engine leaves behind, with what each of its passes did, and whether its store was settled.
/// Nothing but an engine makes one.
#[derive(Drop)]
pub struct CoreJournal {
    /// All commits.
    journal: Journal,
    /// Whether an edge is one arc or two.
    kind: Kind,
    /// How many leaves the store had.
    leaves: u32,
    /// By number.
    passes: Vec<OwnerPass>,
    /// The one that calls spoke of last.
    selected: u32,
    /// How many turns of the service there were.
    served: u64,
    /// Whether no record and no retired leaf was left.
    settled: bool,
}

impl Model for CoreJournal {
    ghost use Rattle.teseo_core.specs.Keeping.{LeftStore, states_of};

    ghost Value = { LeftStore };

    ghost view = { λ c. record {
      core = record {
        kind = c.kind;
        leaves = c.leaves;
        journal = c.journal;
        passes = states_of c.passes.items;
        selected = c.selected;
        served = c.served;
      };
      settled = c.settled;
    } };
}

impl CoreJournal {
    /// Lends the journal.
    pub fn journal(&self) -> &Journal
        ensures { result.now ≡ self.now.core.journal }
    {
        &self.journal
    }
}

impl Core {
    /// Takes all records away that nobody can see any more: all of them, since no transaction is open. Then brings rows
    /// together wherever neighbours have few, and frees all retired leaves. Takes no memory, since rows without records
    /// need none to move.
    pub fn settle(&mut self)
        requires { NoneOpen self.old.core }
        ensures core { self.new.core ≡ self.old.core }
        ensures service { KeepsService self.old self.new }
        ensures settled { IsSettled self.new }
    {
        let stamp = self.retire_stamp();
        self.rows.settle(&self.manager, self.manager.clock());
        self.rows.settled_rows_have_no_records();
        self.rows.merge_all(stamp);
        self.rows.free_retired(STAMPS_END);
        self.rows.settled_rows_have_no_records();
    }

    /// The journal, with what each pass did, and whether no record and no retired leaf was left, as the counts of its
    /// rows tell. The rows come with it: to let go of them takes a while, and the caller has better things to do. Takes
    /// no memory.
    pub fn into_journal(self, totals: &Totals) -> (CoreJournal, LeafRows)
        requires undo { totals.now.undo ≡ min (record_count self.rows) (2 ^ 64 - 1) }
        requires retired { totals.now.retired ≡ length self.rows.retired }
        ensures core { result.0.core ≡ self.core }
        ensures settled { result.0.settled ≡ true → (record_count self.rows ≡ 0) × (self.rows.retired ≡ []) }
        ensures unsettled { record_count self.rows ≡ 0 → self.rows.retired ≡ [] → result.0.settled ≡ true }
    {
        let ran = CoreJournal {
            settled: are_settled(totals),
            journal: self.manager.into_journal(),
            kind: self.kind,
            leaves: self.leaves,
            passes: self.passes,
            selected: self.selected,
            served: self.served,
        };
        (ran, self.rows)
    }
}

/// Whether no record and no retired leaf is counted.
fn are_settled(totals: &Totals) -> bool
    ensures { (result ≡ true) ↔ ((totals.now.undo ≡ 0) × (totals.now.retired ≡ 0)) }
{
    totals.undo == 0 && totals.retired == 0
}
