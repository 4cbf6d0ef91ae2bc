//! Notes that a pass cuts off, of values that it puts back.
//!
//! 1. A note is what the pass knows of the value. It goes with it, and the pass knows no more of it then.

ghost use Rattle.std.specs.Prelude.{◌≡◌, false, None};
ghost use Rattle.loaded_cells.specs.CellsModel.Cells.{CellState};
ghost use Rattle.loaded_cells.specs.RuleModel.Sight.{HasCell, HasIndex, HasJournal, IndexState};
ghost use Rattle.loaded_cells.specs.StoreRelation.Shared.{JournalState};
ghost use Rattle.store_rule.specs.Passes.{OnlyAccount};
ghost use Rattle.store_rule.specs.Slots.{IsCellSlot, IsIndexSlot, IsJournalSlot, IsListOf, RestsAs};
ghost use Rattle.store_words.specs.Notes.{without_cell, without_index, without_journal};

use crate::slot::StoreSlot;
use crate::store::{Pass, Store};
use graph_model::RoomyJournal;
use latch_table::Held;
use leaf_index::LeafIndex;
use loaded_cells::below::Resting;

impl Store {
    /// Lays a new note for a packed cell. It may be put back then.
    pub fn lay_cell(&self, pass: &mut Pass, held: Held<Resting>) -> Held<StoreSlot>
        requires table { pass.old.account.table_id ≡ self.now.accounts.table.shared.table_id }
        requires packed { (c : CellState) × HasCell pass.old.account.me.0 held.cell c × (c.unpacked ≡ false)
            × RestsAs c.segment held.value }
        ensures held { (result.cell ≡ held.cell) × (result.found ≡ held.found)
            × (result.changed ≡ held.changed) }
        ensures left { OnlyAccount pass.old pass.new (without_cell held.cell pass.old.account.me.0) }
        ensures slot { IsCellSlot self.now.accounts.table.shared.table_id held.cell result.value }
    {
        let Held {
            cell,
            found,
            changed,
            value,
        } = held;
        let note = self.accounts.note_cell(&mut pass.account, cell);
        Held {
            cell,
            found,
            changed,
            value: StoreSlot::Cell {
                resting: value,
                note,
            },
        }
    }

    /// Lays a new note for the index, under which nobody sweeps.
    pub fn lay_index(&self, pass: &mut Pass, held: Held<Box<LeafIndex>>) -> Held<StoreSlot>
        requires table { pass.old.account.table_id ≡ self.now.accounts.table.shared.table_id }
        requires kept { (y : IndexState) × HasIndex pass.old.account.me.0 y × (y.sweeper ≡ None)
            × (held.value.value ≡ y.index) }
        ensures held { (result.cell ≡ held.cell) × (result.found ≡ held.found)
            × (result.changed ≡ held.changed) }
        ensures left { OnlyAccount pass.old pass.new (without_index pass.old.account.me.0) }
        ensures slot { IsIndexSlot self.now.accounts.table.shared.table_id result.value }
    {
        let Held {
            cell,
            found,
            changed,
            value,
        } = held;
        let note = self.accounts.note_index(&mut pass.account);
        Held {
            cell,
            found,
            changed,
            value: StoreSlot::Index { index: value, note },
        }
    }

    /// Lays a new note for the journal, all of whose commits are published.
    pub fn lay_journal(&self, pass: &mut Pass, held: Held<Box<RoomyJournal>>) -> Held<StoreSlot>
        requires table { pass.old.account.table_id ≡ self.now.accounts.table.shared.table_id }
        requires kept { (j : JournalState) × HasJournal pass.old.account.me.0 j × IsListOf j held.value.value }
        ensures held { (result.cell ≡ held.cell) × (result.found ≡ held.found)
            × (result.changed ≡ held.changed) }
        ensures left { OnlyAccount pass.old pass.new (without_journal pass.old.account.me.0) }
        ensures slot { IsJournalSlot self.now.accounts.table.shared.table_id result.value }
    {
        let Held {
            cell,
            found,
            changed,
            value,
        } = held;
        let note = self.accounts.note_journal(&mut pass.account);
        Held {
            cell,
            found,
            changed,
            value: StoreSlot::Journal {
                journal: value,
                note,
            },
        }
    }
}
