//! Values that a pass has taken, and whose notes it takes in.
//!
//! 1. The note came with the value: so a pass knows its contents without having asked whoever had it before.

ghost use Rattle.std.specs.Prelude.{◌≡◌, ℕ, false, None};
ghost use Rattle.loaded_cells.specs.CellsModel.Cells.{CellState};
ghost use Rattle.loaded_cells.specs.RuleModel.Sight.{IndexState, with_cell, with_index, with_journal};
ghost use Rattle.loaded_cells.specs.StoreRelation.Shared.{JournalState};
ghost use Rattle.store_rule.specs.Passes.{OnlyAccount};
ghost use Rattle.store_rule.specs.Slots.{IsCellSlot, IsIndexSlot, IsJournalSlot, IsListOf, RestsAs};
ghost use Rattle.store_words.specs.Steps.{Knows};

use crate::slot::StoreSlot;
use crate::store::{Pass, Store};
use graph_model::RoomyJournal;
use latch_table::Held;
use leaf_index::LeafIndex;
use loaded_cells::below::Resting;
use store_words::{Account, Accounts};

impl Store {
    /// Takes in the note of a cell that the pass holds.
    pub fn gather_cell(&self, pass: &mut Pass, held: Held<StoreSlot>) -> Held<Resting>
        requires table { pass.old.account.table_id ≡ self.now.accounts.table.shared.table_id }
        requires slot { IsCellSlot self.now.accounts.table.shared.table_id held.cell held.value }
        ensures held { (result.cell ≡ held.cell) × (result.found ≡ held.found)
            × (result.changed ≡ held.changed) }
        ensures gathered { (c : CellState)
            × OnlyAccount pass.old pass.new (with_cell pass.old.account.me.0 held.cell c)
            × (c.unpacked ≡ false) × RestsAs c.segment result.value }
    {
        let Held {
            cell,
            found,
            changed,
            value,
        } = held;
        let value = take_in_cell(&self.accounts, &mut pass.account, value);
        Held {
            cell,
            found,
            changed,
            value,
        }
    }

    /// Takes in the note of the index.
    pub fn gather_index(&self, pass: &mut Pass, held: Held<StoreSlot>) -> Held<Box<LeafIndex>>
        requires table { pass.old.account.table_id ≡ self.now.accounts.table.shared.table_id }
        requires slot { IsIndexSlot self.now.accounts.table.shared.table_id held.value }
        ensures held { (result.cell ≡ held.cell) × (result.found ≡ held.found)
            × (result.changed ≡ held.changed) }
        ensures gathered { (y : IndexState)
            × OnlyAccount pass.old pass.new (with_index pass.old.account.me.0 y)
            × (y.sweeper ≡ None) × (result.value.value ≡ y.index) }
    {
        let Held {
            cell,
            found,
            changed,
            value,
        } = held;
        let value = take_in_index(&self.accounts, &mut pass.account, value);
        Held {
            cell,
            found,
            changed,
            value,
        }
    }

    /// Takes in the note of the journal.
    pub fn gather_journal(&self, pass: &mut Pass, held: Held<StoreSlot>) -> Held<Box<RoomyJournal>>
        requires table { pass.old.account.table_id ≡ self.now.accounts.table.shared.table_id }
        requires slot { IsJournalSlot self.now.accounts.table.shared.table_id held.value }
        ensures held { (result.cell ≡ held.cell) × (result.found ≡ held.found)
            × (result.changed ≡ held.changed) }
        ensures gathered { (j : JournalState)
            × OnlyAccount pass.old pass.new (with_journal pass.old.account.me.0 j)
            × IsListOf j result.value.value }
    {
        let Held {
            cell,
            found,
            changed,
            value,
        } = held;
        let value = take_in_journal(&self.accounts, &mut pass.account, value);
        Held {
            cell,
            found,
            changed,
            value,
        }
    }
}

/// The value of a cell's slot, whose note the seat takes in.
pub(crate) fn take_in_cell(accounts: &Accounts, account: &mut Account, slot: StoreSlot) -> Resting
    requires table { account.old.table_id ≡ accounts.now.table.shared.table_id }
    requires slot { (k : ℕ) × IsCellSlot accounts.now.table.shared.table_id k slot }
    ensures { (k : ℕ) → IsCellSlot accounts.now.table.shared.table_id k slot
        → (c : CellState) × Knows account.old account.new (with_cell account.old.me.0 k c)
        × (c.unpacked ≡ false) × RestsAs c.segment result }
{
    let StoreSlot::Cell { resting, note } = slot else {
        unreachable!()
    };
    accounts.join(account, note);
    resting
}

/// The index, likewise.
pub(crate) fn take_in_index(
    accounts: &Accounts,
    account: &mut Account,
    slot: StoreSlot,
) -> Box<LeafIndex>
    requires table { account.old.table_id ≡ accounts.now.table.shared.table_id }
    requires slot { IsIndexSlot accounts.now.table.shared.table_id slot }
    ensures { (y : IndexState) × Knows account.old account.new (with_index account.old.me.0 y)
        × (y.sweeper ≡ None) × (result.value ≡ y.index) }
{
    let StoreSlot::Index { index, note } = slot else {
        unreachable!()
    };
    accounts.join(account, note);
    index
}

/// The journal, likewise.
pub(crate) fn take_in_journal(
    accounts: &Accounts,
    account: &mut Account,
    slot: StoreSlot,
) -> Box<RoomyJournal>
    requires table { account.old.table_id ≡ accounts.now.table.shared.table_id }
    requires slot { IsJournalSlot accounts.now.table.shared.table_id slot }
    ensures { (j : JournalState) × Knows account.old account.new (with_journal account.old.me.0 j)
        × IsListOf j result.value }
{
    let StoreSlot::Journal { journal, note } = slot else {
        unreachable!()
    };
    accounts.join(account, note);
    journal
}
