//! The end of a store.
//!
//! 1. All passes come back, and all notes are taken in. So one seat knows all that there is, and what it knows is a
//!    closed store.
//! 2. Room for what comes out of the slots was made with the store, and is kept with its passes. Rows stay in words.

ghost use Rattle.std.specs.Prelude.{◌≡◌, ◌<◌, ◌≤◌, ◌+◌, ℕ, [], length, vec_capacity};
ghost use Rattle.atomic_table.specs.Seated.{TableId};
ghost use Rattle.latch_table.specs.Opening.{IsWhole};
ghost use Rattle.loaded_cells.specs.RuleModel.Sight.{cells_of};
ghost use Rattle.store_rule.specs.Closed.{AreAtRestFrom};
ghost use Rattle.store_rule.specs.Closing.{AreBack, AreBackPasses, AreSlotsBelow, HasJoined, IsEnding, KeepsOthers};
ghost use Rattle.store_rule.specs.Passes.{AreIn};
ghost use Rattle.store_rule.specs.Slots.{FitsPlace};
ghost use Rattle.store_rule.specs.Whole.{IsWholeContent};
ghost use Rattle.txn_manager.specs.declared.config.Config.{Config};

use crate::closed::ClosedCells;
use crate::gather::{take_in_cell, take_in_index, take_in_journal};
use crate::slot::{Room, StoreSlot};
use crate::store::{LatchPass, Pass, Passes, Store};
use graph_model::RoomyJournal;
use latch_table::LatchTable;
use leaf_index::LeafIndex;
use loaded_cells::below::Resting;
use store_words::{Account, Accounts};

/// What was in a store: its cells in the order of their numbers, its index and its journal.
#[derive(Drop)]
pub struct Content {
    /// In the order of their numbers.
    pub cells: ClosedCells,
    /// Which leaf has which keys.
    pub index: Box<LeafIndex>,
    /// All commits.
    pub journal: RoomyJournal,
}

impl Store {
    /// Takes a store apart whose passes are all back, without an open transaction or rows left to stamp.
    pub fn take_apart(self, passes: Passes) -> Content
        requires seats { AreIn self passes }
        requires passes { AreBack self passes.list.items }
        ensures { IsWholeContent self.accounts.config passes.list.items result }
    {
        let Store { accounts, latches } = self;
        let Passes {
            list,
            mut latch,
            mut account,
            mut slots,
            mut cells,
        } = passes;
        // All seats become one again, which then knows all that any pass knew.
        join_passes(&accounts, &latches, list, &mut latch, &mut account);
        latches.close(latch, &mut slots);
        // The last slots come first: journal, index, and then the cells.
        let journal = take_in_journal(&accounts, &mut account, pop_slot(&mut slots));
        let index = take_in_index(&accounts, &mut account, pop_slot(&mut slots));
        take_cells(&accounts, &mut account, &mut slots, &mut cells);
        // From here on one seat knows the words of all cells, and nobody steps on the table any more.
        accounts.look_last(&mut account);
        let cells = ClosedCells::new(accounts, account, cells);
        let journal = Box::into_inner(journal);
        Content {
            cells,
            index,
            journal,
        }
    }
}

/// Takes all passes in, the last one first.
fn join_passes(
    accounts: &Accounts,
    latches: &LatchTable<StoreSlot, Room>,
    mut list: Vec<Pass>,
    latch: &mut LatchPass,
    account: &mut Account,
)
    requires places { 0 < latches.now.table.shared.table_id.words }
    requires passes { AreBackPasses latches.now.table.shared.key latches.now.table.shared.table_id
        accounts.now.table.shared.table_id list.items }
    requires latch { latch.old.table_id ≡ latches.now.table.shared.table_id }
    requires account { IsEnding accounts.now.table.shared.table_id account.old }
    ensures latch { (latch.new.table_id ≡ latch.old.table_id)
        × IsWhole (length list.items) latch.new.me.0 }
    ensures account { IsEnding accounts.now.table.shared.table_id account.new }
    ensures joined { HasJoined list.items 0 account.new.me.0 }
{
    let cells = latches.cells();
    'passes: while let Some(pass) = list.pop() {
        let Pass {
            latch: seat,
            account: note,
            ..
        } = pass;
        cells.merge(latch, seat);
        accounts.join(account, note);
    }
}

/// The last slot.
fn pop_slot(slots: &mut Vec<StoreSlot>) -> StoreSlot
    requires { 0 < length slots.old.items }
    ensures { (z : Config) (table : TableId) (n : ℕ) → AreSlotsBelow z table (n + 1) slots.old.items
        → FitsPlace z table n result × AreSlotsBelow z table n slots.new.items }
{
    match slots.pop() {
        Some(slot) => slot,
        None => unreachable!(),
    }
}

/// Takes what is kept of all cells out of their slots.
fn take_cells(
    accounts: &Accounts,
    account: &mut Account,
    slots: &mut Vec<StoreSlot>,
    cells: &mut Vec<Resting>,
)
    requires account { IsEnding accounts.now.table.shared.table_id account.old }
    requires slots { AreSlotsBelow accounts.now.config accounts.now.table.shared.table_id
        (cells_of accounts.now.config) slots.old.items }
    requires room { (cells.old.items ≡ [])
        × (cells_of accounts.now.config ≤ vec_capacity cells.old) }
    ensures account { IsEnding accounts.now.table.shared.table_id account.new }
    ensures others { KeepsOthers account.old.me.0 account.new.me.0 }
    ensures count { length cells.new.items ≡ cells_of accounts.now.config }
    ensures cells { AreAtRestFrom account.new.me.0 0 cells.new.items }
{
    let count = 8 * accounts.config.leaves;
    'slots: for _cell in 0..count {
        let slot = pop_slot(slots);
        let resting = take_in_cell(accounts, account, slot);
        match cells.push(resting) {
            Ok(()) => {}
            Err(_) => unreachable!(),
        }
    }
    // They came out with the last one first.
    cells.reverse();
}
