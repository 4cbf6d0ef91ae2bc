//! A new store, with a pass for each number.
//!
//! 1. One seat knows all of the account table at first. Notes of all cells, of the index and of the journal are cut
//!    off and laid into the slots, and then a seat for each pass. So it is whatever the store begins with.
//! 2. The list that is closed into is made here, so that the end takes no memory.

ghost use Rattle.std.specs.Prelude.{◌≡◌, ◌<◌, ◌↔◌, [], ◌∷◌, ◌++◌, Err, IfOk, OnOk, true, false, length};
ghost use Rattle.latch_table.specs.Opening.{HasPasses};
ghost use Rattle.loaded_cells.specs.RuleModel.Sight.{Sight, cells_of};
ghost use Rattle.store_rule.specs.Filling.{AreNoRows};
ghost use Rattle.store_rule.specs.Making.{AreCells, AreDealt, AreNewPasses, AreSlots, IsDealing, IsLaying, KnowsAllResting, KnowsIndex, KnowsJournal, KnowsParts};
ghost use Rattle.store_rule.specs.Passes.{AreIn};
ghost use Rattle.store_rule.specs.Slots.{IsIndexSlot, IsJournalSlot};
ghost use Rattle.store_rule.specs.declared.slot.StoreSlot.{StoreSlot};
ghost use Rattle.store_words.specs.Notes.{without_index, without_journal};
ghost use Rattle.store_words.specs.Steps.{Knows};
ghost use Rattle.txn_manager.specs.Config.{too_large};
ghost use Rattle.txn_manager.specs.declared.config.StoreRefusal.TheVariants.{TooLarge};

use crate::buffers::Buffers;
use crate::closed::pop_resting;
use crate::slot::{Room, StoreSlot};
use crate::store::{LatchPass, Pass, Passes, Store};
use graph_model::{NoMemory, RoomyJournal};
use latch_table::LatchTable;
use leaf_index::LeafIndex;
use loaded_cells::below::Resting;
use std::alloc::Global;
use store_words::{Account, Accounts};
use txn_manager::{Config, StoreRefusal};

impl Store {
    /// A store without rows, whose passes have begun nothing.
    pub fn make(alloc: Global, config: Config) -> Result<(Store, Passes), StoreRefusal>
        ensures too_large { (result ≡ Err TooLarge) ↔ (too_large config ≡ true) }
        ensures config { IfOk result (λ made. made.0.accounts.config ≡ config) }
        ensures passes { IfOk result (λ made. AreNewPasses made.0.latches.table.shared.key
            made.0.latches.table.shared.table_id made.0.accounts.table.shared.table_id made.1.list.items) }
        ensures seats { IfOk result (λ made. AreIn made.0 made.1) }
    {
        if config.is_too_large() {
            return Err(StoreRefusal::TooLarge);
        }
        let made = make_both(alloc, config)?;
        Ok(made)
    }
}

/// What is to lie in the slots of a store that begins.
#[derive(Drop)]
pub(crate) struct Parts {
    /// By the number of a cell.
    pub(crate) resting: Vec<Resting>,
    /// With the leaves that have rows.
    pub(crate) index: LeafIndex,
    /// With the load, if there is one.
    pub(crate) journal: RoomyJournal,
}

/// A store without rows.
fn make_both(alloc: Global, config: Config) -> Result<(Store, Passes), NoMemory>
    requires { too_large config ≡ false }
    ensures config { IfOk result (λ made. made.0.accounts.config ≡ config) }
    ensures passes { IfOk result (λ made. AreNewPasses made.0.latches.table.shared.key
        made.0.latches.table.shared.table_id made.0.accounts.table.shared.table_id made.1.list.items) }
    ensures seats { IfOk result (λ made. AreIn made.0 made.1) }
{
    let resting = settled_cells(alloc, config)?;
    let index = LeafIndex::new(alloc, config.leaves)?;
    let journal = RoomyJournal::new(alloc);
    let parts = Parts {
        resting,
        index,
        journal,
    };
    let (accounts, seat) = Accounts::open(alloc, config)?;
    let made = deal_out(alloc, accounts, seat, parts)?;
    Ok(made)
}

/// What is kept of cells without rows.
fn settled_cells(alloc: Global, config: Config) -> Result<Vec<Resting>, NoMemory>
    requires { too_large config ≡ false }
    ensures { IfOk result (λ list. AreNoRows (cells_of config) list.items) }
{
    let cells = 8 * config.leaves;
    let mut list = Vec::with_capacity(alloc, cells as usize)?;
    'cells: for _cell in 0..cells {
        list.push(Resting::settled(alloc, 0))?;
    }
    Ok(list)
}

/// Both tables and all passes, where one seat knows all that there is.
pub(crate) fn deal_out(
    alloc: Global,
    accounts: Accounts,
    seat: Account,
    parts: Parts,
) -> Result<(Store, Passes), NoMemory>
    requires seat { IsLaying accounts.config accounts.table.shared.table_id seat.me.0 0 seat }
    requires parts { KnowsParts accounts.config seat.me.0 parts }
    ensures config { IfOk result (λ made. made.0.accounts.config ≡ accounts.config) }
    ensures passes { IfOk result (λ made. AreDealt made.0.latches.table.shared.key
        made.0.latches.table.shared.table_id made.0.accounts.table.shared.table_id seat.me.0 made.1.list.items) }
    ensures seats { IfOk result (λ made. AreIn made.0 made.1) }
{
    let config = accounts.config;
    let places = 8 * config.leaves as usize + 2;
    let slots = Vec::with_capacity(alloc, places)?;
    let cells = Vec::with_capacity(alloc, places - 2)?;
    let mut seat = seat;
    // Each value gets its note from the one seat that knows all, before any pass has a seat of its own.
    let filled = lay_slots(alloc, &accounts, &mut seat, parts)?;
    let room = Room { seat, config };
    let Ok((latches, mut latch)) = LatchTable::open(alloc, filled, &room) else {
        return Err(NoMemory);
    };
    let Room {
        seat: mut account,
        config: _,
    } = room;
    let list = deal(alloc, &accounts, &latches, &mut latch, &mut account)?;
    Ok((
        Store { accounts, latches },
        Passes {
            list,
            latch,
            account,
            slots,
            cells,
        },
    ))
}

/// What lies in each slot of a store that begins.
fn lay_slots(
    alloc: Global,
    accounts: &Accounts,
    seat: &mut Account,
    parts: Parts,
) -> Result<Vec<StoreSlot>, NoMemory>
    requires seat { IsLaying accounts.now.config accounts.now.table.shared.table_id seat.old.me.0 0 seat.old }
    requires parts { KnowsParts accounts.now.config seat.old.me.0 parts }
    ensures slots { IfOk result (λ slots. AreSlots accounts.now.config
        accounts.now.table.shared.table_id slots.items) }
    ensures seat { OnOk result (IsDealing accounts.now.table.shared.table_id seat.old.me.0
        accounts.now.config.passes seat.new) }
{
    let Parts {
        resting,
        index,
        journal,
    } = parts;
    let places = 8 * accounts.config.leaves as usize + 2;
    let mut slots = Vec::with_capacity(alloc, places)?;
    push_cells(accounts, seat, resting, &mut slots)?;
    push_index(alloc, accounts, seat, index, &mut slots)?;
    push_journal(alloc, accounts, seat, journal, &mut slots)?;
    Ok(slots)
}

/// All cells, with their notes.
fn push_cells(
    accounts: &Accounts,
    seat: &mut Account,
    resting: Vec<Resting>,
    slots: &mut Vec<StoreSlot>,
) -> Result<(), NoMemory>
    requires seat { IsLaying accounts.now.config accounts.now.table.shared.table_id seat.old.me.0 0 seat.old }
    requires resting { KnowsAllResting accounts.now.config seat.old.me.0 resting.items }
    requires none { slots.old.items ≡ [] }
    ensures count { OnOk result (length slots.new.items ≡ cells_of accounts.now.config) }
    ensures cells { OnOk result (AreCells accounts.now.table.shared.table_id slots.new.items) }
    ensures seat { OnOk result (IsLaying accounts.now.config accounts.now.table.shared.table_id
        seat.old.me.0 (cells_of accounts.now.config) seat.new) }
{
    let cells = 8 * accounts.config.leaves;
    let mut rest = resting;
    // So that the next one stands last, where it is taken off in one step.
    rest.reverse();
    'cells: for cell in 0..cells {
        let resting = pop_resting(&mut rest);
        let note = accounts.note_cell(seat, cell);
        slots.push(StoreSlot::Cell { resting, note })?;
    }
    Ok(())
}

/// The index, with its note.
fn push_index(
    alloc: Global,
    accounts: &Accounts,
    seat: &mut Account,
    index: LeafIndex,
    slots: &mut Vec<StoreSlot>,
) -> Result<(), NoMemory>
    requires table { seat.old.table_id ≡ accounts.now.table.shared.table_id }
    requires kept { KnowsIndex seat.old.me.0 index }
    ensures pushed { OnOk result ((slot : StoreSlot) × (slots.new.items ≡ slots.old.items ++ slot ∷ [])
        × IsIndexSlot accounts.now.table.shared.table_id slot) }
    ensures seat { OnOk result (Knows seat.old seat.new (without_index seat.old.me.0)) }
{
    let index = Box::new(alloc, index)?;
    let note = accounts.note_index(seat);
    slots.push(StoreSlot::Index { index, note })?;
    Ok(())
}

/// The journal, with its note.
fn push_journal(
    alloc: Global,
    accounts: &Accounts,
    seat: &mut Account,
    journal: RoomyJournal,
    slots: &mut Vec<StoreSlot>,
) -> Result<(), NoMemory>
    requires table { seat.old.table_id ≡ accounts.now.table.shared.table_id }
    requires kept { KnowsJournal seat.old.me.0 journal }
    ensures pushed { OnOk result ((slot : StoreSlot) × (slots.new.items ≡ slots.old.items ++ slot ∷ [])
        × IsJournalSlot accounts.now.table.shared.table_id slot) }
    ensures seat { OnOk result (Knows seat.old seat.new (without_journal seat.old.me.0)) }
{
    let journal = Box::new(alloc, journal)?;
    let note = accounts.note_journal(seat);
    slots.push(StoreSlot::Journal { journal, note })?;
    Ok(())
}

/// A pass for each number.
fn deal(
    alloc: Global,
    accounts: &Accounts,
    latches: &LatchTable<StoreSlot, Room>,
    latch: &mut LatchPass,
    account: &mut Account,
) -> Result<Vec<Pass>, NoMemory>
    requires room { latches.now.table.shared.key.config ≡ accounts.now.config }
    requires places { 0 < latches.now.table.shared.table_id.words }
    requires latch { (latch.old.table_id ≡ latches.now.table.shared.table_id)
        × HasPasses latches.now.table.shared.key accounts.now.config.passes latch.old.me.0 }
    requires account { (v : Sight) × IsDealing accounts.now.table.shared.table_id v accounts.now.config.passes account.old }
    ensures passes { IfOk result (λ list. (v : Sight)
        → IsDealing accounts.now.table.shared.table_id v accounts.now.config.passes account.old
        → AreDealt latches.now.table.shared.key latches.now.table.shared.table_id
        accounts.now.table.shared.table_id v list.items) }
    ensures latch { OnOk result (latch.new.table_id ≡ latch.old.table_id) }
    ensures account { OnOk result ((v : Sight) × IsDealing accounts.now.table.shared.table_id v 0 account.new) }
{
    let cells = latches.cells();
    let mut passes = Vec::with_capacity(alloc, accounts.config.passes as usize)?;
    let mut number = accounts.config.passes;
    'passes: while number > 0 {
        number -= 1;
        // Before the seats: where memory is refused nothing has been split off yet for this pass.
        let buffers = Buffers::new(alloc)?;
        let pass = Pass {
            number,
            latch: cells.deal(latch, number),
            account: accounts.note_pass(account, number),
            buffers,
        };
        passes.insert(0, pass)?;
    }
    Ok(passes)
}
