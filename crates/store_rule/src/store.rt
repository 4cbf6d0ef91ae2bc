//! A store, and the passes on it.
//!
//! 1. A store is shared and changes only through its two tables; a pass is its owner's alone. So calls take `&Store`
//!    and `&mut Pass`, and a store needs no lock of its own.

ghost use Rattle.std.specs.Prelude.{◌≡◌, ◌+◌};
ghost use Rattle.loaded_cells.specs.RuleModel.Sight.{cells_of};

use crate::buffers::Buffers;
use crate::slot::{Room, StoreSlot};
use epoch_reclaim::{PinPlaces, Pins};
use latch_table::{Cells, LatchTable};
use loaded_cells::below::Resting;
use store_words::{Account, AccountRule, AccountSight, Accounts, Beginning};
use txn_manager::Config;

/// The seat of a pass on the latch table.
pub type LatchPass = latch_table::LatchSeat<StoreSlot, Room>;

/// A graph under transactions of many passes.
///
/// | Place of the latch table | What lies there |
/// |---|---|
/// | below `8 * leaves` | the cell of that number |
/// | `8 * leaves` | the index |
/// | one more | the journal |
#[derive(Drop)]
pub struct Store {
    /// The words of the store.
    pub accounts: Accounts,
    /// The values of the store, each with its latch.
    pub latches: LatchTable<StoreSlot, Room>,
    pub ghost same: { (latches.table.shared.key.config ≡ accounts.config)
        × (latches.table.shared.key.seat.table_id ≡ accounts.table.shared.table_id) },
    pub ghost places: { latches.table.shared.table_id.words ≡ cells_of accounts.config + 2 },
}

/// Whoever runs transactions on a store, one after the other: a seat of each of its tables, and room for the rows of
/// the cells that it unpacks.
#[derive(Drop)]
pub struct Pass {
    /// From 0.
    pub number: u32,
    /// Its seat on the latches.
    pub latch: LatchPass,
    /// Its seat on the words.
    pub account: Account,
    /// Room for the rows of cells that it unpacks.
    pub buffers: Buffers,
}

/// The passes of a store, in the order of their numbers, with what its end needs: the seats that take them back, and
/// empty lists with room for what lies in the slots and for what is kept of cells.
#[derive(Drop)]
pub struct Passes {
    /// By number.
    pub list: Vec<Pass>,
    /// The seat that takes those of the passes back.
    pub latch: LatchPass,
    /// The same on the words.
    pub account: Account,
    /// Empty, with room for all that lies in slots.
    pub slots: Vec<StoreSlot>,
    /// Empty, with room for what is kept of all cells.
    pub cells: Vec<Resting>,
}

impl Store {
    /// How the store was made.
    pub fn config(&self) -> Config
        ensures { result ≡ self.now.accounts.config }
    {
        self.accounts.config
    }

    /// The cells, the index and the journal, to be taken and given back.
    pub fn cells(&self) -> Cells<'_, StoreSlot, Room>
        ensures { result.table.now ≡ self.now.latches.table.shared }
    {
        self.latches.cells()
    }

    /// The pins of passes, and the clock.
    pub fn pins(&self) -> Pins<'_, AccountSight, Beginning, AccountRule>
        ensures table { result.table.now ≡ self.now.accounts.table.shared }
        ensures clock { result.places.clock ≡ 8 }
        ensures pins { (result.places.first ≡ 24) × (result.places.stride ≡ 16) }
        ensures passes { result.places.passes ≡ self.now.accounts.config.passes }
    {
        Pins {
            table: &self.accounts.table.shared,
            places: PinPlaces {
                clock: 8,
                first: 24,
                stride: 16,
                passes: self.accounts.config.passes,
            },
        }
    }

    /// The place of the index.
    pub fn index_place(&self) -> u32
        ensures { result ≡ cells_of self.now.accounts.config }
    {
        8 * self.accounts.config.leaves
    }

    /// The place of the journal.
    pub fn journal_place(&self) -> u32
        ensures { result ≡ cells_of self.now.accounts.config + 1 }
    {
        8 * self.accounts.config.leaves + 1
    }
}
