//! What lies in the slots of the latch table.
//!
//! 1. There are a million slots in a large store, so they are as small as an enum of two numbers in an enum can be, and
//!    a constant says how small.

ghost use Rattle.std.specs.Prelude.{◌≡◌};

use graph_model::RoomyJournal;
use latch_table::Slot;
use leaf_index::LeafIndex;
use loaded_cells::below::Resting;
use store_words::Account;
use txn_manager::Config;

/// A value with the note of its contents, or nothing where a pass has it. A slot takes 24 bytes, and no box where it
/// has a cell whose rows are all settled. Notes take none.
#[derive(Drop)]
pub enum StoreSlot {
    /// A pass has it.
    Out,
    /// Rows and fence keys of a packed cell stand in the words of its block.
    Cell {
        resting: Resting,
        note: Account,
    },
    /// In a box, as the journal, since slots are as large as the largest value.
    Index {
        index: Box<LeafIndex>,
        note: Account,
    },
    Journal {
        journal: Box<RoomyJournal>,
        note: Account,
    },
}

const _: () = prove!(size_of::<StoreSlot>() == 24);

/// What the latch table is told once: of which account table the notes are, by a seat of it, and how the store is made.
#[derive(Drop)]
pub struct Room {
    /// Of the account table.
    pub seat: Account,
    /// How the store is made.
    pub config: Config,
}

impl Slot<Room> for StoreSlot {
    ghost use Rattle.std.specs.Prelude.{ℕ};
    ghost use Rattle.store_rule.specs.Slots.{FitsPlace};
    ghost use Rattle.store_rule.specs.declared.slot.StoreSlot.TheVariants as slots;

    ghost fits = { λ room place slot. FitsPlace room.config room.seat.table_id place slot };

    ghost passes = { λ room. room.config.passes };

    ghost vacant = { slots.Out };

    fn new_vacant() -> StoreSlot {
        StoreSlot::Out
    }

    fn forget_vacant(self) {
        drop(self);
    }
}
