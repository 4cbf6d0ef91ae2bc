//! What a call for room has found of the cells in hand.
//!
//! 1. A clause can't speak of cells that were given back; a value that only cells in hand make can, and nobody else
//!    makes one.

ghost use Rattle.std.specs.Prelude.{◌≡◌, ℕ, [], ◌∷◌, List};
ghost use Rattle.pass_splits.specs.PassLeaves.Hand.{HoldsLeaves};
ghost use Rattle.pass_splits.specs.PassMoves.Moving.{values_of};
ghost use Rattle.pass_splits.specs.PassMoves.Room.{HasRoom, IsCrowdedAt};
ghost use Rattle.pass_room.specs.Making.{full_key, full_leaves, full_need, made_key, made_need};

use graph_model::Key;
use pass_splits::below::HeldIndex;
use pass_writes::below::{Pass, Store, TakenCell};

/// The cell of a key had so many free places while a pass held it. It is made of cells in hand and can't be copied, so
/// whoever has one has it from a call for room.
#[derive(Debug, Drop, PartialEq, Eq)]
pub struct RoomMade {
    /// Whose cell it was.
    key: Key,
    /// How many places were asked for.
    need: u8,
}

impl RoomMade {
    /// Of the key's cell in hand.
    pub(crate) fn at(
        store: &Store,
        pass: &Pass,
        cells: &[TakenCell],
        index: &HeldIndex,
        key: Key,
        need: u8,
    ) -> RoomMade
        requires { (leaves : List ℕ) × HoldsLeaves store.now pass.now leaves cells.now index.now
            × HasRoom key need (values_of cells.now) }
        ensures { (made_key result ≡ key) × (made_need result ≡ need) }
    {
        RoomMade { key, need }
    }
}

/// No leaf of a store was free, the cell of a key had fewer free places than were needed, and no window round it had
/// room for the rows, while a pass held the leaf and the index. It is made of them and can't be copied.
#[derive(Debug, Drop, PartialEq, Eq)]
pub struct StoreFull {
    /// Whose cell it was.
    key: Key,
    /// How many places were asked for.
    need: u8,
    /// How many leaves the store has.
    leaves: u32,
}

impl StoreFull {
    /// Of the key's leaf in hand.
    pub(crate) fn at(
        store: &Store,
        pass: &Pass,
        cells: &[TakenCell],
        index: &HeldIndex,
        key: Key,
        need: u8,
    ) -> StoreFull
        requires { (leaf : ℕ) × HoldsLeaves store.now pass.now (leaf ∷ []) cells.now index.now
            × IsCrowdedAt key need index.now.value.value leaf (values_of cells.now)
            × (index.now.value.value.free ≡ []) }
        ensures { (full_key result ≡ key) × (full_need result ≡ need)
            × (full_leaves result ≡ store.now.accounts.config.leaves) }
    {
        StoreFull {
            key,
            need,
            leaves: store.config().leaves,
        }
    }

    /// How many leaves the store has.
    pub fn leaves(&self) -> u32
        ensures { result ≡ full_leaves self.now }
    {
        self.leaves
    }
}

/// Why no room was made.
#[derive(Debug, Drop, PartialEq, Eq)]
pub enum NoRoom {
    /// No leaf was free, and no window fitted.
    Full(StoreFull),
    /// Memory was refused, and no row has moved.
    NoMemory,
}
