//! Whether the rows of a write find places in the cells in hand.
//!
//! What is short of places is told by a value that is made here alone, of cells in hand (`RoomNeed`).

ghost use Rattle.std.specs.Prelude.{◌≡◌, ◌+◌, ◌&&◌, not, cond, true, None, IfSome};
ghost use Rattle.row_writes.specs.Held.{AreHeld, HaveRoom};
ghost use Rattle.row_writes.specs.Written.{with_back, written_keys};
ghost use Rattle.row_writes.specs.VersionSegment.Rows.{has_row};
ghost use Rattle.store_rule.specs.CellsModel.Indexed.{covers};
ghost use Rattle.pass_cells.specs.Room.{HasRoomFor, IsShort, also_missing, key_of, need_of};
ghost use Rattle.pass_cells.specs.Taken.{AreRising, rows_in};

use crate::taken::TakenCells;
use graph_model::Key;
use row_writes::FoundRows;
use row_writes::below::VersionSegment;

/// A key without a row, for which and for the other keys of the write that are missing in its cell there is no room:
/// they need so many places. It is made of cells in hand and can't be copied, so whoever has one has it from
/// `room_need`, and once for each time that cells in hand were short.
#[derive(Debug, Drop, PartialEq, Eq)]
pub struct RoomNeed {
    /// Whose row has no place.
    key: Key,
    /// How many places are needed: one, or two where both rows of an edge come there.
    need: u8,
}

impl RoomNeed {
    /// Of a key of a write that is short of places in its cell.
    fn at(cells: &TakenCells, key: Key, other: Option<Key>, need: u8) -> RoomNeed
        requires { IsShort (rows_in cells.now) (with_back other key) key need }
        ensures { (key_of result ≡ key) × (need_of result ≡ need) }
    {
        RoomNeed { key, need }
    }

    /// The key whose row finds no place.
    pub fn key(&self) -> Key
        ensures { result ≡ key_of self.now }
    {
        self.key
    }

    /// How many places its cell would have to have.
    pub fn need(&self) -> u8
        ensures { result ≡ need_of self.now }
    {
        self.need
    }
}

impl TakenCells {
    /// What is short of places, if anything is: the row that is written is looked at first, and then the one that goes
    /// the other way.
    pub fn room_need(&self, found: &FoundRows<usize>) -> Option<RoomNeed>
        requires rising { AreRising self.now.list.items }
        requires held { AreHeld (rows_in self.now) (written_keys found.now.rows) }
        ensures none { result ≡ None → HaveRoom (rows_in self.now) (written_keys found.now.rows) }
        ensures short { IfSome result (λ short.
            IsShort (rows_in self.now) (written_keys found.now.rows) (key_of short) (need_of short)) }
    {
        let FoundRows { rows, near } = *found;
        match rows.back {
            None => self.need_at(rows.row, near.row, None),
            // Where both rows of an edge would come into one cell, that cell needs two places, which is asked for at
            // once: room for the first alone would be asked for again.
            Some(back) => match self.need_at(rows.row, near.row, Some(back)) {
                None => self.need_at(back, near.back, Some(rows.row)),
                short => short,
            },
        }
    }

    /// The same of one key, which is looked for near a place first, with the other one of the write.
    fn need_at(&self, key: Key, near: usize, other: Option<Key>) -> Option<RoomNeed>
        requires rising { AreRising self.now.list.items }
        requires held { (rows_in self.now).holds key ≡ true }
        ensures none { result ≡ None → HasRoomFor (rows_in self.now) (with_back other key) key }
        ensures short { IfSome result (λ short. (key_of short ≡ key)
            × IsShort (rows_in self.now) (with_back other key) (key_of short) (need_of short)) }
    {
        let cell = &self.list[self.place_of(key)].held.value;
        // A row that was removed and still has records takes no new place.
        if cell.has_row_near(key, near) {
            return None;
        }
        let need = places_for(cell, other);
        if usize::from(need) <= cell.room() {
            return None;
        }
        Some(RoomNeed::at(self, key, other, need))
    }
}

/// One, and one more if the cell covers the other key and that has no row.
fn places_for(cell: &VersionSegment, other: Option<Key>) -> u8
    ensures { result ≡ 1 + also_missing cell.now other }
{
    match other {
        Some(other) => 1 + missing_in(cell, other),
        None => 1,
    }
}

/// One, if the cell covers a key that has no row, else none.
fn missing_in(cell: &VersionSegment, key: Key) -> u8
    ensures { result ≡ cond (not (has_row cell.now key) && covers cell.now key) 1 0 }
{
    let is_missing = !key.is_below(cell.low()) && key.is_below(cell.high()) && !cell.has_row(key);
    u8::from(is_missing)
}
