//! Room for the rows of a write.
//!
//! 1. The row with the lesser key is looked at first.
//! 2. Where both rows of an edge are missing and share a cell, it gets room for two.
//! 3. Rows may move when room is made for one of them, so the other is looked at anew after that.

ghost use Rattle.std.specs.Prelude.{◌≡◌, ◌-◌, ◌<◌, ◌≤◌, ◌∷◌, [], true, false, cond, not, ◌&&◌, length};
ghost use Rattle.std.specs.Prelude.{None, IfSome, OnOk, IfErr};
ghost use Rattle.graph_model.specs.declared.limits.TheConstants.{SEGMENT_ROWS};
ghost use Rattle.graph_model.specs.Rows.{is_below, is_between, end_key};
ghost use Rattle.row_writes.specs.VersionSegment.Rows as segments;
ghost use Rattle.leaf_store.specs.Leaves.{KeysHaveCells, has_row, room_at};
ghost use Rattle.leaf_store.specs.Changes.{IsRoomRefusal, NeedsRoom};
ghost use Rattle.leaf_store.specs.Making.{MakesRoom};
ghost use Rattle.leaf_rows.specs.Laying.{IsNoPlace, Stays, wanted};
ghost use Rattle.leaf_rows.specs.Steps.{IsNeed, KeepsRoom, keys_with, wanted_in};
ghost use Rattle.leaf_rows.specs.Laying.{HaveRoom};
ghost use Rattle.leaf_rows.specs.Placing.{PlacesKeys};
ghost use Rattle.row_writes.specs.Written.{AreRows, written_keys};

use crate::held::FoundInLeaves;
use crate::rows::LeafRows;
use graph_model::Key;
use leaf_store::Finger;
use row_writes::below::VersionSegment;
use txn_manager::RoomRefusal;

/// A key, and where it was found.
#[derive(Clone, Copy)]
struct KeyAt {
    /// Whose row it is.
    key: Key,
    /// Where to look first.
    near: Finger,
}

impl LeafRows {
    /// Makes room for the rows of a write that are missing, that of the lesser key first.
    pub fn make_room(&mut self, found: &FoundInLeaves) -> Result<(), RoomRefusal>
        requires { AreRows found.now.rows }
        ensures stays { Stays self.old self.new }
        ensures ok { OnOk result (HaveRoom self.new (written_keys found.now.rows)) }
        ensures places { PlacesKeys (written_keys found.now.rows) self.old self.new result }
        ensures full { IfErr result (λ refusal. IsNoPlace self.new (written_keys found.now.rows) refusal) }
    {
        let row = KeyAt {
            key: found.rows.row,
            near: found.near.row,
        };
        match found.rows.back {
            None => self.make_one(row),
            Some(key) => {
                let back = KeyAt {
                    key,
                    near: found.near.back,
                };
                // In the order of keys, so that which leaves are split doesn't depend on from which end an edge was
                // written.
                if back.key.is_below(row.key) {
                    self.make_both(back, row)
                } else {
                    self.make_both(row, back)
                }
            }
        }
    }

    /// Makes room for so many rows in a key's cell.
    pub fn make_cell_room(&mut self, key: Key, need: u8) -> Result<(), RoomRefusal>
        requires { NeedsRoom self.old key need }
        ensures stays { Stays self.old self.new }
        ensures ok { OnOk result (need ≤ room_at self.new key) }
        ensures made { OnOk result (MakesRoom self.old self.new key need) }
        ensures refused { IfErr result (λ refusal. IsRoomRefusal self.old key need refusal self.new) }
    {
        self.store.is_sound();
        let made = self.store.make_room(key, need);
        self.store.is_sound();
        made
    }

    /// Makes room for the row of one key.
    fn make_one(&mut self, at: KeyAt) -> Result<(), RoomRefusal>
        requires { is_below at.key end_key ≡ true }
        ensures stays { Stays self.old self.new }
        ensures ok { OnOk result (HaveRoom self.new (at.key ∷ [])) }
        ensures places { PlacesKeys (at.key ∷ []) self.old self.new result }
        ensures full { IfErr result (λ refusal. IsNoPlace self.new (at.key ∷ []) refusal) }
    {
        let made = self.make_place(at, None);
        self.store.is_sound();
        made
    }

    /// Makes room for the rows of two keys, that of the first one first.
    fn make_both(&mut self, first: KeyAt, second: KeyAt) -> Result<(), RoomRefusal>
        requires first { is_below first.key end_key ≡ true }
        requires second { is_below second.key end_key ≡ true }
        ensures stays { Stays self.old self.new }
        ensures ok { OnOk result (HaveRoom self.new (first.key ∷ second.key ∷ [])) }
        ensures places { PlacesKeys (first.key ∷ second.key ∷ []) self.old self.new result }
        ensures full { IfErr result (λ refusal. IsNoPlace self.new (first.key ∷ second.key ∷ []) refusal) }
    {
        self.make_place(first, Some(second.key))?;
        // Mostly both have room. Looked at with the first one's room made, which may have moved the second one's cell.
        if self.has_place(second, Some(first.key)) {
            self.store.is_sound();
            return Ok(());
        }
        self.make_place(second, Some(first.key))?;
        // where the second one's room has brought both into one cell, that has room for two
        let made = self.make_place(first, Some(second.key));
        self.store.is_sound();
        made
    }

    /// Whether a key has a row, or its cell has room for its row, and for that of the other key if it is missing too
    /// and shares the cell.
    fn has_place(&self, at: KeyAt, other: Option<Key>) -> bool
        requires { is_below at.key end_key ≡ true }
        ensures { result ≡ true → has_row self.now at.key ≡ false
            → wanted self.now at.key (keys_with at.key other) ≤ room_at self.now at.key }
    {
        self.store.is_sound();
        need_at(self.store.segment(at.key, at.near), at, other).is_none()
    }

    /// Makes room in a key's cell, if the key has no row: for its row, and that of the other key if it is missing too
    /// and shares the cell.
    fn make_place(&mut self, at: KeyAt, other: Option<Key>) -> Result<(), RoomRefusal>
        requires { is_below at.key end_key ≡ true }
        ensures stays { Stays self.old self.new }
        ensures room { KeepsRoom self.old self.new }
        ensures ok { OnOk result (has_row self.old at.key ≡ false
            → wanted self.old at.key (keys_with at.key other) ≤ room_at self.new at.key) }
        ensures kept { wanted self.old at.key (keys_with at.key other) ≤ room_at self.old at.key
            → self.new ≡ self.old }
        ensures places { PlacesKeys (keys_with at.key other) self.old self.new result }
        ensures full { IfErr result (λ refusal. IsNoPlace self.new (keys_with at.key other) refusal) }
        ensures there { KeysHaveCells self.old }
    {
        self.store.is_sound();
        let need = match need_at(self.store.segment(at.key, at.near), at, other) {
            Some(need) => need,
            None => return Ok(()),
        };
        let made = self.store.make_room(at.key, need);
        self.store.is_sound();
        made
    }
}

/// For how many rows a key's cell should get room: none, if the key has a row or the cell has enough.
fn need_at(cell: &VersionSegment, at: KeyAt, other: Option<Key>) -> Option<u8>
    requires { is_between cell.now.low cell.now.high at.key ≡ true }
    ensures need { IfSome result (λ need. IsNeed cell.now at.key (keys_with at.key other) need) }
    ensures none { result ≡ None → segments.has_row cell.now at.key ≡ false
        → wanted_in cell.now (keys_with at.key other) ≤ SEGMENT_ROWS - length cell.now.rows }
{
    // A row that is there takes no place, whether it has a value or records alone.
    if cell.has_row_near(at.key, at.near.row) {
        return None;
    }
    let need = 1
        + match other {
            Some(other) => missing_in(cell, other),
            None => 0,
        };
    if usize::from(need) <= cell.room() {
        return None;
    }
    Some(need)
}

/// One, if the cell's fence keys hold a key that has no row, else none.
fn missing_in(cell: &VersionSegment, key: Key) -> u8
    ensures { result ≡ cond (not (segments.has_row cell.now key) && is_between cell.now.low cell.now.high key) 1 0 }
{
    let is_missing = !key.is_below(cell.low()) && key.is_below(cell.high()) && !cell.has_row(key);
    u8::from(is_missing)
}
