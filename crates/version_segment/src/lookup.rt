//! A row that is looked for: what it has, whether there is something to take back, and calls that do nothing where
//! there isn't.

ghost use Rattle.std.specs.Prelude.{◌≡◌, ◌≤◌};
ghost use Rattle.std.specs.FinMap.Entries.{find};
ghost use Rattle.graph_model.specs.Rows.{key_cmp};
ghost use Rattle.row_table.specs.Rows.{versions_at, has_row, newest_writer, ChangesKey, undone, untouched};

use crate::segment::VersionSegment;
use graph_model::{Key, TxnName};
use row_table::{NOWHERE, RowView, find_row, look_up};

impl VersionSegment {
    /// Looks the key's row up, first at the place where it was found before, for all that is asked of it. Any place is
    /// allowed.
    pub fn row(&self, key: Key, near: usize) -> RowView<'_>
        ensures { result ≡ find key_cmp key self.now.rows }
    {
        look_up(&self.rows, &self.chains, key, near)
    }

    /// Whether the key has a row.
    pub fn has_row(&self, key: Key) -> bool
        ensures { result ≡ has_row self.now key }
    {
        self.has_row_near(key, NOWHERE)
    }

    /// The same, where it is looked for near a place first.
    pub fn has_row_near(&self, key: Key, near: usize) -> bool
        ensures { result ≡ has_row self.now key }
    {
        match self.rows.segment().find_near(key, near) {
            Ok(_) => true,
            Err(_) => false,
        }
    }

    /// Where the key's row stands, or would stand. No clause says so: the calls that are given a place look whether it
    /// is right.
    pub fn place_of(&self, key: Key) -> usize {
        match self.rows.segment().find(key) {
            Ok(place) => place,
            Err(place) => place,
        }
    }

    /// The writer of the newest record of the key's row.
    pub fn newest(&self, key: Key) -> Option<TxnName>
        ensures { result ≡ newest_writer (versions_at self.now key).pairs }
    {
        match find_row(&self.rows, key, NOWHERE) {
            Ok(row) => self.chains.newest(row.undos),
            Err(_) => None,
        }
    }

    /// Takes the newest write of the key's row back, if there is one.
    pub fn undo_newest(&mut self, key: Key)
        ensures undone { ChangesKey self.old self.new key (undone (versions_at self.old key)) }
        ensures spare { self.old.spare ≤ self.new.spare }
    {
        self.is_segment();
        match self.newest(key) {
            Some(by) => self.undo(key, by),
            None => {}
        }
    }

    /// Takes a transaction's touch of the key's row away, if there are such a row and touch.
    pub fn untouch_row(&mut self, key: Key, by: TxnName)
        ensures untouched { ChangesKey self.old self.new key (untouched by (versions_at self.old key)) }
        ensures spare { self.old.spare ≤ self.new.spare }
    {
        self.is_segment();
        if self.has_row(key) {
            self.untouch(key, by);
        }
    }
}
