//! A buffer for the rows of one segment.
//!
//! 1. It has room for as many rows as a segment may have, so those of one segment always fit.

ghost use Rattle.std.specs.Prelude.{◌≡◌, ◌<◌, ◌==◌, [], ◌∷◌, ◌++◌, length};
ghost use Rattle.row_table.specs.Rows.{with_row};

use graph_model::{Key, Row};
use std::marker::Model;

/// At most 32 rows. Takes no memory beside itself.
#[derive(Drop)]
pub struct Rows32 {
    rows: [Row; 32],
    len: usize,
}

impl Model for Rows32 {
    ghost use Rattle.std.specs.Prelude.{◌≡◌, ◌≤◌, List, length, take};
    ghost use Rattle.graph_model.specs.declared.row.Row.{Row};

    ghost Value = { List Row };

    ghost view = { λ a. take a.len a.rows };

    ghost invariant = { λ a. (a.len ≤ 32) × (length a.rows ≡ 32) };
}

impl Rows32 {
    /// An empty buffer.
    pub fn new() -> Rows32
        ensures { result ≡ [] }
    {
        let blank = Row {
            key: Key::END,
            weight: 0,
        };
        Rows32 {
            rows: [blank; 32],
            len: 0,
        }
    }

    /// Empties the buffer.
    pub fn clear(&mut self)
        ensures { self.new ≡ [] }
    {
        self.len = 0;
    }

    /// Appends a row, where there is room.
    pub fn push(&mut self, row: Row)
        requires { length self.old < 32 }
        ensures { self.new ≡ self.old ++ row ∷ [] }
    {
        self.rows[self.len] = row;
        self.len += 1;
    }

    /// Appends a row with this value, if there is one.
    pub(crate) fn push_value(&mut self, key: Key, value: Option<u64>)
        requires { length self.old < 32 }
        ensures { self.new ≡ self.old ++ with_row key value [] }
    {
        if let Some(weight) = value {
            self.push(Row { key, weight });
        }
    }

    pub fn len(&self) -> usize
        ensures { result ≡ length self.now }
    {
        self.len
    }

    pub fn is_empty(&self) -> bool
        ensures { result ≡ (length self.now == 0) }
    {
        self.len == 0
    }

    /// Lends the rows.
    pub fn as_slice(&self) -> &[Row]
        ensures { result.now ≡ self.now }
    {
        &self.rows[..self.len]
    }
}
