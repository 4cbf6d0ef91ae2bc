//! Changed rows as they lie in memory.
//!
//! 1. Links have six bytes each, since no block has 2^48 records, and a place among 32 rows needs one: an entry has 16
//!    bytes, and four lie in a line of the cache.
//! 2. What is packed is told back exactly.

ghost use Rattle.std.specs.Prelude.{◌≡◌, ◌+◌, ◌-◌, ◌<◌, ◌≤◌};

use crate::heads::Heads;
use std::marker::Model;
use undo_chain::Link;

/// The heads of a row in 14 bytes.
#[derive(Drop)]
pub struct PackedHeads {
    /// The newest record of a value before.
    undos: Link,
    /// The newest record of a touch.
    touches: Link,
    /// Whether the row has a value.
    has_value: bool,
}

impl Model for PackedHeads {
    ghost use Rattle.head_map.specs.declared.heads.Heads.{Heads};

    ghost Value = { Heads };

    ghost view = { λ p. record { has_value = p.has_value; undos = p.undos; touches = p.touches } };
}

impl PackedHeads {
    pub fn new(has_value: bool, undos: Link, touches: Link) -> PackedHeads
        ensures { result ≡ record { has_value = has_value; undos = undos; touches = touches } }
    {
        PackedHeads {
            undos,
            touches,
            has_value,
        }
    }

    pub fn heads(&self) -> Heads
        ensures { result ≡ self.now }
    {
        Heads {
            has_value: self.has_value,
            undos: self.undos.key(),
            touches: self.touches.key(),
        }
    }
}

/// A changed row in 16 bytes: its heads, and its place among the rows.
#[derive(Drop)]
pub struct PackedRow {
    /// Where its records begin.
    heads: PackedHeads,
    /// Its place among the rows of the segment, below 32.
    place: u8,
}

impl Model for PackedRow {
    ghost use Rattle.head_map.specs.Heads.{PlacedRow};

    ghost Value = { PlacedRow };

    ghost view = { λ p. record { place = p.place; heads = p.heads } };
}

impl PackedRow {
    pub fn new(place: usize, heads: PackedHeads) -> PackedRow
        requires { place < 256 }
        ensures { result ≡ record { place = place; heads = heads } }
    {
        PackedRow {
            heads,
            place: place as u8,
        }
    }

    pub fn place(&self) -> usize
        ensures { result ≡ self.now.place }
    {
        self.place as usize
    }

    pub fn heads(&self) -> Heads
        ensures { result ≡ self.now.heads }
    {
        self.heads.heads()
    }

    pub fn set_heads(&mut self, heads: PackedHeads)
        ensures { self.new ≡ record self.old { heads = heads } }
    {
        self.heads = heads;
    }

    /// Moves the row so many places up.
    pub fn raise(&mut self, by: usize)
        requires { self.old.place + by < 256 }
        ensures { self.new ≡ record self.old { place = self.old.place + by } }
    {
        self.place = (self.place as usize + by) as u8;
    }

    /// Moves the row so many places down.
    pub fn lower(&mut self, by: usize)
        requires { by ≤ self.old.place }
        ensures { self.new ≡ record self.old { place = self.old.place - by } }
    {
        self.place = (self.place as usize - by) as u8;
    }
}
