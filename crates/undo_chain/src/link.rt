//! Keys of records in 48 bits.
//!
//! 1. Three parts of 16 bits keep a link at six bytes with no padding, so an entry of heads has 16 and a record 32.

ghost use Rattle.std.specs.Prelude.{◌≡◌, ◌≤◌, Some, None};
ghost use Rattle.undo_chain.specs.declared.link.TheConstants.{MOST_RECORDS};
ghost use Rattle.undo_chain.specs.Packed.{IsNameable};

use std::marker::Model;

/// How many records one block has at most, which is what 48 bits can name. So many records, of 32 bytes
/// each, would take more than the 47 bits of address space that a program has, so there is no memory for more.
pub const MOST_RECORDS: usize = 281474976710654;

/// The key of a record, or none, in six bytes: one more than the key, or zero, in three parts of 16 bits.
#[derive(Drop)]
pub struct Link {
    /// The lowest 16 bits.
    low: u16,
    /// The next 16.
    middle: u16,
    /// The highest 16.
    high: u16,
}

impl Model for Link {
    ghost use Rattle.std.specs.Prelude.{ℕ, Option};
    ghost use Rattle.undo_chain.specs.Packed.{key_in};

    ghost Value = { Option ℕ };

    ghost view = { λ l. key_in l.low l.middle l.high };
}

impl Link {
    /// No key.
    pub fn none() -> Link
        ensures { result ≡ None }
    {
        Link {
            low: 0,
            middle: 0,
            high: 0,
        }
    }

    /// A link to a key.
    pub(crate) fn new(key: Option<usize>) -> Link
        requires { IsNameable key }
        ensures { result ≡ key }
    {
        match key {
            Some(key) => Link::to(key),
            None => Link::none(),
        }
    }

    fn to(key: usize) -> Link
        requires { key ≤ MOST_RECORDS }
        ensures { result ≡ Some key }
    {
        let number = key + 1;
        let upper = number / 65536;
        Link {
            low: (number % 65536) as u16,
            middle: (upper % 65536) as u16,
            high: (upper / 65536) as u16,
        }
    }

    /// The key.
    pub fn key(&self) -> Option<usize>
        ensures { result ≡ self.now }
    {
        let upper = self.middle as usize + 65536 * self.high as usize;
        let number = self.low as usize + 65536 * upper;
        if number == 0 {
            return None;
        }
        Some(number - 1)
    }
}
