//! Texts that grow at their ends.
//!
//! 1. A text is bytes: what is written there is ASCII, and nobody asks for characters.
//! 2. A number is written into room on the stack and copied, so it takes no memory of its own.

ghost use Rattle.std.specs.Prelude.{◌≡◌, ◌==◌, ℕ, List, [], ◌++◌, length, take, decimal, IfOk, OnOk, OnErr};

use items::{Items, NoMemory};
use itoa::Buffer;
use std::alloc::Global;
use std::marker::Model;

/// The bytes of a file.
#[derive(Drop)]
pub struct Text {
    /// All bytes so far.
    bytes: Vec<u8>,
}

impl Model for Text {
    ghost use Rattle.std.specs.Prelude.{ℕ, List};

    ghost Value = { List ℕ };

    ghost view = { λ text. text.bytes.items };
}

impl Text {
    /// No bytes. Takes no memory.
    pub fn new(alloc: Global) -> Text
        ensures { result ≡ [] }
    {
        Text {
            bytes: Vec::new(alloc),
        }
    }

    /// No bytes, with room for so many.
    pub fn with_capacity(alloc: Global, bytes: usize) -> Result<Text, NoMemory>
        ensures { IfOk result (λ text. text ≡ []) }
    {
        Ok(Text {
            bytes: Vec::with_capacity(alloc, bytes)?,
        })
    }

    /// The bytes of a vector. Takes no memory.
    pub fn from_vec(bytes: Vec<u8>) -> Text
        ensures { result ≡ bytes.items }
    {
        Text { bytes }
    }

    /// The list of the bytes. Takes no memory.
    pub fn into_items(self) -> Items<u8>
        ensures { result ≡ self }
    {
        Items::from_vec(self.bytes)
    }

    /// The vector of the bytes. Takes no memory.
    pub fn into_vec(self) -> Vec<u8>
        ensures { result.items ≡ self }
    {
        self.bytes
    }

    pub fn len(&self) -> usize
        ensures { result ≡ length self.now }
    {
        self.bytes.len()
    }

    pub fn is_empty(&self) -> bool
        ensures { result ≡ (length self.now == 0) }
    {
        self.bytes.is_empty()
    }

    /// Lends the bytes.
    pub fn as_slice(&self) -> &[u8]
        ensures { result.now ≡ self.now }
    {
        self.bytes.as_slice()
    }

    /// Writes bytes at the end.
    pub fn push_bytes(&mut self, bytes: &[u8]) -> Result<(), NoMemory>
        ensures ok { OnOk result (self.new ≡ self.old ++ bytes.now) }
        ensures err { OnErr result (self.new ≡ self.old) }
    {
        self.bytes.extend_from_slice(bytes)?;
        Ok(())
    }

    /// Writes a number in decimal at the end, without leading zeros.
    pub fn push_number(&mut self, n: u64) -> Result<(), NoMemory>
        ensures ok { OnOk result (self.new ≡ self.old ++ decimal n) }
        ensures err { OnErr result (self.new ≡ self.old) }
    {
        let mut buffer = Buffer::new();
        self.push_bytes(buffer.format(n).as_bytes())
    }

    /// Keeps the first bytes alone, so many.
    pub fn truncate(&mut self, len: usize)
        ensures { self.new ≡ take len self.old }
    {
        self.bytes.truncate(len);
    }
}
