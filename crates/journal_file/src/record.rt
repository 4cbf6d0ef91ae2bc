//! A commit as bytes, laid aside before they are written.
//!
//! 1. All memory is taken here: an append writes bytes that are there, and takes none.
ghost use Rattle.std.specs.Prelude.{◌≡◌, ◌++◌, [], ◌∷◌, length, OnOk};
ghost use Rattle.std.specs.List.{flat_map};
ghost use Rattle.journal_file.specs.Format.{head_bytes, write_bytes, body, Fits};

use crate::bytes::{push_half, push_word, push_write};
use graph_model::{Commit, Write};
use items::NoMemory;
use std::alloc::Global;
use std::marker::Model;

/// The body of a commit with a closed gate after it. One record serves one commit after the other, so that its memory
/// is taken once.
#[derive(Drop)]
pub struct Record {
    /// As they stand in the file.
    bytes: Vec<u8>,
}

impl Model for Record {
    ghost use Rattle.std.specs.Prelude.{List, ℕ};

    ghost Value = { List ℕ };

    ghost view = { λ r. r.bytes.items };
}

impl Record {
    /// Bytes of no commit. Takes no memory.
    pub fn new(alloc: Global) -> Record
        ensures { result ≡ [] }
    {
        Record {
            bytes: Vec::new(alloc),
        }
    }

    /// Lends the bytes.
    pub fn as_slice(&self) -> &[u8]
        ensures { result.now ≡ self.now }
    {
        self.bytes.as_slice()
    }

    /// Lays the bytes of a commit aside, in place of those that were there. After a refusal they are of no commit.
    pub fn lay(&mut self, commit: &Commit) -> Result<(), NoMemory>
        ensures bytes { OnOk result (self.new ≡ body commit.now ++ 0 ∷ []) }
        ensures fits { OnOk result (Fits commit.now) }
    {
        self.bytes.clear();
        push_head(&mut self.bytes, commit)?;
        push_writes(&mut self.bytes, commit.writes.as_slice())?;
        self.bytes.push(0)?;
        Ok(())
    }
}

/// Puts the bytes of the writes at the end.
fn push_writes(bytes: &mut Vec<u8>, writes: &[Write]) -> Result<(), NoMemory>
    ensures { OnOk result (bytes.new.items ≡ bytes.old.items ++ flat_map write_bytes writes.now) }
{
    'writes: for write in writes {
        push_write(bytes, *write)?;
    }
    Ok(())
}

/// Puts the bytes before a commit's writes at the end.
fn push_head(bytes: &mut Vec<u8>, commit: &Commit) -> Result<(), NoMemory>
    ensures bytes { OnOk result (bytes.new.items ≡ bytes.old.items ++ head_bytes commit.now) }
    ensures fits { OnOk result (Fits commit.now) }
{
    push_word(bytes, commit.stamp)?;
    push_word(bytes, commit.start)?;
    push_half(bytes, commit.by.job)?;
    push_half(bytes, commit.by.number)?;
    push_word(bytes, commit.writes.len() as u64)?;
    Ok(())
}
