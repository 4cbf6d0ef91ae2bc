//! What the bytes of a body stand for.
//!
//! 1. A body whose stamp isn't the next one, or whose start isn't below it, is no commit, whatever its gate says.
ghost use Rattle.std.specs.Prelude.{◌≡◌, ◌*◌, ◌≤◌, length, IfOk};
ghost use Rattle.journal_file.specs.Reading.{head_of, is_next, writes_of};

use crate::bytes::{WRITE_LEN, half_at, word_at, write_of};
use graph_model::Writes;
use items::NoMemory;
use std::alloc::Global;

/// What stands before the writes of a commit.
#[derive(Clone, Copy, Debug, PartialEq, Eq)]
pub struct CommitHead {
    /// The stamp of the commit.
    pub stamp: u64,
    /// The start of its transaction.
    pub start: u64,
    /// The number of its pass.
    pub job: u32,
    /// Which of the pass's transactions it was.
    pub number: u32,
    /// How many writes there are.
    pub count: u64,
}

impl CommitHead {
    /// Whether the stamp is the next one, the start is below it, and something was written.
    pub(crate) fn is_next(&self, stamp: u64) -> bool
        ensures { result ≡ is_next stamp self.now }
    {
        self.stamp == stamp && (self.start < stamp && self.count != 0)
    }
}

/// The head of a body.
pub(crate) fn head_of(bytes: &[u8]) -> CommitHead
    requires { 32 ≤ length bytes.now }
    ensures { result ≡ head_of bytes.now }
{
    CommitHead {
        stamp: word_at(bytes, 0),
        start: word_at(bytes, 8),
        job: half_at(bytes, 16),
        number: half_at(bytes, 20),
        count: word_at(bytes, 24),
    }
}

/// So many writes, or none where one of them breaks a rule.
pub(crate) fn writes_of(
    alloc: Global,
    count: usize,
    bytes: &[u8],
) -> Result<Option<Writes>, NoMemory>
    requires { length bytes.now ≡ 25 * count }
    ensures { IfOk result (λ writes. writes ≡ writes_of count bytes.now) }
{
    let mut writes = Vec::with_capacity(alloc, count)?;
    'writes: for place in 0..count {
        let at = WRITE_LEN * place;
        match write_of(&bytes[at..at + WRITE_LEN]) {
            Some(write) => writes.push(write)?,
            // One write that breaks a rule makes the whole body none: half a transaction is never read.
            None => return Ok(None),
        }
    }
    Ok(Some(Writes::from_vec(writes)))
}
