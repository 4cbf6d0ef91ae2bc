//! The words after the program's name.
//!
//! 1. Pauses are in milliseconds, and 0 where none is stated.

use anyhow::{Context, Result, bail};
use std::alloc::Global;
use std::env;
use std::env::Env;

/// Which transfers come in, and how fast.
#[derive(Drop)]
pub struct Words {
    /// The file of the transfers.
    pub transfers: String,
    /// How long a clerk waits after each of its transfers, in milliseconds.
    pub between_transfers: u64,
    /// How long the watcher waits after each look, in milliseconds.
    pub between_looks: u64,
}

/// The words: a file, and two numbers of milliseconds, which are 0 where they aren't there.
pub fn read_words<R: Env + Alloc<A = Global>>(rt: &R) -> Result<Words> {
    let mut words = env::args(rt)?.skip(1);
    let Some(transfers) = words.next() else {
        bail!("call it as desk FILE [MILLISECONDS [MILLISECONDS]]");
    };
    let between_transfers = milliseconds(words.next())?;
    let between_looks = milliseconds(words.next())?;
    Ok(Words {
        transfers,
        between_transfers,
        between_looks,
    })
}

/// So many milliseconds, or none.
fn milliseconds(word: Option<String>) -> Result<u64> {
    match word {
        Some(word) => Ok(word.parse().context("not a number")?),
        None => Ok(0),
    }
}
