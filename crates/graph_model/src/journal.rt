//! Commits, and the journal of them.
//!
//! These types hold any stamps, starts and writes. Which journals there may be is `IsLegal`: whoever
//! makes one proves it, and whoever is handed one may ask for it.

use crate::write::Writes;
use items::{Items, RoomyItems};

/// A transaction's name: the number of its script or pass, and its own number there, from 1. The
/// load is `0.1`.
#[derive(Clone, Copy, Debug, PartialEq, Eq)]
pub struct TxnName {
    /// The number of its script or pass; 0 for the load.
    pub job: u32,
    /// Which of its transactions it is, from 1.
    pub number: u32,
}

/// What `begin` answers.
#[derive(Clone, Copy, Debug, PartialEq, Eq)]
pub struct Begun {
    /// The name of the transaction.
    pub by: TxnName,
    /// How many commits it sees.
    pub start: u64,
}

/// A committed transaction: its commit stamp, its start stamp, its name and its writes.
#[derive(Drop)]
pub struct Commit {
    /// Its place in the journal, from 1.
    pub stamp: u64,
    /// How many commits the transaction saw.
    pub start: u64,
    /// The name of the transaction.
    pub by: TxnName,
    /// In the order in which they were made.
    pub writes: Writes,
}

/// The commits in the order of their stamps, which are 1, 2, 3 and so on.
pub type Journal = Items<Commit>;

/// The same with the room that is left seen beside them, for an owner whose commits must take no
/// memory.
pub type RoomyJournal = RoomyItems<Commit>;
