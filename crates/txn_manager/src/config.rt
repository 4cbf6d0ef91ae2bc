//! What a store is made with, what it counts, and why it isn't made or has no place for a row.
//!
//! 1. Each number has a limit, and is refused before memory is asked for it.

ghost use Rattle.std.specs.Prelude.{◌≡◌};

use graph_model::{Kind, MAX_LEAVES, MAX_PASSES, NoMemory};
use thiserror::Error;

/// What a store is made with.
#[derive(Clone, Copy, Debug, PartialEq, Eq)]
pub struct Config {
    /// Whether an edge is one arc or two.
    pub kind: Kind,
    /// How many leaves it has.
    pub leaves: u32,
    /// How many passes it has.
    pub passes: u32,
    /// How many transactions a pass may begin.
    pub txns_per_pass: u32,
}

impl Config {
    ghost use Rattle.txn_manager.specs.Config.{too_large};

    /// Whether no store is made so.
    pub fn is_too_large(&self) -> bool
        ensures { result ≡ too_large self.now }
    {
        self.leaves == 0
            || self.leaves > MAX_LEAVES
            || self.passes == 0
            || self.passes > MAX_PASSES
            || self.txns_per_pass == 0
    }
}

/// Why a store wasn't made.
#[derive(Clone, Copy, Debug, PartialEq, Eq, Error)]
pub enum StoreRefusal {
    /// A number of the configuration is 0, or above its limit.
    #[error("store too large")]
    TooLarge,
    /// Memory was refused, and there is no store.
    #[error("no memory")]
    NoMemory,
}

impl From<NoMemory> for StoreRefusal {
    ghost use Rattle.txn_manager.specs.declared.config.StoreRefusal.TheVariants as refusals;

    ghost from_gives = { λ _ refusal. refusal ≡ refusals.NoMemory };

    fn from(_refused: NoMemory) -> StoreRefusal {
        StoreRefusal::NoMemory
    }
}

/// Why no room was made for a row.
#[derive(Clone, Copy, Debug, PartialEq, Eq, Error)]
pub enum RoomRefusal {
    /// No place is left, and no leaf.
    #[error("full at {leaves} leaves")]
    Full { leaves: u32 },
    /// Memory was refused, and no row has moved.
    #[error("no memory")]
    NoMemory,
}

impl From<NoMemory> for RoomRefusal {
    ghost use Rattle.txn_manager.specs.declared.config.RoomRefusal.TheVariants as refusals;

    ghost from_gives = { λ _ refusal. refusal ≡ refusals.NoMemory };

    fn from(_refused: NoMemory) -> RoomRefusal {
        RoomRefusal::NoMemory
    }
}

/// What a store holds: vertices and edges of the newest graph, undo records, and leaves that aren't free yet.
#[derive(Clone, Copy, Debug, PartialEq, Eq)]
pub struct Totals {
    /// How many there are in the newest graph.
    pub vertices: u64,
    /// The same; an undirected edge counts once.
    pub edges: u64,
    /// How many undo records and touches there are.
    pub undo: u64,
    /// How many leaves are retired and not yet free.
    pub retired: u64,
}
