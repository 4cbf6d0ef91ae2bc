//! What a seat of the latch table knows.
//!
//! 1. A seat knows which cells its pass holds, and what it has found of others' words, which may be past.

use std::collections::LinkedList;

/// The version word of a cell, as a step found or stored it.
pub struct CellWord {
    /// The number of the cell.
    pub cell: u32,
    /// Odd while somebody holds it.
    pub word: u64,
}

/// What a seat knows. No value of it is made: it stands in proofs alone, and takes no bytes.
pub struct LatchSight<K> {
    /// What the table was told when it was made.
    pub key: Option<K>,
    /// The passes of the seat by number, each with the cells that it holds, news first.
    pub passes: LinkedList<(u32, LinkedList<u32>)>,
    /// The words that loads and compare-exchanges found, the newest first.
    pub looks: LinkedList<CellWord>,
    /// The words that stores left, the newest first.
    pub stored: LinkedList<CellWord>,
}
