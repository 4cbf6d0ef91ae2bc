//! Where a read looks, and what it answers.
//!
//! 1. A try that came to nothing says which cell and which words it found, by which a test tells that it was busy.

use graph_model::Key;

/// The cell in which a key is read: the one that the index had for it, or that a hint names.
#[derive(Clone, Copy, Debug, PartialEq, Eq)]
pub struct CellRoute {
    /// The number of the cell.
    pub cell: u32,
}

/// What one try to read without a latch has found.
#[derive(Clone, Copy, Debug, PartialEq, Eq)]
pub enum Tried {
    /// The value in the transaction's view: the weight of an arc, 0 for a vertex, or none.
    Value { weight: Option<u64> },
    /// Somebody changes the cell, or has changed it meanwhile: the two version words that this call found, or the odd
    /// one twice.
    Busy { cell: u32, first: u64, second: u64 },
    /// The key's row has undo records, which only whoever holds the cell may read.
    Chained { cell: u32, key: Key },
    /// The cell has other keys, between these fence keys.
    Moved { low: Key, high: Key },
}

/// What one try to read a run of rows without a latch has found.
#[derive(Clone, Copy, Debug, PartialEq, Eq)]
pub enum TriedRun {
    /// All rows of the transaction's view from the first key on and before this one. It is the last key that was asked
    /// for, or the cell's high fence key, or where the buffer is full the next row's.
    Rows { end: Key },
    /// Somebody changes the cell, or has changed it meanwhile: the two version words that this call found, or the odd
    /// one twice.
    Busy { cell: u32, first: u64, second: u64 },
    /// All rows of the view from the first key on and before this one, whose row has undo records, which only whoever
    /// holds the cell may read; and the end that the run has.
    Chained { key: Key, end: Key },
    /// The cell has other keys than the first one, between these fence keys.
    Moved { low: Key, high: Key },
}
