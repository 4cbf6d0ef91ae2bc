//! What became of changes.

use std::sync::atomic::{AtomicU64, Ordering};

/// How many changes were made, how many found no place for a row in its cell, and how many were refused. Threads add
/// what they have counted once they are through.
#[derive(Drop)]
pub struct EditCounts {
    made: AtomicU64,
    crowded: AtomicU64,
    refused: AtomicU64,
}

/// How many changes of a thread were made, found no place, and were refused.
#[derive(Clone, Copy, Debug, PartialEq, Eq)]
pub struct Tally {
    pub made: u64,
    pub crowded: u64,
    pub refused: u64,
}

impl EditCounts {
    pub fn new() -> EditCounts {
        EditCounts {
            made: AtomicU64::new(0),
            crowded: AtomicU64::new(0),
            refused: AtomicU64::new(0),
        }
    }

    pub fn add(&self, tally: Tally) {
        self.made.fetch_add(tally.made, Ordering::SeqCst);
        self.crowded.fetch_add(tally.crowded, Ordering::SeqCst);
        self.refused.fetch_add(tally.refused, Ordering::SeqCst);
    }

    pub fn tally(&self) -> Tally {
        Tally {
            made: self.made.load(Ordering::SeqCst),
            crowded: self.crowded.load(Ordering::SeqCst),
            refused: self.refused.load(Ordering::SeqCst),
        }
    }
}
