//! What the engines of a round have done.

use std::sync::atomic::{AtomicU64, Ordering};

/// What the engines of a round have done so far. Each adds what it has counted once it is through.
#[derive(Drop)]
pub struct RoundCounts {
    /// Reads that found an edge, rows of scans, or edges that were set, by those that work.
    done: AtomicU64,
    /// Edges that were set by those beside them.
    beside: AtomicU64,
    /// How many of those that work are through.
    through: AtomicU64,
}

impl RoundCounts {
    pub fn new() -> RoundCounts {
        RoundCounts {
            done: AtomicU64::new(0),
            beside: AtomicU64::new(0),
            through: AtomicU64::new(0),
        }
    }

    /// One of those that work is through, and has done so much. It counts as through once its work is counted.
    pub fn add_done(&self, count: u64) {
        self.done.fetch_add(count, Ordering::SeqCst);
        self.through.fetch_add(1, Ordering::SeqCst);
    }

    /// One of those beside them is through.
    pub fn add_beside(&self, count: u64) {
        self.beside.fetch_add(count, Ordering::SeqCst);
    }

    pub fn done(&self) -> u64 {
        self.done.load(Ordering::SeqCst)
    }

    pub fn beside(&self) -> u64 {
        self.beside.load(Ordering::SeqCst)
    }

    /// How many of those that work are through. Whoever finds too few goes on a little longer, which is harmless.
    pub fn through(&self) -> u64 {
        self.through.load(Ordering::SeqCst)
    }
}
