//! The best of some rounds.

use std::time::Duration;

/// The least that a round took, in nanoseconds.
#[derive(Clone, Copy)]
pub struct LeastTime {
    nanoseconds: u128,
}

impl LeastTime {
    /// Before the first round.
    pub fn new() -> LeastTime {
        LeastTime {
            nanoseconds: u128::MAX,
        }
    }

    pub fn add(&mut self, took: Duration) {
        self.nanoseconds = self.nanoseconds.min(took.as_nanos());
    }

    /// How many a second these are.
    pub fn rate(&self, count: u64) -> u128 {
        u128::from(count).saturating_mul(1_000_000_000) / self.nanoseconds.max(1)
    }

    /// How many nanoseconds each of these took.
    pub fn each(&self, count: u64) -> u128 {
        self.nanoseconds / u128::from(count.max(1))
    }
}
