//! The best of some rounds of calls.

use anyhow::Result;
use std::time::Duration;

/// How many calls a round has, and how many rounds there are of them. A round takes some milliseconds, so most are
/// not interrupted.
pub const CALLS: u64 = 50_000;

pub const ROUNDS: u64 = 40;

/// The least that a call took in one of the rounds so far, in picoseconds, and the sum of what all calls gave.
#[derive(Clone, Copy)]
pub struct BestCall {
    picoseconds: u128,
    sum: u64,
}

impl BestCall {
    /// Before the first round.
    pub fn new() -> BestCall {
        BestCall {
            picoseconds: u128::MAX,
            sum: 0,
        }
    }

    /// Adds a round of so many calls, and the sum of what they gave.
    pub fn add(&mut self, took: Duration, calls: u64, sum: u64) {
        let each = took.as_nanos().saturating_mul(1000) / u128::from(calls.max(1));
        self.picoseconds = self.picoseconds.min(each);
        self.sum = self.sum.wrapping_add(sum);
    }

    /// Prints the part's name, the nanoseconds of a call to a tenth, and the sum.
    pub fn say(&self, rt: &impl Print, name: &str) -> Result<()> {
        let tenths = self.picoseconds / 100;
        println!(rt; "{name} {}.{} {}", tenths / 10, tenths % 10, self.sum)?;
        Ok(())
    }
}
