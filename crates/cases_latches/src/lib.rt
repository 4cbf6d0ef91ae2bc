//! Worked cases of latches and pins: two threads on one table.
#![tactic(auto)]

mod counters;
mod counting;
mod retired;
#[cfg(test)]
mod tests;

pub use counters::{Counter, add, count_of, even_out, lists_for_two};
pub use counting::{Opened, count_by_two, open, share_seven, want_by_two};
pub use retired::{AnyStep, RetiredBuffer, reclaim, reclaim_three_times};
