//! The words of a store of many threads: its account table, and the steps of seats on it.
//!
//! 1. The table's rule is that of `rule_model`. Each call here that loads or stores a word is one of its kinds of step,
//!    and tells what that kind tells.
//! 2. All atomic operations of the store stand in this crate, but for those on latches and pins.
//! 3. A seat takes no bytes: it is what its owner knows.
#![tactic(auto)]

mod accounts;
mod ahead;
mod blocks;
mod first;
mod lines;
mod loads;
mod notes;
mod pack;
mod reads;
mod rule;
mod spell;
mod steps;

pub use accounts::Accounts;
pub use first::{Begins, first_seat};
pub use lines::Block;
pub use notes::{Cut, Cuts, TakesIn};
pub use rule::{Account, AccountRule, AccountSight, Beginning};
pub use steps::{Turn, Turns};
