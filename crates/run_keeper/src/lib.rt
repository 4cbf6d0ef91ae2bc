//! A run by turns whose commits are kept in a journal file.
//!
//! 1. After each turn the file gets the commits that it doesn't have. So it has all of them before the next turn
//!    begins, and a run that ends well has had each of them acknowledged.
//! 2. The run ends with the first commit that isn't kept. Nothing is added to the file then.
#![tactic(auto)]

mod engine;
mod keeper;
mod run;

pub use engine::JournalEngine;
pub use keeper::{KeepRefusal, Keeper};
pub use run::run_kept;
