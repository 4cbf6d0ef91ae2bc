//! The run by turns that refuses each commit which would not leave a serial order.
//!
//! 1. A commit with writes is refused where a commit after the transaction's start wrote a row on which one of its
//!    lines depends.
//! 2. All else is a turn as in a run that refuses none.
#![tactic(auto)]

pub mod below;
mod engine;
mod run;

pub use engine::CheckedEngine;
pub use run::{RefusedCommit, run_serial};
