//! Scans over lent runs: what a run of rows adds to the buffer, and where the scan goes on.
//!
//! 1. A cursor keeps a key and no position, so the rows may move between two steps.
//! 2. Each step goes on from where the one before it stopped: no row is lost, and none is given twice.
#![tactic(auto)]

mod laws;
mod run;

pub use laws::steps_make_a_scan;
pub use run::step;
