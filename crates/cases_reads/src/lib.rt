//! Worked cases of reads without a latch.
#![tactic(auto)]

mod busy;
mod routes;
mod rows;
mod settled;
#[cfg(test)]
mod tests;
mod txns;

pub use busy::ReadHeldCell;
pub use routes::{OldRoute, run_with_route};
pub use rows::{ReadOwnWrite, ReadRuns, ReadSettled};
pub use settled::AddAndServe;
pub use txns::{FoundRun, route_of, run_in, tried_in};
