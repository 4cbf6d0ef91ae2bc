//! Worked cases of workers of a shared store.
//!
//! 1. What a worker does is a function over the traits of engines, whose contracts are small.
//! 2. The expected answers were worked out by hand, and never taken from a run.
#![tactic(auto)]

pub mod below;
mod case;
mod rows;
#[cfg(test)]
mod tests;
mod three;

pub use case::{EngineCase, leave, put_last, run_case, take_last};
pub use rows::{AddEachSecond, AddVertices, BeginOften, CutBack, ScanOften, ServeOften};
pub use three::run_together;
