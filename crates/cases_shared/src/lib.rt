//! Worked cases of a store of many passes.
#![tactic(auto)]

mod begins;
pub mod below;
mod case;
mod clashes;
mod rows;
#[cfg(test)]
mod tests;
mod two;
mod txns;

pub use begins::EndTwice;
pub use case::{Case, run_case};
pub use clashes::AddTheSame;
pub use rows::{CommitThenLook, FillCell, ReadAroundSets};
pub use two::{Added, CommitByTwo};
pub use txns::{add_vertex, look_for, makes};
