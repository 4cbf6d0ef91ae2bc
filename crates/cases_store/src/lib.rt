//! Worked cases of `store_rule`: two threads on the cells of one store.
#![tactic(auto)]

pub mod below;
mod cell;
#[cfg(test)]
mod tests;
mod visits;

pub use cell::{change_cell, visit};
pub use visits::{Visited, visit_by_two};
