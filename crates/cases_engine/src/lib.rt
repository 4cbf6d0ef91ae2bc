//! Worked cases of the engine of one owner: short runs by its calls.
//!
//! 1. The expected answers were worked out by hand, and never taken from a run.
//! 2. A run is a function over the traits of engines, whose contracts are small, and the engine is its own. A proof
//!    that sees the store itself, or lends it, takes many times as long. So a test makes an engine, hands it over, and
//!    compares what the run was answered.
#![tactic(auto)]

#[cfg(test)]
mod config;
#[cfg(test)]
mod leaf_engine;
#[cfg(test)]
mod merges;
#[cfg(test)]
mod passes;
#[cfg(test)]
mod sweeps;
#[cfg(test)]
mod transactions;
