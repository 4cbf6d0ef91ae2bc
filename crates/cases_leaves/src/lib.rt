//! Worked cases of the leaves of a store: rows that come and go, windows of segments, and hints of the index.
//!
//! 1. The expected answers were worked out by hand, and never taken from a run.
//! 2. A case is a function over a trait whose calls have no contracts, and the store is its own. A proof that sees the
//!    store itself, or lends it, takes many times as long. So a test makes a store and hands it over.
#![tactic(auto)]

#[cfg(test)]
mod fills;
#[cfg(test)]
mod hints;
#[cfg(test)]
mod merges;
#[cfg(test)]
mod vertex_store;
#[cfg(test)]
mod windows;
