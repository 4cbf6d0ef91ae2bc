//! The graph of any journal, in ordered maps.
//!
//! 1. Nothing is asked of the journal. So a write may add what is there, or drop what isn't, and an arc may lead from a
//!    vertex to itself, or to none.
#![tactic(auto)]

mod counts;
mod graph;

pub use counts::{GraphCounts, count_graph};
pub use graph::PlainGraph;
