//! Graphs made from a seed, as the two texts of a graph's files.
//!
//! 1. A graph is a function of its seed, its number of vertices and the number of edges asked for: `pairs_of` in
//!    `specs/`.
//! 2. Its edges join different vertices, and none comes twice. There may be fewer than were asked for.
#![tactic(auto)]

mod generate;
mod kept;
mod laws;
mod pair;
mod texts;

pub use generate::{MadeGraph, make_graph};
pub use laws::pairs_are_edges;
pub use pair::VertexPair;
