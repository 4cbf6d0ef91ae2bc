//! The vertex and edge files of LDBC Graphalytics in their usual form: comments, blank lines, runs of blanks, carriage
//! returns, directed and undirected graphs, decimal weights. A file that is refused is refused for its first fault.
//!
//! 1. What a text stands for, or its first fault, is one function of the text, defined apart from the code that reads.
//! 2. A line is checked after the lines before it, and the first check that it fails is its fault.
//! 3. A text is lent: nothing of it is copied but what it stands for.
#![tactic(auto)]

mod beside;
mod checks;
mod edges;
mod ends;
mod faultless;
mod halves;
mod laws;
mod listings;
mod refusal;
mod room;
mod seconds;
mod vertices;
mod weights;

pub use beside::read_side_by_side;
pub use edges::{edges_of_front, read_edges};
pub use faultless::Front;
pub use laws::{files_are_loadable, load_is_its_graph, load_is_legal};
pub use refusal::{Fault, ReadRefusal, What};
pub use vertices::read_vertices;
pub use weights::Weights;
