//! Graphs made from a seed, and changes of their edges, for programs that time stores.
#![tactic(auto)]

mod edits;
mod graph;
mod rmat;
mod workload;

pub use edits::{Act, Edit, settings_of};
pub use graph::{Graph, made_graph};
pub use workload::{Workload, count_of, make_workload};
