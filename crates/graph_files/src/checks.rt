//! What the lines of an edge file are checked against.
//!
//! 1. One value goes through all readers of lines, so that they check alike.

use crate::weights::Weights;
use graph_model::Kind;
use id_places::IdTable;

/// The ids of the graph, its kind, what its weights are, and how many edges there may be.
#[derive(Drop)]
pub(crate) struct Checks {
    /// The ids of the graph, for the ends of edges.
    pub known: IdTable,
    /// Whether an edge may be listed in both directions.
    pub kind: Kind,
    /// What a third field says.
    pub weights: Weights,
    /// How many edges there may be.
    pub most: u64,
}
