//! How large the graph of a journal is.
//!
//! 1. All commits are made once more, in ordered maps: what is told of a journal rests on no store.

ghost use Rattle.std.specs.Prelude.{◌≡◌, IfOk};
ghost use Rattle.plain_graph.specs.Counting.{counts_of};

use crate::graph::PlainGraph;
use graph_model::{Commit, Kind};
use items::NoMemory;
use std::alloc::Global;

/// How many vertices and edges a graph has. An edge without a direction, which is two arcs, counts once.
#[derive(Clone, Copy, Debug, PartialEq, Eq)]
pub struct GraphCounts {
    /// How many vertices there are.
    pub vertices: u64,
    /// How many edges there are.
    pub edges: u64,
}

/// How large the graph of the whole journal is.
pub fn count_graph(alloc: Global, kind: Kind, journal: &[Commit]) -> Result<GraphCounts, NoMemory>
    ensures { IfOk result (λ counts. counts ≡ counts_of kind journal.now) }
{
    let mut graph = PlainGraph::new(alloc, kind);
    'commits: for commit in journal {
        graph.apply_all(commit.writes.as_slice())?;
    }
    Ok(GraphCounts {
        vertices: graph.vertices.len() as u64,
        edges: graph.edge_count() as u64,
    })
}
