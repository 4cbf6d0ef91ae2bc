//! A graph with the changes that are timed on it.

ghost use Rattle.std.specs.Prelude.{◌<◌, IfOk};
ghost use Rattle.bench_graphs.specs.Loadable.{IsLoadableGraph};

use crate::edits::{Edit, edits_of, spread_edits};
use crate::graph::{Graph, drawn_graph, made_graph};
use crate::rmat::drawn_ends;
use anyhow::Result;
use std::alloc::Global;

/// The greatest number of vertices, edges or transactions.
const MOST: u64 = 4_000_000;

/// A graph and the changes of it that are timed.
#[derive(Drop)]
pub struct Workload {
    pub graph: Graph,
    pub edits: Vec<Edit>,
}

/// A graph of so many vertices and edges, and so many edits of it. Edges are drawn with the same chance for each pair
/// of vertices, or by R-MAT.
pub fn make_workload(
    alloc: Global,
    counts: [u64; 3],
    seed: u64,
    is_skewed: bool,
) -> Result<Workload>
    ensures { IfOk result (λ workload. IsLoadableGraph workload.graph) }
{
    let [vertices, edges, transactions] = counts;
    let vertices = count_of(vertices);
    let edits = count_of(transactions);
    if !is_skewed {
        let graph = made_graph(alloc, seed, vertices, count_of(edges))?;
        let edits = edits_of(alloc, &graph, vertices, edits, seed)?;
        return Ok(Workload { graph, edits });
    }
    let added = u64::from(edits / 2).saturating_add(1);
    let ends = drawn_ends(alloc, seed, vertices, edges.saturating_add(added))?;
    let (edges, others) = ends.as_slice().split_at((edges as usize).min(ends.len()));
    let graph = drawn_graph(alloc, vertices, edges)?;
    let edits = spread_edits(alloc, edges, others, edits)?;
    Ok(Workload { graph, edits })
}

/// A count, at least 1 and at most the greatest.
pub fn count_of(number: u64) -> u32
    ensures { 0 < result }
{
    number.min(MOST).max(1) as u32
}
