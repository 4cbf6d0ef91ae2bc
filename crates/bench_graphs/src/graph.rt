//! A graph made from a seed.

ghost use Rattle.std.specs.Prelude.{◌≡◌, ◌<◌, IfOk};
ghost use Rattle.std.specs.List.{AllByRecursion};
ghost use Rattle.bench_graphs.specs.Loadable.{IsLoadableGraph};
ghost use Rattle.graph_model.specs.Graph.{empty_graph};
ghost use Rattle.graph_model.specs.Loading.{IsAdd};
ghost use Rattle.graph_model.specs.Refused.{AllAllowed, IsWithinLimits};
ghost use Rattle.graph_model.specs.declared.write.Kind.TheVariants.{Undirected};
ghost use Rattle.graphalytics_io.specs.Load.{load_of};

use crate::rmat::{DrawnEnds, edge_text};
use anyhow::Result;
use graph_files::{Weights, files_are_loadable, load_is_legal, read_edges, read_vertices};
use graph_maker::make_graph;
use graph_model::{Ids, Kind, MAX_LOAD_ROWS, NoMemory, Writes};
use graphalytics_io::{Edges, writes_of};
use std::alloc::Global;

/// The ids and the edges of a graph.
#[derive(Drop)]
pub struct Graph {
    pub ids: Ids,
    pub edges: Edges,
}

impl Graph {
    /// The writes of a transaction that adds the vertices and then the edges.
    pub fn load(&self, alloc: Global) -> Result<Writes, NoMemory>
        requires { IsLoadableGraph self.now }
        ensures adds { IfOk result (λ load. AllByRecursion IsAdd load) }
        ensures allowed { IfOk result (λ load. AllAllowed Undirected empty_graph load) }
        ensures within { IfOk result (λ load. AllByRecursion IsWithinLimits load) }
    {
        writes_of(alloc, &self.ids, &self.edges)
    }
}

/// A graph of so many vertices, from 1 on, and about so many edges, in no order.
pub fn made_graph(alloc: Global, seed: u64, vertices: u32, edges: u32) -> Result<Graph>
    requires { 0 < vertices }
    ensures { IfOk result IsLoadableGraph }
{
    let made = make_graph(alloc, seed, vertices, edges)?;
    graph_of(alloc, made.vertices.as_slice(), made.edges.as_slice())
}

/// A graph of so many vertices, from 1 on, and these edges.
pub fn drawn_graph(alloc: Global, vertices: u32, edges: &[DrawnEnds]) -> Result<Graph>
    requires { 0 < vertices }
    ensures { IfOk result IsLoadableGraph }
{
    let made = make_graph(alloc, 0, vertices, 0)?;
    let text = edge_text(alloc, edges)?;
    graph_of(alloc, made.vertices.as_slice(), text.as_slice())
}

/// What the texts of a graph's files stand for.
fn graph_of(alloc: Global, vertices: &[u8], edges: &[u8]) -> Result<Graph>
    ensures { IfOk result IsLoadableGraph }
{
    files_are_loadable();
    load_is_legal();
    let ids = read_vertices(alloc, vertices, MAX_LOAD_ROWS)?;
    let edges = read_edges(
        alloc,
        edges,
        &ids,
        Kind::Undirected,
        Weights::Ones,
        MAX_LOAD_ROWS,
    )?;
    Ok(Graph { ids, edges })
}
