//! A graph in ordered maps.
//!
//! 1. It has no transactions and no versions, and serves where a journal is read back: what its commits leave is
//!    counted there.
//! 2. A write is made whether or not the graph would allow it. Of a legal journal each one is allowed.

ghost use Rattle.std.specs.Prelude.{◌≡◌, OnOk};
ghost use Rattle.graph_model.specs.Graph.{Graph, empty_graph, apply_all, with_edge, without_edge, with_arc, without_arc};
ghost use Rattle.plain_graph.specs.Counting.{edge_count};
ghost use Rattle.plain_graph.specs.Showing.{HasArcs};

use graph_model::{Kind, Write};
use items::NoMemory;
use std::alloc::Global;
use std::collections::BTreeMap;

/// A graph of this kind: its vertices, and the weights of its arcs by their sources and targets.
#[derive(Drop)]
pub struct PlainGraph {
    /// Whether an edge is one arc or two.
    pub kind: Kind,
    /// In rising order.
    pub vertices: BTreeMap<u64, ()>,
    /// By source and target.
    pub arcs: BTreeMap<(u64, u64), u64>,
}

impl PlainGraph {
    ghost use Rattle.plain_graph.specs.Showing.{Shows, Makes};

    /// A graph with no vertex and no arc. Takes no memory.
    pub fn new(alloc: Global, kind: Kind) -> PlainGraph
        ensures shows { Shows result empty_graph }
        ensures kind { result.kind ≡ kind }
    {
        PlainGraph {
            kind,
            vertices: BTreeMap::new(alloc),
            arcs: BTreeMap::new(alloc),
        }
    }

    /// Makes the writes, in their order. After a refusal some of them may be made.
    pub fn apply_all(&mut self, writes: &[Write]) -> Result<(), NoMemory>
        ensures shows { OnOk result ((g : Graph) → Shows self.old g
            → Shows self.new (apply_all self.old.kind g writes.now)) }
        ensures kind { self.new.kind ≡ self.old.kind }
    {
        'writes: for write in writes {
            self.apply(*write)?;
        }
        Ok(())
    }

    /// Makes a write.
    fn apply(&mut self, write: Write) -> Result<(), NoMemory>
        ensures made { OnOk result (Makes self.old write self.new) }
        ensures kind { self.new.kind ≡ self.old.kind }
    {
        match write {
            Write::AddVertex { v } => {
                self.vertices.insert(v, ())?;
                Ok(())
            }
            Write::DropVertex { v } => {
                self.vertices.remove(&v);
                Ok(())
            }
            Write::AddEdge { u, v, weight } => put_edge(&mut self.arcs, self.kind, u, v, weight),
            Write::SetEdge { u, v, weight } => put_edge(&mut self.arcs, self.kind, u, v, weight),
            Write::DropEdge { u, v } => {
                drop_edge(&mut self.arcs, self.kind, u, v);
                Ok(())
            }
        }
    }

    /// How many edges there are. One without a direction, which is two arcs, counts once.
    pub fn edge_count(&self) -> usize
        ensures { (g : Graph) → Shows self.now g → result ≡ edge_count self.now.kind g }
    {
        match self.kind {
            Kind::Directed => self.arcs.len(),
            Kind::Undirected => self.arcs.keys().filter(|arc| arc.0 <= arc.1).count(),
        }
    }
}

/// Gives an edge this weight, whether it was there or not.
fn put_edge(
    arcs: &mut BTreeMap<(u64, u64), u64>,
    kind: Kind,
    u: u64,
    v: u64,
    weight: u64,
) -> Result<(), NoMemory>
    ensures { OnOk result ((g : Graph) → HasArcs arcs.old g → HasArcs arcs.new (with_edge kind g u v weight)) }
{
    put_arc(arcs, u, v, weight)?;
    if let Kind::Undirected = kind {
        put_arc(arcs, v, u, weight)?;
    }
    Ok(())
}

/// Drops an edge, if it is there.
fn drop_edge(arcs: &mut BTreeMap<(u64, u64), u64>, kind: Kind, u: u64, v: u64)
    ensures { (g : Graph) → HasArcs arcs.old g → HasArcs arcs.new (without_edge kind g u v) }
{
    drop_arc(arcs, u, v);
    if let Kind::Undirected = kind {
        drop_arc(arcs, v, u);
    }
}

fn put_arc(
    arcs: &mut BTreeMap<(u64, u64), u64>,
    u: u64,
    v: u64,
    weight: u64,
) -> Result<(), NoMemory>
    ensures { OnOk result ((g : Graph) → HasArcs arcs.old g → HasArcs arcs.new (with_arc g u v weight)) }
{
    arcs.insert((u, v), weight)?;
    Ok(())
}

fn drop_arc(arcs: &mut BTreeMap<(u64, u64), u64>, u: u64, v: u64)
    ensures { (g : Graph) → HasArcs arcs.old g → HasArcs arcs.new (without_arc g u v) }
{
    arcs.remove(&(u, v));
}
