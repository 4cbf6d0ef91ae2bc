//! The load: the two files as the first transaction of an engine.
//!
//! The vertices are written in file order and then the edges in file order, and all of them are handed over at once.

ghost use Rattle.std.specs.Prelude.{◌≡◌, OnOk, OnErr, IfOk, IfErr};
ghost use Rattle.graph_model.specs.Loading.{IsNew, IsLoad, IsLoadRefusal, loaded};
ghost use Rattle.graphalytics_io.specs.Load.{load_of};

use crate::edges::Edges;
use graph_model::{Ids, LoadEngine, LoadRefusal, NoMemory, Write, Writes};
use items::Items;
use std::alloc::Global;

/// Loads the graph of the two files as the first transaction of a new engine.
pub fn load_graph<E: LoadEngine>(
    alloc: Global,
    engine: &mut E,
    ids: &Ids,
    edges: &Edges,
) -> Result<(), LoadRefusal>
    requires new { IsNew (E.core engine.old) }
    requires load { IsLoad (E.core engine.old) (load_of ids.now edges.now) }
    ensures loaded { OnOk result (E.core engine.new ≡ loaded (E.core engine.old) (load_of ids.now edges.now)) }
    ensures refused { IfErr result (IsLoadRefusal (E.core engine.old) (load_of ids.now edges.now)) }
    ensures err { OnErr result (E.core engine.new ≡ E.core engine.old) }
{
    let load = writes_of(alloc, ids, edges)?;
    engine.load(load)
}

/// The writes of a load, in their order.
pub fn writes_of(alloc: Global, ids: &Ids, edges: &Edges) -> Result<Writes, NoMemory>
    ensures { IfOk result (λ load. load ≡ load_of ids.now edges.now) }
{
    let ids = ids.as_slice();
    let edges = edges.as_slice();
    let mut load = Vec::with_capacity(alloc, ids.len() + edges.len())?;
    'ids: for v in ids {
        load.push(Write::AddVertex { v: *v })?;
    }
    'edges: for edge in edges {
        load.push(Write::AddEdge {
            u: edge.u,
            v: edge.v,
            weight: edge.weight,
        })?;
    }
    Ok(Items::from_vec(load))
}
