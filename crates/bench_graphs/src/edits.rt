//! Changes of single edges: half of them add one, a quarter set one, and a quarter drop one.
//!
//! 1. Edges that are set or dropped are those that were drawn first for the graph, so they lie anywhere, and none comes
//!    twice.
//! 2. Edges that are added are drawn. Few of them are there already, and are refused then.

ghost use Rattle.std.specs.Prelude.{◌<◌};

use crate::graph::Graph;
use crate::rmat::DrawnEnds;
use graph_model::NoMemory;
use rand_core::SeedableRng;
use rand_core::utils::NextWord;
use rand_xoshiro::SplitMix64;
use std::alloc::Global;

/// What is done to an edge.
#[derive(Clone, Copy, Debug, PartialEq, Eq)]
pub enum Act {
    Add,
    Set,
    Drop,
}

/// A change of an edge.
#[derive(Clone, Copy, Debug, PartialEq, Eq)]
pub struct Edit {
    pub act: Act,
    pub u: u32,
    pub v: u32,
}

/// So many changes of a graph's edges.
pub fn edits_of(
    alloc: Global,
    graph: &Graph,
    vertices: u32,
    count: u32,
    seed: u64,
) -> Result<Vec<Edit>, NoMemory>
    requires { 0 < vertices }
{
    let mut generator = SplitMix64::from_seed((!seed).to_le_bytes());
    let mut edits = Vec::with_capacity(alloc, count as usize)?;
    let mut old = graph.edges.as_slice().iter();
    for number in 0..count {
        let edit = if number % 2 == 0 {
            drawn_edit(&mut generator, vertices)
        } else {
            let act = if number % 4 == 1 { Act::Set } else { Act::Drop };
            match old.next() {
                Some(edge) => Edit {
                    act,
                    u: id_of(edge.u),
                    v: id_of(edge.v),
                },
                None => drawn_edit(&mut generator, vertices),
            }
        };
        edits.push(edit)?;
    }
    Ok(edits)
}

/// So many changes of a graph's edges: those that are added come from others, and those that are set or dropped are
/// as far from one another in the order of the graph's edges as they can be.
pub fn spread_edits(
    alloc: Global,
    edges: &[DrawnEnds],
    others: &[DrawnEnds],
    count: u32,
) -> Result<Vec<Edit>, NoMemory> {
    let apart = (edges.len() as u64 / u64::from(count / 2).max(1)).max(1);
    let mut edits = Vec::with_capacity(alloc, count as usize)?;
    for number in 0..count {
        let place = u64::from(number / 2);
        let (act, edge) = if number % 2 == 0 {
            (Act::Add, others.get(place as usize))
        } else {
            let act = if number % 4 == 1 { Act::Set } else { Act::Drop };
            (act, edges.get(place.wrapping_mul(apart) as usize))
        };
        if let Some(ends) = edge {
            edits.push(Edit {
                act,
                u: id_of(ends.u),
                v: id_of(ends.v),
            })?;
        }
    }
    Ok(edits)
}

/// Sets the edges that were drawn first for the graph, so many at most.
pub fn settings_of(alloc: Global, graph: &Graph, count: usize) -> Result<Vec<Edit>, NoMemory> {
    let mut edits = Vec::with_capacity(alloc, count)?;
    for edge in graph.edges.as_slice().iter().take(count) {
        edits.push(Edit {
            act: Act::Set,
            u: id_of(edge.u),
            v: id_of(edge.v),
        })?;
    }
    Ok(edits)
}

/// Adds an edge between two vertices that are drawn.
fn drawn_edit(generator: &mut SplitMix64, vertices: u32) -> Edit
    requires { 0 < vertices }
{
    let count = u64::from(vertices);
    Edit {
        act: Act::Add,
        u: id_of(1 + generator.next_word() % count),
        v: id_of(1 + generator.next_word() % count),
    }
}

/// An id that is less than 2 to the power 32, as all ids of the graph are.
fn id_of(id: u64) -> u32 {
    (id % 4294967296) as u32
}
