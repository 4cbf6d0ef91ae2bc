//! Edges of a graph that are read or set.

use bench_graphs::{Act, Edit, Graph};
use graph_model::NoMemory;
use rand_core::SeedableRng;
use rand_core::utils::NextWord;
use rand_xoshiro::SplitMix64;
use std::alloc::Global;

/// So many edges of a graph that has one, each drawn among all of them.
pub fn drawn_edges(
    alloc: Global,
    graph: &Graph,
    count: u64,
    seed: u64,
) -> Result<Vec<Edit>, NoMemory> {
    let edges = graph.edges.as_slice();
    let most = edges.len().max(1) as u64;
    let mut generator = SplitMix64::from_seed((!seed).to_le_bytes());
    let mut drawn = Vec::with_capacity(alloc, count as usize)?;
    for _ in 0..count {
        let place = generator.next_word() % most;
        if let Some(edge) = edges.get(place as usize) {
            drawn.push(Edit {
                act: Act::Set,
                u: id_of(edge.u),
                v: id_of(edge.v),
            })?;
        }
    }
    Ok(drawn)
}

/// An id that is less than 2 to the power 32, as all ids of the graph are.
fn id_of(id: u64) -> u32 {
    (id % 4294967296) as u32
}
