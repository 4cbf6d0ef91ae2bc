//! The rows of a power-law graph.
//!
//! 1. Both ends of an edge are drawn, each on its own. The vertex of rank r has a chance in proportion to
//!    r to the power -2/3, so the number of vertices of a degree falls as its power -2.5 (Chung and Lu).
//! 2. An arc is one number, its source above its target, so sorted arcs are in the order of rows.

use graph_model::{Key, NoMemory, Row};
use std::alloc::Global;

/// How often missing edges are drawn again: each time few of them are there already.
const DRAWS: u32 = 40;

/// The greatest weight.
const HEAVIEST: u64 = 1_000_000;

/// Numbers without a pattern, by Marsaglia's xorshift.
#[derive(Clone, Copy)]
struct GraphRandom {
    state: u64,
}

impl GraphRandom {
    fn draw(&mut self) -> u64 {
        let mut state = self.state;
        state ^= state << 13;
        state ^= state >> 7;
        state ^= state << 17;
        self.state = state;
        state.wrapping_mul(2685821657736338717)
    }

    /// One of so many vertices.
    fn vertex(&mut self, vertices: u64) -> u64 {
        let even = self.draw() >> 44;
        let square = even.wrapping_mul(even) >> 20;
        let rank = (square.wrapping_mul(even) >> 20).wrapping_mul(vertices) >> 20;
        scattered(rank) % vertices.max(1) + 1
    }
}

/// Ranks that follow each other far apart, so that the places of heavy vertices have no pattern.
fn scattered(rank: u64) -> u64 {
    rank.wrapping_mul(7368787)
}

/// The rows of a graph of so many vertices, from 1 on, and so many edges.
pub fn rows_of(alloc: Global, vertices: u64, edges: u64, seed: u64) -> Result<Vec<Row>, NoMemory> {
    let arcs = arcs_of(alloc, vertices, edges, seed)?;
    let mut rows = Vec::new(alloc);
    let mut next = 0;
    'vertices: for before in 0..vertices {
        let src = before + 1;
        rows.push(Row {
            key: Key { src, second: 0 },
            weight: 0,
        })?;
        next = push_arcs(&mut rows, arcs.as_slice(), next, src)?;
    }
    Ok(rows)
}

/// Pushes the rows of the arcs out of a source, which begin there, and says where they end.
fn push_arcs(rows: &mut Vec<Row>, arcs: &[u64], first: usize, src: u64) -> Result<usize, NoMemory> {
    'arcs: for k in first..arcs.len() {
        if arcs[k] >> 32 != src {
            return Ok(k);
        }
        let target = arcs[k] & 4294967295;
        rows.push(Row {
            key: Key {
                src,
                second: target.wrapping_add(1),
            },
            weight: weight(src, target),
        })?;
    }
    Ok(arcs.len())
}

/// Each edge as two arcs, in rising order.
fn arcs_of(alloc: Global, vertices: u64, edges: u64, seed: u64) -> Result<Vec<u64>, NoMemory> {
    let mut random = GraphRandom {
        state: seed.wrapping_add(88172645463325252),
    };
    let mut arcs = Vec::new(alloc);
    'draws: for _draw in 0..DRAWS {
        let missing = edges.saturating_sub(arcs.len() as u64 / 2);
        'edges: for _edge in 0..missing {
            let a = random.vertex(vertices);
            let b = random.vertex(vertices);
            if a != b {
                arcs.push(a << 32 | b)?;
                arcs.push(b << 32 | a)?;
            }
        }
        arcs.sort_unstable();
        arcs.dedup();
    }
    Ok(arcs)
}

/// The weight of the edge between these, whichever is named first.
pub fn weight(a: u64, b: u64) -> u64 {
    let mixed = a.min(b).wrapping_mul(11400714819323198485)
        ^ a.max(b).wrapping_mul(13787848793156543929);
    (mixed ^ mixed >> 29).wrapping_mul(2685821657736338717) % HEAVIEST + 1
}
