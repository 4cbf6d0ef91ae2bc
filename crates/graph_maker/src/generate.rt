//! Graphs from their seeds.
//!
//! 1. The same seed and sizes give the same graph: pairs are drawn by one generator, in one order, on one thread.
//! 2. At most two pairs are drawn for each edge, so it ends; where many are repeats fewer edges come out, and the
//!    answer says how many.

ghost use Rattle.std.specs.Prelude.{◌≡◌, ◌<◌, ℕ, length, IfOk};
ghost use Rattle.graph_maker.specs.Draws.{draw, pairs_of};
ghost use Rattle.graph_maker.specs.Texts.{vertex_text, edge_text};

use crate::kept::DrawnPairs;
use crate::pair::VertexPair;
use crate::texts::{edge_lines, vertex_lines};
use graphalytics_io::Text;
use items::NoMemory;
use rand_core::SeedableRng;
use rand_core::utils::NextWord;
use rand_xoshiro::SplitMix64;
use std::alloc::Global;

/// The files of a generated graph.
#[derive(Drop)]
pub struct MadeGraph {
    /// The ids from 1, a line each.
    pub vertices: Text,
    /// An edge a line, its first end first.
    pub edges: Text,
    /// How many edges there are.
    pub kept: usize,
}

/// Makes the files of a graph with so many vertices and at most so many edges: at most two pairs are drawn for each
/// edge that is asked for, and those are kept whose ends differ and that didn't stand before in either order.
pub fn make_graph(
    alloc: Global,
    seed: u64,
    vertices: u32,
    edges: u32,
) -> Result<MadeGraph, NoMemory>
    requires { 0 < vertices }
    ensures vertices { IfOk result (λ made. made.vertices ≡ vertex_text vertices) }
    ensures edges { IfOk result (λ made. made.edges ≡ edge_text seed vertices edges) }
    ensures kept { IfOk result (λ made. made.kept ≡ length (pairs_of seed vertices edges)) }
{
    let pairs = draw_pairs(alloc, seed, vertices, edges)?;
    Ok(MadeGraph {
        vertices: vertex_lines(alloc, vertices)?,
        edges: edge_lines(alloc, pairs.as_slice())?,
        kept: pairs.len(),
    })
}

/// Draws pairs until as many are kept as are asked for, or two for each of them were drawn.
fn draw_pairs(alloc: Global, seed: u64, vertices: u32, edges: u32) -> Result<DrawnPairs, NoMemory>
    requires { 0 < vertices }
    ensures { IfOk result (λ pairs. pairs ≡ pairs_of seed vertices edges) }
{
    let mut generator = SplitMix64::from_seed(seed.to_le_bytes());
    let mut kept = DrawnPairs::new(alloc);
    let mut draws = 2 * u64::from(edges);
    'draws: while draws > 0 && kept.len() < edges as usize {
        draws -= 1;
        kept.offer(draw(&mut generator, vertices))?;
    }
    Ok(kept)
}

/// Draws a pair of vertices.
fn draw(generator: &mut SplitMix64, vertices: u32) -> VertexPair
    requires { 0 < vertices }
    ensures { (result, generator.new) ≡ draw vertices generator.old }
{
    let count = u64::from(vertices);
    let first = generator.next_word();
    let second = generator.next_word();
    VertexPair {
        first: 1 + first % count,
        second: 1 + second % count,
    }
}
