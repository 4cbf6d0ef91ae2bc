//! Edges drawn by the recursive matrix of Chakrabarti, Zhan and Faloutsos (R-MAT, SDM 2004).
//!
//! 1. A few vertices have many edges, and most have few, as in the graphs on which other stores were measured.
//! 2. No edge leads from a vertex to itself, and none comes twice, in either order.

ghost use Rattle.std.specs.Prelude.{◌<◌};

use graph_model::NoMemory;
use graphalytics_io::Text;
use rand_core::SeedableRng;
use rand_core::utils::NextWord;
use rand_xoshiro::SplitMix64;
use std::alloc::Global;
use std::collections::HashSet;

/// The ends of an edge.
#[derive(Clone, Copy, Debug, PartialEq, Eq, Hash)]
pub struct DrawnEnds {
    pub u: u64,
    pub v: u64,
}

/// So many edges between vertices from 1 on, in the order in which they are drawn, or fewer where eight draws for each
/// of them don't suffice.
pub fn drawn_ends(
    alloc: Global,
    seed: u64,
    vertices: u32,
    count: u64,
) -> Result<Vec<DrawnEnds>, NoMemory> {
    let levels = levels_for(u64::from(vertices));
    let mut generator = SplitMix64::from_seed(seed.to_le_bytes());
    let mut seen = HashSet::new(alloc);
    let mut kept = Vec::new(alloc);
    'draws: for _ in 0..count.saturating_mul(8) {
        if kept.len() as u64 >= count {
            break;
        }
        let ends = draw(&mut generator, levels);
        let is_within = ends.u <= u64::from(vertices) && ends.v <= u64::from(vertices);
        if is_within && ends.u != ends.v && seen.insert(in_order(ends))? {
            kept.push(ends)?;
        }
    }
    Ok(kept)
}

/// So often the numbers of vertices are halved.
fn levels_for(vertices: u64) -> u32 {
    let mut reach: u64 = 1;
    'levels: for level in 0..32 {
        if vertices <= reach {
            return level;
        }
        reach = reach.wrapping_mul(2);
    }
    32
}

/// Goes down to a cell of the matrix: at each level to the quarter at the upper left with a chance of 57 in 100, to the
/// upper right and to the lower left with 19 each, and to the lower right with 5.
fn draw(generator: &mut SplitMix64, levels: u32) -> DrawnEnds {
    let mut u: u64 = 0;
    let mut v: u64 = 0;
    'levels: for _ in 0..levels {
        let chance = generator.next_word() % 100;
        let is_lower = chance >= 76;
        let is_right = chance >= 95 || (57 <= chance && chance < 76);
        u = u.wrapping_mul(2).wrapping_add(u64::from(is_lower));
        v = v.wrapping_mul(2).wrapping_add(u64::from(is_right));
    }
    DrawnEnds {
        u: u.wrapping_add(1),
        v: v.wrapping_add(1),
    }
}

/// The same ends with the lesser one first.
fn in_order(ends: DrawnEnds) -> DrawnEnds {
    if ends.u <= ends.v {
        ends
    } else {
        DrawnEnds {
            u: ends.v,
            v: ends.u,
        }
    }
}

/// The text of an edge file.
pub fn edge_text(alloc: Global, edges: &[DrawnEnds]) -> Result<Text, NoMemory> {
    let mut text = Text::new(alloc);
    for edge in edges {
        text.push_number(edge.u)?;
        text.push_bytes(b" ")?;
        text.push_number(edge.v)?;
        text.push_bytes(b"\n")?;
    }
    Ok(text)
}
