//! The table of a search.
//!
//! 1. Distances are counted by places, and named by vertices only in the table.

ghost use Rattle.std.specs.Prelude.{◌≡◌, false, IfOk, IsTrue};
ghost use Rattle.graph_model.specs.Graph.{Graph, has_vertex};
ghost use Rattle.graph_model.specs.Tables.{IsBfs};
ghost use Rattle.graph_image.specs.Images.{IsImageOf};

use crate::distances::table_by;
use crate::levels::search;
use graph_image::{Image, KernelRefusal, Table};
use std::alloc::Global;
use std::thread::Threads;

/// Breadth-first search from a root: each vertex in rising order, with the least number of arcs of a
/// walk that leads there from the root, or NO_WALK (LDBC Graphalytics, BFS). No clause speaks of
/// running out of memory.
pub fn run<R: Threads + Sync>(
    rt: &R,
    alloc: Global,
    image: &Image,
    root: u64,
) -> Result<Table, KernelRefusal>
    ensures table { IfOk result (λ table. (g : Graph) → IsImageOf image.now g
        → IsTrue (has_vertex g root) × IsBfs g root table) }
    ensures no_root { result ≡ Err KernelRefusal.NoRoot → (g : Graph) → IsImageOf image.now g
        → has_vertex g root ≡ false }
{
    let Some(place) = image.position(root) else {
        return Err(KernelRefusal::NoRoot);
    };
    let distances = search(rt, alloc, image, place)?;
    let table = table_by(alloc, image, distances.as_slice())?;
    Ok(table)
}
