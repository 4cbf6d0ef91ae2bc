//! Distances as the table has them.
//!
//! 1. Places are numbered in rising order of vertices, so the lines of a table are written from the first place to the
//!    last and need no sorting.
//! 2. The value is made while the line is written: a list of values beside the distances would be memory for each
//!    vertex once more.

ghost use Rattle.std.specs.Prelude.{◌≡◌, length, map, IfOk};
ghost use Rattle.graph_image.specs.Entries.{AreEntries};
ghost use Rattle.kernel_bfs.specs.Levels.{value_of};

use crate::levels::UNREACHED;
use graph_image::{Entry, Image, NoMemory, Table, Value};
use graph_model::NO_WALK;
use std::alloc::Global;

/// A line for each vertex, with the value that stands for the distance of its place.
pub fn table_by(alloc: Global, image: &Image, distances: &[u32]) -> Result<Table, NoMemory>
    requires { length distances.now ≡ length image.now.vertices }
    ensures { IfOk result (AreEntries image.now.vertices (map value_of distances.now)) }
{
    let vertices = image.vertices();
    let mut entries = Vec::with_capacity(alloc, vertices.len())?;
    'places: for i in 0..vertices.len() {
        entries.push(Entry {
            vertex: vertices[i],
            value: value(distances[i]),
        })?;
    }
    Ok(Table::from_vec(entries))
}

/// The value that stands for a distance.
fn value(distance: u32) -> Value
    ensures { result ≡ value_of distance }
{
    if distance == UNREACHED {
        Value::Number { n: NO_WALK }
    } else {
        Value::Number { n: distance as u64 }
    }
}
