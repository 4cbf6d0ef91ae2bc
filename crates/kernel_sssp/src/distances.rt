//! Least weights as the table has them.
//!
//! 1. Places are numbered in rising order of vertices, so the lines of a table are written from the first place to the
//!    last.
//! 2. A place that no walk reaches has the value infinity.

ghost use Rattle.std.specs.Prelude.{◌≡◌, length, map, IfOk};
ghost use Rattle.graph_image.specs.Entries.{AreEntries};
ghost use Rattle.kernel_sssp.specs.Distances.{value_of, wide_of};

use crate::worker::FAR;
use graph_image::{Entry, Image, NoMemory, Table, Value};
use std::alloc::Global;

/// Stands for the weight of a place that isn't reached: no least weight is so great.
pub const UNREACHED: u64 = 18446744073709551615;

/// A line for each vertex, with the value that stands for the least weight of its place.
pub fn table_by(alloc: Global, image: &Image, distances: &[u64]) -> Result<Table, NoMemory>
    requires { length distances.now ≡ length image.now.vertices }
    ensures { IfOk result (AreEntries image.now.vertices (map value_of distances.now)) }
{
    let vertices = image.vertices();
    let mut entries = Vec::with_capacity(alloc, vertices.len())?;
    'places: for i in 0..vertices.len() {
        entries.push(Entry {
            vertex: vertices[i],
            value: value(distances[i]),
        })?;
    }
    Ok(Table::from_vec(entries))
}

/// The value that stands for a weight.
fn value(distance: u64) -> Value
    ensures { result ≡ value_of distance }
{
    if distance == UNREACHED {
        Value::Infinity
    } else {
        Value::Number { n: distance }
    }
}

/// The distances that several threads found, in 64 bits.
pub fn widened(alloc: Global, distances: &[u32]) -> Result<Vec<u64>, NoMemory>
    ensures { IfOk result (λ wide. wide.items ≡ map wide_of distances.now) }
{
    let mut wider = Vec::with_capacity(alloc, distances.len())?;
    'distances: for i in 0..distances.len() {
        wider.push(wide(distances[i]))?;
    }
    Ok(wider)
}

/// A distance that several threads found, in 64 bits.
pub fn wide(distance: u32) -> u64
    ensures { result ≡ wide_of distance }
{
    if distance == FAR {
        UNREACHED
    } else {
        distance as u64
    }
}
