//! The table of components.
//!
//! 1. A label is the least place of its component, and places rise with their vertices: so the vertex of a label is the
//!    least vertex of the component.

ghost use Rattle.std.specs.Prelude.{◌≡◌, length, map, IfOk};
ghost use Rattle.graph_model.specs.Graph.{Graph};
ghost use Rattle.graph_model.specs.Tables.{IsWcc};
ghost use Rattle.graph_image.specs.Entries.{AreEntries};
ghost use Rattle.graph_image.specs.Images.{IsImageOf};
ghost use Rattle.kernel_wcc.specs.Labels.{value_of, AreLow};

use crate::labels::components;
use graph_image::{Entry, Image, NoMemory, Table, Value};
use std::alloc::Global;
use std::thread::Threads;

/// Weakly connected components: each vertex in rising order, with the least id of a vertex of its
/// component, where the direction of arcs doesn't count (LDBC Graphalytics, WCC).
/// No clause speaks of running out of memory.
pub fn run<R: Threads + Sync>(rt: &R, alloc: Global, image: &Image) -> Result<Table, NoMemory>
    ensures { IfOk result (λ table. (g : Graph) → IsImageOf image.now g → IsWcc g table) }
{
    let labels = components(rt, alloc, image)?;
    let table = table_by(alloc, image, labels.as_slice())?;
    Ok(table)
}

/// A line for each vertex, with the id of the label of its place.
fn table_by(alloc: Global, image: &Image, labels: &[u32]) -> Result<Table, NoMemory>
    requires low { AreLow labels.now }
    requires count { length labels.now ≡ length image.now.vertices }
    ensures { IfOk result (AreEntries image.now.vertices (map (value_of image.now.vertices) labels.now)) }
{
    let vertices = image.vertices();
    let mut entries = Vec::with_capacity(alloc, vertices.len())?;
    'places: for i in 0..vertices.len() {
        entries.push(Entry {
            vertex: vertices[i],
            value: Value::Number {
                n: vertices[labels[i] as usize],
            },
        })?;
    }
    Ok(Table::from_vec(entries))
}
