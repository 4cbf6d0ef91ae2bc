//! Tables of values by place.
//!
//! 1. Kernels reckon with places alone. Here each place becomes its id again, so lines come in the order of ids.

ghost use Rattle.std.specs.Prelude.{◌≡◌, length, IfOk};
ghost use Rattle.graph_image.specs.Entries.{AreEntries};

use crate::image::Image;
use graph_model::{Entry, NoMemory, Table, Value};
use std::alloc::Global;

/// A line for each vertex, with the value at its place.
pub fn table_of(alloc: Global, image: &Image, values: &[Value]) -> Result<Table, NoMemory>
    requires { length values.now ≡ length image.now.vertices }
    ensures { IfOk result (AreEntries image.now.vertices values.now) }
{
    let vertices = image.vertices();
    let mut entries = Vec::with_capacity(alloc, vertices.len())?;
    'places: for i in 0..vertices.len() {
        entries.push(Entry {
            vertex: vertices[i],
            value: values[i],
        })?;
    }
    Ok(Table::from_vec(entries))
}
