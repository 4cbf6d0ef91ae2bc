//! The table of the labels.
//!
//! 1. Inside, a label is a place, in 32 bits; the table has the vertex of that place. Places rise with their vertices,
//!    so the least place is the least vertex.

ghost use Rattle.std.specs.Prelude.{length, map, IfOk};
ghost use Rattle.graph_model.specs.Graph.{Graph, IsSymmetric};
ghost use Rattle.graph_model.specs.Tables.{IsCdlp};
ghost use Rattle.graph_model.specs.declared.write.Kind.TheVariants.{Directed, Undirected};
ghost use Rattle.graph_image.specs.Entries.{AreEntries};
ghost use Rattle.graph_image.specs.Images.{IsImageOf};
ghost use Rattle.kernel_cdlp.specs.Rounds.{value_of, AreBelow};

use crate::rounds::labels_after;
use graph_image::{Entry, Image, NoMemory, Table, Value};
use std::alloc::Global;
use std::thread::Threads;

/// The label of each vertex after so many rounds, in rising order of vertex (LDBC Graphalytics, CDLP). A
/// neighbour that is joined both ways counts twice; where each is, as in an undirected graph, it
/// doesn't matter. No clause speaks of running out of memory.
pub fn run<R: Threads + Sync>(
    rt: &R,
    alloc: Global,
    image: &Image,
    rounds: u32,
) -> Result<Table, NoMemory>
    ensures directed { IfOk result (λ table. (g : Graph) → IsImageOf image.now g
        → IsCdlp Directed g rounds table) }
    ensures undirected { IfOk result (λ table. (g : Graph) → IsImageOf image.now g → IsSymmetric g
        → IsCdlp Undirected g rounds table) }
{
    let labels = labels_after(rt, alloc, image, rounds)?;
    let table = table_by(alloc, image, labels.as_slice())?;
    Ok(table)
}

/// A line for each vertex, with the id of the label of its place.
fn table_by(alloc: Global, image: &Image, labels: &[u32]) -> Result<Table, NoMemory>
    requires { AreBelow (length image.now.vertices) labels.now }
    ensures { IfOk result (AreEntries image.now.vertices (map (value_of image.now.vertices) labels.now)) }
{
    let vertices = image.vertices();
    let mut entries = Vec::with_capacity(alloc, vertices.len())?;
    'places: for i in 0..vertices.len() {
        entries.push(Entry {
            vertex: vertices[i],
            value: Value::Number {
                n: vertices[labels[i] as usize],
            },
        })?;
    }
    Ok(Table::from_vec(entries))
}
