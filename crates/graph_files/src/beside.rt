//! Both files of a graph, read side by side.
//!
//! 1. The lines of an edge file are read by themselves, so that is done while the ids of its ends are read.

ghost use Rattle.std.specs.Prelude.{◌≡◌, Ok, IfOk, IfErr};
ghost use Rattle.std.specs.Thread.{IsSync};
ghost use Rattle.graphalytics_io.specs.FieldLines.{field_lines};
ghost use Rattle.graph_files.specs.Weights.{AreReadable};
ghost use Rattle.graph_files.specs.Faults.{IsRefused};
ghost use Rattle.graph_files.specs.EdgeFiles.{edge_of};
ghost use Rattle.graph_files.specs.Kept.{IsFront, every_id};
ghost use Rattle.graph_files.specs.VertexFiles.{vertices_of};

use crate::faultless::{Front, read_front};
use crate::refusal::ReadRefusal;
use crate::vertices::read_vertices;
use crate::weights::Weights;
use graph_model::Ids;
use items::NoMemory;
use std::alloc::Global;
use std::thread::{Threads, join};

/// Reads a vertex file, as `read_vertices` does, while several threads read each line of an edge file by itself.
pub fn read_side_by_side<R: Threads + Sync>(
    rt: &R,
    alloc: Global,
    vertices: &[u8],
    limit: u64,
    edges: &[u8],
    weights: Weights,
) -> (Result<Ids, ReadRefusal>, Result<Front, NoMemory>)
    requires { AreReadable weights }
    ensures ok { IfOk result.0 (λ ids. vertices_of limit vertices.now ≡ Ok ids) }
    ensures fault { IfErr result.0 (λ refusal. IsRefused (vertices_of limit vertices.now) refusal) }
    ensures front { IfOk result.1 (IsFront (edge_of every_id weights) (field_lines edges.now)) }
{
    join(
        rt,
        || -> Result<Ids, ReadRefusal>
            ensures ok { IfOk result (λ ids. vertices_of limit vertices.entry.now ≡ Ok ids) }
            ensures fault { IfErr result (λ refusal. IsRefused (vertices_of limit vertices.entry.now) refusal) }
        { read_vertices(alloc, vertices, limit) },
        || -> Result<Front, NoMemory>
            requires { IsSync R.row × AreReadable weights }
            ensures { IfOk result (IsFront (edge_of every_id weights) (field_lines edges.entry.now)) }
        { read_front(rt, alloc, edges, weights) },
    )
}
