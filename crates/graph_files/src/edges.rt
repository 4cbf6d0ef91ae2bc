//! Edge files.
//!
//! 1. A file is read as if none of its lines had a fault and no edge stood twice, and is then checked whole by sorting:
//!    almost all files are so.
//! 2. Only where that fails it is gone over again, line by line from the first doubtful one on, and the first fault is
//!    told. Both ways have the same contract.
//! 3. Threads share the first reading and the comparison of edges alone: which fault is the first is a question of
//!    order. The first reading needs no ids, so it may come before they are known.

ghost use Rattle.std.specs.Prelude.{◌≡◌, true, Ok, IfOk, IfErr};
ghost use Rattle.std.specs.Bool.{OnTrue};
ghost use Rattle.graphalytics_io.specs.FieldLines.{field_lines};
ghost use Rattle.graph_files.specs.Weights.{AreReadable};
ghost use Rattle.graph_files.specs.Faults.{IsRefused};
ghost use Rattle.graph_files.specs.EdgeFiles.{Rules, arcs_of, edge_of, edges_of};
ghost use Rattle.graph_files.specs.Kept.{AreNew, IsCheckedBy, IsFront, every_id};

use crate::checks::Checks;
use crate::faultless::{Front, are_new, are_new_by_threads, faultless_front, read_lines};
use crate::listings::read_rest;
use crate::refusal::ReadRefusal;
use crate::room::lines_of;
use crate::weights::Weights;
use graph_model::{Ids, Kind};
use graphalytics_io::Edges;
use id_places::IdTable;
use items::NoMemory;
use std::alloc::Global;
use std::thread::Threads;

/// Reads the edges of an edge file over these ids. With the ids they have at most `limit` rows, one for each vertex and
/// each arc. The text is gone over once where no line has a fault and no edge is listed twice, and else once more.
pub fn read_edges(
    alloc: Global,
    text: &[u8],
    ids: &Ids,
    kind: Kind,
    weights: Weights,
    limit: u64,
) -> Result<Edges, ReadRefusal>
    requires { AreReadable weights }
    ensures ok { IfOk result (λ edges.
        edges_of (record { ids = ids.now; kind = kind; weights = weights; limit = limit }) text.now ≡ Ok edges) }
    ensures fault { IfErr result (λ refusal. IsRefused
        (edges_of (record { ids = ids.now; kind = kind; weights = weights; limit = limit }) text.now) refusal) }
{
    let front = read_lines(alloc, text, weights, lines_of(text))?;
    let checks = checks_of(alloc, ids, kind, weights, limit)?;
    let is_new = are_new(alloc, &front, &checks)?;
    check(alloc, text, front, is_new, &checks)
}

/// The same, where each line has been read by itself, and several threads compare the edges. The text is gone over once
/// more by one thread where a line has a fault.
pub fn edges_of_front<R: Threads + Sync>(
    rt: &R,
    alloc: Global,
    text: &[u8],
    front: Front,
    ids: &Ids,
    kind: Kind,
    weights: Weights,
    limit: u64,
) -> Result<Edges, ReadRefusal>
    requires readable { AreReadable weights }
    requires front { IsFront (edge_of every_id weights) (field_lines text.now) front }
    ensures ok { IfOk result (λ edges.
        edges_of (record { ids = ids.now; kind = kind; weights = weights; limit = limit }) text.now ≡ Ok edges) }
    ensures fault { IfErr result (λ refusal. IsRefused
        (edges_of (record { ids = ids.now; kind = kind; weights = weights; limit = limit }) text.now) refusal) }
{
    let checks = checks_of(alloc, ids, kind, weights, limit)?;
    let is_new = are_new_by_threads(rt, alloc, &front, &checks)?;
    check(alloc, text, front, is_new, &checks)
}

/// What the lines of an edge file over these ids are checked against.
fn checks_of(
    alloc: Global,
    ids: &Ids,
    kind: Kind,
    weights: Weights,
    limit: u64,
) -> Result<Checks, NoMemory>
    ensures rules { IfOk result (λ checks. IsCheckedBy
        (record { ids = ids.now; kind = kind; weights = weights; limit = limit }) checks) }
    ensures weights { IfOk result (λ checks. checks.weights ≡ weights) }
{
    Ok(Checks {
        known: IdTable::of(alloc, ids.as_slice())?,
        kind,
        weights,
        most: limit.saturating_sub(ids.len() as u64) / arcs_of(kind),
    })
}

/// The edges of the front of an edge file, if it is whole and they are new. Else what is kept of it is found out, and
/// the lines after that are read.
fn check(
    alloc: Global,
    text: &[u8],
    front: Front,
    is_new: bool,
    checks: &Checks,
) -> Result<Edges, ReadRefusal>
    requires readable { AreReadable checks.now.weights }
    requires front { IsFront (edge_of every_id checks.now.weights) (field_lines text.now) front }
    requires whole { OnTrue is_new (front.is_whole ≡ true) }
    requires new { OnTrue is_new (AreNew checks.now.kind checks.now.known checks.now.most front.edges) }
    ensures ok { IfOk result (λ edges. (rules : Rules) → IsCheckedBy rules checks.now
        → edges_of rules text.now ≡ Ok edges) }
    ensures fault { IfErr result (λ refusal. (rules : Rules) → IsCheckedBy rules checks.now
        → IsRefused (edges_of rules text.now) refusal) }
{
    let Front { edges, is_whole: _ } = front;
    if is_new {
        return Ok(edges);
    }
    let reading = faultless_front(alloc, edges, checks)?;
    read_rest(text, checks, reading)
}

/// How many arcs an edge is.
fn arcs_of(kind: Kind) -> u64
    ensures { result ≡ arcs_of kind }
{
    match kind {
        Kind::Directed => 1,
        Kind::Undirected => 2,
    }
}
