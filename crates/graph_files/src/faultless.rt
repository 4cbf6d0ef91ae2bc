//! How far an edge file has no fault, told without comparing each line with those before it.
//!
//! 1. All lines are read before an end is looked up, so that many look-ups wait for memory side by side.
//! 2. Where the numbers of all edges differ, each is listed once. Where not, second listings are looked for; the edges'
//!    numbers are made again for that, since sorting has moved them.

ghost use Rattle.std.specs.Prelude.{ℕ, List, ◌≡◌, ◌≤◌, ◌++◌, true, length, take, IfOk};
ghost use Rattle.std.specs.Bool.{OnTrue};
ghost use Rattle.graphalytics_io.specs.declared.lines.FieldLine.{FieldLine};
ghost use Rattle.graphalytics_io.specs.FieldLines.{field_lines};
ghost use Rattle.graph_files.specs.Weights.{AreReadable};
ghost use Rattle.graph_files.specs.EdgeFiles.{Rules, edge_of};
ghost use Rattle.graph_files.specs.Kept.{IsCheckedBy, AreListed, IsFront, AreNew, GoesOn, every_id};

use crate::checks::Checks;
use crate::ends::{EveryId, read_edge};
use crate::halves::read_halves;
use crate::listings::EdgesSoFar;
use crate::room::{lines_of, with_room};
use crate::seconds::{PartedListings, parts_of};
use crate::weights::Weights;
use graphalytics_io::{Edge, Edges, cuts_for, field_lines};
use id_places::{are_distinct, are_distinct_by_threads, numbers_by_threads, numbers_of};
use items::NoMemory;
use std::alloc::Global;
use std::thread::Threads;

/// The edges of the lines before the first that has a fault by itself, with all ids taken as known.
#[derive(Drop)]
pub struct Front {
    /// In the order of the file.
    pub edges: Edges,
    /// No line has a fault.
    pub is_whole: bool,
}

/// Reads each line by itself, up to the first that has a fault: by several threads, and once more by one where a line
/// has a fault.
pub(crate) fn read_front<R: Threads + Sync>(
    rt: &R,
    alloc: Global,
    text: &[u8],
    weights: Weights,
) -> Result<Front, NoMemory>
    requires { AreReadable weights }
    ensures { IfOk result (λ front. IsFront (edge_of every_id weights) (field_lines text.now) front) }
{
    let lines = lines_of(text);
    match read_halves(rt, alloc, text, weights, cuts_for(rt), lines)? {
        Some(edges) => Ok(Front {
            edges,
            is_whole: true,
        }),
        None => read_lines(alloc, text, weights, lines),
    }
}

/// Reads each line by itself, up to the first that has a fault. Room is made for the edges of so many lines.
pub(crate) fn read_lines(
    alloc: Global,
    text: &[u8],
    weights: Weights,
    room: usize,
) -> Result<Front, NoMemory>
    requires { AreReadable weights }
    ensures { IfOk result (λ front. IsFront (edge_of every_id weights) (field_lines text.now) front) }
{
    let mut edges = with_room(alloc, room);
    let mut lines = field_lines(text);
    'lines: while let Some(line) = lines.next() {
        let Ok(edge) = read_edge(line.fields, &EveryId, weights) else {
            return Ok(Front {
                edges,
                is_whole: false,
            })
        };
        edges.push(edge)?;
    }
    Ok(Front {
        edges,
        is_whole: true,
    })
}

/// Whether no line has a fault, all ends are known, no edge is listed twice, and there are not too many.
pub(crate) fn are_new(alloc: Global, front: &Front, checks: &Checks) -> Result<bool, NoMemory>
    ensures whole { IfOk result (λ new. OnTrue new (front.now.is_whole ≡ true)) }
    ensures new { IfOk result (λ new. OnTrue new
        (AreNew checks.now.kind checks.now.known checks.now.most front.now.edges)) }
{
    let edges = front.edges.as_slice();
    if !front.is_whole || checks.most < edges.len() as u64 {
        return Ok(false);
    }
    let numbers = numbers_of(alloc, edges, &checks.known, checks.kind)?;
    if numbers.len() < edges.len() {
        return Ok(false);
    }
    Ok(are_distinct(numbers))
}

/// The same, where several threads number the edges and compare them.
pub(crate) fn are_new_by_threads<R: Threads + Sync>(
    rt: &R,
    alloc: Global,
    front: &Front,
    checks: &Checks,
) -> Result<bool, NoMemory>
    ensures whole { IfOk result (λ new. OnTrue new (front.now.is_whole ≡ true)) }
    ensures new { IfOk result (λ new. OnTrue new
        (AreNew checks.now.kind checks.now.known checks.now.most front.now.edges)) }
{
    let edges = front.edges.as_slice();
    if !front.is_whole || checks.most < edges.len() as u64 {
        return Ok(false);
    }
    match numbers_by_threads(rt, alloc, edges, &checks.known, checks.kind)? {
        Some(numbers) => are_distinct_by_threads(rt, alloc, numbers.as_slice()),
        None => Ok(false),
    }
}

/// What is kept of the lines before the first that has a fault, where the lines at the front have these edges by
/// themselves. How far that is, is told by the numbers. Were they to tell it wrongly, nothing would be kept.
pub(crate) fn faultless_front(
    alloc: Global,
    edges: Edges,
    checks: &Checks,
) -> Result<EdgesSoFar, NoMemory>
    ensures { IfOk result (λ reading. (rules : Rules) (front rest : List FieldLine) → IsCheckedBy rules checks.now
        → AreListed (edge_of every_id checks.now.weights) front edges → GoesOn rules (front ++ rest) reading) }
{
    let numbers = numbers_of(alloc, edges.as_slice(), &checks.known, checks.kind)?;
    let edges = first_of(edges, numbers.len());
    let (parts, count) = parts_of(alloc, edges.as_slice(), numbers.as_slice(), checks)?;
    let listings = first_of(edges, count);
    let PartedListings {
        kept,
        kept_numbers,
        second_numbers,
    } = parts;
    // No edge is listed for the first time twice, and none for the second time twice: so no line is one too many.
    if are_distinct(kept_numbers) && are_distinct(second_numbers) {
        Ok(EdgesSoFar {
            listings,
            edges: kept,
        })
    } else {
        // Where one is, all lines are gone over again from the first on, and the line is found.
        Ok(EdgesSoFar::new(alloc))
    }
}

/// The first edges, so many.
fn first_of(edges: Edges, count: usize) -> Edges
    ensures { result ≡ take count edges }
{
    let mut edges = edges.into_vec();
    edges.truncate(count);
    Edges::from_vec(edges)
}
