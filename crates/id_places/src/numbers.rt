//! Numbers of edges, which tell them apart.
//!
//! The number of an edge is made of the places of its ends among the ids. Where numbers differ, so do the edges.

ghost use Rattle.std.specs.Prelude.{◌≡◌, ◌≤◌, ◌&&◌, Some, false, true, length, slice_get, take, IfNone, IfOk, IfSome};
ghost use Rattle.std.specs.Vec.{vec_len};
ghost use Rattle.graphalytics_io.specs.declared.edges.Edge.{Edge};
ghost use Rattle.id_places.specs.Places.{is_among, AreNumbers, IsNumberOf, pair_in, pair_of};

use crate::id_table::IdTable;
use graph_model::Kind;
use graphalytics_io::Edge;
use items::NoMemory;
use rayon::prelude::*;
use std::alloc::Global;
use std::thread::Threads;

/// An end of an edge isn't known.
#[derive(Clone, Copy)]
struct UnknownEnd;

/// The number of each edge, up to the first of which an end isn't known.
pub fn numbers_of(
    alloc: Global,
    edges: &[Edge],
    known: &IdTable,
    kind: Kind,
) -> Result<Vec<u64>, NoMemory>
    ensures few { IfOk result (λ numbers. vec_len numbers ≤ length edges.now) }
    ensures stops { IfOk result (λ numbers. (edge : Edge) → slice_get edges.now (vec_len numbers) ≡ Some edge
        → (is_among known.now edge.u && is_among known.now edge.v) ≡ false) }
    ensures numbers { IfOk result (λ numbers.
        AreNumbers kind known.now (take (vec_len numbers) edges.now) numbers.items) }
{
    let mut numbers = Vec::with_capacity(alloc, edges.len())?;
    'edges: for edge in edges {
        let Some(number) = number_of(edge, known, kind) else {
            return Ok(numbers)
        };
        numbers.push(number)?;
    }
    Ok(numbers)
}

/// The number of each edge, made by several threads, if all ends are known.
pub fn numbers_by_threads<R: Threads + Sync>(
    rt: &R,
    alloc: Global,
    edges: &[Edge],
    known: &IdTable,
    kind: Kind,
) -> Result<Option<Vec<u64>>, NoMemory>
    ensures { IfOk result (λ found. IfSome found (λ numbers.
        AreNumbers kind known.now edges.now numbers.items)) }
{
    let found: Result<Vec<u64>, UnknownEnd> = edges
        .par_iter()
        .map(
            |edge: &Edge| -> Result<u64, UnknownEnd>
                ensures { IfOk result (λ number. IsNumberOf kind known.entry.now edge.now number) }
            { known_number(edge, known, kind) },
        )
        .collect(rt, alloc)?;
    match found {
        Ok(numbers) => Ok(Some(numbers)),
        Err(UnknownEnd) => Ok(None),
    }
}

/// The number of an edge, whose ends have to be known.
fn known_number(edge: &Edge, known: &IdTable, kind: Kind) -> Result<u64, UnknownEnd>
    ensures { IfOk result (λ number. IsNumberOf kind known.now edge.now number) }
{
    number_of(edge, known, kind).ok_or(UnknownEnd)
}

/// The number of an edge, if both ends are known.
fn number_of(edge: &Edge, known: &IdTable, kind: Kind) -> Option<u64>
    ensures number { IfSome result (λ number. number ≡ pair_in kind known.now edge.now) }
    ensures source { IfSome result (λ _. is_among known.now edge.now.u ≡ true) }
    ensures target { IfSome result (λ _. is_among known.now edge.now.v ≡ true) }
    ensures unknown { IfNone result ((is_among known.now edge.now.u && is_among known.now edge.now.v) ≡ false) }
{
    let source = known.find(edge.u)?;
    let target = known.find(edge.v)?;
    Some(pair_of(kind, source, target))
}

/// A number for the places of an edge's ends: the same for both directions where they don't count.
fn pair_of(kind: Kind, source: usize, target: usize) -> u64
    ensures { result ≡ pair_of kind source target }
{
    let (first, second) = match kind {
        Kind::Directed => (source, target),
        Kind::Undirected => (source.min(target), source.max(target)),
    };
    (first as u64)
        .wrapping_mul(4294967296)
        .wrapping_add(second as u64)
}
