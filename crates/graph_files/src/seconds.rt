//! Listings of which some are second ones: in a graph whose edges have no direction, an edge may be listed once each
//! way round.
//!
//! 1. Which listing is the second of which edge is told by sorting the numbers of edges, and then checked against the
//!    edges that were kept: nothing rests on the sorting.
//! 2. A listing that isn't kept is the other way round as an edge that was kept before it. Where the numbers of the
//!    kept edges differ, and those of the second listings too, no edge is listed in any other way.

ghost use Rattle.std.specs.Prelude.{◌≡◌, ℕ, length, map, take, Contains, IfOk};
ghost use Rattle.std.specs.Bool.{OnTrue, OnFalse};
ghost use Rattle.std.specs.Vec.{vec_len};
ghost use Rattle.graphalytics_io.specs.declared.edges.Edge.{Edge};
ghost use Rattle.graph_files.specs.Seconds.{IsTurned, Takes, AreParts};

use crate::checks::Checks;
use graph_model::Kind;
use graphalytics_io::{Edge, Edges};
use items::NoMemory;
use std::alloc::Global;

/// The edges of the listings so far, with their numbers, and the numbers of second listings.
#[derive(Drop)]
pub struct PartedListings {
    /// Those that are listed for the first time, in the order of the file.
    pub kept: Edges,
    /// The numbers of their ends.
    pub kept_numbers: Vec<u64>,
    /// Of each edge that is listed once more the number of its ends.
    pub second_numbers: Vec<u64>,
}

/// For each number the place before it where it stands too, or a place beyond all.
fn earlier_of(alloc: Global, numbers: &[u64]) -> Result<Vec<usize>, NoMemory>
    ensures { IfOk result (λ earlier. vec_len earlier ≡ length numbers.now) }
{
    let mut sorted = Vec::with_capacity(alloc, numbers.len())?;
    'numbers: for place in 0..numbers.len() {
        sorted.push((numbers[place], place))?;
    }
    sorted.sort_unstable();
    let mut earlier = vec![in alloc; usize::MAX; numbers.len()]?;
    'sorted: for i in 1..sorted.len() {
        let (before, first) = sorted[i - 1];
        let (number, place) = sorted[i];
        if before == number && place < earlier.len() {
            earlier[place] = first;
        }
    }
    Ok(earlier)
}

/// Parts the listings up to the first that may not stand where it does, and says how many these are.
pub(crate) fn parts_of(
    alloc: Global,
    edges: &[Edge],
    numbers: &[u64],
    checks: &Checks,
) -> Result<(PartedListings, usize), NoMemory>
    requires { length numbers.now ≡ length edges.now }
    ensures { IfOk result (λ found. (number : Edge → ℕ) → numbers.now ≡ map number edges.now
        → AreParts checks.now.kind checks.now.most number (take found.1 edges.now) found.0) }
{
    let mut parts = PartedListings::new(alloc);
    let mut places = earlier_of(alloc, numbers)?;
    'listings: for at in 0..edges.len() {
        let first = first_place(places.as_slice(), at);
        places[at] = parts.kept.len();
        if !parts.take(edges[at], numbers[at], first, checks)? {
            return Ok((parts, at));
        }
    }
    Ok((parts, edges.len()))
}

/// The place among the kept edges of the first listing of an edge, for a second one. After a listing its place has
/// taken the place of what was told of it.
fn first_place(places: &[usize], at: usize) -> Option<usize> {
    let first = *places.get(at)?;
    if first < at {
        places.get(first).copied()
    } else {
        None
    }
}

impl PartedListings {
    ghost use Rattle.std.specs.Prelude.{◌≡◌, []};

    fn new(alloc: Global) -> PartedListings
        ensures kept { result.kept ≡ [] }
        ensures kept_numbers { result.kept_numbers.items ≡ [] }
        ensures second_numbers { result.second_numbers.items ≡ [] }
    {
        PartedListings {
            kept: Edges::new(alloc),
            kept_numbers: Vec::new(alloc),
            second_numbers: Vec::new(alloc),
        }
    }

    /// Takes the next listing, with its number: as the second one of the edge that was kept at a place, if it is that,
    /// or as a first one, if there may be one more. Else nothing changes.
    fn take(
        &mut self,
        edge: Edge,
        number: u64,
        first: Option<usize>,
        checks: &Checks,
    ) -> Result<bool, NoMemory>
        ensures taken { IfOk result (λ taken. OnTrue taken
            (Takes checks.now.kind checks.now.most self.old edge number self.new)) }
        ensures same { IfOk result (λ taken. OnFalse taken (self.new ≡ self.old)) }
    {
        match first {
            Some(place) => {
                if !self.has_turned(place, &edge, checks.kind) {
                    return Ok(false);
                }
                self.second_numbers.push(number)?;
                Ok(true)
            }
            None => {
                if checks.most <= self.kept.len() as u64 {
                    return Ok(false);
                }
                self.kept.push(edge)?;
                self.kept_numbers.push(number)?;
                Ok(true)
            }
        }
    }

    /// Whether this is the edge that was kept at a place, the other way round.
    fn has_turned(&self, place: usize, edge: &Edge, kind: Kind) -> bool
        ensures { OnTrue result ((first : Edge) × Contains self.now.kept first × IsTurned kind first edge.now) }
    {
        if self.kept.len() <= place {
            return false;
        }
        is_turned(&self.kept.as_slice()[place], edge, kind)
    }
}

/// Whether these are one edge with one weight, each the other way round, where directions don't count.
fn is_turned(first: &Edge, second: &Edge, kind: Kind) -> bool
    ensures { OnTrue result (IsTurned kind first.now second.now) }
{
    kind == Kind::Undirected
        && first.u == second.v
        && first.v == second.u
        && first.u != first.v
        && first.weight == second.weight
}
