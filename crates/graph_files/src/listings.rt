//! Edge files from some line on, where each line is compared with all lines before it.
//!
//! That takes long for many lines, but is only done from a line on that most likely has a fault, so that it ends there.

ghost use Rattle.std.specs.Prelude.{◌≡◌, ◌==◌, ◌&&◌, ◌++◌, ◌∷◌, [], drop, Ok, IfOk, IfErr};
ghost use Rattle.graphalytics_io.specs.FieldLines.{field_lines};
ghost use Rattle.graph_files.specs.Weights.{AreReadable};
ghost use Rattle.graph_files.specs.Faults.{IsRefused};
ghost use Rattle.graph_files.specs.EdgeFiles.{Rules, listed_weight, listing_of, behind, edges_of};
ghost use Rattle.graph_files.specs.Kept.{IsCheckedBy, GoesOn};

use crate::checks::Checks;
use crate::ends::read_edge;
use crate::refusal::{Fault, ReadRefusal, What};
use graph_model::Kind;
use graphalytics_io::{Edge, Edges, FieldLines, field_lines};
use items::NoMemory;
use std::alloc::Global;

/// How a line lists an edge.
#[derive(Clone, Copy, Debug, PartialEq, Eq)]
pub enum Listing {
    /// No line before it lists the edge.
    First,
    /// A line before it lists the edge the other way round, and directions don't count.
    Second,
}

/// What is kept of the lines so far.
#[derive(Drop)]
pub struct EdgesSoFar {
    /// The edge of each line.
    pub listings: Edges,
    /// The edges without second listings.
    pub edges: Edges,
}

/// Reads the edges of an edge file after the lines so far, line by line, up to the first fault.
pub(crate) fn read_rest(
    text: &[u8],
    checks: &Checks,
    reading: EdgesSoFar,
) -> Result<Edges, ReadRefusal>
    requires readable { AreReadable checks.now.weights }
    requires so_far { (rules : Rules) → IsCheckedBy rules checks.now → GoesOn rules (field_lines text.now) reading }
    ensures ok { IfOk result (λ edges. (rules : Rules) → IsCheckedBy rules checks.now
        → edges_of rules text.now ≡ Ok edges) }
    ensures fault { IfErr result (λ refusal. (rules : Rules) → IsCheckedBy rules checks.now
        → IsRefused (edges_of rules text.now) refusal) }
{
    let mut reading = reading;
    let mut lines = lines_behind(text, reading.listings.len());
    'lines: while let Some(line) = lines.next() {
        let number = line.number;
        match read_edge(line.fields, &checks.known, checks.weights) {
            Ok(edge) => match reading.check(checks, &edge) {
                Ok(listing) => reading = reading.with(edge, listing)?,
                Err(what) => return Err(ReadRefusal::Fault(Fault { line: number, what })),
            },
            Err(what) => return Err(ReadRefusal::Fault(Fault { line: number, what })),
        }
    }
    let EdgesSoFar { edges, .. } = reading;
    Ok(edges)
}

/// The lines of a text after the first, so many.
fn lines_behind(text: &[u8], count: usize) -> FieldLines<'_>
    ensures { result ≡ drop count (field_lines text.now) }
{
    let mut lines = field_lines(text);
    'skipped: for _line in 0..count {
        let _ = lines.next();
    }
    lines
}

impl EdgesSoFar {
    ghost use Rattle.std.specs.Prelude.{◌≡◌, [], ◌++◌, ◌∷◌, Err};

    pub(crate) fn new(alloc: Global) -> EdgesSoFar
        ensures listings { result.listings ≡ [] }
        ensures edges { result.edges ≡ [] }
    {
        EdgesSoFar {
            listings: Edges::new(alloc),
            edges: Edges::new(alloc),
        }
    }

    /// How the next line lists this edge.
    fn check(&self, checks: &Checks, edge: &Edge) -> Result<Listing, What>
        ensures { (rules : Rules) → IsCheckedBy rules checks.now → result ≡ listing_of rules
            (record { listings = self.now.listings; edges = self.now.edges }) edge.now }
    {
        if weight_of(self.listings.as_slice(), edge.u, edge.v).is_some() {
            return Err(What::DuplicateEdge);
        }
        if let Kind::Undirected = checks.kind {
            if let Some(weight) = weight_of(self.listings.as_slice(), edge.v, edge.u) {
                return if weight == edge.weight {
                    Ok(Listing::Second)
                } else {
                    Err(What::DuplicateEdge)
                };
            }
        }
        if checks.most <= self.edges.len() as u64 {
            return Err(What::TooManyRows);
        }
        Ok(Listing::First)
    }

    /// The same after a line that lists an edge.
    fn with(self, edge: Edge, listing: Listing) -> Result<EdgesSoFar, NoMemory>
        ensures listings { IfOk result (λ reading. reading.listings ≡ self.listings ++ edge ∷ []) }
        ensures edges { IfOk result (λ reading. reading.edges
            ≡ (behind (record { listings = self.listings; edges = self.edges }) edge listing).edges) }
    {
        let EdgesSoFar {
            mut listings,
            mut edges,
        } = self;
        listings.push(edge)?;
        if let Listing::First = listing {
            edges.push(edge)?;
        }
        Ok(EdgesSoFar { listings, edges })
    }
}

/// The weight with which an edge is listed, if it is.
fn weight_of(listings: &[Edge], u: u64, v: u64) -> Option<u64>
    ensures { result ≡ listed_weight listings.now u v }
{
    'listings: for i in 0..listings.len() {
        if has_ends(&listings[i], u, v) {
            return Some(listings[i].weight);
        }
    }
    None
}

fn has_ends(edge: &Edge, u: u64, v: u64) -> bool
    ensures { result ≡ ((edge.now.u == u) && (edge.now.v == v)) }
{
    edge.u == u && edge.v == v
}
