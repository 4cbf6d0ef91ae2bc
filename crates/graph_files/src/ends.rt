//! A line of an edge file by itself: its fields, its ends and its weight.
//!
//! 1. Faults are looked for in a fixed order over the whole line, and the first one is told.
//! 2. Which ids are known is a type: a first reading takes all ids as known, and looks the ends up afterwards, all at
//!    once.

ghost use Rattle.std.specs.Prelude.{◌≡◌, ℕ, Bool};
ghost use Rattle.std.specs.Option.{option_copied};
ghost use Rattle.graph_files.specs.Weights.{AreReadable};
ghost use Rattle.graph_files.specs.EdgeFiles.{ends_of, edge_with, edge_of};
ghost use Rattle.graph_files.specs.Kept.{every_id};

use crate::refusal::What;
use crate::vertices::read_id;
use crate::weights::{Weights, read_decimal};
use graphalytics_io::{Edge, Fields};
use id_places::IdTable;

/// Which ids an edge may join.
pub(crate) trait KnownIds {
    ghost knows: { Self → ℕ → Bool };

    fn knows(&self, id: u64) -> bool
        ensures { result ≡ knows self.now id };
}

/// All ids. What is read with these is looked up later.
pub(crate) struct EveryId;

impl KnownIds for EveryId {
    ghost knows = { λ _. every_id };

    fn knows(&self, _id: u64) -> bool {
        true
    }
}

impl KnownIds for IdTable {
    ghost use Rattle.id_places.specs.Places.{is_among};

    ghost knows = { is_among };

    fn knows(&self, id: u64) -> bool {
        IdTable::knows(self, id)
    }
}

/// Reads the edge of a line.
pub(crate) fn read_edge<K: KnownIds>(
    fields: Fields<'_>,
    known: &K,
    weights: Weights,
) -> Result<Edge, What>
    requires { AreReadable weights }
    ensures { result ≡ edge_of (K.knows known.now) weights fields.entry }
{
    let mut fields = fields;
    let Some(source) = fields.next() else {
        return Err(What::MissingField)
    };
    let Some(target) = fields.next() else {
        return Err(What::MissingField)
    };
    let third = fields.next();
    // Looked for before any field is read: how many fields there are is checked first.
    if fields.next().is_some() {
        return Err(What::ExtraField);
    }
    edge_with(known, weights, source, target, third)
}

/// Reads an edge from its fields.
fn edge_with<K: KnownIds>(
    known: &K,
    weights: Weights,
    source: &[u8],
    target: &[u8],
    third: Option<&[u8]>,
) -> Result<Edge, What>
    requires { AreReadable weights }
    ensures { result ≡ edge_with (K.knows known.now) weights source.now target.now (option_copied third.entry) }
{
    match (weights, third) {
        (Weights::Ones, _) => {
            let (u, v) = read_ends(known, source, target)?;
            Ok(Edge { u, v, weight: 1 })
        }
        (Weights::Units { .. }, None) => Err(What::MissingField),
        (Weights::Units { digits, cut }, Some(field)) => {
            let (u, v) = read_ends(known, source, target)?;
            let weight = read_decimal(field, digits, cut)?;
            Ok(Edge { u, v, weight })
        }
    }
}

/// Reads the ends of an edge.
fn read_ends<K: KnownIds>(known: &K, source: &[u8], target: &[u8]) -> Result<(u64, u64), What>
    ensures { result ≡ ends_of (K.knows known.now) source.now target.now }
{
    let u = read_id(source)?;
    let v = read_id(target)?;
    // Before it is looked whether the ends are there.
    if u == v {
        return Err(What::SelfLoop);
    }
    if !known.knows(u) || !known.knows(v) {
        return Err(What::UnknownVertex);
    }
    Ok((u, v))
}
