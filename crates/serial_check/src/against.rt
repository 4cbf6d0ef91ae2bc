//! Whether a commit stands against a transaction.
//!
//! The commits after the start of the transaction are looked at from the newest on, and each key that one of them
//! wrote is one search of the footprint. So the cost is that of the writes that were committed since the start.

ghost use Rattle.std.specs.Prelude.{◌≡◌, ◌≤◌};
ghost use Rattle.std.specs.List.{list_any, AllByRecursion};
ghost use Rattle.graph_model.specs.declared.limits.TheConstants.{MAX_ID};
ghost use Rattle.graph_model.specs.Refused.{IsWithinLimits};
ghost use Rattle.graph_model.specs.Legal.{IsLegal};
ghost use Rattle.graph_model.specs.Effects.{arc_keys, keys_of};
ghost use Rattle.serial_model.specs.Footprints.{writes_in, newest_in};
ghost use Rattle.serial_check.specs.Ranges.{covers};

use crate::footprint::Footprint;
use graph_model::{Commit, Key, Kind, Write};

/// The stamp of the newest commit above the start that wrote a row of the footprint, or none where there is no such
/// commit.
pub fn check(kind: Kind, journal: &[Commit], start: u64, footprint: &Footprint) -> Option<u64>
    requires { IsLegal kind journal.now }
    ensures { result ≡ newest_in kind journal.now start (covers footprint.now.items) }
{
    let mut place = journal.len();
    // The commit of a stamp stands at the place before it, so those up to the start come first in the journal.
    'commits: while place as u64 > start {
        place -= 1;
        let commit = &journal[place];
        // From the newest on, since the newest one that stands against it is what the answer names.
        if writes_in(kind, commit.writes.as_slice(), footprint) {
            return Some(commit.stamp);
        }
    }
    None
}

/// Whether one of the writes writes a row of the footprint.
fn writes_in(kind: Kind, writes: &[Write], footprint: &Footprint) -> bool
    requires { AllByRecursion IsWithinLimits writes.now }
    ensures { result ≡ writes_in kind (covers footprint.now.items) writes.now }
{
    'writes: for write in writes {
        if is_in(kind, *write, footprint) {
            return true;
        }
    }
    false
}

/// Whether the write writes a row of the footprint.
fn is_in(kind: Kind, write: Write, footprint: &Footprint) -> bool
    requires { IsWithinLimits write }
    ensures { result ≡ list_any (covers footprint.now.items) (keys_of kind write) }
{
    match write {
        Write::AddVertex { v } => footprint.has(Key::of_vertex(v)),
        Write::DropVertex { v } => footprint.has(Key::of_vertex(v)),
        Write::AddEdge { u, v, weight: _ } => edge_is_in(kind, u, v, footprint),
        Write::SetEdge { u, v, weight: _ } => edge_is_in(kind, u, v, footprint),
        Write::DropEdge { u, v } => edge_is_in(kind, u, v, footprint),
    }
}

/// Whether one of an edge's rows is in the footprint.
fn edge_is_in(kind: Kind, u: u64, v: u64, footprint: &Footprint) -> bool
    requires first { u ≤ MAX_ID }
    requires second { v ≤ MAX_ID }
    ensures { result ≡ list_any (covers footprint.now.items) (arc_keys kind u v) }
{
    match kind {
        Kind::Directed => footprint.has(Key::of_arc(u, v)),
        // A scan of one end may have read one of both rows alone.
        Kind::Undirected => { footprint.has(Key::of_arc(v, u)) || footprint.has(Key::of_arc(u, v)) }
    }
}
