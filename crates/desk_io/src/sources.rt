//! Sources that are read whole, one after another.
//!
//! 1. The first that can't be read ends it, and is named by its place: a place takes no memory.
ghost use Rattle.std.specs.Prelude.{◌≡◌, map, IfOk, IfErr, OnOk};
ghost use Rattle.desk_io.specs.Sources.{AreRead, IsReadStop, stop_at};

use crate::desk::Desk;
use crate::source::{Bytes, SourceRefusal, read_source};
use items::{Items, NoMemory};
use std::alloc::Global;
use thiserror::Error;

/// The bytes of each source.
pub type Sources = Items<Bytes>;

/// Why the sources were not all read: at which place among the names, from 0, and the cause.
#[derive(Clone, Copy, Debug, PartialEq, Eq, Error)]
pub enum ReadStop {
    /// A read failed.
    #[error("source {place} cannot be read")]
    Fault { place: usize },
    /// A source has too many bytes.
    #[error("source {place} is too long")]
    TooLong { place: usize },
    /// Memory was refused, whichever source it was for.
    #[error("no memory")]
    NoMemory,
}

impl From<NoMemory> for ReadStop {
    ghost use Rattle.std.specs.Prelude.{◌≡◌};
    ghost use Rattle.desk_io.specs.declared.sources.ReadStop.TheVariants as stops;

    ghost from_gives = { λ _ e. e ≡ stops.NoMemory };

    fn from(_: NoMemory) -> ReadStop {
        ReadStop::NoMemory
    }
}

/// Reads the sources whole, in the order of the names. The first that cannot be read, or has more
/// bytes than the limit, ends it: no later one is read.
pub fn read_all<D: Desk>(
    alloc: Global,
    desk: &mut D,
    names: &[&str],
    limit: u64,
) -> Result<Sources, ReadStop>
    ensures whole { IfOk result (λ sources.
        AreRead limit (D.files desk.old) (map (λ name. name.now) names.now) sources) }
    ensures ok { OnOk result (D.files desk.new ≡ D.files desk.old) }
    ensures stop { IfErr result (IsReadStop limit (map (λ name. name.now) names.now)
        (D.files desk.old) (D.files desk.new)) }
{
    let mut sources = Items::new(alloc);
    'sources: for place in 0..names.len() {
        match read_source(alloc, desk, names[place], limit) {
            Ok(source) => sources.push(source)?,
            Err(refusal) => return Err(stop_at(place, refusal)),
        }
    }
    Ok(sources)
}

/// The stop at a place whose source is refused.
fn stop_at(place: usize, refusal: SourceRefusal) -> ReadStop
    ensures { result ≡ stop_at place refusal }
{
    match refusal {
        SourceRefusal::ReadFault => ReadStop::Fault { place },
        SourceRefusal::TooLong => ReadStop::TooLong { place },
        SourceRefusal::NoMemory => ReadStop::NoMemory,
    }
}
