//! Why sources aren't accepted.
//!
//! 1. Sources are looked at in a fixed order, V, E, scripts, schedule, and the first that is refused is named.

ghost use Rattle.std.specs.Prelude.{◌≡◌};

use graph_files::Fault;
use graph_model::NoMemory;
use script_lang::{ScheduleWhat, ScriptWhat};

/// What is wrong with a source.
#[derive(Clone, Copy, Debug, PartialEq, Eq)]
pub enum SourceFault {
    /// The first faulty line of a vertex file or of an edge file.
    Graph(Fault),
    /// The first faulty line of a script.
    Script { line: u64, what: ScriptWhat },
    /// The first faulty line of a schedule.
    Schedule { line: u64, what: ScheduleWhat },
}

/// Why the sources weren't parsed.
#[derive(Clone, Copy, Debug, PartialEq, Eq)]
pub enum ParseStop {
    /// The source at this place is the first with a fault.
    NotAccepted { place: usize, fault: SourceFault },
    /// Memory was refused.
    NoMemory,
}

impl From<NoMemory> for ParseStop {
    ghost use Rattle.source_run.specs.declared.fault.ParseStop.TheVariants as stops;

    ghost from_gives = { λ _ stop. stop ≡ stops.NoMemory };

    fn from(_: NoMemory) -> ParseStop {
        ParseStop::NoMemory
    }
}
