//! How a call ends.
//!
//! 1. An outcome has all that is said and the status, and nothing else: what led to it is said by its cause in the
//!    definitions.
//! 2. Errors of the parts become outcomes by `From`, so a step of the run passes them on by `?`.

ghost use Rattle.std.specs.Prelude.{◌≡◌};

use command_words::WordsRefusal;
use desk_io::{ReadStop, WriteStop};
use graph_model::{LoadRefusal, NoMemory};
use source_run::{ParseStop, SourceFault};

/// How a call ends, each with its exit status and what is said.
///
/// | Outcome | Status | Said |
/// |---|---|---|
/// | `Done` | 0 | the summary, or what was made |
/// | `NotRead` too long | 1 | `NAME: too long` |
/// | `NotAccepted` | 1 | `NAME line L: TEXT` |
/// | `BadWords` | 2 | `bad words` |
/// | `NoMemory`, `NotRead` where memory runs out | 3 | `no memory` |
/// | `NotRead` by a fault | 4 | `read failed NAME` |
/// | `NotWritten` | 5 | `write failed NAME` |
/// | `Full` | 6 | the summary |
/// | `LoadFull` | 6 | `load full` |
///
/// A place is that of a source, or of an output, among those that the call reads or writes, from 0. `make` ends as
/// `Done`, `NoMemory` or `NotWritten`.
#[derive(Clone, Copy, Debug, PartialEq, Eq)]
pub enum Outcome {
    /// All outputs are written.
    Done,
    /// All is written, and a write found no place: a report has the line `full`.
    Full,
    /// The leaves have no place for all rows of the graph. Nothing is created.
    LoadFull,
    /// The words aren't taken.
    BadWords,
    /// A source wasn't read.
    NotRead(ReadStop),
    /// A source isn't of its form.
    NotAccepted { place: usize, fault: SourceFault },
    /// Memory was refused.
    NoMemory,
    /// An output wasn't written whole.
    NotWritten(WriteStop),
}

impl Outcome {
    ghost use Rattle.teseo_program.specs.Outcomes.{status_of};

    /// The exit status.
    pub fn status(self) -> u8
        ensures { result ≡ status_of self }
    {
        match self {
            Outcome::Done => 0,
            Outcome::BadWords => 2,
            Outcome::NotRead(ReadStop::Fault { .. }) => 4,
            Outcome::NotRead(ReadStop::TooLong { .. }) => 1,
            Outcome::NotRead(ReadStop::NoMemory) => 3,
            Outcome::NotAccepted { .. } => 1,
            Outcome::NoMemory => 3,
            Outcome::NotWritten(_) => 5,
            Outcome::Full => 6,
            Outcome::LoadFull => 6,
        }
    }
}

impl From<WordsRefusal> for Outcome {
    ghost use Rattle.teseo_program.specs.Outcomes.{outcome_of_words};

    ghost from_gives = { λ refusal outcome. outcome ≡ outcome_of_words refusal };

    fn from(refusal: WordsRefusal) -> Outcome {
        match refusal {
            WordsRefusal::BadWords => Outcome::BadWords,
            WordsRefusal::NoMemory => Outcome::NoMemory,
        }
    }
}

impl From<ReadStop> for Outcome {
    ghost use Rattle.teseo_program.specs.declared.outcome.Outcome.TheVariants.{NotRead};

    ghost from_gives = { λ stop outcome. outcome ≡ NotRead stop };

    fn from(stop: ReadStop) -> Outcome {
        Outcome::NotRead(stop)
    }
}

impl From<ParseStop> for Outcome {
    ghost use Rattle.teseo_program.specs.Outcomes.{outcome_of_parse};

    ghost from_gives = { λ stop outcome. outcome ≡ outcome_of_parse stop };

    fn from(stop: ParseStop) -> Outcome {
        match stop {
            ParseStop::NotAccepted { place, fault } => Outcome::NotAccepted { place, fault },
            ParseStop::NoMemory => Outcome::NoMemory,
        }
    }
}

impl From<WriteStop> for Outcome {
    ghost use Rattle.teseo_program.specs.declared.outcome.Outcome.TheVariants.{NotWritten};

    ghost from_gives = { λ stop outcome. outcome ≡ NotWritten stop };

    fn from(stop: WriteStop) -> Outcome {
        Outcome::NotWritten(stop)
    }
}

impl From<LoadRefusal> for Outcome {
    ghost use Rattle.teseo_program.specs.Outcomes.{outcome_of_load};

    ghost from_gives = { λ refusal outcome. outcome ≡ outcome_of_load refusal };

    fn from(refusal: LoadRefusal) -> Outcome {
        match refusal {
            LoadRefusal::Full { leaves: _ } => Outcome::LoadFull,
            LoadRefusal::NoMemory => Outcome::NoMemory,
        }
    }
}

impl From<NoMemory> for Outcome {
    ghost use Rattle.teseo_program.specs.declared.outcome.Outcome.TheVariants as outcomes;

    ghost from_gives = { λ _ outcome. outcome ≡ outcomes.NoMemory };

    fn from(_: NoMemory) -> Outcome {
        Outcome::NoMemory
    }
}
