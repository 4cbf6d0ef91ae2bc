//! Why a file was not read.
//!
//! 1. A refusal has the first line with a fault, and of several faults of that line the one that is checked first.
//!    Lines are counted from 1, and those that say nothing count too.

ghost use Rattle.std.specs.Prelude.{◌≡◌};
ghost use Rattle.graph_files.specs.declared.refusal.ReadRefusal.TheVariants as refusals;
ghost use Rattle.graph_files.specs.Faults.{what_text};

use items::NoMemory;
use thiserror::Error;

/// What is wrong with a line of a vertex or an edge file.
#[derive(Clone, Copy, Debug, PartialEq, Eq, Error)]
#[error("{}", self.text())]
pub enum What {
    /// A field that has to be a number isn't one. An id is one or more ASCII digits, a weight has a point at most.
    NotANumber,
    /// An id is above `MAX_ID`.
    IdTooLarge,
    /// The id stood on an earlier line.
    DuplicateVertex,
    /// The edge stood on an earlier line, from the same source to the same target; or, in an undirected graph, the
    /// other way round with another weight.
    DuplicateEdge,
    /// An end of an edge is none of the ids.
    UnknownVertex,
    /// An edge has the same source and target.
    SelfLoop,
    /// A line ends before all fields that it has to have.
    MissingField,
    /// A line goes on after all fields that it may have.
    ExtraField,
    /// A weight has more digits after its point than are read, and not all of them are zeros.
    WeightTooFine,
    /// A weight is above `MAX_WEIGHT` units.
    WeightTooLarge,
    /// With this line the vertices and arcs are more than the limit.
    TooManyRows,
}

impl What {
    /// What is said of the fault.
    pub fn text(&self) -> &'static str
        ensures { result.now ≡ what_text self.now }
    {
        match self {
            What::NotANumber => "not a number",
            What::IdTooLarge => "id too large",
            What::DuplicateVertex => "duplicate vertex",
            What::DuplicateEdge => "duplicate edge",
            What::UnknownVertex => "unknown vertex",
            What::SelfLoop => "self loop",
            What::MissingField => "missing field",
            What::ExtraField => "extra field",
            What::WeightTooFine => "weight too fine",
            What::WeightTooLarge => "weight too large",
            What::TooManyRows => "too many rows",
        }
    }
}

/// The first line of a file with a fault, counted from 1, and the first check that it fails.
#[derive(Clone, Copy, Debug, PartialEq, Eq, Error)]
#[error("line {line}: {what}")]
pub struct Fault {
    /// The number of the line, from 1.
    pub line: u64,
    /// What is wrong with it.
    pub what: What,
}

/// Why nothing was read of a file.
#[derive(Clone, Copy, Debug, PartialEq, Eq, Error)]
pub enum ReadRefusal {
    /// A line has a fault.
    #[error("{0}")]
    Fault(Fault),
    /// Memory was refused.
    #[error("no memory")]
    NoMemory,
}

impl From<NoMemory> for ReadRefusal {
    ghost from_gives = { λ _ refusal. refusal ≡ refusals.NoMemory };

    fn from(_refused: NoMemory) -> ReadRefusal {
        ReadRefusal::NoMemory
    }
}
