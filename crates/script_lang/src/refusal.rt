//! Why a script or a schedule was not read.
//!
//! 1. Variants stand in the order of the checks, and of several faults of a line the earliest is told.

ghost use Rattle.std.specs.Prelude.{◌≡◌};
ghost use Rattle.script_lang.specs.declared.refusal.ScriptRefusal.TheVariants as scripts;
ghost use Rattle.script_lang.specs.declared.refusal.ScheduleRefusal.TheVariants as schedules;
ghost use Rattle.script_lang.specs.Faults.{order, what_text, schedule_what_text};

use graph_model::NoMemory;
use thiserror::Error;

/// What is wrong with a line of a script, in the order in which a line is checked.
#[derive(Clone, Copy, Debug, PartialEq, Eq, Error)]
#[error("{}", self.text())]
pub enum ScriptWhat {
    /// The first field is no word.
    NotACommand,
    /// The line ends before all fields of its word.
    MissingField,
    /// The line goes on after them.
    ExtraField,
    /// The line isn't `begin`, and no transaction is open.
    NotBegun,
    /// The line is `begin`, and a transaction is open.
    BegunTwice,
    /// A field that has to be a number isn't one or more ASCII digits.
    NotANumber,
    /// An id is above `MAX_ID`.
    IdTooLarge,
    /// A weight is above `MAX_WEIGHT`.
    WeightTooLarge,
    /// A number of rounds is above `MAX_ROUNDS`.
    RoundsTooLarge,
    /// A width is 0 or above `MAX_WIDTH`.
    WidthOutOfRange,
    /// A file name has a byte that isn't printable ASCII.
    BadName,
    /// A file name is taken already.
    NameTwice,
    /// The script has `MAX_BEGINS` lines `begin` before this one.
    TooManyBegins,
    /// The text ends while the transaction that this line opened is open.
    NotEnded,
}

impl ScriptWhat {
    /// What is said of the fault.
    pub fn text(&self) -> &'static str
        ensures { result.now ≡ what_text self.now }
    {
        match self {
            ScriptWhat::NotACommand => "not a command",
            ScriptWhat::MissingField => "missing field",
            ScriptWhat::ExtraField => "extra field",
            ScriptWhat::NotBegun => "not begun",
            ScriptWhat::BegunTwice => "begun twice",
            ScriptWhat::NotANumber => "not a number",
            ScriptWhat::IdTooLarge => "id too large",
            ScriptWhat::WeightTooLarge => "weight too large",
            ScriptWhat::RoundsTooLarge => "rounds too large",
            ScriptWhat::WidthOutOfRange => "width out of range",
            ScriptWhat::BadName => "bad name",
            ScriptWhat::NameTwice => "name twice",
            ScriptWhat::TooManyBegins => "too many begins",
            ScriptWhat::NotEnded => "not ended",
        }
    }

    /// The number of the check.
    pub(crate) fn order(self) -> u8
        ensures { result ≡ order self }
    {
        // The variants are written in this order, so their numbers are it.
        self as u8
    }
}

/// Why no script was given.
#[derive(Clone, Copy, Debug, PartialEq, Eq, Error)]
pub enum ScriptRefusal {
    /// The text's first fault, with the number of its line.
    #[error("line {line}: {what}")]
    Fault { line: u64, what: ScriptWhat },
    /// Memory was refused.
    #[error("no memory")]
    NoMemory,
}

impl From<NoMemory> for ScriptRefusal {
    ghost from_gives = { λ _ refusal. refusal ≡ scripts.NoMemory };

    fn from(_refused: NoMemory) -> ScriptRefusal {
        ScriptRefusal::NoMemory
    }
}

/// What is wrong with a line of a schedule, in the order in which a line is checked.
#[derive(Clone, Copy, Debug, PartialEq, Eq, Error)]
#[error("{}", self.text())]
pub enum ScheduleWhat {
    /// The line goes on after the number of its script.
    ExtraField,
    /// The field isn't one or more ASCII digits.
    NotANumber,
    /// The number is above that of the last job.
    NoSuchJob,
}

impl ScheduleWhat {
    /// What is said of the fault.
    pub fn text(&self) -> &'static str
        ensures { result.now ≡ schedule_what_text self.now }
    {
        match self {
            ScheduleWhat::ExtraField => "extra field",
            ScheduleWhat::NotANumber => "not a number",
            ScheduleWhat::NoSuchJob => "no such job",
        }
    }
}

/// Why no schedule was given.
#[derive(Clone, Copy, Debug, PartialEq, Eq, Error)]
pub enum ScheduleRefusal {
    /// The text's first fault, with the number of its line.
    #[error("line {line}: {what}")]
    Fault { line: u64, what: ScheduleWhat },
    /// Memory was refused.
    #[error("no memory")]
    NoMemory,
}

impl From<NoMemory> for ScheduleRefusal {
    ghost from_gives = { λ _ refusal. refusal ≡ schedules.NoMemory };

    fn from(_refused: NoMemory) -> ScheduleRefusal {
        ScheduleRefusal::NoMemory
    }
}
