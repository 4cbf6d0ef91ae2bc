//! How a call ends that keeps the commits of a run, or reads them back.
//!
//! 1. What may come without a disk too is an outcome of `teseo_program`, in `Of`; the others are of the journal file.

ghost use Rattle.std.specs.Prelude.{◌≡◌};

use journal_recovery::below::RecoverRefusal;
use kept_run::KeptRefusal;
use kept_run::below::Outcome;

/// How a call ends, each with its exit status and what is said.
///
/// | Outcome | Status | Said |
/// |---|---|---|
/// | `Of` | that of the outcome | what the outcome says |
/// | `NotMade`, `NotKept` | 5 | `write failed K` |
/// | `NotAJournal` | 1 | `K: not a journal file` |
/// | `NotRecovered` | 4 | `read failed K` |
///
/// K is the name of the journal file. Nothing is created but this file, unless the outcome is one of `Of`.
#[derive(Clone, Copy, Debug, PartialEq, Eq)]
pub enum KeptOutcome {
    /// As a call ends that uses no disk. No call of the disk failed.
    Of(Outcome),
    /// The journal file wasn't made.
    NotMade,
    /// It was made, and a commit wasn't kept in it.
    NotKept,
    /// The file that was to be read back is no journal file.
    NotAJournal,
    /// It wasn't read.
    NotRecovered,
}

impl KeptOutcome {
    ghost use Rattle.kept_program.specs.Outcomes.{kept_status};

    /// The exit status.
    pub fn status(self) -> u8
        ensures { result ≡ kept_status self }
    {
        match self {
            KeptOutcome::Of(outcome) => outcome.status(),
            KeptOutcome::NotMade => 5,
            KeptOutcome::NotKept => 5,
            KeptOutcome::NotAJournal => 1,
            KeptOutcome::NotRecovered => 4,
        }
    }
}

impl From<Outcome> for KeptOutcome {
    ghost use Rattle.kept_program.specs.declared.outcome.KeptOutcome.TheVariants.{Of};

    ghost from_gives = { λ outcome kept. kept ≡ Of outcome };

    fn from(outcome: Outcome) -> KeptOutcome {
        KeptOutcome::Of(outcome)
    }
}

impl From<KeptRefusal> for KeptOutcome {
    ghost use Rattle.kept_program.specs.Outcomes.{outcome_of_stop};

    ghost from_gives = { λ refusal outcome. outcome ≡ outcome_of_stop refusal };

    fn from(refusal: KeptRefusal) -> KeptOutcome {
        match refusal {
            KeptRefusal::Full { leaves: _ } => KeptOutcome::Of(Outcome::LoadFull),
            KeptRefusal::NoMemory => KeptOutcome::Of(Outcome::NoMemory),
            KeptRefusal::DiskFault => KeptOutcome::NotKept,
        }
    }
}

impl From<RecoverRefusal> for KeptOutcome {
    ghost use Rattle.kept_program.specs.Outcomes.{outcome_of_recovery};

    ghost from_gives = { λ refusal outcome. outcome ≡ outcome_of_recovery refusal };

    fn from(refusal: RecoverRefusal) -> KeptOutcome {
        match refusal {
            RecoverRefusal::NotAJournal => KeptOutcome::NotAJournal,
            RecoverRefusal::DiskFault => KeptOutcome::NotRecovered,
            RecoverRefusal::NoMemory => KeptOutcome::Of(Outcome::NoMemory),
        }
    }
}
