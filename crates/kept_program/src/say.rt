//! What is said of a call that wrote no output.
//!
//! 1. Names are lent by the words, and texts said in pieces, so it takes no memory: it may have run out.

ghost use Rattle.kept_program.specs.Outcomes.{stop_text};
ghost use Rattle.kept_run.specs.TeseoProgram.Outcomes.{OnlySays};

use crate::outcome::KeptOutcome;
use desk_io::Desk;
use kept_run::below::{say_line, say_outcome};

/// Says why no output was written, by the name of the source that is blamed, if one is, and that of the journal file.
/// Takes no memory.
pub fn say_stop<D: Desk>(desk: &mut D, source: &str, file: &str, outcome: KeptOutcome)
    ensures { OnlySays (stop_text source.now file.now outcome) (D.files desk.old) (D.files desk.new) }
{
    match outcome {
        KeptOutcome::Of(outcome) => say_outcome(desk, source, &[], outcome),
        KeptOutcome::NotMade => say_line(desk, b"write failed ", file.as_bytes()),
        KeptOutcome::NotKept => say_line(desk, b"write failed ", file.as_bytes()),
        KeptOutcome::NotAJournal => say_line(desk, file.as_bytes(), b": not a journal file"),
        KeptOutcome::NotRecovered => say_line(desk, b"read failed ", file.as_bytes()),
    }
}
