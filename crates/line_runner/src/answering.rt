//! What a line is answered, and what a turn makes of it.
//!
//! 1. A line has one answer, however many turns it takes.
//! 2. The image of an open transaction stays for its next kernel, until a write is done.

ghost use Rattle.std.specs.Prelude.{◌≡◌, None};
ghost use Rattle.line_runner.specs.Phases.{image_behind};

use crate::kept::KeptImage;
use crate::phase::Phase;
use crate::reading::LineReading;
use crate::table::NamedTable;
use run_model::Answer;

/// The answer to a line, the phase of the job behind it, and the table that it gives.
#[derive(Drop)]
pub struct LineAnswer {
    pub answer: Answer,
    pub phase: Phase,
    pub table: Option<NamedTable>,
}

/// What one turn makes of a line.
#[derive(Drop)]
pub enum LineTurn {
    /// Turns are left.
    Scanning { reading: LineReading },
    /// The line has its answer.
    Answering { given: LineAnswer },
}

impl LineAnswer {
    /// An answer that gives no table.
    pub fn plain(answer: Answer, phase: Phase) -> LineAnswer
        ensures { result ≡ record { answer = answer; phase = phase; table = None } }
    {
        LineAnswer {
            answer,
            phase,
            table: None,
        }
    }

    /// The image that stays behind the line: none where the transaction no longer sees what it saw.
    pub fn kept_behind(&self, before: Phase, image: Option<KeptImage>) -> Option<KeptImage>
        ensures { result ≡ image_behind before self.now image }
    {
        match (before, self.phase, &self.answer) {
            (Phase::Open, Phase::Open, Answer::Done) => None,
            (Phase::Open, Phase::Open, _) => image,
            _ => None,
        }
    }
}
