//! What is said at the end of a run, piece by piece.
//!
//! 1. Saying takes no memory, so that running out of memory can be said too.

ghost use Rattle.std.specs.Prelude.{◌≡◌, decimal};
ghost use Rattle.teseo_program.specs.Outcomes.{OnlySays, said_text, text_line, line_text, fault_text};

use crate::outcome::Outcome;
use desk_io::{Desk, ReadStop};
use itoa::Buffer;
use source_run::SourceFault;

/// Says how a run ended, by the name that the outcome blames, where it blames one, and the summary. Takes no memory.
pub fn say_outcome<D: Desk>(desk: &mut D, name: &str, summary: &[u8], outcome: Outcome)
    ensures { OnlySays (said_text name.now summary.now outcome) (D.files desk.old) (D.files desk.new) }
{
    match outcome {
        Outcome::Done => say_text(desk, summary),
        Outcome::Full => say_text(desk, summary),
        Outcome::LoadFull => say_text(desk, b"load full\n"),
        Outcome::BadWords => say_text(desk, b"bad words\n"),
        Outcome::NotRead(ReadStop::Fault { .. }) => say_line(
            desk,
            b"read failed ",
            name.as_bytes(),
        ),
        Outcome::NotRead(ReadStop::TooLong { .. }) => say_line(
            desk,
            name.as_bytes(),
            b": too long",
        ),
        Outcome::NotRead(ReadStop::NoMemory) => say_text(desk, b"no memory\n"),
        Outcome::NotAccepted { fault, .. } => say_fault(desk, name, fault),
        Outcome::NoMemory => say_text(desk, b"no memory\n"),
        Outcome::NotWritten(_) => say_line(desk, b"write failed ", name.as_bytes()),
    }
}

/// Says what is wrong with the source of this name.
fn say_fault<D: Desk>(desk: &mut D, name: &str, fault: SourceFault)
    ensures { OnlySays (fault_text name.now fault) (D.files desk.old) (D.files desk.new) }
{
    match fault {
        SourceFault::Graph(fault) => say_line_fault(desk, name, fault.line, fault.what.text()),
        SourceFault::Script { line, what } => say_line_fault(desk, name, line, what.text()),
        SourceFault::Schedule { line, what } => say_line_fault(desk, name, line, what.text()),
    }
}

/// Says what is wrong with a line of the source of this name.
fn say_line_fault<D: Desk>(desk: &mut D, name: &str, line: u64, what: &str)
    ensures { OnlySays (line_text name.now line what.now) (D.files desk.old) (D.files desk.new) }
{
    desk.say(name.as_bytes());
    desk.say(b" line ");
    desk.say(Buffer::new().format(line).as_bytes());
    desk.say(b": ");
    desk.say(what.as_bytes());
    desk.say(b"\n");
}

/// Says two texts and a line feed. Takes no memory.
pub fn say_line<D: Desk>(desk: &mut D, front: &[u8], behind: &[u8])
    ensures { OnlySays (text_line front.now behind.now) (D.files desk.old) (D.files desk.new) }
{
    desk.say(front);
    desk.say(behind);
    desk.say(b"\n");
}

/// Says a text.
fn say_text<D: Desk>(desk: &mut D, text: &[u8])
    ensures { OnlySays text.now (D.files desk.old) (D.files desk.new) }
{
    desk.say(text);
}
