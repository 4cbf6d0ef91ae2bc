//! Reports.
//!
//! 1. A line of the script has one line of the report, in the same order; lines that say nothing have none.
//! 2. Where memory is refused the text is as it was.
//! 3. Several threads share the answers of a long script.

ghost use Rattle.std.specs.Prelude.{◌≡◌, ◌++◌, codes, IfOk, OnOk, OnErr};
ghost use Rattle.run_model.specs.Texts.{answer_text, report_text};
ghost use Rattle.graphalytics_io.specs.Appends.{Extends};

use crate::pieces::{Field, write_counted, write_named};
use graph_model::{Cause, Ids, NoMemory, TxnName};
use graphalytics_io::{Spelling, Text, append_each, text_of_items, write_each};
use run_model::Answer;
use std::alloc::Global;
use std::thread::Threads;

/// Writes a report at the end of a text: a line for each answer. Without memory nothing is written.
pub fn write_report(answers: &[Answer], text: &mut Text) -> Result<(), NoMemory>
    ensures ok { OnOk result (text.new ≡ text.old ++ report_text answers.now) }
    ensures err { OnErr result (text.new ≡ text.old) }
{
    append_each::<Answer, AnswerLine>(answers, text)
}

/// The text of a report, made by several threads.
pub fn text_of_report<R: Threads + Sync>(
    rt: &R,
    alloc: Global,
    answers: &[Answer],
) -> Result<Text, NoMemory>
    ensures { IfOk result (λ text. text ≡ report_text answers.now) }
{
    let text = text_of_items::<R, Answer, AnswerLine>(rt, alloc, answers)?;
    Ok(text)
}

/// The line of an answer.
struct AnswerLine;

impl Spelling<Answer> for AnswerLine {
    ghost text_of = { λ answer. answer_text answer ++ codes "\n" };

    fn write(answer: &Answer, text: &mut Text) -> Result<(), NoMemory> {
        write_answer(answer, text)?;
        text.push_bytes(b"\n")
    }
}

/// Writes an answer, without its line feed. Without memory the text may have a part of it.
fn write_answer(answer: &Answer, text: &mut Text) -> Result<(), NoMemory>
    ensures ok { OnOk result (text.new ≡ text.old ++ answer_text answer.now) }
    ensures err { OnErr result (Extends text.old text.new) }
{
    match answer {
        Answer::Begun { by, start } => write_begun(*by, *start, text),
        Answer::Done => text.push_bytes(b"ok"),
        Answer::Exists => text.push_bytes(b"exists"),
        Answer::SelfLoop => text.push_bytes(b"self loop"),
        Answer::NoVertex { v } => write_counted(b"no vertex", *v, text),
        Answer::NoEdge => text.push_bytes(b"no edge"),
        Answer::HasEdges => text.push_bytes(b"has edges"),
        Answer::Conflict { cause } => write_cause(cause, text),
        Answer::Full => text.push_bytes(b"full"),
        Answer::Weight { weight } => write_counted(b"weight", *weight, text),
        Answer::Nothing => text.push_bytes(b"none"),
        Answer::Neighbours { targets } => write_neighbours(targets, text),
        Answer::Counted { vertices, edges } => write_counts(*vertices, *edges, text),
        Answer::Table { entries } => write_counted(b"table", *entries, text),
        Answer::Committed { stamp } => write_committed(*stamp, text),
        Answer::Aborted => text.push_bytes(b"aborted"),
        Answer::Skipped => text.push_bytes(b"skipped"),
    }
}

/// Writes the answer to a `begin`. Without memory the text may have a part of it.
fn write_begun(by: TxnName, start: u64, text: &mut Text) -> Result<(), NoMemory>
    ensures ok { OnOk result (text.new ≡ text.old ++ answer_text (Answer.Begun by start)) }
    ensures err { OnErr result (Extends text.old text.new) }
{
    write_named(b"begin ", by, text)?;
    write_counted(b" start", start, text)
}

/// Writes what a conflict was met with. Without memory the text may have a part of it.
fn write_cause(cause: &Cause, text: &mut Text) -> Result<(), NoMemory>
    ensures ok { OnOk result (text.new ≡ text.old ++ answer_text (Answer.Conflict cause.now)) }
    ensures err { OnErr result (Extends text.old text.new) }
{
    match cause {
        Cause::Later { stamp } => write_counted(b"conflict later", *stamp, text),
        Cause::Holder { by } => write_named(b"conflict open ", *by, text),
    }
}

/// Writes how many targets there are, and each. Without memory the text may have a part of it.
fn write_neighbours(targets: &Ids, text: &mut Text) -> Result<(), NoMemory>
    ensures ok { OnOk result (text.new ≡ text.old ++ answer_text (Answer.Neighbours targets.now)) }
    ensures err { OnErr result (Extends text.old text.new) }
{
    write_counted(b"neighbours", targets.len() as u64, text)?;
    write_each::<u64, Field>(targets.as_slice(), text)
}

/// Writes how many vertices and edges there are. Without memory the text may have a part of it.
fn write_counts(vertices: u64, edges: u64, text: &mut Text) -> Result<(), NoMemory>
    ensures ok { OnOk result (text.new ≡ text.old ++ answer_text (Answer.Counted vertices edges)) }
    ensures err { OnErr result (Extends text.old text.new) }
{
    write_counted(b"vertices", vertices, text)?;
    write_counted(b" edges", edges, text)
}

/// Writes the answer to a `commit`. Without memory the text may have a part of it.
fn write_committed(stamp: Option<u64>, text: &mut Text) -> Result<(), NoMemory>
    ensures ok { OnOk result (text.new ≡ text.old ++ answer_text (Answer.Committed stamp)) }
    ensures err { OnErr result (Extends text.old text.new) }
{
    match stamp {
        Some(stamp) => write_counted(b"commit", stamp, text),
        None => text.push_bytes(b"commit -"),
    }
}
