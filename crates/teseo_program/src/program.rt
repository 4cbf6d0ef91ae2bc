//! A run, or a graph that is made, to its end.
//!
//! 1. Outputs come before the text that is said, so what is said is true of them.

ghost use Rattle.std.specs.Prelude.{◌≡◌, ◌≢◌, ◌<◌, []};
ghost use Rattle.desk_io.specs.Outputs.{names_of};
ghost use Rattle.command_words.specs.Views.{run_request, make_request};
ghost use Rattle.source_run.specs.Requests.{IsAsked, source_names};
ghost use Rattle.teseo_program.specs.Prepared.{NamesAreApart, Writes, IsWritten};
ghost use Rattle.teseo_program.specs.Outcomes.{status_of, said_text, blamed, OnlySays, IsLeft, IsRunOutcome, IsMakeOutcome};

use crate::left::Left;
use crate::make::prepare_graph;
use crate::outcome::Outcome;
use crate::prepare::{Prepared, prepare};
use crate::say::say_outcome;
use command_words::{MakeWords, RunWords};
use desk_io::{Desk, Gate, Output, ReadStop, write_all};
use graph_model::NoMemory;
use items::Items;
use source_run::source_at;
use std::alloc::Global;
use std::sync::Wait;
use std::thread::Threads;

/// Ends a call that has no words to run, as where one of them isn't text: says the outcome, and answers
/// its exit status.
pub fn end_with<D: Desk>(desk: &mut D, outcome: Outcome) -> u8
    ensures status { result ≡ status_of outcome }
    ensures says { OnlySays (said_text [] [] outcome) (D.files desk.old) (D.files desk.new) }
{
    say_outcome(desk, "", &[], outcome);
    outcome.status()
}

/// Runs the scripts that the words name. After a run whose outputs were all written, `left` is what its store leaves;
/// else it stays as it is. Where the scripts run on threads the gate is called before each of their turns, and the call
/// may wait.
pub fn run<R: Threads + Wait + Sync, D: Desk, G: Gate>(
    rt: &R,
    alloc: Global,
    desk: &mut D,
    words: &RunWords<'_>,
    gate: &G,
    left: &mut Left,
) -> Outcome
    requires { IsAsked (run_request words.now) }
    ensures { IsRunOutcome result (run_request words.now) (D.files desk.old) (D.files desk.new) left.old left.new }
{
    match prepare(rt, alloc, desk, words, gate) {
        Ok(prepared) => {
            let outcome = write_and_say(desk, &prepared);
            // Only where all outputs are written: what is handed out promises that.
            hand_out(left, prepared.left, outcome);
            outcome
        }
        Err(outcome) => {
            say_outcome(desk, blamed_source(words, outcome), &[], outcome);
            outcome
        }
    }
}

/// Hands out what a run has left, if all its outputs were written.
pub fn hand_out(left: &mut Left, ran: Left, outcome: Outcome)
    ensures { IsLeft outcome ran left.old left.new }
{
    match outcome {
        Outcome::Done => *left = ran,
        Outcome::Full => *left = ran,
        _ => {}
    }
}

/// Makes a graph, and writes its two files.
pub fn make_files<D: Desk>(alloc: Global, desk: &mut D, words: &MakeWords<'_>) -> Outcome
    requires some { 0 < words.now.vertices }
    requires apart { words.now.out.now ≢ words.now.edges_out.now }
    ensures { IsMakeOutcome result (make_request words.now) (D.files desk.old) (D.files desk.new) }
{
    match prepare_graph(alloc, words) {
        Ok(prepared) => write_and_say(desk, &prepared),
        Err(NoMemory) => {
            say_outcome(desk, "", &[], Outcome::NoMemory);
            Outcome::NoMemory
        }
    }
}

/// Writes the outputs, says how that went, and answers it.
pub fn write_and_say<D: Desk>(desk: &mut D, prepared: &Prepared) -> Outcome
    requires { NamesAreApart prepared.now }
    ensures { IsWritten prepared.now result (D.files desk.old) (D.files desk.new) }
{
    let outcome = write(desk, prepared);
    say_outcome(
        desk,
        blamed_output(&prepared.outputs, outcome),
        prepared.summary.as_slice(),
        outcome,
    );
    outcome
}

/// Writes the outputs, and answers how that went.
fn write<D: Desk>(desk: &mut D, prepared: &Prepared) -> Outcome
    requires { NamesAreApart prepared.now }
    ensures { Writes prepared.now.is_full prepared.now.outputs result (D.files desk.old) (D.files desk.new) }
{
    match write_all(desk, prepared.outputs.as_slice()) {
        Ok(()) if prepared.is_full => Outcome::Full,
        Ok(()) => Outcome::Done,
        Err(stop) => Outcome::NotWritten(stop),
    }
}

/// The name of the source that an outcome blames, or an empty one.
pub fn blamed_source<'a>(words: &RunWords<'a>, outcome: Outcome) -> &'a str
    ensures { result.now ≡ blamed (source_names (run_request words.now)) [] outcome }
{
    match outcome {
        Outcome::NotRead(ReadStop::Fault { place }) => source_at(words, place),
        Outcome::NotRead(ReadStop::TooLong { place }) => source_at(words, place),
        Outcome::NotAccepted { place, .. } => source_at(words, place),
        _ => "",
    }
}

/// The name of the output that an outcome blames, or an empty one.
fn blamed_output(outputs: &Items<Output>, outcome: Outcome) -> &str
    ensures { result.now ≡ blamed [] (names_of outputs.now) outcome }
{
    match outcome {
        Outcome::NotWritten(stop) => match outputs.as_slice().get(stop.place) {
            Some(output) => output.name(),
            None => "",
        },
        _ => "",
    }
}
