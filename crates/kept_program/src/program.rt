//! The top call.
//!
//! 1. A run that names no journal file is the call of `teseo_program`, by the same clauses, and touches no disk.
//! 2. Whatever the outcome is, what is said and which status it has comes last, from that outcome alone.

ghost use Rattle.std.specs.Prelude.{◌≡◌, ◌≤◌, Some, map};
ghost use Rattle.std.specs.String.{string_bytes};
ghost use Rattle.command_words.specs.Views.{run_request};
ghost use Rattle.kept_run.specs.SourceRun.Requests.{IsAsked, source_names};
ghost use Rattle.kept_run.specs.RunKeeper.Keeping.{acknowledged_on};
ghost use Rattle.kept_program.specs.declared.outcome.KeptOutcome.{KeptOutcome};
ghost use Rattle.kept_run.specs.TeseoProgram.Laws.{HasNoFault, Stands};
ghost use Rattle.kept_program.specs.Laws.{IsExactStatus};
ghost use Rattle.kept_program.specs.Outcomes.{kept_status, blamed_by, KeptRunEnds, RunEnds, IsEnd, TellsFaults, CreatesNothing};

use crate::outcome::KeptOutcome;
use crate::prepare::prepare_kept;
use crate::recovery::recover;
use crate::say::say_stop;
use command_words::{ProgramWords, RunWords, read_words};
use desk_io::{Desk, Gate};
use journal_disk::Disk;
use kept_run::below::{Left, Outcome, blamed_source, hand_out, make_files, run, write_and_say};
use std::alloc::Global;
use std::sync::Wait;
use std::thread::Threads;

/// Runs `teseo` on the words after its name, and answers the exit status. After a run whose outputs were all written,
/// `left` is what its store leaves; else it stays as it is. The disk is used where the words name a journal file.
/// Where the scripts run on threads the gate is called before each of their turns, and the call may wait.
pub fn teseo_kept<R: Threads + Wait + Sync, D: Desk, G: Gate, K: Disk>(
    rt: &R,
    alloc: Global,
    words: &[String],
    desk: &mut D,
    gate: &G,
    left: &mut Left,
    disk: &mut K,
) -> u8
    ensures ends { (outcome : KeptOutcome) × (result ≡ kept_status outcome)
        × IsEnd (acknowledged_on K.moment K.may_leave K.left_since disk.new) outcome (map string_bytes words.now)
        (D.files desk.old) (D.files desk.new) left.old left.new (K.state disk.old) (K.state disk.new) }
    ensures faults { TellsFaults result (D.files desk.old) (D.files desk.new) (K.state disk.old) (K.state disk.new) }
    ensures nothing_created { 1 ≤ result → result ≤ 4 → CreatesNothing (D.files desk.old) (D.files desk.new) }
    ensures exact { HasNoFault (D.files desk.old) (D.files desk.new)
        → Stands (K.state disk.old).faults (K.state disk.new).faults
        → IsExactStatus (map string_bytes words.now) result (D.files desk.old) }
{
    outcome_of(rt, alloc, words, desk, gate, left, disk).status()
}

/// Runs the words to their end.
fn outcome_of<R: Threads + Wait + Sync, D: Desk, G: Gate, K: Disk>(
    rt: &R,
    alloc: Global,
    words: &[String],
    desk: &mut D,
    gate: &G,
    left: &mut Left,
    disk: &mut K,
) -> KeptOutcome
    ensures { IsEnd (acknowledged_on K.moment K.may_leave K.left_since disk.new) result (map string_bytes words.now)
        (D.files desk.old) (D.files desk.new) left.old left.new (K.state disk.old) (K.state disk.new) }
{
    match read_words(alloc, words) {
        Ok(ProgramWords::Run(words)) => run_as_asked(rt, alloc, desk, &words, gate, left, disk),
        Ok(ProgramWords::Make(words)) => KeptOutcome::Of(make_files(alloc, desk, &words)),
        Ok(ProgramWords::Recover(words)) => recover(alloc, desk, &words, disk),
        Err(refusal) => {
            let outcome = KeptOutcome::Of(Outcome::from(refusal));
            say_stop(desk, "", "", outcome);
            outcome
        }
    }
}

/// Runs the scripts that the words name, and keeps the commits where a journal file is named.
fn run_as_asked<R: Threads + Wait + Sync, D: Desk, G: Gate, K: Disk>(
    rt: &R,
    alloc: Global,
    desk: &mut D,
    words: &RunWords<'_>,
    gate: &G,
    left: &mut Left,
    disk: &mut K,
) -> KeptOutcome
    requires { IsAsked (run_request words.now) }
    ensures { RunEnds (acknowledged_on K.moment K.may_leave K.left_since disk.new)
        (run_request words.now).keep result (run_request words.now)
        (D.files desk.old) (D.files desk.new) left.old left.new (K.state disk.old) (K.state disk.new) }
{
    match words.keep {
        Some(name) => run_and_keep(rt, alloc, desk, words, name, left, disk),
        None => KeptOutcome::Of(run(rt, alloc, desk, words, gate, left)),
    }
}

/// Runs the scripts, and keeps the commits in the file of this name.
fn run_and_keep<R: Threads + Sync, D: Desk, K: Disk>(
    rt: &R,
    alloc: Global,
    desk: &mut D,
    words: &RunWords<'_>,
    name: &str,
    left: &mut Left,
    disk: &mut K,
) -> KeptOutcome
    requires asked { IsAsked (run_request words.now) }
    requires keep { (run_request words.now).keep ≡ Some name.now }
    ensures { KeptRunEnds (acknowledged_on K.moment K.may_leave K.left_since disk.new)
        name.now result (run_request words.now)
        (D.files desk.old) (D.files desk.new) left.old left.new (K.state disk.old) (K.state disk.new) }
{
    match prepare_kept(rt, alloc, desk, words, name, disk) {
        Ok(prepared) => {
            let outcome = write_and_say(desk, &prepared);
            // Only where all outputs are written: what is handed out promises that.
            hand_out(left, prepared.left, outcome);
            KeptOutcome::Of(outcome)
        }
        Err(outcome) => {
            say_stop(desk, blamed_by(words, outcome), name, outcome);
            outcome
        }
    }
}

/// The name of the source that an outcome blames, or an empty one.
fn blamed_by<'a>(words: &RunWords<'a>, outcome: KeptOutcome) -> &'a str
    ensures { result.now ≡ blamed_by (source_names (run_request words.now)) outcome }
{
    match outcome {
        KeptOutcome::Of(outcome) => blamed_source(words, outcome),
        _ => "",
    }
}
