//! The run by turns that refuses commits.
//!
//! 1. Before each turn of a script the line at hand adds to the footprint of its transaction, which begins empty.
//! 2. A `commit` that is refused is run as an `abort`, and gets its own answer when the run is over.
//! 3. All else is a turn as in a run that refuses none.

ghost use Rattle.std.specs.Prelude.{◌≡◌, ℕ, List, [], Some, false, ◌-◌, ◌<◌, ◌≤◌, length, slice_get, slice_set, OnOk, OnErr, IfOk};
ghost use Rattle.graph_model.specs.Legal.{IsLegal};
ghost use Rattle.graph_model.specs.OwnerCalls.{Core, pass_at};
ghost use Rattle.run_model.specs.Inputs.{Inputs};
ghost use Rattle.job_runner.specs.Progress.{Progress, is_over};
ghost use Rattle.job_runner.specs.Runs.{AreNew, AreUnderWay, IsStuck, RunIsStuck, Goes, GivesUp, under_way};
ghost use Rattle.run_model.specs.declared.command.Command.TheVariants as commands;
ghost use Rattle.serial_model.specs.SerialRun.{is_commit};
ghost use Rattle.serial_runner.specs.SerialRuns.{is_begin, AreFresh, IsUnderCheck, TakesCheckedTurn, PreparesLine, Prepares, refusal_since, refusal_by, job_anew, jobs_anew, SerialEnds};
ghost use Rattle.serial_runner.specs.declared.run.RefusedCommit.{RefusedCommit};
ghost use Rattle.serial_runner.specs.declared.run.Check.{Check};
ghost use Rattle.teseo_core.specs.Writing.{writing_since};

use crate::engine::CheckedEngine;
use graph_model::{Cause, NoMemory};
use items::Items;
use job_runner::{Jobs, take_turn};
use run_model::{Answer, Command};
use serial_check::{Footprint, check};
use std::alloc::Global;
use std::thread::Threads;

/// A commit that was refused: the place of its line in the script, and the stamp of the commit that stands against it.
#[derive(Clone, Copy, Debug, PartialEq, Eq)]
pub struct RefusedCommit {
    /// Its place in the script, from 0.
    pub line: usize,
    /// Of the commit that stands against it.
    pub stamp: u64,
}

/// What is checked of a script: the footprint of its open transaction, and the commits that were refused so far.
#[derive(Drop)]
struct Check {
    /// Of the open transaction; without keys where there is none.
    footprint: Footprint,
    /// In the order of the script.
    refused: Items<RefusedCommit>,
}

/// Runs the jobs of all scripts to their end, one turn after the other, and refuses each commit that would not leave a
/// serial order.
pub fn run_serial<R: Threads + Sync, E: CheckedEngine>(
    rt: &R,
    alloc: Global,
    engine: &mut E,
    jobs: &mut Jobs,
    schedule: &[u32],
) -> Result<(), NoMemory>
    requires new { (inputs : Inputs) × AreNew inputs (E.core engine.old) jobs.old }
    requires listed { (i job : ℕ) → slice_get schedule.now i ≡ Some job → job ≤ length jobs.old }
    ensures ends { OnOk result ((inputs : Inputs) → AreNew inputs (E.core engine.old) jobs.old
        → SerialEnds inputs schedule.now (E.core engine.old) (E.core engine.new) jobs.new) }
    ensures err { OnErr result (GivesUp (E.core engine.old) (E.core engine.new)) }
{
    match run_checked(rt, alloc, engine, jobs, schedule) {
        Ok(()) => Ok(()),
        Err(e) => {
            jobs.give_up(engine);
            Err(e)
        }
    }
}

/// Takes turns until all scripts have ended, or memory runs out, with a check for each script.
fn run_checked<R: Threads + Sync, E: CheckedEngine>(
    rt: &R,
    alloc: Global,
    engine: &mut E,
    jobs: &mut Jobs,
    schedule: &[u32],
) -> Result<(), NoMemory>
    requires new { (inputs : Inputs) × AreNew inputs (E.core engine.old) jobs.old }
    requires listed { (i job : ℕ) → slice_get schedule.now i ≡ Some job → job ≤ length jobs.old }
    ensures ends { OnOk result ((inputs : Inputs) → AreNew inputs (E.core engine.old) jobs.old
        → SerialEnds inputs schedule.now (E.core engine.old) (E.core engine.new) jobs.new) }
    ensures err { OnErr result (RunIsStuck (E.core engine.old) (E.core engine.new) jobs.new) }
{
    // Made before the first turn, one a script, so that a turn finds its own by a number.
    let mut checks = new_checks(alloc, jobs.len())?;
    run_with(rt, engine, jobs, checks.as_mut_slice(), schedule)
}

/// Takes turns until all scripts have ended, or memory runs out, and gives refused commits their answers.
fn run_with<R: Threads + Sync, E: CheckedEngine>(
    rt: &R,
    engine: &mut E,
    jobs: &mut Jobs,
    checks: &mut [Check],
    schedule: &[u32],
) -> Result<(), NoMemory>
    requires new { (inputs : Inputs) × AreNew inputs (E.core engine.old) jobs.old }
    requires listed { (i job : ℕ) → slice_get schedule.now i ≡ Some job → job ≤ length jobs.old }
    requires fresh { AreFresh checks.old }
    requires count { length checks.old ≡ length jobs.old }
    ensures ends { OnOk result ((inputs : Inputs) → AreNew inputs (E.core engine.old) jobs.old
        → SerialEnds inputs schedule.now (E.core engine.old) (E.core engine.new) jobs.new) }
    ensures err { OnErr result (RunIsStuck (E.core engine.old) (E.core engine.new) jobs.new) }
{
    take_turns(rt, engine, jobs, checks, schedule)?;
    // After the run, since until then a refused commit is an abort to whatever looks at the answers.
    answer_refused(jobs, checks);
    Ok(())
}

/// So many scripts of which nothing was checked.
fn new_checks(alloc: Global, count: usize) -> Result<Vec<Check>, NoMemory>
    ensures count { IfOk result (λ checks. length checks.items ≡ count) }
    ensures fresh { IfOk result (λ checks. AreFresh checks.items) }
{
    let mut checks = Vec::new(alloc);
    'checks: for _place in 0..count {
        checks.push(Check {
            footprint: Footprint::new(alloc),
            refused: Items::new(alloc),
        })?;
    }
    Ok(checks)
}

/// Takes turns until all scripts have ended, or memory runs out.
fn take_turns<R: Threads + Sync, E: CheckedEngine>(
    rt: &R,
    engine: &mut E,
    jobs: &mut Jobs,
    checks: &mut [Check],
    schedule: &[u32],
) -> Result<(), NoMemory>
    requires under { (inputs : Inputs)
        × IsUnderCheck inputs schedule.now (E.core engine.old) 0 (E.core engine.old) jobs.old checks.old }
    requires listed { (i job : ℕ) → slice_get schedule.now i ≡ Some job → job ≤ length jobs.old }
    requires count { length checks.old ≡ length jobs.old }
    ensures ends { OnOk result ((inputs : Inputs)
        → IsUnderCheck inputs schedule.now (E.core engine.old) 0 (E.core engine.old) jobs.old checks.old
        → (turns : ℕ)
        × IsUnderCheck inputs schedule.now (E.core engine.old) turns (E.core engine.new) jobs.new checks.new
        × (under_way jobs.new ≡ 0)) }
    ensures err { OnErr result (RunIsStuck (E.core engine.old) (E.core engine.new) jobs.new) }
{
    let count = jobs.len();
    let mut left = jobs.under_way();
    'schedule: for job in schedule {
        if left == 0 {
            return Ok(());
        }
        if take_checked_turn(rt, engine, jobs, checks, *job)? {
            left -= 1;
        }
    }
    let mut job = 1;
    'rotation: while left > 0 {
        if take_checked_turn(rt, engine, jobs, checks, job)? {
            left -= 1;
        }
        job = if job as usize == count { 0 } else { job + 1 };
    }
    Ok(())
}

/// Gives a turn to the service, number 0, or to a job, whose line is checked first. Answers whether the job ends with
/// that.
fn take_checked_turn<R: Threads + Sync, E: CheckedEngine>(
    rt: &R,
    engine: &mut E,
    jobs: &mut Jobs,
    checks: &mut [Check],
    number: u32,
) -> Result<bool, NoMemory>
    requires under { (inputs : Inputs) × (schedule : List ℕ) × (first : Core) × (turns : ℕ)
        × IsUnderCheck inputs schedule first turns (E.core engine.old) jobs.old checks.old }
    requires listed { number ≤ length jobs.old }
    requires count { length checks.old ≡ length jobs.old }
    ensures turns { IfOk result (λ ended. TakesCheckedTurn (E.core engine.old) jobs.old checks.old number ended
        (E.core engine.new) jobs.new checks.new) }
    ensures goes { OnOk result (Goes jobs.old number jobs.new) }
    ensures err { OnErr result (IsStuck (E.core engine.old) (E.core engine.new) jobs.new) }
{
    // The service reads and writes nothing of any transaction.
    if number == 0 {
        return take_turn(rt, engine, jobs, number);
    }
    // Before the turn: a line that scans for several turns is added each time, which changes nothing after the first.
    prepare(engine, jobs, &mut checks[number as usize - 1], number)?;
    take_turn(rt, engine, jobs, number)
}

/// Checks the line at hand of a job. Where a commit stands against it, it will abort.
fn prepare<E: CheckedEngine>(
    engine: &E,
    jobs: &mut Jobs,
    check: &mut Check,
    number: u32,
) -> Result<(), NoMemory>
    requires under { (inputs : Inputs) × AreUnderWay inputs (E.core engine.now) jobs.old }
    requires numbered { 0 < number }
    requires listed { number ≤ length jobs.old }
    ensures ok { OnOk result
        (Prepares (E.core engine.now) jobs.old (number - 1) check.old jobs.new check.new) }
    ensures err { OnErr result (jobs.new ≡ jobs.old) }
{
    let Some(command) = jobs.next_command(number) else {
        return Ok(());
    };
    if is_commit(command) {
        return prepare_commit(engine, jobs, check, number);
    }
    // A footprint is of one transaction.
    if is_begin(command) {
        check.footprint.clear();
        return Ok(());
    }
    check.footprint.add(engine.kind(), command)
}

/// Whether the line commits.
fn is_commit(command: &Command) -> bool
    ensures { result ≡ is_commit command.now }
{
    matches!(command, Command::Commit)
}

/// Whether the line begins a transaction.
fn is_begin(command: &Command) -> bool
    ensures { result ≡ is_begin command.now }
{
    matches!(command, Command::Begin)
}

/// Checks a `commit` of a job. Where a commit stands against it, it will abort, and that is noted.
fn prepare_commit<E: CheckedEngine>(
    engine: &E,
    jobs: &mut Jobs,
    check: &mut Check,
    number: u32,
) -> Result<(), NoMemory>
    requires legal { IsLegal (E.core engine.now).kind (E.core engine.now).journal }
    requires numbered { 0 < number }
    requires listed { number ≤ length jobs.old }
    requires going { (job : Progress) → slice_get jobs.old (number - 1) ≡ Some job → is_over job ≡ false }
    ensures ok { OnOk result ((job : Progress) → slice_get jobs.old (number - 1) ≡ Some job
        → (prepared : Progress) × (jobs.new ≡ slice_set jobs.old (number - 1) prepared)
        × PreparesLine (E.core engine.now).kind commands.Commit
        (refusal_by (E.core engine.now) (pass_at (E.core engine.now) number) check.old.footprint.items commands.Commit)
        job check.old prepared check.new) }
    ensures err { OnErr result (jobs.new ≡ jobs.old) }
{
    match refusal(engine, &check.footprint, number) {
        None => Ok(()),
        Some(stamp) => {
            let line = jobs.answered(number);
            // Before the line is changed, so that where memory runs out the script is as it was.
            check.refused.push(RefusedCommit { line, stamp })?;
            // What the engine does is an abort, which needs no word of refusals; the report says `conflict` in its
            // place.
            jobs.abort_instead(number);
            Ok(())
        }
    }
}

/// The commit that stands against that of a pass's open transaction, which has this footprint.
fn refusal<E: CheckedEngine>(engine: &E, footprint: &Footprint, pass: u32) -> Option<u64>
    requires { IsLegal (E.core engine.now).kind (E.core engine.now).journal }
    ensures { result ≡ refusal_since (E.core engine.now).kind (E.core engine.now).journal
        (writing_since (pass_at (E.core engine.now) pass)) footprint.now.items }
{
    // A transaction that wrote nothing is in order as of its start, whatever committed since.
    let start = engine.writing_since(pass)?;
    check(engine.kind(), engine.journal(), start, footprint)
}

/// Gives each refused commit its answer.
fn answer_refused(jobs: &mut Jobs, checks: &[Check])
    requires count { length checks.now ≡ length jobs.old }
    requires lines { (k : ℕ) (c : Check) (p : Progress) (i : ℕ) (r : RefusedCommit) → slice_get checks.now k ≡ Some c
        → slice_get jobs.old k ≡ Some p → slice_get c.refused i ≡ Some r → r.line < length p.answers }
    ensures { jobs.new ≡ jobs_anew checks.now jobs.old }
{
    'checks: for job in 0..checks.len() {
        answer_refused_of(jobs, job, checks[job].refused.as_slice());
    }
}

/// Gives each refused commit of a script its answer.
fn answer_refused_of(jobs: &mut Jobs, job: usize, refused: &[RefusedCommit])
    requires listed { job < length jobs.old }
    requires lines { (p : Progress) (i : ℕ) (r : RefusedCommit) → slice_get jobs.old job ≡ Some p
        → slice_get refused.now i ≡ Some r → r.line < length p.answers }
    ensures { (p : Progress) → slice_get jobs.old job ≡ Some p
        → jobs.new ≡ slice_set jobs.old job (job_anew refused.now p) }
{
    'refused: for commit in refused {
        let cause = Cause::Later {
            stamp: commit.stamp,
        };
        jobs.answer_instead(job, commit.line, Answer::Conflict { cause });
    }
}
