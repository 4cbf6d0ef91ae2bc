//! The run on one thread, with its commits kept.
//!
//! 1. Turns go as in a run without a journal file.
//! 2. The run ends as soon as a commit isn't kept.

ghost use Rattle.std.specs.Prelude.{◌≡◌, ℕ, List, ◌≤◌, ◌++◌, length, slice_get, Some, OnOk, OnErr, IfOk, IfErr};
ghost use Rattle.graph_model.specs.declared.journal.Commit.{Commit};
ghost use Rattle.journal_disk.specs.Disk.{FaultsStand};
ghost use Rattle.run_model.specs.Inputs.{Inputs};
ghost use Rattle.job_runner.specs.Runs.{AreNew, AreUnderWay, Turns, Goes, Ends};
ghost use Rattle.run_keeper.specs.Keeping.{IsKept, acknowledged_on, KeepsOn, TurnStops, StopsFrom};
ghost use Rattle.run_keeper.specs.Refusals.{Stops};

use crate::engine::JournalEngine;
use crate::keeper::{KeepRefusal, Keeper};
use job_runner::{Jobs, take_turn};
use journal_disk::Disk;
use std::thread::Threads;

/// Runs the jobs of all scripts to their end, one turn after the other. Keeps the commits that the engine has before
/// the first turn, and those of each turn after it.
pub fn run_kept<R: Threads + Sync, E: JournalEngine, K: Disk>(
    rt: &R,
    engine: &mut E,
    jobs: &mut Jobs,
    schedule: &[u32],
    disk: &mut K,
    keeper: &mut Keeper,
) -> Result<(), KeepRefusal>
    requires new { (inputs : Inputs) × AreNew inputs (E.core engine.old) jobs.old }
    requires listed { (i job : ℕ) → slice_get schedule.now i ≡ Some job → job ≤ length jobs.old }
    ensures ends { OnOk result ((inputs : Inputs) → AreNew inputs (E.core engine.old) jobs.old
        → Ends inputs schedule.now (E.core engine.old) (E.core engine.new) jobs.new) }
    ensures kept { OnOk result ((commits rest : List Commit) → (E.core engine.old).journal ≡ commits ++ rest
        → KeepsOn K.moment K.may_leave K.left_since K.state (E.core engine.old).kind
        commits (E.core engine.new).journal keeper.old.file keeper.new.file disk.old disk.new) }
    ensures still { OnErr result ((inputs : Inputs) (commits rest : List Commit)
        → AreNew inputs (E.core engine.old) jobs.old → (E.core engine.old).journal ≡ commits ++ rest
        → StopsFrom K.moment K.may_leave K.left_since K.state inputs schedule.now
        commits (E.core engine.old) (E.core engine.new) keeper.old.file keeper.new.file disk.old disk.new) }
    ensures ok { OnOk result (FaultsStand (K.state disk.old) (K.state disk.new)) }
    ensures refused { IfErr result (Stops (K.state disk.old) (K.state disk.new)) }
{
    keeper.keep(disk, engine.journal())?;
    take_turns(rt, engine, jobs, schedule, disk, keeper)?;
    Ok(())
}

/// Takes turns until all scripts have ended, or a commit isn't kept, or memory runs out.
fn take_turns<R: Threads + Sync, E: JournalEngine, K: Disk>(
    rt: &R,
    engine: &mut E,
    jobs: &mut Jobs,
    schedule: &[u32],
    disk: &mut K,
    keeper: &mut Keeper,
) -> Result<(), KeepRefusal>
    requires new { (inputs : Inputs) × AreNew inputs (E.core engine.old) jobs.old }
    requires listed { (i job : ℕ) → slice_get schedule.now i ≡ Some job → job ≤ length jobs.old }
    ensures ends { OnOk result ((inputs : Inputs) → AreNew inputs (E.core engine.old) jobs.old
        → Ends inputs schedule.now (E.core engine.old) (E.core engine.new) jobs.new) }
    ensures kept { OnOk result (KeepsOn K.moment K.may_leave K.left_since K.state (E.core engine.old).kind
        (E.core engine.old).journal (E.core engine.new).journal keeper.old.file keeper.new.file disk.old disk.new) }
    ensures still { OnErr result ((inputs : Inputs) → AreNew inputs (E.core engine.old) jobs.old
        → StopsFrom K.moment K.may_leave K.left_since K.state inputs schedule.now (E.core engine.old).journal
        (E.core engine.old) (E.core engine.new) keeper.old.file keeper.new.file disk.old disk.new) }
    ensures ok { OnOk result (FaultsStand (K.state disk.old) (K.state disk.new)) }
    ensures refused { IfErr result (Stops (K.state disk.old) (K.state disk.new)) }
{
    let count = jobs.len();
    let mut left = jobs.under_way();
    'schedule: for job in schedule {
        if left == 0 {
            return Ok(());
        }
        if take_kept_turn(rt, engine, jobs, *job, disk, keeper)? {
            left -= 1;
        }
    }
    let mut job = 1;
    'rotation: while left > 0 {
        if take_kept_turn(rt, engine, jobs, job, disk, keeper)? {
            left -= 1;
        }
        job = if job as usize == count { 0 } else { job + 1 };
    }
    Ok(())
}

/// Gives a turn to the service, number 0, or to a job, and keeps the commits. Answers whether the job ends with that.
fn take_kept_turn<R: Threads + Sync, E: JournalEngine, K: Disk>(
    rt: &R,
    engine: &mut E,
    jobs: &mut Jobs,
    number: u32,
    disk: &mut K,
    keeper: &mut Keeper,
) -> Result<bool, KeepRefusal>
    requires under_way { (inputs : Inputs) × AreUnderWay inputs (E.core engine.old) jobs.old }
    requires listed { number ≤ length jobs.old }
    ensures turns { IfOk result (λ ended.
        Turns (E.core engine.old) jobs.old number ended (E.core engine.new) jobs.new) }
    ensures goes { OnOk result (Goes jobs.old number jobs.new) }
    ensures kept { OnOk result (KeepsOn K.moment K.may_leave K.left_since K.state (E.core engine.old).kind
        (E.core engine.old).journal (E.core engine.new).journal keeper.old.file keeper.new.file disk.old disk.new) }
    ensures still { OnErr result (IsKept K.moment K.may_leave K.left_since K.state
        (E.core engine.old).kind (E.core engine.old).journal keeper.old.file disk.old
        → TurnStops (acknowledged_on K.moment K.may_leave K.left_since disk.new (E.core engine.old).kind)
        (E.core engine.old) jobs.old number (E.core engine.new) jobs.new keeper.new.file.count) }
    ensures ok { OnOk result (FaultsStand (K.state disk.old) (K.state disk.new)) }
    ensures refused { IfErr result (Stops (K.state disk.old) (K.state disk.new)) }
{
    let ended = take_turn(rt, engine, jobs, number)?;
    keeper.keep(disk, engine.journal())?;
    Ok(ended)
}
