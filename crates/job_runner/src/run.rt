//! The run on one thread.
//!
//! 1. Turns go by the schedule, and after it by rotation. A script that has ended is passed over.
//! 2. The run ends as soon as all scripts have ended, which is counted and not looked for.
//! 3. Where memory runs out in a job's turn, each open transaction is taken back. A service turn that is
//!    refused memory has changed nothing, and the run goes on.

ghost use Rattle.std.specs.Prelude.{◌≡◌, ℕ, List, suc, ◌+◌, ◌<◌, ◌≤◌, false, length, slice_get, slice_set, Some, OnOk, OnErr, IfOk};
ghost use Rattle.run_model.specs.Inputs.{Inputs};
ghost use Rattle.job_runner.specs.Runs.{AreNew, AreUnderWay, IsStuck, RunIsStuck, Turns, Goes, GivesUp, Ends};

use crate::jobs::Jobs;
use graph_model::{NoMemory, StepEngine};
use std::thread::Threads;

/// Runs the jobs of all scripts to their end, one turn after the other.
pub fn run_stepped<R: Threads + Sync, E: StepEngine>(
    rt: &R,
    engine: &mut E,
    jobs: &mut Jobs,
    schedule: &[u32],
) -> Result<(), NoMemory>
    requires new { (inputs : Inputs) × AreNew inputs (E.core engine.old) jobs.old }
    requires listed { (i job : ℕ) → slice_get schedule.now i ≡ Some job → job ≤ length jobs.old }
    ensures ends { OnOk result ((inputs : Inputs) → AreNew inputs (E.core engine.old) jobs.old
        → Ends inputs schedule.now (E.core engine.old) (E.core engine.new) jobs.new) }
    ensures err { OnErr result (GivesUp (E.core engine.old) (E.core engine.new)) }
{
    match take_turns(rt, engine, jobs, schedule) {
        Ok(()) => Ok(()),
        Err(e) => {
            // The caller ends without a result, and has to find no transaction in the store that it lets go of.
            jobs.give_up(engine);
            Err(e)
        }
    }
}

/// Takes turns until all scripts have ended, or memory runs out.
fn take_turns<R: Threads + Sync, E: StepEngine>(
    rt: &R,
    engine: &mut E,
    jobs: &mut Jobs,
    schedule: &[u32],
) -> Result<(), NoMemory>
    requires new { (inputs : Inputs) × AreNew inputs (E.core engine.old) jobs.old }
    requires listed { (i job : ℕ) → slice_get schedule.now i ≡ Some job → job ≤ length jobs.old }
    ensures ends { OnOk result ((inputs : Inputs) → AreNew inputs (E.core engine.old) jobs.old
        → Ends inputs schedule.now (E.core engine.old) (E.core engine.new) jobs.new) }
    ensures err { OnErr result (RunIsStuck (E.core engine.old) (E.core engine.new) jobs.new) }
{
    let count = jobs.len();
    // Counted down, so that no turn looks through all jobs.
    let mut left = jobs.under_way();
    'schedule: for job in schedule {
        if left == 0 {
            return Ok(());
        }
        // A turn of a job that has ended does nothing, as the schedule may name it still.
        if take_turn(rt, engine, jobs, *job)? {
            left -= 1;
        }
    }
    // After the last script comes 0, a turn of the service, and then the first again.
    let mut job = 1;
    'rotation: while left > 0 {
        if take_turn(rt, engine, jobs, job)? {
            left -= 1;
        }
        job = if job as usize == count { 0 } else { job + 1 };
    }
    Ok(())
}

/// Gives a turn to the service, number 0, or to a job. Answers whether the job ends with that.
pub fn take_turn<R: Threads + Sync, E: StepEngine>(
    rt: &R,
    engine: &mut E,
    jobs: &mut Jobs,
    number: u32,
) -> Result<bool, NoMemory>
    requires under_way { (inputs : Inputs) × AreUnderWay inputs (E.core engine.old) jobs.old }
    requires listed { number ≤ length jobs.old }
    ensures turns { IfOk result (λ ended.
        Turns (E.core engine.old) jobs.old number ended (E.core engine.new) jobs.new) }
    ensures goes { OnOk result (Goes jobs.old number jobs.new) }
    ensures err { OnErr result (IsStuck (E.core engine.old) (E.core engine.new) jobs.new) }
{
    if number == 0 {
        // Whether it changed a cell is nothing to the turns, and one that is refused memory has changed nothing.
        let _ = engine.service_step();
        return Ok(false);
    }
    jobs.take_turn(rt, engine, number)
}
