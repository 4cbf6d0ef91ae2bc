//! The run of the scripts, with its commits kept.
//!
//! 1. The load is kept as the first commit, before a script takes its first turn.

ghost use Rattle.std.specs.Prelude.{◌≡◌, ◌≤◌, [], length, All, None, OnOk, OnErr, IfOk, IfErr, false};
ghost use Rattle.graph_model.specs.declared.limits.TheConstants.{MAX_LEAVES};
ghost use Rattle.run_model.specs.Inputs.{AreInputs};
ghost use Rattle.run_model.specs.Run.{IsRun};
ghost use Rattle.journal_disk.specs.Disk.{FaultsStand};
ghost use Rattle.run_keeper.specs.Keeping.{IsKept, acknowledged_on, KeepsSoFar};
ghost use Rattle.teseo_program.specs.Input.{inputs_of};
ghost use Rattle.teseo_program.specs.Parsing.{meaning_of};
ghost use Rattle.teseo_program.specs.Running.{journal_of, run_outputs, HasCounts, IsLeftOf};
ghost use Rattle.kept_run.specs.Refusals.{IsRefusedKept};

use crate::refusal::KeptRefusal;
use graph_model::Kind;
use journal_disk::Disk;
use run_keeper::{Keeper, run_kept};
use run_model::stepped_runs_are_runs;
use serial_model::serial_stepped_runs_are_serial_runs;
use std::alloc::Global;
use std::thread::Threads;
use teseo_program::below::{
    Input, Ran, RunResult, config_of, jobs_of, let_go, load_graph, new_engine,
};

/// Loads the graph, and runs the scripts on it by their turns. The commits of the load and of the turns are kept by a
/// keeper whose file is new.
pub fn run_scripts_kept<R: Threads + Sync, K: Disk>(
    rt: &R,
    alloc: Global,
    kind: Kind,
    leaves: u32,
    input: Input,
    disk: &mut K,
    keeper: &mut Keeper,
) -> Result<RunResult, KeptRefusal>
    requires some { 1 ≤ leaves }
    requires few { leaves ≤ MAX_LEAVES }
    requires inputs { AreInputs (inputs_of kind (meaning_of input)) }
    requires listed { All (λ job. job ≤ length input.scripts) input.schedule }
    ensures run { IfOk result (λ r. IsRun (inputs_of kind (meaning_of input)) leaves (run_outputs r)) }
    ensures left { IfOk result (λ r. IsLeftOf None false (inputs_of kind (meaning_of input)) leaves input.schedule
        (run_outputs r) r.ran) }
    ensures counts { IfOk result (λ r. HasCounts kind (journal_of r.ran) r.totals) }
    ensures kept { IfOk result (λ r.
        IsKept K.moment K.may_leave K.left_since K.state kind [] keeper.old.file disk.old
        → IsKept K.moment K.may_leave K.left_since K.state kind (journal_of r.ran) keeper.new.file disk.new) }
    ensures still { OnErr result (IsKept K.moment K.may_leave K.left_since K.state kind [] keeper.old.file disk.old
        → KeepsSoFar (acknowledged_on K.moment K.may_leave K.left_since disk.new)
        (inputs_of kind (meaning_of input)) leaves input.schedule keeper.new.file.count) }
    ensures ok { OnOk result (FaultsStand (K.state disk.old) (K.state disk.new)) }
    ensures refused { IfErr result
        (IsRefusedKept kind leaves input.ids input.edges (K.state disk.old) (K.state disk.new)) }
{
    stepped_runs_are_runs();
    serial_stepped_runs_are_serial_runs();
    let config = config_of(kind, leaves, input.scripts.as_slice());
    let mut engine = new_engine(alloc, config)?;
    // Taken apart, so that what was read of the graph is let go of with the load, and not with the run.
    let Input {
        ids,
        edges,
        scripts,
        schedule,
    } = input;
    load_graph(rt, alloc, &mut engine, ids, edges)?;
    let mut jobs = jobs_of(alloc, scripts)?;
    let schedule = schedule.as_slice();
    run_kept(rt, &mut engine, &mut jobs, schedule, disk, keeper)?;
    engine.settle();
    let totals = engine.totals();
    let (ran, rows) = engine.into_journal(&totals);
    let_go(rt, rows);
    Ok(RunResult {
        ran: Ran::Stepped(ran),
        jobs,
        totals,
    })
}
