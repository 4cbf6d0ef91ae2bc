//! The run from the load to the closed store.
//!
//! 1. However the scripts end, the store is taken apart or let go: no pass is left with a transaction.

ghost use Rattle.std.specs.Prelude.{◌≡◌, ◌<◌, ◌≤◌, IfErr, IfOk, false, length};
ghost use Rattle.graph_model.specs.History.{graph_at};
ghost use Rattle.run_model.specs.Run.{IsRun};
ghost use Rattle.shared_runs.specs.Closing.{LeavesRun, outputs_with};
ghost use Rattle.rebalance_service.specs.SharedStore.Ends.{AreEnds};
ghost use Rattle.rebalance_service.specs.SharedStore.Loading.{AreLoaded};
ghost use Rattle.rebalance_service.specs.SharedStore.Totals.{AreTotals};
ghost use Rattle.txn_manager.specs.Config.{too_large};
ghost use Rattle.threaded_run.specs.Running.{CanRun, IsLoadable, IsStopped, inputs_on};

use crate::workers::run_passes;
use desk_io::Gate;
use graph_model::{LoadRefusal, NoMemory, Writes};
use items::Items;
use rebalance_service::below::{
    Closed, LoadedRefusal, Passes, Store, close, let_go, loaded_by_threads,
};
use run_model::Script;
use shared_runs::closed_stores_leave_runs;
use std::alloc::Global;
use std::sync::Wait;
use std::thread::Threads;
use thread_runner::below::Jobs;
use txn_manager::Config;

/// What a run by threads leaves: the closed store, and the scripts with their answers and tables.
#[derive(Drop)]
pub struct ThreadedRun {
    /// What it holds, and its journal.
    pub closed: Closed,
    /// With their answers and tables.
    pub jobs: Jobs,
}

/// Makes a store with the load, and runs the scripts on so many workers, each on a pass of its own. The gate is called
/// before each turn of a script. May wait.
pub fn run_on_threads<R: Threads + Wait + Sync, G: Gate>(
    rt: &R,
    alloc: Global,
    config: Config,
    load: Writes,
    scripts: Items<Script>,
    workers: u32,
    gate: &G,
) -> Result<ThreadedRun, LoadRefusal>
    requires can { CanRun (inputs_on config load scripts) config }
    requires fits { too_large config ≡ false }
    requires workers { (0 < workers) × (workers ≤ 32) }
    ensures run { IfOk result (λ r. IsRun (inputs_on config load scripts) config.leaves
        (outputs_with r.closed.journal r.jobs)) }
    ensures left { IfOk result (λ r. LeavesRun (inputs_on config load scripts) config.leaves
        (outputs_with r.closed.journal r.jobs)) }
    ensures totals { IfOk result (λ r. AreTotals config.kind
        (graph_at config.kind r.closed.journal (length r.closed.journal)) r.closed.totals) }
    ensures refused { IfErr result (IsStopped config load) }
{
    // The law that what scripts leave on such a store is a run, in whatever order their steps came.
    closed_stores_leave_runs();
    let (store, mut passes) = load_store(rt, alloc, config, load)?;
    match run_passes(rt, alloc, &store, &mut passes.list, scripts, workers, gate) {
        Ok(jobs) => {
            let closed = close(store, passes);
            Ok(ThreadedRun { closed, jobs })
        }
        Err(NoMemory) => {
            // Where memory ran out nothing is handed out, so nothing is counted.
            let_go(store, passes);
            Err(LoadRefusal::NoMemory)
        }
    }
}

/// A store that begins with the load, and its passes.
fn load_store<R: Threads + Sync>(
    rt: &R,
    alloc: Global,
    config: Config,
    load: Writes,
) -> Result<(Store, Passes), LoadRefusal>
    requires can { IsLoadable config.kind load }
    requires fits { too_large config ≡ false }
    ensures config { IfOk result (λ made. made.0.accounts.config ≡ config) }
    ensures passes { IfOk result (λ made. AreLoaded load made.0 made.1.list.items) }
    ensures ends { IfOk result (λ made. AreEnds made.0 made.1.ends) }
    ensures refused { IfErr result (IsStopped config load) }
{
    match loaded_by_threads(rt, alloc, config, load) {
        Ok(made) => Ok(made),
        // The caller has asked whether a store may be as large.
        Err(LoadedRefusal::TooLarge) => unreachable!(),
        Err(LoadedRefusal::Full { leaves }) => Err(LoadRefusal::Full { leaves }),
        Err(LoadedRefusal::NoMemory) => Err(LoadRefusal::NoMemory),
    }
}
