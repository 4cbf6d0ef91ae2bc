//! The run of the scripts side by side.
//!
//! 1. What was read of the graph is let go before scripts run: it may be as large as the store.
//! 2. Behind the passes of a run by turns the store has others, by which kernels read.

ghost use Rattle.std.specs.Prelude.{◌≡◌, ◌≤◌, IfErr, IfOk, false, length};
ghost use Rattle.graph_model.specs.declared.limits.TheConstants.{MAX_LEAVES, MAX_THREADS};
ghost use Rattle.run_model.specs.Inputs.{AreInputs};
ghost use Rattle.run_model.specs.Run.{IsRun};
ghost use Rattle.txn_manager.specs.Config.{too_large};
ghost use Rattle.threaded_run.specs.SharedRuns.Closing.{LeavesRun, outputs_with};
ghost use Rattle.source_run.specs.Input.{inputs_of};
ghost use Rattle.source_run.specs.Parsing.{meaning_of};
ghost use Rattle.source_run.specs.Running.{HasCounts, IsRefusedLoad, with_readers};

use crate::input::Input;
use crate::run::config_of;
use desk_io::Gate;
use graph_model::{Kind, LoadRefusal, MAX_PASSES};
use graphalytics_io::writes_of;
use std::alloc::Global;
use std::sync::Wait;
use std::thread::Threads;
use threaded_run::{ThreadedRun, run_on_threads};
use txn_manager::Config;

/// Loads the graph into a store of many passes, and runs the scripts on it by so many threads. What was read of the
/// graph is let go of before its rows are made. May wait.
pub fn run_by_threads<R: Threads + Wait + Sync, G: Gate>(
    rt: &R,
    alloc: Global,
    kind: Kind,
    leaves: u32,
    workers: u32,
    input: Input,
    gate: &G,
) -> Result<ThreadedRun, LoadRefusal>
    requires some { 1 ≤ leaves }
    requires few { leaves ≤ MAX_LEAVES }
    requires workers { (1 ≤ workers) × (workers ≤ MAX_THREADS) }
    requires inputs { AreInputs (inputs_of kind (meaning_of input)) }
    ensures run { IfOk result (λ r. IsRun (inputs_of kind (meaning_of input)) leaves
        (outputs_with r.closed.journal r.jobs)) }
    ensures left { IfOk result (λ r. LeavesRun (inputs_of kind (meaning_of input)) leaves
        (outputs_with r.closed.journal r.jobs)) }
    ensures counts { IfOk result (λ r. HasCounts kind r.closed.journal r.closed.totals) }
    ensures refused { IfErr result (IsRefusedLoad kind leaves input.ids input.edges) }
{
    let config = config_of(kind, leaves, input.scripts.as_slice());
    let config = with_readers(config, workers);
    let Input {
        ids,
        edges,
        scripts,
        schedule: _,
    } = input;
    let load = writes_of(alloc, &ids, &edges)?;
    // Before the store is made, which takes as much memory again.
    drop(ids);
    drop(edges);
    run_on_threads(rt, alloc, config, load, scripts, workers, gate)
}

/// The same store with passes by which kernels read, one for each of so many threads, as long as a store may have more.
fn with_readers(config: Config, threads: u32) -> Config
    requires { too_large config ≡ false }
    ensures config { result ≡ with_readers threads config }
    ensures fits { too_large result ≡ false }
{
    // Beside many scripts there are fewer than threads: what a kernel reads is cut into fewer parts then.
    let left = MAX_PASSES - config.passes;
    Config {
        passes: config.passes + threads.min(left),
        ..config
    }
}
