//! The run of the scripts on the loaded graph, by their turns.
//!
//! 1. The graph is loaded as the first transaction of a new engine, and the scripts take their turns after it.
//! 2. Script k uses pass k of the engine, and the load and the service use pass 0.
//! 3. The store has as many leaves as are stated, or as the rows of the load and of the scripts can fill.

ghost use Rattle.std.specs.Prelude.{◌≡◌, ◌≤◌, ◌+◌, ◌<◌, ℕ, cond, length, slice_get, Some, All, OnOk, OnErr, IfOk, IfErr, false};
ghost use Rattle.std.specs.List.{AllByRecursion};
ghost use Rattle.graph_model.specs.declared.limits.TheConstants.{MAX_LEAVES, MAX_SCRIPTS, MAX_BEGINS};
ghost use Rattle.graphalytics_io.specs.Load.{load_of};
ghost use Rattle.graph_model.specs.Graph.{empty_graph};
ghost use Rattle.graph_model.specs.Loading.{IsNew, IsLoad, IsLoadRefusal, loaded};
ghost use Rattle.graph_model.specs.Refused.{AllAllowed, IsWithinLimits};
ghost use Rattle.run_model.specs.Inputs.{Inputs, AreInputs};
ghost use Rattle.run_model.specs.Commands.{next_txn, begun_by};
ghost use Rattle.txn_manager.specs.Config.{too_large};
ghost use Rattle.serial_runner.specs.TeseoCore.Keeping.{new_core};
ghost use Rattle.serial_runner.specs.JobRunner.Runs.{new_jobs, AreNew, GivesUp};
ghost use Rattle.source_run.specs.Input.{inputs_of};
ghost use Rattle.source_run.specs.Parsing.{meaning_of};
ghost use Rattle.source_run.specs.Running.{stepped_outputs, IsRunAs, EndsAs, HasCounts, IsSteppedRun, IsRefusedLoad, MayBegin, IsConfig};

use crate::input::Input;
use graph_model::{Ids, Kind, LoadRefusal, NoMemory};
use graphalytics_io::{Edges, writes_of};
use items::Items;
use leaf_rows::LeafRows;
use run_model::{Command, Script, stepped_runs_are_runs};
use serial_model::serial_stepped_runs_are_serial_runs;
use serial_runner::below::{Core, CoreJournal, Job, Jobs, run_stepped};
use serial_runner::run_serial;
use std::alloc::Global;
use std::thread::{Threads, spawn};
use txn_manager::{Config, StoreRefusal, Totals};

/// What a run by turns leaves: the engine's journal, the scripts with their answers and tables, and what the settled
/// store holds.
#[derive(Drop)]
pub struct SteppedRun {
    /// The engine's journal.
    pub ran: CoreJournal,
    /// The scripts, with their answers and tables.
    pub jobs: Jobs,
    /// What the settled store holds.
    pub totals: Totals,
}

/// Loads the graph into an engine of one owner, and runs the scripts on it by their turns. At the end nobody reads any
/// more, so each row keeps its newest value alone, and those are counted.
pub fn run_by_turns<R: Threads + Sync>(
    rt: &R,
    alloc: Global,
    kind: Kind,
    leaves: u32,
    is_serial: bool,
    input: Input,
) -> Result<SteppedRun, LoadRefusal>
    requires some { 1 ≤ leaves }
    requires few { leaves ≤ MAX_LEAVES }
    requires inputs { AreInputs (inputs_of kind (meaning_of input)) }
    requires listed { All (λ job. job ≤ length input.scripts) input.schedule }
    ensures run { IfOk result (λ r. IsRunAs is_serial (inputs_of kind (meaning_of input)) leaves (stepped_outputs r)) }
    ensures left { IfOk result (IsSteppedRun is_serial kind leaves input) }
    ensures counts { IfOk result (λ r. HasCounts kind r.ran.core.journal r.totals) }
    ensures refused { IfErr result (IsRefusedLoad kind leaves input.ids input.edges) }
{
    stepped_runs_are_runs();
    serial_stepped_runs_are_serial_runs();
    let config = config_of(kind, leaves, input.scripts.as_slice());
    let mut engine = new_engine(alloc, config)?;
    // Taken apart, so that what was read of the graph is let go of with the load, and not with the run.
    let Input {
        ids,
        edges,
        scripts,
        schedule,
    } = input;
    load_graph(rt, alloc, &mut engine, ids, edges)?;
    let mut jobs = jobs_of(alloc, scripts)?;
    let schedule = schedule.as_slice();
    run_jobs(rt, alloc, &mut engine, &mut jobs, schedule, is_serial)?;
    engine.settle();
    let totals = engine.totals();
    let (ran, rows) = engine.into_journal(&totals);
    let_go(rt, rows);
    Ok(SteppedRun { ran, jobs, totals })
}

/// Lets go of rows in a thread of their own, where one can be made: nothing waits for it.
pub fn let_go<R: Threads>(rt: &R, rows: LeafRows) {
    // Where none can be made the rows come back with what the thread was to do, and go with it.
    drop(spawn(rt, move || drop(rows)));
}

/// Loads the graph of the two files as the first transaction of a new engine. What was read of them is let go of before
/// the rows are made.
pub fn load_graph<R: Threads + Sync>(
    rt: &R,
    alloc: Global,
    engine: &mut Core,
    ids: Ids,
    edges: Edges,
) -> Result<(), LoadRefusal>
    requires new { IsNew engine.old.core }
    requires load { IsLoad engine.old.core (load_of ids edges) }
    ensures loaded { OnOk result (engine.new.core ≡ loaded engine.old.core (load_of ids edges)) }
    ensures refused { IfErr result (IsLoadRefusal engine.old.core (load_of ids edges)) }
{
    let load = writes_of(alloc, &ids, &edges)?;
    // The writes say all that the load needs: ids, edges, writes and rows together would be the most memory of a run.
    drop(ids);
    drop(edges);
    engine.load_by_threads(rt, load)
}

/// Runs the jobs to their end, and refuses commits that would not leave a serial order where that is asked for.
fn run_jobs<R: Threads + Sync>(
    rt: &R,
    alloc: Global,
    engine: &mut Core,
    jobs: &mut Jobs,
    schedule: &[u32],
    is_serial: bool,
) -> Result<(), NoMemory>
    requires new { (inputs : Inputs) × AreNew inputs engine.old.core jobs.old }
    requires listed { (i job : ℕ) → slice_get schedule.now i ≡ Some job → job ≤ length jobs.old }
    ensures ends { OnOk result ((inputs : Inputs) → AreNew inputs engine.old.core jobs.old
        → EndsAs is_serial inputs schedule.now engine.old.core engine.new.core jobs.new) }
    ensures err { OnErr result (GivesUp engine.old.core engine.new.core) }
{
    if is_serial {
        run_serial(rt, alloc, engine, jobs, schedule)
    } else {
        run_stepped(rt, engine, jobs, schedule)
    }
}

/// What the engine of these scripts is made with: a pass for each, and one for the load. Each may begin as
/// many transactions as the script with most of them.
pub fn config_of(kind: Kind, leaves: u32, scripts: &[Script]) -> Config
    requires some { 1 ≤ leaves }
    requires few { leaves ≤ MAX_LEAVES }
    requires count { length scripts.now ≤ MAX_SCRIPTS }
    requires begins { MayBegin scripts.now MAX_BEGINS }
    ensures config { IsConfig kind leaves scripts.now result }
    ensures fits { too_large result ≡ false }
{
    // No pass may begin more than the longest script does: more would be memory for none.
    let mut most = 1;
    'scripts: for script in scripts {
        most = most.max(begins(script.as_slice()));
    }
    Config {
        kind,
        leaves,
        passes: scripts.len() as u32 + 1,
        txns_per_pass: most,
    }
}

/// How many transactions a script begins.
fn begins(script: &[Command]) -> u32
    requires { begun_by 0 script.now ≤ MAX_BEGINS }
    ensures { result ≡ begun_by 0 script.now }
{
    let mut count = 0;
    'lines: for command in script {
        if is_begin(command) {
            count += 1;
        }
    }
    count
}

/// Whether the line begins a transaction.
fn is_begin(command: &Command) -> bool
    ensures { (n : ℕ) → next_txn n command.now ≡ cond result (n + 1) n }
{
    matches!(command, Command::Begin)
}

/// An engine that isn't too large.
pub fn new_engine(alloc: Global, config: Config) -> Result<Core, NoMemory>
    requires { too_large config ≡ false }
    ensures { IfOk result (λ engine. engine.core ≡ new_core config) }
{
    match Core::new(alloc, config) {
        Ok(engine) => Ok(engine),
        // No number of `config_of` is above its limit.
        Err(StoreRefusal::TooLarge) => unreachable!(),
        Err(StoreRefusal::NoMemory) => Err(NoMemory),
    }
}

/// A job for each script, numbered from 1 in their order.
pub fn jobs_of(alloc: Global, scripts: Items<Script>) -> Result<Jobs, NoMemory>
    requires { length scripts ≤ MAX_SCRIPTS }
    ensures { IfOk result (λ jobs. jobs ≡ new_jobs 1 scripts) }
{
    let mut jobs = Vec::new(alloc);
    // Transactions are named by it, and 0 is the load's.
    let mut number = 1;
    'scripts: for script in scripts.into_vec() {
        jobs.push(Job::new(alloc, number, script))?;
        number += 1;
    }
    Ok(Jobs::from_vec(jobs))
}
