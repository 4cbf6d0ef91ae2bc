//! The run of the scripts, by turns or on threads, as the words ask for it.
//!
//! 1. Both ways end in one value, whose contract is that of a run: what comes after doesn't ask which it was.

ghost use Rattle.std.specs.Prelude.{◌≡◌, ◌≤◌, All, IfErr, IfOk, IfSome, false, length};
ghost use Rattle.graph_model.specs.declared.limits.TheConstants.{MAX_LEAVES, MAX_THREADS};
ghost use Rattle.run_model.specs.Inputs.{AreInputs};
ghost use Rattle.source_run.specs.Input.{inputs_of};
ghost use Rattle.source_run.specs.Parsing.{meaning_of};
ghost use Rattle.source_run.specs.Running.{HasCounts, IsLeftOf, IsRefusedLoad, IsRunAs, journal_of, run_outputs};

use crate::input::Input;
use crate::run::run_by_turns;
use crate::threads::run_by_threads;
use desk_io::Gate;
use graph_model::{Journal, Kind, LoadRefusal};
use serial_runner::below::{CoreJournal, Jobs};
use std::alloc::Global;
use std::sync::Wait;
use std::thread::Threads;
use threaded_run::below::Closed;
use txn_manager::Totals;

/// What the store that ran has left.
#[derive(Drop)]
pub enum Ran {
    /// An engine of one owner.
    Stepped(CoreJournal),
    /// A store of many passes.
    Shared(Closed),
}

impl Ran {
    /// The journal of the run.
    pub fn journal(&self) -> &Journal
        ensures { result.now ≡ journal_of self.now }
    {
        match self {
            Ran::Stepped(ran) => ran.journal(),
            Ran::Shared(ran) => &ran.journal,
        }
    }
}

/// How scripts take their turns.
#[derive(Clone, Copy, Debug, PartialEq, Eq)]
pub struct Manner {
    /// How many threads run them, where they don't take turns.
    pub threads: Option<u32>,
    /// Whether commits that would not leave a serial order are refused.
    pub is_serial: bool,
}

/// What the run of the scripts leaves: what ran, the scripts with their answers and tables, and what the settled store
/// holds.
#[derive(Drop)]
pub struct RunResult {
    /// The engine's journal, or the closed store's.
    pub ran: Ran,
    /// The scripts, with their answers and tables.
    pub jobs: Jobs,
    /// What the settled store holds.
    pub totals: Totals,
}

/// Loads the graph, and runs the scripts on it, by their turns or side by side. Where they run on threads the gate is
/// called before each turn.
pub fn run_scripts<R: Threads + Wait + Sync, G: Gate>(
    rt: &R,
    alloc: Global,
    kind: Kind,
    leaves: u32,
    manner: Manner,
    input: Input,
    gate: &G,
) -> Result<RunResult, LoadRefusal>
    requires some { 1 ≤ leaves }
    requires few { leaves ≤ MAX_LEAVES }
    requires workers { IfSome manner.threads (λ n. (1 ≤ n) × (n ≤ MAX_THREADS) × (manner.is_serial ≡ false)) }
    requires inputs { AreInputs (inputs_of kind (meaning_of input)) }
    requires listed { All (λ job. job ≤ length input.scripts) input.schedule }
    ensures run { IfOk result (λ r. IsRunAs manner.is_serial (inputs_of kind (meaning_of input)) leaves (run_outputs r)) }
    ensures left { IfOk result (λ r. IsLeftOf manner.threads manner.is_serial (inputs_of kind (meaning_of input)) leaves
        input.schedule (run_outputs r) r.ran) }
    ensures counts { IfOk result (λ r. HasCounts kind (journal_of r.ran) r.totals) }
    ensures refused { IfErr result (IsRefusedLoad kind leaves input.ids input.edges) }
{
    match manner.threads {
        None => {
            let run = run_by_turns(rt, alloc, kind, leaves, manner.is_serial, input)?;
            Ok(RunResult {
                ran: Ran::Stepped(run.ran),
                jobs: run.jobs,
                totals: run.totals,
            })
        }
        Some(workers) => {
            let run = run_by_threads(rt, alloc, kind, leaves, workers, input, gate)?;
            let totals = run.closed.totals;
            Ok(RunResult {
                ran: Ran::Shared(run.closed),
                jobs: run.jobs,
                totals,
            })
        }
    }
}
