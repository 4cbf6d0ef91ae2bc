//! A store with a graph, whose passes have workers while something is timed.

ghost use Rattle.std.specs.Prelude.{◌≡◌, ◌≤◌, ◌++◌, ◌∷◌, [], Some, length};
ghost use Rattle.std.specs.Vec.{vec_capacity};
ghost use Rattle.bench_graphs.specs.Loadable.{IsLoadableGraph};
ghost use Rattle.graph_model.specs.declared.write.Kind.TheVariants.{Undirected};
ghost use Rattle.bench_workers.specs.Engines.{AreClosed, jobs_of};
ghost use Rattle.cases_workers.specs.SharedStore.Ends.{AreIdle};
ghost use Rattle.cases_workers.specs.SharedStore.Passes.{IsIdle};

use crate::churn::time_churn;
use crate::counts::RoundCounts;
use crate::edges::drawn_edges;
use crate::held_back::time_held;
use crate::hire::{dismiss_all, hire_all};
use crate::reads::time_beside_writer;
use crate::round::{Beside, PartWork, Round};
use crate::turns::time_turns;
use crate::words::{PartWords, TimedPart};
use anyhow::Result;
use bench_graphs::Graph;
use cases_workers::below::{Home, Pass, Store, Worker, close, loaded};
use graph_model::{Engine, Kind, MAX_LEAVES, MAX_PASSES, MAX_TXNS_PER_PASS, NoMemory};
use std::alloc::Global;
use std::marker::Brand;
use std::rt::Clock;
use std::sync::Wait;
use std::thread::Threads;
use txn_manager::Config;

/// How many rows a leaf has after a load.
const LEAF_ROWS: u64 = 208;

/// So many edges are set again and again.
const AGAIN: u64 = 10_000;

/// So many edges are drawn for those who set edges beside scans.
const DRAWN: u64 = 262_144;

/// Rounds in which the store is looked at.
const ROUNDS: u64 = 10;

/// Makes a store with the graph, and times what is asked for in it.
pub fn time_in_store<R: Threads + Wait + Clock + Print + Sync>(
    rt: &R,
    alloc: Global,
    graph: &Graph,
    words: &PartWords,
) -> Result<()>
    requires { IsLoadableGraph graph.now }
{
    let mut round = round_of(alloc, graph, words)?;
    let load = graph.load(alloc)?;
    let (store, mut passes) = loaded(alloc, config_for(graph, round.workers), load)?;
    let list = &mut passes.list;
    let ended = time_on_passes::<R, Brand>(rt, alloc, &store, list, words.part, &mut round);
    close(store, passes);
    ended
}

/// Room for the graph alone, and for two passes beside those that work.
fn config_for(graph: &Graph, workers: u64) -> Config
    ensures { result.kind ≡ Undirected }
{
    let rows = (graph.ids.len() as u64).wrapping_add((graph.edges.len() as u64).wrapping_mul(2));
    Config {
        kind: Kind::Undirected,
        leaves: (rows / LEAF_ROWS + 1).min(u64::from(MAX_LEAVES)) as u32,
        passes: workers.saturating_add(2).min(u64::from(MAX_PASSES)) as u32,
        txns_per_pass: MAX_TXNS_PER_PASS,
    }
}

/// What engines do in the first round of a part.
fn round_of(alloc: Global, graph: &Graph, words: &PartWords) -> Result<Round, NoMemory> {
    let workers = words.threads.max(1);
    let (work, amount, drawn) = match words.part {
        TimedPart::Reads => (
            PartWork::Read,
            0,
            words.count.saturating_mul(workers.saturating_add(1)),
        ),
        TimedPart::Scans => (
            PartWork::Scan,
            words.count,
            DRAWN.saturating_mul(workers.saturating_add(1)),
        ),
        TimedPart::Turns => (PartWork::Serve, words.count, 0),
        TimedPart::Churn => (PartWork::Set, words.count / ROUNDS / workers, AGAIN),
        TimedPart::Held => (PartWork::Set, words.count / workers, words.count),
    };
    let beside = match words.part {
        TimedPart::Reads | TimedPart::Scans | TimedPart::Turns => Beside::Rest,
        TimedPart::Churn => Beside::Serve,
        TimedPart::Held => Beside::Read,
    };
    Ok(Round {
        work,
        workers,
        amount,
        beside,
        edges: drawn_edges(alloc, graph, drawn, words.seed)?,
        counts: RoundCounts::new(),
    })
}

/// Times what is asked for, by workers of all passes but the last.
fn time_on_passes<R: Threads + Wait + Clock + Print + Sync, H: Home + Send>(
    rt: &R,
    alloc: Global,
    store: &Store,
    list: &mut Vec<Pass>,
    part: TimedPart,
    round: &mut Round,
) -> Result<()>
    requires home { H.home ≡ Some store.now }
    requires idle { AreIdle store.now list.old.items }
    ensures { AreIdle store.now list.new.items }
{
    if list.is_empty() {
        return Ok(());
    }
    let mut workers: Vec<Worker<'_, R, H>> = Vec::with_capacity(alloc, list.len())?;
    let mut watcher = take_last(list);
    hire_all(rt, store, list, &mut workers);
    let ended = time(rt, store, &mut watcher, &mut workers, part, round);
    dismiss_all(store, workers, list);
    list.push_reserved(watcher);
    ended
}

/// The last pass of a list that has one.
fn take_last(list: &mut Vec<Pass>) -> Pass
    requires { 1 ≤ length list.old.items }
    ensures items { list.old.items ≡ list.new.items ++ result ∷ [] }
    ensures capacity { vec_capacity list.old ≤ vec_capacity list.new }
{
    let Some(pass) = list.pop() else {
        unreachable!()
    };
    pass
}

/// Times what is asked for, by these engines. The watcher is a pass of the store that has none.
fn time<R: Threads + Wait + Clock + Print + Sync, E: Engine + Send>(
    rt: &R,
    store: &Store,
    watcher: &mut Pass,
    engines: &mut Vec<E>,
    part: TimedPart,
    round: &mut Round,
) -> Result<()>
    requires idle { IsIdle store.now watcher.old }
    requires closed { AreClosed E.account engines.old.items }
    ensures idle { IsIdle store.now watcher.new }
    ensures number { watcher.new.seats.number ≡ watcher.old.seats.number }
    ensures closed { AreClosed E.account engines.new.items }
    ensures jobs { jobs_of E.account engines.new.items ≡ jobs_of E.account engines.old.items }
{
    let engines = engines.as_mut_slice();
    match part {
        TimedPart::Reads => time_beside_writer(rt, engines, round, "reads"),
        TimedPart::Scans => time_beside_writer(rt, engines, round, "scans"),
        TimedPart::Turns => time_turns(rt, store, watcher, engines, round),
        TimedPart::Churn => time_churn(rt, store, watcher, engines, round),
        TimedPart::Held => time_held(rt, store, watcher, engines, round),
    }
}
