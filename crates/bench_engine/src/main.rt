//! Times short transactions and a scan, by calls of the engine.
//!
//! 1. Called with four numbers, of vertices, edges, transactions and a seed, it makes a random graph from the seed and
//!    loads it, runs so many transactions of one edge each, and scans all rows. It prints a line for each of the three:
//!    its name, how many there were, and how many a second. Called with no words it does nothing.
//! 2. Called with two more numbers, of edges and of readers, it sets so many of the graph's edges again and again
//!    instead, in transactions of one edge each, and tells ten times what the store holds then. With a reader a
//!    transaction stays open all the while.
//! 3. Called with a seventh number that isn't 0, it draws the graph and the edges that are added by R-MAT.
//! 4. Nothing is read, parsed or written while a part is timed.
#![tactic(auto)]

mod bench_engine;
mod churn;
mod graph;
mod turns;

ghost use Rattle.std.specs.Prelude.{◌≡◌};
ghost use Rattle.bench_engine.specs.Configured.{bench_config};
ghost use Rattle.bench_graphs.specs.Loadable.{IsLoadableGraph};
ghost use Rattle.teseo_core.specs.Keeping.{new_core};

use anyhow::Result;
use bench_engine::BenchEngine;
use bench_graphs::{Workload, count_of, made_graph, make_workload, settings_of};
use churn::churn;
use graph::{load, load_beside_reader, new_engine};
use std::alloc::Global;
use std::env;
use std::env::Env;
use std::rt::Clock;
use std::time::{Duration, Instant};
use turns::{run_all, scan_all};

fn main(rt: HostRuntime) -> Result<()> {
    let alloc = rt.alloc();
    let [vertices, edges, transactions, seed, again, readers, skewed] = numbers(&rt, alloc)?;
    if vertices == 0 {
        return Ok(());
    }
    if again > 0 {
        repeat(
            &rt,
            alloc,
            [vertices, edges, transactions],
            seed,
            again,
            readers > 0,
        )
    } else {
        time(
            &rt,
            alloc,
            [vertices, edges, transactions],
            seed,
            skewed > 0,
        )
    }
}

/// The numbers after the program's name, up to seven; 0 for each that isn't there.
fn numbers(rt: &(impl Env + Alloc<A = Global>), alloc: Global) -> Result<[u64; 7]> {
    let mut numbers = [0; 7];
    let mut count = 0;
    for word in env::args(rt)?.skip(1) {
        if count < 7 {
            numbers[count] = word.parse()?;
            count += 1;
        }
    }
    Ok(numbers)
}

/// Times the load, the transactions and the scan.
fn time<R: Clock + Print>(
    rt: &R,
    alloc: Global,
    counts: [u64; 3],
    seed: u64,
    is_skewed: bool,
) -> Result<()> {
    let [vertices, edges, _] = counts;
    let rows = vertices.saturating_add(edges.saturating_mul(2));
    let workload = make_workload(alloc, counts, seed, is_skewed)?;
    time_engine(rt, alloc, new_engine(alloc, 1)?, &workload, rows)
}

/// Times them in a new engine, and prints a line for each.
fn time_engine<R: Clock + Print, E: BenchEngine + Drop>(
    rt: &R,
    alloc: Global,
    mut engine: E,
    workload: &Workload,
    rows: u64,
) -> Result<()>
    requires new { E.core engine ≡ new_core (bench_config 1) }
    requires graph { IsLoadableGraph workload.now.graph }
{
    let begun = Instant::now(rt)?;
    load(alloc, &mut engine, &workload.graph)?;
    say(rt, "load", rows, begun.elapsed(rt)?)?;
    let begun = Instant::now(rt)?;
    let made = run_all(&mut engine, workload.edits.as_slice())?;
    say(rt, "transactions", made, begun.elapsed(rt)?)?;
    let begun = Instant::now(rt)?;
    let seen = scan_all(&mut engine)?;
    say(rt, "scan", seen, begun.elapsed(rt)?)
}

/// Sets so many edges again and again, while a transaction stays open or while none does.
fn repeat<R: Clock + Print>(
    rt: &R,
    alloc: Global,
    counts: [u64; 3],
    seed: u64,
    again: u64,
    is_read: bool,
) -> Result<()> {
    let [vertices, edges, transactions] = counts;
    let graph = made_graph(alloc, seed, count_of(vertices), count_of(edges))?;
    let edits = settings_of(alloc, &graph, count_of(again) as usize)?;
    let rounds = count_of(transactions / 10 / again.max(1));
    let workload = Workload { graph, edits };
    repeat_in(rt, alloc, new_engine(alloc, 2)?, &workload, rounds, is_read)
}

/// Sets them in a new engine.
fn repeat_in<R: Clock + Print, E: BenchEngine + Drop>(
    rt: &R,
    alloc: Global,
    mut engine: E,
    workload: &Workload,
    rounds: u32,
    is_read: bool,
) -> Result<()>
    requires new { E.core engine ≡ new_core (bench_config 2) }
    requires graph { IsLoadableGraph workload.now.graph }
{
    load_beside_reader(alloc, &mut engine, &workload.graph, is_read)?;
    churn(rt, &mut engine, workload.edits.as_slice(), rounds)
}

/// Prints a part's name, how many there were, and how many a second.
fn say(rt: &impl Print, name: &str, count: u64, took: Duration) -> Result<()> {
    let micros = took.as_micros().max(1);
    let rate = u128::from(count).saturating_mul(1_000_000) / micros;
    println!(rt; "{name} {count} {rate}")?;
    Ok(())
}
