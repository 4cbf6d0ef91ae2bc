//! How long a load takes, and then transactions of threads.

ghost use Rattle.bench_graphs.specs.Loadable.{IsLoadableGraph};

use crate::counts::{EditCounts, Tally};
use crate::parts::run_parts;
use anyhow::Result;
use bench_graphs::Workload;
use graph_model::{Kind, MAX_LEAVES, MAX_PASSES, MAX_TXNS_PER_PASS};
use shared_store::{close, loaded};
use std::alloc::Global;
use std::rt::Clock;
use std::sync::Wait;
use std::thread::Threads;
use std::time::{Duration, Instant};
use txn_manager::Config;

/// How many rows a leaf has after a load.
const LEAF_ROWS: u64 = 208;

/// What was timed, and what became of the changes.
#[derive(Clone, Copy)]
pub struct Times {
    rows: u64,
    load: Duration,
    run: Duration,
    tally: Tally,
}

/// Makes a store with the graph, and has so many threads make the changes.
pub fn time<R: Threads + Wait + Clock + Sync>(
    rt: &R,
    alloc: Global,
    workload: &Workload,
    threads: u64,
) -> Result<Times>
    requires { IsLoadableGraph workload.now.graph }
{
    let graph = &workload.graph;
    let rows = (graph.ids.len() as u64).wrapping_add((graph.edges.len() as u64).wrapping_mul(2));
    let config = Config {
        kind: Kind::Undirected,
        leaves: (rows / LEAF_ROWS + 1).min(u64::from(MAX_LEAVES)) as u32,
        passes: threads.max(1).min(u64::from(MAX_PASSES)) as u32,
        txns_per_pass: MAX_TXNS_PER_PASS,
    };
    let load = graph.load(alloc)?;
    let begun = Instant::now(rt)?;
    let (store, mut passes) = loaded(alloc, config, load)?;
    let counts = EditCounts::new();
    let stored = Instant::now(rt);
    run_parts(
        rt,
        &store,
        passes.list.as_mut_slice(),
        workload.edits.as_slice(),
        &counts,
    );
    let ended = Instant::now(rt);
    close(store, passes);
    let stored = stored?;
    Ok(Times {
        rows,
        load: stored.duration_since(begun),
        run: ended?.duration_since(stored),
        tally: counts.tally(),
    })
}

impl Times {
    /// Prints a line for the load, one for the transactions, and one for what became of the changes.
    pub fn say(&self, rt: &impl Print) -> Result<()> {
        let Tally {
            made,
            crowded,
            refused,
        } = self.tally;
        say(rt, "load", self.rows, self.load)?;
        let all = made.wrapping_add(crowded).wrapping_add(refused);
        say(rt, "transactions", all, self.run)?;
        println!(rt; "made {made} crowded {crowded} refused {refused}")?;
        Ok(())
    }
}

/// Prints a part's name, how many there were, and how many a second.
fn say(rt: &impl Print, name: &str, count: u64, took: Duration) -> Result<()> {
    let micros = took.as_micros().max(1);
    let rate = u128::from(count).saturating_mul(1_000_000) / micros;
    println!(rt; "{name} {count} {rate}")?;
    Ok(())
}
