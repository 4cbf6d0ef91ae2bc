//! Times workers of one store, each in a thread of its own, by calls of the engine.
//!
//! 1. Called with a word and five numbers, of vertices, edges, a seed, threads and a count, it draws a graph by R-MAT
//!    from the seed, makes a store with it, and times what the word says: `reads` of edges, `scans` of all rows,
//!    `turns` of the service with nothing to do, `churn`, the same edges set again and again, or `held`, edges set
//!    while a transaction stays open. Called with no words it does nothing.
//! 2. Each pass of the store but the last has a worker. With the last one the store is looked at between two rounds.
//! 3. Nothing is read, parsed or written while a round runs.
#![tactic(auto)]

mod churn;
mod counts;
mod edges;
mod held;
mod held_back;
mod hire;
mod parts;
mod reads;
mod round;
mod store;
mod turns;
mod words;

use anyhow::Result;
use bench_graphs::make_workload;
use store::time_in_store;
use words::read_words;

fn main(rt: HostRuntime) -> Result<()> {
    let alloc = rt.alloc();
    let Some(words) = read_words(&rt)? else {
        return Ok(());
    };
    let workload = make_workload(alloc, [words.vertices, words.edges, 1], words.seed, true)?;
    time_in_store(&rt, alloc, &workload.graph, &words)
}
