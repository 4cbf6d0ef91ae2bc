//! Times scans of all rows by several readers of one transaction, by calls of `reader_parts`.
//!
//! 1. Called with five numbers, of vertices, edges, a seed, readers and rounds, it draws a graph by R-MAT from the
//!    seed, makes a store with it, and has that many readers of one open transaction read all rows into lists, once a
//!    round. It prints a line a round: how many rows there were, and how many a second. Called with no words it does
//!    nothing.
//! 2. Nothing is read, parsed or written while a round runs.
#![tactic(auto)]

mod rounds;
mod store;

use anyhow::Result;
use bench_graphs::make_workload;
use std::alloc::Global;
use std::env;
use std::env::Env;
use store::time_in_store;

fn main(rt: HostRuntime) -> Result<()> {
    let alloc = rt.alloc();
    let [vertices, edges, seed, readers, rounds] = numbers(&rt, alloc)?;
    if vertices == 0 {
        return Ok(());
    }
    let workload = make_workload(alloc, [vertices, edges, 1], seed, true)?;
    time_in_store(&rt, alloc, &workload.graph, readers, rounds)
}

/// The numbers after the program's name, up to five; 0 for each that isn't there.
fn numbers(rt: &(impl Env + Alloc<A = Global>), alloc: Global) -> Result<[u64; 5]> {
    let mut numbers = [0; 5];
    let mut count = 0;
    for word in env::args(rt)?.skip(1) {
        if count < 5 {
            numbers[count] = word.parse()?;
            count += 1;
        }
    }
    Ok(numbers)
}
