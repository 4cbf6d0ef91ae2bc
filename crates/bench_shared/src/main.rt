//! Times transactions of one edge that threads make on one store, by calls of the store.
//!
//! 1. Called with five numbers, of vertices, edges, transactions, a seed and threads, it draws a graph and changes of
//!    its edges by R-MAT from the seed, makes a store with the graph, and has each thread make its part of the changes,
//!    one in each transaction. It prints a line for the load, one for the transactions, and one for what became of the
//!    changes. Called with no words it does nothing.
//! 2. Nothing is read, parsed or written while a part is timed.
#![tactic(auto)]

mod counts;
mod parts;
mod times;

use anyhow::Result;
use bench_graphs::make_workload;
use std::alloc::Global;
use std::env;
use std::env::Env;
use times::{Times, time};

fn main(rt: HostRuntime) -> Result<()> {
    let alloc = rt.alloc();
    let [vertices, edges, transactions, seed, threads] = numbers(&rt, alloc)?;
    if vertices == 0 {
        return Ok(());
    }
    let workload = make_workload(alloc, [vertices, edges, transactions], seed, true)?;
    let times = time(&rt, alloc, &workload, threads)?;
    times.say(&rt)
}

/// The numbers after the program's name, up to five; 0 for each that isn't there.
fn numbers(rt: &(impl Env + Alloc<A = Global>), alloc: Global) -> Result<[u64; 5]> {
    let mut numbers = [0; 5];
    let mut count = 0;
    for word in env::args(rt)?.skip(1) {
        if count < 5 {
            numbers[count] = word.parse()?;
            count += 1;
        }
    }
    Ok(numbers)
}
