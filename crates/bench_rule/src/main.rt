//! Times how a store of many threads is made of sorted rows, and how one of its cells is unpacked and packed again.
//!
//! 1. Called with four numbers, of vertices, edges, rounds and trips, it makes a random graph and sorts its rows. It
//!    makes a store of them in each round, and then a pass visits a cell of such a store so often in each of some
//!    rounds. It prints a line for each part: its name, how many rows or trips there were, and how many rows a second
//!    or nanoseconds a trip in the best round. Called with no words it does nothing.
//! 2. Nothing is read, parsed or written while a part is timed.
#![tactic(auto)]

mod best;
mod fill;
mod source;
mod trips;

use anyhow::Result;
use source::Source;
use std::alloc::Global;
use std::env;
use std::env::Env;

fn main(rt: HostRuntime) -> Result<()> {
    let alloc = rt.alloc();
    let [vertices, edges, rounds, trips] = numbers(&rt, alloc)?;
    let Some(source) = Source::make(alloc, vertices, edges)? else {
        return Ok(());
    };
    if rounds > 0 {
        fill::time(&rt, alloc, &source, rounds)?;
    }
    if trips > 0 {
        trips::time(&rt, alloc, &source, trips)?;
    }
    Ok(())
}

/// The numbers after the program's name, up to four; 0 for each that isn't there.
fn numbers(rt: &(impl Env + Alloc<A = Global>), alloc: Global) -> Result<[u64; 4]> {
    let mut numbers = [0; 4];
    let mut count = 0;
    for word in env::args(rt)?.skip(1) {
        if count < 4 {
            numbers[count] = word.parse()?;
            count += 1;
        }
    }
    Ok(numbers)
}
