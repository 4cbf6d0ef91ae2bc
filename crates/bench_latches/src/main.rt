//! Times the steps of latches and pins.
//!
//! 1. Called with two numbers, a seed and how many runs, it prints a line for each part in each run: its name, the
//!    nanoseconds that a call took, and the sum of what all calls gave. Called with no words it does nothing.
//! 2. The sums are printed so that no call is left out.
#![tactic(auto)]

mod best;
mod four;
mod hot;
mod pins;
mod random;
mod spots;

use anyhow::Result;
use std::alloc::Global;
use std::env;
use std::env::Env;

fn main(rt: HostRuntime) -> Result<()> {
    let alloc = rt.alloc();
    let [seed, runs] = numbers(&rt, alloc)?;
    for _run in 0..runs {
        hot::time(&rt, alloc, seed)?;
        four::time(&rt, alloc, seed)?;
        pins::time(&rt, alloc)?;
    }
    Ok(())
}

/// The two numbers after the program's name; 0 for each that isn't there.
fn numbers(rt: &(impl Env + Alloc<A = Global>), alloc: Global) -> Result<[u64; 2]> {
    let mut numbers = [0; 2];
    let mut count = 0;
    for word in env::args(rt)?.skip(1) {
        if count < 2 {
            numbers[count] = word.parse()?;
            count += 1;
        }
    }
    Ok(numbers)
}
