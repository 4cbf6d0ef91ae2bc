//! Times the parts of the store over leaves.
//!
//! 1. Called with two numbers, a seed and how many runs, it prints a line for each part in each run: its name,
//!    the nanoseconds that a call took in the best round, and the sum of what all calls gave. Called with no
//!    words it does nothing.
//! 2. The sums are printed so that no call is left out. Each run draws the same numbers, so its sums are the same.
#![tactic(auto)]

mod best;
mod known;
mod leaves;
mod random;
mod rows;
mod segments;
mod spreads;

use anyhow::Result;
use random::Random;
use std::alloc::Global;
use std::env;
use std::env::Env;

fn main(rt: HostRuntime) -> Result<()> {
    let alloc = rt.alloc();
    let [seed, runs] = numbers(&rt, alloc)?;
    for _run in 0..runs {
        let mut random = Random::new(seed);
        segments::time(&rt, alloc, &mut random)?;
        rows::time(&rt, alloc, &mut random)?;
        spreads::time(&rt, alloc, &mut random)?;
        leaves::time(&rt, alloc, &mut random)?;
    }
    Ok(())
}

/// The two numbers after the program's name; 0 for each that isn't there.
fn numbers(rt: &(impl Env + Alloc<A = Global>), alloc: Global) -> Result<[u64; 2]> {
    let mut numbers = [0; 2];
    let mut count = 0;
    for word in env::args(rt)?.skip(1) {
        if count < 2 {
            numbers[count] = word.parse()?;
            count += 1;
        }
    }
    Ok(numbers)
}
