//! A store is made of sorted rows, again and again.

ghost use Rattle.bench_rule.specs.Sourced.{IsSource};

use crate::best::LeastTime;
use crate::source::Source;
use anyhow::Result;
use std::alloc::Global;
use std::rt::Clock;
use std::time::Instant;

/// Makes a store in each round, and prints how many rows it has, and how many a second were laid in the best round.
pub fn time<R: Clock + Print>(rt: &R, alloc: Global, source: &Source, rounds: u64) -> Result<()>
    requires { IsSource source.now }
{
    let mut best = LeastTime::new();
    'rounds: for _round in 0..rounds {
        let rows = source.copy_of_rows(alloc)?;
        let copy = source.copy(alloc)?;
        let begun = Instant::now(rt)?;
        let made = source.store(alloc, rows, copy)?;
        best.add(begun.elapsed(rt)?);
        drop(made);
    }
    let rows = source.count();
    println!(rt; "filled {rows} {}", best.rate(rows))?;
    Ok(())
}
