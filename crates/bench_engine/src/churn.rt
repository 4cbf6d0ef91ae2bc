//! The same edges set again and again, while a transaction of another pass stays open, or while none does.

ghost use Rattle.std.specs.Prelude.{◌≡◌, None, OnOk};

use crate::bench_engine::BenchEngine;
use crate::turns::run_all;
use anyhow::Result;
use bench_graphs::Edit;
use std::rt::Clock;
use std::time::{Duration, Instant};

/// So many times in a run it is told what the store holds.
const MOMENTS: u32 = 10;

/// Makes all changes so many times in each tenth of the run, and tells after each tenth what the store holds.
pub fn churn<R: Clock + Print, E: BenchEngine>(
    rt: &R,
    engine: &mut E,
    edits: &[Edit],
    rounds: u32,
) -> Result<()>
    requires { (E.account engine.old).start ≡ None }
{
    'moments: for _moment in 0..MOMENTS {
        let begun = Instant::now(rt)?;
        let made = run_rounds(engine, edits, rounds)?;
        tell(rt, engine, made, begun.elapsed(rt)?)?;
    }
    Ok(())
}

/// Makes all changes so many times, and answers how many were made.
fn run_rounds<E: BenchEngine>(engine: &mut E, edits: &[Edit], rounds: u32) -> Result<u64>
    requires { (E.account engine.old).start ≡ None }
    ensures { OnOk result ((E.account engine.new).start ≡ None) }
{
    let mut made: u64 = 0;
    'rounds: for _round in 0..rounds {
        made = made.wrapping_add(run_all(engine, edits)?);
    }
    Ok(made)
}

/// Prints how many transactions were made, how many a second, and what the store holds.
fn tell<E: BenchEngine>(rt: &impl Print, engine: &E, made: u64, took: Duration) -> Result<()> {
    let micros = took.as_micros().max(1);
    let rate = u128::from(made).saturating_mul(1_000_000) / micros;
    let totals = engine.totals();
    let leaves = engine.leaves_in_use();
    println!(rt;
        "churn {made} {rate} undo {} retired {} leaves {leaves}",
        totals.undo, totals.retired
    )?;
    Ok(())
}
