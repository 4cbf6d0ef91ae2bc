//! The rows of a cell go from its words to a segment and back, again and again.
//!
//! 1. The pass takes the cell, unpacks it, packs it as one that was changed, so that each word is compared with what it
//!    has to be, and gives it back.
//! 2. It is the same cell each time, so it is in the first cache.

ghost use Rattle.std.specs.Prelude.{◌<◌, length};
ghost use Rattle.cases_store.specs.Visits.{AreAtEase, IsAtEase};
ghost use Rattle.cases_store.specs.RuleModel.Sight.{cells_of};
ghost use Rattle.bench_rule.specs.Sourced.{IsSource};

use crate::best::LeastTime;
use crate::source::Source;
use anyhow::Result;
use cases_store::below::{Pass, Store};
use cases_store::visit;
use std::alloc::Global;
use std::rt::Clock;
use std::sync::Wait;
use std::time::Instant;

/// How many rounds there are, each of so many trips as are asked for.
const ROUNDS: u32 = 40;

/// Makes a store, and prints how many trips there are in a round, and how many nanoseconds one took in the best.
pub fn time<R: Clock + Print + Wait>(
    rt: &R,
    alloc: Global,
    source: &Source,
    trips: u64,
) -> Result<()>
    requires { IsSource source.now }
{
    let rows = source.copy_of_rows(alloc)?;
    let copy = source.copy(alloc)?;
    let (store, passes) = source.store(alloc, rows, copy)?;
    let mut passes = passes;
    let best = time_by_first(rt, &store, &mut passes.list, trips)?;
    drop(passes);
    drop(store);
    println!(rt; "trip {trips} {}", best.each(trips))?;
    Ok(())
}

/// The first of these passes makes the trips.
fn time_by_first<R: Clock + Wait>(
    rt: &R,
    store: &Store,
    passes: &mut Vec<Pass>,
    trips: u64,
) -> Result<LeastTime>
    requires { AreAtEase store.now passes.old.items }
{
    if passes.is_empty() || store.index_place() == 0 {
        return Ok(LeastTime::new());
    }
    time_by(rt, store, &mut passes[0], trips)
}

/// This pass makes the trips.
fn time_by<R: Clock + Wait>(rt: &R, store: &Store, pass: &mut Pass, trips: u64) -> Result<LeastTime>
    requires pass { IsAtEase store.now pass.old }
    requires cell { 0 < cells_of store.now.accounts.config }
{
    let mut best = LeastTime::new();
    'rounds: for _round in 0..ROUNDS {
        let begun = Instant::now(rt)?;
        'trips: for _trip in 0..trips {
            visit(rt, store, pass, 0);
        }
        best.add(begun.elapsed(rt)?);
    }
    Ok(best)
}
