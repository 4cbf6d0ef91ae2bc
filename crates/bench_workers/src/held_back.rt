//! Edges that are set while a transaction stays open, and the sweep that prunes what it held back.

ghost use Rattle.std.specs.Prelude.{◌≡◌};
ghost use Rattle.cases_workers.specs.SharedStore.Passes.{IsIdle};
ghost use Rattle.bench_workers.specs.Engines.{AreClosed, jobs_of};

use crate::held::{leaves_now, records_now};
use crate::round::{Round, rate_of};
use crate::turns::{say, sweep_often};
use anyhow::Result;
use cases_workers::below::{Pass, Store};
use graph_model::Engine;
use std::rt::Clock;
use std::sync::Wait;
use std::thread::Threads;
use std::time::Instant;

/// Times a round beside an engine whose transaction stays open, and then a sweep of each leaf once. Prints how many
/// edges were set, how many a second, how many records that left, and how many are left by the sweeps.
pub fn time_held<R: Threads + Wait + Clock + Print + Sync, E: Engine + Send>(
    rt: &R,
    store: &Store,
    watcher: &mut Pass,
    engines: &mut [E],
    round: &mut Round,
) -> Result<()>
    requires idle { IsIdle store.now watcher.old }
    requires closed { AreClosed E.account engines.old }
    ensures idle { IsIdle store.now watcher.new }
    ensures number { watcher.new.seats.number ≡ watcher.old.seats.number }
    ensures closed { AreClosed E.account engines.new }
    ensures jobs { jobs_of E.account engines.new ≡ jobs_of E.account engines.old }
{
    let took = round.run(rt, engines)?;
    let done = round.counts.done();
    let records = records_now(rt, store, watcher);
    println!(rt;
        "held {} {done} {} undo {records}",
        round.workers,
        rate_of(done, took)
    )?;
    let leaves = u64::from(leaves_now(rt, store, watcher).in_use);
    let begun = Instant::now(rt)?;
    sweep_often(rt, store, watcher, leaves);
    say(rt, "sweep", leaves, begun.elapsed(rt)?)?;
    println!(rt; "left {}", records_now(rt, store, watcher))?;
    Ok(())
}
