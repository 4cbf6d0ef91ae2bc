//! Turns of the service in a store in which there is nothing to do.

ghost use Rattle.std.specs.Prelude.{◌≡◌};
ghost use Rattle.cases_workers.specs.SharedStore.Passes.{IsIdle};
ghost use Rattle.bench_workers.specs.Engines.{AreClosed, jobs_of};

use crate::round::Round;
use anyhow::Result;
use cases_workers::below::{Pass, Store, SweepKey, sweep_step};
use graph_model::Engine;
use std::rt::Clock;
use std::sync::Wait;
use std::thread::Threads;
use std::time::{Duration, Instant};

/// Times turns of the first engine, which are sweeps and turns of merging in turn, and sweeps by themselves. The first
/// round, in which the engine comes to know the leaves, isn't timed.
pub fn time_turns<R: Threads + Wait + Clock + Print + Sync, E: Engine + Send>(
    rt: &R,
    store: &Store,
    watcher: &mut Pass,
    engines: &mut [E],
    round: &mut Round,
) -> Result<()>
    requires idle { IsIdle store.now watcher.old }
    requires closed { AreClosed E.account engines.old }
    ensures idle { IsIdle store.now watcher.new }
    ensures number { watcher.new.seats.number ≡ watcher.old.seats.number }
    ensures closed { AreClosed E.account engines.new }
    ensures jobs { jobs_of E.account engines.new ≡ jobs_of E.account engines.old }
{
    let leaves = u64::from(store.config().leaves);
    round.run(rt, engines)?;
    let took = round.run(rt, engines)?;
    say(rt, "turn", round.amount, took)?;
    println!(rt; "still {} leaves {leaves}", round.counts.done())?;
    let begun = Instant::now(rt)?;
    sweep_often(rt, store, watcher, round.amount);
    say(rt, "sweep", round.amount, begun.elapsed(rt)?)
}

/// Takes so many sweeps, from the first leaf on.
pub fn sweep_often(rt: &impl Wait, store: &Store, pass: &mut Pass, times: u64)
    requires idle { IsIdle store.now pass.old }
    ensures idle { IsIdle store.now pass.new }
    ensures number { pass.new.seats.number ≡ pass.old.seats.number }
{
    let mut key = SweepKey::first();
    'times: for _time in 0..times {
        sweep(rt, store, pass, &mut key);
    }
}

/// Sweeps the next leaf.
fn sweep(rt: &impl Wait, store: &Store, pass: &mut Pass, key: &mut SweepKey)
    requires idle { IsIdle store.now pass.old }
    ensures idle { IsIdle store.now pass.new }
    ensures number { pass.new.seats.number ≡ pass.old.seats.number }
{
    sweep_step(rt, store, &mut pass.seats, key);
}

/// Prints a name, how many there were, and the nanoseconds of one.
pub fn say(rt: &impl Print, name: &str, count: u64, took: Duration) -> Result<()> {
    let each = took.as_nanos() / u128::from(count.max(1));
    println!(rt; "{name} {count} {each}")?;
    Ok(())
}
