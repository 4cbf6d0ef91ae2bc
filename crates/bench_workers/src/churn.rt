//! The same edges set again and again by several engines, with another one that takes turns of the service.

ghost use Rattle.std.specs.Prelude.{◌≡◌};
ghost use Rattle.cases_workers.specs.SharedStore.Passes.{IsIdle};
ghost use Rattle.bench_workers.specs.Engines.{AreClosed, jobs_of};

use crate::held::{leaves_now, records_now};
use crate::round::{Round, rate_of};
use anyhow::Result;
use cases_workers::below::{Pass, Store};
use graph_model::Engine;
use std::rt::Clock;
use std::sync::Wait;
use std::thread::Threads;

/// So many rounds are run, and the store is looked at after each.
const ROUNDS: u32 = 10;

/// Runs the rounds, and prints a line after each.
pub fn time_churn<R: Threads + Wait + Clock + Print + Sync, E: Engine + Send>(
    rt: &R,
    store: &Store,
    watcher: &mut Pass,
    engines: &mut [E],
    round: &mut Round,
) -> Result<()>
    requires idle { IsIdle store.now watcher.old }
    requires closed { AreClosed E.account engines.old }
    ensures idle { IsIdle store.now watcher.new }
    ensures number { watcher.new.seats.number ≡ watcher.old.seats.number }
    ensures closed { AreClosed E.account engines.new }
    ensures jobs { jobs_of E.account engines.new ≡ jobs_of E.account engines.old }
{
    'rounds: for _round in 0..ROUNDS {
        let took = round.run(rt, engines)?;
        let done = round.counts.done();
        say(rt, store, watcher, done, rate_of(done, took))?;
    }
    Ok(())
}

/// Prints how many edges were set, how many a second, and what the store holds then.
fn say<R: Wait + Print>(
    rt: &R,
    store: &Store,
    watcher: &mut Pass,
    done: u64,
    rate: u128,
) -> Result<()>
    requires idle { IsIdle store.now watcher.old }
    ensures idle { IsIdle store.now watcher.new }
    ensures number { watcher.new.seats.number ≡ watcher.old.seats.number }
{
    let undo = records_now(rt, store, watcher);
    let leaves = leaves_now(rt, store, watcher);
    println!(rt;
        "churn {done} {rate} undo {undo} retired {} leaves {}",
        leaves.retired, leaves.in_use
    )?;
    Ok(())
}
