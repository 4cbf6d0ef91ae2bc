//! Reads and scans, alone and beside an engine that writes.

ghost use Rattle.std.specs.Prelude.{◌≡◌};
ghost use Rattle.bench_workers.specs.Engines.{AreClosed, jobs_of};

use crate::round::{Beside, Round, rate_of};
use anyhow::Result;
use graph_model::Engine;
use std::rt::Clock;
use std::thread::Threads;

/// Times the work of a round alone, and then beside an engine that sets edges.
pub fn time_beside_writer<R: Threads + Clock + Print + Sync, E: Engine + Send>(
    rt: &R,
    engines: &mut [E],
    round: &mut Round,
    name: &str,
) -> Result<()>
    requires closed { AreClosed E.account engines.old }
    ensures closed { AreClosed E.account engines.new }
    ensures jobs { jobs_of E.account engines.new ≡ jobs_of E.account engines.old }
{
    round.beside = Beside::Rest;
    time(rt, engines, round, name, 0)?;
    round.beside = Beside::Set;
    time(rt, engines, round, name, 1)
}

/// Runs a round, and prints a name, how many engines did the work and how many wrote, how much was done, how much of it
/// a second, and how many transactions were made beside it a second.
fn time<R: Threads + Clock + Print + Sync, E: Engine + Send>(
    rt: &R,
    engines: &mut [E],
    round: &mut Round,
    name: &str,
    writers: u32,
) -> Result<()>
    requires closed { AreClosed E.account engines.old }
    ensures closed { AreClosed E.account engines.new }
    ensures jobs { jobs_of E.account engines.new ≡ jobs_of E.account engines.old }
{
    let took = round.run(rt, engines)?;
    let done = round.counts.done();
    let rate = rate_of(done, took);
    let beside = rate_of(round.counts.beside(), took);
    println!(rt; "{name} {} {writers} {done} {rate} {beside}", round.workers)?;
    Ok(())
}
