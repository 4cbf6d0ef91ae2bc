//! Rounds: engines that each do their part at once, each in a thread of its own.

ghost use Rattle.std.specs.Prelude.{◌≡◌, None};
ghost use Rattle.cases_workers.specs.Cases.{StaysClosed};
ghost use Rattle.bench_workers.specs.Engines.{AreClosed, jobs_of};

use crate::counts::RoundCounts;
use crate::parts::take_part;
use anyhow::Result;
use bench_graphs::Edit;
use graph_model::Engine;
use std::rt::Clock;
use std::thread::{Threads, for_each_mut};
use std::time::{Duration, Instant};

/// What the engines of the first places do.
#[derive(Clone, Copy, Debug, PartialEq, Eq)]
pub enum PartWork {
    /// Each reads its part of the edges.
    Read,
    /// Each scans all rows so many times.
    Scan,
    /// Each sets so many edges, from a place of its own on.
    Set,
    /// Each takes so many turns of the service.
    Serve,
}

/// What the others do until these are through.
#[derive(Clone, Copy, Debug, PartialEq, Eq)]
pub enum Beside {
    Rest,
    /// Each sets its part of the edges, one after the other, and takes turns of the service between them.
    Set,
    /// Each takes turns of the service.
    Serve,
    /// Each keeps one transaction open, and reads its part of the edges in it again and again.
    Read,
}

/// What engines do at once.
#[derive(Drop)]
pub struct Round {
    pub work: PartWork,
    /// So many engines work.
    pub workers: u64,
    /// So much is done by each of them.
    pub amount: u64,
    pub beside: Beside,
    pub edges: Vec<Edit>,
    pub counts: RoundCounts,
}

impl Round {
    /// Has the engines do their parts, and answers how long that took.
    pub fn run<R: Threads + Clock + Sync, E: Engine + Send>(
        &mut self,
        rt: &R,
        engines: &mut [E],
    ) -> Result<Duration>
        requires closed { AreClosed E.account engines.old }
        ensures closed { AreClosed E.account engines.new }
        ensures jobs { jobs_of E.account engines.new ≡ jobs_of E.account engines.old }
    {
        self.counts = RoundCounts::new();
        let begun = Instant::now(rt)?;
        run_parts(rt, engines, self);
        Ok(begun.elapsed(rt)?)
    }
}

/// Has each engine do the part of its place.
fn run_parts<R: Threads + Sync, E: Engine + Send>(rt: &R, engines: &mut [E], round: &Round)
    requires closed { AreClosed E.account engines.old }
    ensures closed { AreClosed E.account engines.new }
    ensures jobs { jobs_of E.account engines.new ≡ jobs_of E.account engines.old }
{
    let count = engines.len().max(1);
    for_each_mut(
        rt,
        engines,
        count,
        &|place: usize, engine: &mut E|
            requires { (E.account engine.old).start ≡ None }
            ensures { StaysClosed (E.account engine.old) (E.account engine.new) }
        { take_part(round, place as u64, engine) },
    );
}

/// How many there were a second.
pub fn rate_of(count: u64, took: Duration) -> u128 {
    u128::from(count).saturating_mul(1_000_000) / took.as_micros().max(1)
}
