//! Rounds in which readers read all rows.

ghost use Rattle.std.specs.Prelude.{◌≡◌, ◌<◌, length, map};
ghost use Rattle.std.specs.List.{AllByRecursion};
ghost use Rattle.std.specs.Vec.{vec_capacity};
ghost use Rattle.reader_parts.specs.SharedStore.Passes.{IsIdle, IsOpen, KeepsOpen, account_of};
ghost use Rattle.bench_readers.specs.Rounds.{StayIdle};

use anyhow::Result;
use part_scan::RowLists;
use reader_parts::below::{Pass, Store, abort, begin};
use reader_parts::scan_parts;
use std::rt::Clock;
use std::sync::Wait;
use std::thread::Threads;
use std::time::{Duration, Instant};

/// Begins a transaction, has it read in so many rounds, and ends it.
pub fn time_pass<R: Threads + Wait + Clock + Print + Sync>(
    rt: &R,
    store: &Store,
    pass: &mut Pass,
    idle: &mut Vec<Pass>,
    rounds: u64,
) -> Result<()>
    requires pass { IsIdle store.now pass.old }
    requires idle { AllByRecursion (IsIdle store.now) idle.old.items }
    requires some { 0 < length idle.old.items }
    ensures pass { IsIdle store.now pass.new }
    ensures number { pass.new.seats.number ≡ pass.old.seats.number }
    ensures idle { StayIdle store.now idle.old.items idle.new.items }
    ensures room { vec_capacity idle.new ≡ vec_capacity idle.old }
{
    match begin(rt, store, pass) {
        Ok(_) => {}
        Err(_) => return Ok(()),
    }
    let ended = time_rounds(rt, store, pass, idle, rounds);
    abort(rt, store, pass);
    ended
}

/// Has the open transaction read in so many rounds.
fn time_rounds<R: Threads + Wait + Clock + Print + Sync>(
    rt: &R,
    store: &Store,
    pass: &mut Pass,
    idle: &mut Vec<Pass>,
    rounds: u64,
) -> Result<()>
    requires opened { IsOpen store.now pass.old }
    requires idle { AllByRecursion (IsIdle store.now) idle.old.items }
    requires some { 0 < length idle.old.items }
    ensures opened { IsOpen store.now pass.new }
    ensures number { pass.new.seats.number ≡ pass.old.seats.number }
    ensures idle { StayIdle store.now idle.old.items idle.new.items }
    ensures room { vec_capacity idle.new ≡ vec_capacity idle.old }
{
    'rounds: for _round in 0..rounds {
        time_round(rt, store, pass, idle)?;
    }
    Ok(())
}

/// Has it read once, and prints how fast that was.
fn time_round<R: Threads + Wait + Clock + Print + Sync>(
    rt: &R,
    store: &Store,
    pass: &mut Pass,
    idle: &mut Vec<Pass>,
) -> Result<()>
    requires opened { IsOpen store.now pass.old }
    requires idle { AllByRecursion (IsIdle store.now) idle.old.items }
    requires some { 0 < length idle.old.items }
    ensures kept { KeepsOpen store.now pass.old pass.new }
    ensures idle { AllByRecursion (IsIdle store.now) idle.new.items }
    ensures own { map (account_of store.now) idle.new.items ≡ map (account_of store.now) idle.old.items }
    ensures room { vec_capacity idle.new ≡ vec_capacity idle.old }
{
    let begun = Instant::now(rt);
    let lists = scan_parts(rt, store, pass, idle);
    let ended = Instant::now(rt);
    let took = ended?.duration_since(begun?);
    say(rt, &lists?, took)
}

/// Prints how many rows there are, and how many a second.
fn say(rt: &impl Print, lists: &RowLists, took: Duration) -> Result<()> {
    let mut rows = 0u64;
    for list in lists.as_slice() {
        rows = rows.wrapping_add(list.len() as u64);
    }
    let rate = u128::from(rows).saturating_mul(1_000_000) / took.as_micros().max(1);
    println!(rt; "rows {rows} {rate}")?;
    Ok(())
}
