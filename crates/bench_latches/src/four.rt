//! Four threads on one table: each on cells of its own choice, and all on one cell.

ghost use Rattle.std.specs.Prelude.{◌≡◌, ◌<◌, ◌≤◌, ◌+◌};
ghost use Rattle.std.specs.Thread.{IsSync};
ghost use Rattle.latch_table.specs.Latched.{IsIdle};
ghost use Rattle.latch_table.specs.Opening.{HasPasses};

use crate::best::BestCall;
use crate::random::CellRandom;
use crate::spots::{Spot, open, touch, touch_many};
use anyhow::Result;
use latch_table::{Cells, LatchSeat, LatchTable};
use std::alloc::Global;
use std::rt::Clock;
use std::sync::Wait;
use std::thread::{Threads, join};
use std::time::{Duration, Instant};

const MANY: u32 = 1048576;

/// How many cells a thread draws in a round.
const CALLS: u64 = 250_000;

/// How long a round on one cell takes, in nanoseconds.
const ROUND: u128 = 100_000_000;

/// What the threads do in a round.
#[derive(Clone, Copy)]
enum TouchOrder {
    /// So many cells, drawn from all.
    Drawn,
    /// The first cell, for as long as a round takes.
    First,
}

/// What a thread did in a round.
#[derive(Clone, Copy, Drop)]
struct Lap {
    nanoseconds: u64,
    calls: u64,
    sum: u64,
}

type Seat = LatchSeat<Spot, ()>;

type Spots = LatchTable<Spot, ()>;

pub fn time<R: Threads + Wait + Clock + Print + Sync>(
    rt: &R,
    alloc: Global,
    seed: u64,
) -> Result<()>
    requires { IsSync R.row }
{
    let (table, mut all) = open(alloc, MANY as usize)?;
    let drawn = rounds(rt, &table, &mut all, TouchOrder::Drawn, 32, seed);
    let first = rounds(rt, &table, &mut all, TouchOrder::First, 0, seed);
    drop(all);
    drop(table);
    drawn.best.say(rt, "cell-far-4")?;
    first.best.say(rt, "one-cell-4")?;
    println!(rt; "one-cell-least {} {}", first.least, first.calls)?;
    Ok(())
}

/// What eight rounds showed.
#[derive(Clone, Copy, Drop)]
struct Shown {
    /// The nanoseconds of a call.
    best: BestCall,
    /// How many hundredths of the mean the slowest thread did, in the worst round.
    least: u64,
    calls: u64,
}

/// Eight rounds, in each of which four threads have passes of their own: those from a number on.
fn rounds<R: Threads + Wait + Clock + Sync>(
    rt: &R,
    table: &Spots,
    all: &mut Seat,
    work: TouchOrder,
    from: u32,
    seed: u64,
) -> Shown
    requires sync { IsSync R.row }
    requires table { (all.old.table_id ≡ table.now.table.shared.table_id)
        × (table.now.table.shared.table_id.words ≡ 1048576) }
    requires passes { HasPasses tt (from + 32) all.old.me.0 × (from ≤ 32) }
    ensures table { all.new.table_id ≡ all.old.table_id }
    ensures passes { HasPasses tt from all.new.me.0 }
{
    let mut shown = Shown {
        best: BestCall::new(),
        least: 100,
        calls: 0,
    };
    'rounds: for round in 0..8u32 {
        let next = from + 4 * (7 - round);
        let cells = table.cells();
        let d = cells.deal(all, next + 3);
        let c = cells.deal(all, next + 2);
        let b = cells.deal(all, next + 1);
        let a = cells.deal(all, next);
        drop(cells);
        let laps = by_four(rt, table, a, b, c, d, work, seed);
        shown.add(work, laps);
    }
    shown
}

impl Shown {
    /// Takes in what four threads did.
    fn add(&mut self, work: TouchOrder, laps: [Lap; 4]) {
        let mut nanoseconds: u64 = 0;
        let mut calls: u64 = 0;
        let mut sum: u64 = 0;
        let mut least = u64::MAX;
        for lap in laps.iter() {
            nanoseconds = nanoseconds.wrapping_add(lap.nanoseconds / 4);
            calls = calls.wrapping_add(lap.calls);
            sum = sum.wrapping_add(lap.sum);
            least = least.min(lap.calls);
        }
        let each = match work {
            TouchOrder::Drawn => calls / 4,
            TouchOrder::First => calls,
        };
        self.best.add(Duration::from_nanos(nanoseconds), each, sum);
        self.calls = self.calls.wrapping_add(calls);
        self.least = self.least.min(least.wrapping_mul(400) / calls.max(1));
    }
}

/// What each of four threads did.
fn by_four<R: Threads + Wait + Clock + Sync>(
    rt: &R,
    table: &Spots,
    a: Seat,
    b: Seat,
    c: Seat,
    d: Seat,
    work: TouchOrder,
    seed: u64,
) -> [Lap; 4]
    requires sync { IsSync R.row }
    requires first { IsIdle 64 tt table.now.table.shared.table_id a
        × IsIdle 64 tt table.now.table.shared.table_id b }
    requires second { IsIdle 64 tt table.now.table.shared.table_id c
        × IsIdle 64 tt table.now.table.shared.table_id d }
    requires table { table.now.table.shared.table_id.words ≡ 1048576 }
{
    let ((a, b), (c, d)) = join(
        rt,
        move ||
            requires { IsSync R.row × IsIdle 64 tt table.now.table.shared.table_id a
                × IsIdle 64 tt table.now.table.shared.table_id b
                × (table.now.table.shared.table_id.words ≡ 1048576) }
        { by_two(rt, table, a, b, work, seed) },
        move ||
            requires { IsSync R.row × IsIdle 64 tt table.now.table.shared.table_id c
                × IsIdle 64 tt table.now.table.shared.table_id d
                × (table.now.table.shared.table_id.words ≡ 1048576) }
        { by_two(rt, table, c, d, work, seed.wrapping_add(2)) },
    );
    [a, b, c, d]
}

fn by_two<R: Threads + Wait + Clock + Sync>(
    rt: &R,
    table: &Spots,
    a: Seat,
    b: Seat,
    work: TouchOrder,
    seed: u64,
) -> (Lap, Lap)
    requires sync { IsSync R.row }
    requires passes { IsIdle 64 tt table.now.table.shared.table_id a
        × IsIdle 64 tt table.now.table.shared.table_id b }
    requires table { table.now.table.shared.table_id.words ≡ 1048576 }
{
    join(
        rt,
        move ||
            requires { IsIdle 64 tt table.now.table.shared.table_id a
                × (table.now.table.shared.table_id.words ≡ 1048576) }
        { by_one(rt, table, a, work, seed) },
        move ||
            requires { IsIdle 64 tt table.now.table.shared.table_id b
                × (table.now.table.shared.table_id.words ≡ 1048576) }
        { by_one(rt, table, b, work, seed.wrapping_add(1)) },
    )
}

/// What one thread does; nothing, where the clock can't be read.
fn by_one<R: Wait + Clock>(
    rt: &R,
    table: &Spots,
    mut pass: Seat,
    work: TouchOrder,
    seed: u64,
) -> Lap
    requires pass { IsIdle 64 tt table.now.table.shared.table_id pass }
    requires table { table.now.table.shared.table_id.words ≡ 1048576 }
{
    let cells = table.cells();
    let mut random = CellRandom::new(seed);
    let Ok(begun) = Instant::now(rt) else {
        return Lap {
            nanoseconds: 0,
            calls: 0,
            sum: 0,
        };
    };
    let (calls, sum) = match work {
        TouchOrder::Drawn => (
            CALLS,
            touch_many(rt, &cells, &mut pass, MANY, CALLS, &mut random),
        ),
        TouchOrder::First => touch_first(rt, &cells, &mut pass, begun),
    };
    let nanoseconds = match begun.elapsed(rt) {
        Ok(took) => took.as_nanos().min(1_000_000_000_000) as u64,
        Err(_) => 0,
    };
    Lap {
        nanoseconds,
        calls,
        sum,
    }
}

/// Touches the first cell until the round is over, and looks at the clock at each sixteenth call. Answers how often.
fn touch_first<R: Wait + Clock>(
    rt: &R,
    cells: &Cells<'_, Spot, ()>,
    pass: &mut Seat,
    begun: Instant,
) -> (u64, u64)
    requires pass { IsIdle 64 tt cells.now.table.now.table_id pass.old }
    requires cells { 0 < cells.now.table.now.table_id.words }
{
    let mut sum: u64 = 0;
    'calls: for call in 0..1_000_000_000u64 {
        if call % 16 == 0 && is_over(rt, begun) {
            return (call, sum);
        }
        sum = sum.wrapping_add(touch(rt, cells, pass, 0));
    }
    (1_000_000_000, sum)
}

fn is_over(rt: &impl Clock, begun: Instant) -> bool {
    match begun.elapsed(rt) {
        Ok(took) => took.as_nanos() >= ROUND,
        Err(_) => true,
    }
}
