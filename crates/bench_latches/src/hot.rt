//! One thread, on cells that nobody else wants.

ghost use Rattle.std.specs.Prelude.{◌<◌, ◌≤◌};
ghost use Rattle.latch_table.specs.Latched.{IsIdle};

use crate::best::{BestCall, CALLS, ROUNDS};
use crate::random::CellRandom;
use crate::spots::{Spot, cell_below, open, touch_many};
use anyhow::Result;
use latch_table::{Cells, LatchSeat};
use std::alloc::Global;
use std::rt::Clock;
use std::sync::Wait;
use std::time::Instant;

/// So many cells lie in the first cache, and so many take two thirds of a last cache of 36 MiB.
const FEW: u32 = 512;

const MANY: u32 = 1048576;

pub fn time<R: Clock + Print + Wait>(rt: &R, alloc: Global, seed: u64) -> Result<()> {
    time_draws(rt, seed)?;
    let (table, mut all) = open(alloc, MANY as usize)?;
    let cells = table.cells();
    let mut pass = cells.deal(&mut all, 63);
    time_touches(rt, "cell", &cells, &mut pass, FEW, seed)?;
    time_touches(rt, "cell-far", &cells, &mut pass, MANY, seed)?;
    drop(cells);
    drop(pass);
    drop(all);
    drop(table);
    Ok(())
}

/// Touches cells again and again.
fn time_touches<R: Clock + Print + Wait>(
    rt: &R,
    name: &str,
    cells: &Cells<'_, Spot, ()>,
    pass: &mut LatchSeat<Spot, ()>,
    below: u32,
    seed: u64,
) -> Result<()>
    requires pass { IsIdle 64 tt cells.now.table.now.table_id pass.old }
    requires below { (0 < below) × (below ≤ cells.now.table.now.table_id.words) }
    ensures pass { IsIdle 64 tt cells.now.table.now.table_id pass.new }
{
    let mut random = CellRandom::new(seed);
    let mut best = BestCall::new();
    'rounds: for _round in 0..ROUNDS {
        let begun = Instant::now(rt)?;
        let sum = touch_many(rt, cells, pass, below, CALLS, &mut random);
        best.add(begun.elapsed(rt)?, CALLS, sum);
    }
    best.say(rt, name)
}

/// Draws cells, and does nothing else.
fn time_draws<R: Clock + Print>(rt: &R, seed: u64) -> Result<()> {
    let mut random = CellRandom::new(seed);
    let mut best = BestCall::new();
    for _round in 0..ROUNDS {
        let mut sum: u64 = 0;
        let begun = Instant::now(rt)?;
        for _call in 0..CALLS {
            sum = sum.wrapping_add(u64::from(cell_below(&mut random, MANY)));
        }
        best.add(begun.elapsed(rt)?, CALLS, sum);
    }
    best.say(rt, "draw")
}
