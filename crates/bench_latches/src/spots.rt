//! A table of cells with 16 bytes in each slot, and what a call on one of them does.

ghost use Rattle.std.specs.Prelude.{◌≡◌, ◌<◌, ◌≤◌, IfOk};
ghost use Rattle.latch_table.specs.Latched.{IsIdle};
ghost use Rattle.latch_table.specs.Opening.{HasPasses};

use crate::random::CellRandom;
use latch_table::{Cells, LatchSeat, LatchTable, Slot};
use std::alloc::{AllocError, Global};
use std::sync::Wait;

/// So many passes a table has: each thread of each round has one.
pub const PASSES: u32 = 64;

/// What lies in a slot.
#[derive(Clone, Copy, Drop)]
pub struct Spot {
    pub count: u64,
    pub sum: u64,
}

impl Slot<()> for Spot {
    ghost use Rattle.std.specs.Prelude.{ℕ};

    ghost fits = { λ _ _ _. Unit {0} };

    ghost passes = { λ _. 64 };

    ghost vacant = { record { count = 0; sum = 0 } };

    fn new_vacant() -> Spot {
        Spot { count: 0, sum: 0 }
    }

    fn forget_vacant(self) {}
}

/// A table of so many cells, and the seat that has all passes.
pub fn open(
    alloc: Global,
    count: usize,
) -> Result<(LatchTable<Spot, ()>, LatchSeat<Spot, ()>), AllocError>
    requires { 0 < count }
    ensures table { IfOk result (λ t. (t.0.table.shared.table_id.words ≡ count)
        × (t.1.table_id ≡ t.0.table.shared.table_id)) }
    ensures passes { IfOk result (λ t. HasPasses tt 64 t.1.me.0) }
{
    let spots = vec![in alloc; Spot { count: 0, sum: 0 }; count]?;
    match LatchTable::open(alloc, spots, &()) {
        Ok(opened) => Ok(opened),
        Err(_) => Err(AllocError),
    }
}

/// Takes a cell, changes what lies there, and gives it back.
pub fn touch(
    rt: &impl Wait,
    cells: &Cells<'_, Spot, ()>,
    pass: &mut LatchSeat<Spot, ()>,
    cell: u32,
) -> u64
    requires pass { IsIdle 64 tt cells.now.table.now.table_id pass.old }
    requires cell { cell < cells.now.table.now.table_id.words }
    ensures pass { IsIdle 64 tt cells.now.table.now.table_id pass.new }
{
    let mut held = cells.take(rt, pass, cell);
    held.changed = true;
    held.value.count = held.value.count.wrapping_add(1);
    held.value.sum = held.value.sum.wrapping_add(held.value.count);
    let sum = held.value.sum;
    cells.give(pass, held);
    sum
}

/// Touches so many of the first cells, drawn anew each time. Answers the sum of what lay there.
pub fn touch_many(
    rt: &impl Wait,
    cells: &Cells<'_, Spot, ()>,
    pass: &mut LatchSeat<Spot, ()>,
    below: u32,
    calls: u64,
    random: &mut CellRandom,
) -> u64
    requires pass { IsIdle 64 tt cells.now.table.now.table_id pass.old }
    requires below { (0 < below) × (below ≤ cells.now.table.now.table_id.words) }
    ensures pass { IsIdle 64 tt cells.now.table.now.table_id pass.new }
{
    let mut sum: u64 = 0;
    'calls: for _call in 0..calls {
        let cell = cell_below(random, below);
        sum = sum.wrapping_add(touch(rt, cells, pass, cell));
    }
    sum
}

/// A number below another one.
pub fn cell_below(random: &mut CellRandom, below: u32) -> u32
    requires { 0 < below }
    ensures { result < below }
{
    let drawn = (random.draw() >> 32).wrapping_mul(u64::from(below)) >> 32;
    drawn.min(u64::from(below - 1)) as u32
}
