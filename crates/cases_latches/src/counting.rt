//! Two threads that count on one table, and what a thread is answered that wants a counter of another.

ghost use Rattle.std.specs.Prelude.{◌≡◌, ◌<◌, length, IfOk};
ghost use Rattle.latch_table.specs.Latched.{IsIdle, number_of};

use crate::counters::{Counter, add, count_of, even_out, lists_for_two};
use latch_table::{LatchSeat, LatchTable};
use std::alloc::{AllocError, Global};
use std::sync::Wait;
use std::thread::{Threads, join};

/// A table of four counters, with the seats of two passes and the seat that takes them back.
pub struct Opened {
    pub table: LatchTable<Counter, ()>,
    pub all: LatchSeat<Counter, ()>,
    pub one: LatchSeat<Counter, ()>,
    pub two: LatchSeat<Counter, ()>,
    pub ghost of_table: { (all.table_id ≡ table.table.shared.table_id) × (table.table.shared.table_id.words ≡ 4) },
    pub ghost first: { IsIdle 2 tt table.table.shared.table_id one × (number_of one.me.0 ≡ 0) },
    pub ghost second: { IsIdle 2 tt table.table.shared.table_id two × (number_of two.me.0 ≡ 1) },
}

/// Four counters at 0.
pub fn open(alloc: Global) -> Result<Opened, AllocError> {
    let counters = zeros(alloc)?;
    let (table, mut all) = match LatchTable::open(alloc, counters, &()) {
        Ok(opened) => opened,
        Err(_) => return Err(AllocError),
    };
    let cells = table.cells();
    let two = cells.deal(&mut all, 1);
    let one = cells.deal(&mut all, 0);
    drop(cells);
    Ok(Opened {
        table,
        all,
        one,
        two,
    })
}

fn zeros(alloc: Global) -> Result<Vec<Counter>, AllocError>
    ensures { IfOk result (λ v. length v.items ≡ 4) }
{
    let mut counters = Vec::with_capacity(alloc, 4)?;
    'counters: for _counter in 0..4u32 {
        counters.push(Counter { count: 0 })?;
    }
    Ok(counters)
}

/// Two threads count on four counters, each so many rounds. Answers the counters.
pub fn count_by_two<R: Threads + Wait + Sync>(
    rt: &R,
    alloc: Global,
    rounds: u32,
) -> Result<Vec<Counter>, AllocError>
    ensures { IfOk result (λ v. length v.items ≡ 4) }
{
    let mut counted = Vec::with_capacity(alloc, 4)?;
    let Opened {
        table,
        mut all,
        one,
        two,
    } = open(alloc)?;
    let shared = &table;
    let (one, two) = join(
        rt,
        move ||
            requires { IsIdle 2 tt shared.now.table.shared.table_id one × (number_of one.me.0 ≡ 0)
                × (shared.now.table.shared.table_id.words ≡ 4) }
            ensures { IsIdle 2 tt shared.entry.now.table.shared.table_id result × (number_of result.me.0 ≡ 0) }
        { count(rt, shared, one, rounds) },
        move ||
            requires { IsIdle 2 tt shared.now.table.shared.table_id two × (number_of two.me.0 ≡ 1)
                × (shared.now.table.shared.table_id.words ≡ 4) }
            ensures { IsIdle 2 tt shared.entry.now.table.shared.table_id result × (number_of result.me.0 ≡ 1) }
        { count(rt, shared, two, rounds) },
    );
    let cells = table.cells();
    cells.merge(&mut all, one);
    cells.merge(&mut all, two);
    drop(cells);
    table.close(all, &mut counted);
    Ok(counted)
}

/// Adds 1 to each of the four counters in each round.
fn count(
    rt: &impl Wait,
    table: &LatchTable<Counter, ()>,
    mut pass: LatchSeat<Counter, ()>,
    rounds: u32,
) -> LatchSeat<Counter, ()>
    requires pass { IsIdle 2 tt table.now.table.shared.table_id pass }
    requires cells { table.now.table.shared.table_id.words ≡ 4 }
    ensures pass { IsIdle 2 tt table.now.table.shared.table_id result }
    ensures number { number_of result.me.0 ≡ number_of pass.me.0 }
{
    let counters = table.cells();
    'rounds: for _round in 0..rounds {
        'cells: for cell in 0..4 {
            add(rt, &counters, &mut pass, cell, 1);
        }
    }
    pass
}

/// What a thread is answered that wants a counter: the word that is in the way, while another pass holds it and once
/// that has given it back, and the version that it then has. The holder changes it.
pub fn want_by_two<R: Threads + Sync>(
    rt: &R,
    alloc: Global,
) -> Result<Option<(Option<u64>, Option<u64>, u64)>, AllocError> {
    let Opened {
        table,
        all,
        mut one,
        two,
    } = open(alloc)?;
    drop(all);
    let cells = table.cells();
    let Ok(mut held) = cells.try_take(&mut one, 0) else {
        return Ok(None);
    };
    let shared = &table;
    let ((in_between, mut two), ()) = join(
        rt,
        move ||
            requires { IsIdle 2 tt shared.now.table.shared.table_id two
                × (shared.now.table.shared.table_id.words ≡ 4) }
            ensures { IsIdle 2 tt shared.entry.now.table.shared.table_id result.1 }
        { want(shared, two) },
        || (),
    );
    held.changed = true;
    cells.give(&mut one, held);
    let version = cells.version(&mut two, 0);
    let (behind, two) = want(&table, two);
    drop(two);
    Ok(Some((in_between, behind, version)))
}

/// The word that is in the way of the first counter, if one is.
fn want(
    table: &LatchTable<Counter, ()>,
    mut pass: LatchSeat<Counter, ()>,
) -> (Option<u64>, LatchSeat<Counter, ()>)
    requires pass { IsIdle 2 tt table.now.table.shared.table_id pass }
    requires cells { table.now.table.shared.table_id.words ≡ 4 }
    ensures pass { IsIdle 2 tt table.now.table.shared.table_id result.1 }
{
    let cells = table.cells();
    match cells.try_take(&mut pass, 0) {
        Ok(held) => {
            cells.give(&mut pass, held);
            (None, pass)
        }
        Err(busy) => (Some(busy.found), pass),
    }
}

/// What two counters have after one pass has added 7 to the first and evened them out.
pub fn share_seven(rt: &impl Wait, alloc: Global) -> Result<(u64, u64), AllocError> {
    let Opened {
        table,
        all,
        mut one,
        two,
    } = open(alloc)?;
    drop(all);
    drop(two);
    let (mut held, mut laid) = lists_for_two(alloc)?;
    let cells = table.cells();
    add(rt, &cells, &mut one, 0, 7);
    even_out(rt, &cells, &mut one, 0, 1, &mut held, &mut laid);
    held.destroy_empty();
    laid.destroy_empty();
    let first = count_of(rt, &cells, &mut one, 0);
    Ok((first, count_of(rt, &cells, &mut one, 1)))
}
