//! A table of counters under latches, on which two passes count.

ghost use Rattle.std.specs.Prelude.{◌≡◌, ◌<◌, ◌≤◌, [], ◌∷◌, ◌++◌, length, IfOk};
ghost use Rattle.std.specs.Vec.{vec_capacity};
ghost use Rattle.latch_table.specs.Latched.{IsIdle, number_of};

use latch_table::{Cells, Held, Laid, LatchSeat, Slot};
use std::alloc::{AllocError, Global};
use std::sync::Wait;

/// A counter in its slot.
#[derive(Drop)]
pub struct Counter {
    pub count: u64,
}

impl Slot<()> for Counter {
    ghost use Rattle.std.specs.Prelude.{ℕ};

    ghost fits = { λ _ _ _. Unit {0} };

    ghost passes = { λ _. 2 };

    ghost vacant = { record { count = 0 } };

    fn new_vacant() -> Counter {
        Counter { count: 0 }
    }

    fn forget_vacant(self) {
        drop(self);
    }
}

/// Adds to a counter as soon as no other pass has it.
pub fn add(
    rt: &impl Wait,
    counters: &Cells<'_, Counter, ()>,
    pass: &mut LatchSeat<Counter, ()>,
    cell: u32,
    amount: u64,
)
    requires pass { IsIdle 2 tt counters.now.table.now.table_id pass.old }
    requires cell { cell < counters.now.table.now.table_id.words }
    ensures pass { IsIdle 2 tt counters.now.table.now.table_id pass.new }
    ensures number { number_of pass.new.me.0 ≡ number_of pass.old.me.0 }
{
    let mut held = counters.take(rt, pass, cell);
    held.changed = true;
    held.value.count = held.value.count.wrapping_add(amount);
    counters.give(pass, held);
}

/// Evens two counters out: each gets half of what both have. Whoever holds several cells takes them in one order, so
/// that no two passes wait for each other. The lists have room for two.
pub fn even_out(
    rt: &impl Wait,
    counters: &Cells<'_, Counter, ()>,
    pass: &mut LatchSeat<Counter, ()>,
    low: u32,
    high: u32,
    held: &mut Vec<Held<Counter>>,
    laid: &mut Vec<Laid>,
)
    requires pass { IsIdle 2 tt counters.now.table.now.table_id pass.old }
    requires cells { (low < high) × (high < counters.now.table.now.table_id.words) }
    requires room { (held.old.items ≡ []) × (laid.old.items ≡ []) × (2 ≤ vec_capacity held.old)
        × (2 ≤ vec_capacity laid.old) }
    ensures pass { IsIdle 2 tt counters.now.table.now.table_id pass.new }
    ensures number { number_of pass.new.me.0 ≡ number_of pass.old.me.0 }
    ensures room { (held.new.items ≡ []) × (laid.new.items ≡ []) × (2 ≤ vec_capacity held.new)
        × (2 ≤ vec_capacity laid.new) }
{
    let mut a = counters.take(rt, pass, low);
    let mut b = counters.take(rt, pass, high);
    let sum = a.value.count.wrapping_add(b.value.count);
    a.changed = true;
    a.value.count = sum - sum / 2;
    b.changed = true;
    b.value.count = sum / 2;
    keep(held, a);
    keep(held, b);
    counters.give_all(pass, held, laid);
}

/// Empty lists with room for two counters.
pub fn lists_for_two(alloc: Global) -> Result<(Vec<Held<Counter>>, Vec<Laid>), AllocError>
    ensures empty { IfOk result (λ l. (l.0.items ≡ []) × (l.1.items ≡ [])) }
    ensures room { IfOk result (λ l. (2 ≤ vec_capacity l.0) × (2 ≤ vec_capacity l.1)) }
{
    let held = Vec::with_capacity(alloc, 2)?;
    match Vec::with_capacity(alloc, 2) {
        Ok(laid) => Ok((held, laid)),
        Err(refused) => {
            held.destroy_empty();
            Err(refused)
        }
    }
}

/// What a counter has, as soon as no other pass has it.
pub fn count_of(
    rt: &impl Wait,
    counters: &Cells<'_, Counter, ()>,
    pass: &mut LatchSeat<Counter, ()>,
    cell: u32,
) -> u64
    requires pass { IsIdle 2 tt counters.now.table.now.table_id pass.old }
    requires cell { cell < counters.now.table.now.table_id.words }
    ensures pass { IsIdle 2 tt counters.now.table.now.table_id pass.new }
{
    let held = counters.take(rt, pass, cell);
    let count = held.value.count;
    counters.give(pass, held);
    count
}

/// Puts a held counter at the end of a list that has the room.
fn keep(list: &mut Vec<Held<Counter>>, held: Held<Counter>)
    requires room { length list.old.items < vec_capacity list.old }
    ensures put { list.new.items ≡ list.old.items ++ held ∷ [] }
    ensures capacity { vec_capacity list.old ≤ vec_capacity list.new }
{
    match list.push(held) {
        Ok(()) => {}
        Err(_) => unreachable!(),
    }
}
