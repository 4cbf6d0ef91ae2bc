//! Latches of a store's places.
//!
//! 1. Whoever holds nothing waits as long as it takes. Whoever holds a place looks at the next one a number of times
//!    and then answers that it is busy, so no circle of passes waits for ever.
//! 2. All values are put back before the first place is released: no cell of a write is free while another one still
//!    lacks its value.

ghost use Rattle.std.specs.Prelude.{◌≡◌, ◌<◌, ◌≤◌, ◌+◌, [], ◌∷◌, length, false, IfSome, None};
ghost use Rattle.std.specs.Vec.{vec_capacity};
ghost use Rattle.latch_table.specs.Latched.{number_of};
ghost use Rattle.latch_table.specs.Several.{taken_of};
ghost use Rattle.store_rule.specs.RuleModel.Sight.{cells_of};
ghost use Rattle.store_rule.specs.Slots.{FitsPlace};
ghost use Rattle.store_rule.specs.declared.slot.StoreSlot.TheVariants as slots;
ghost use Rattle.pass_cells.specs.Holding.{AreFit, IsLatchOf};

use latch_table::{Held, Laid};
use std::hint::spin_loop;
use std::sync::Wait;
use store_rule::{LatchPass, Store, StoreSlot};

/// How often a pass that holds cells looks at the next one: longer than a holder's work takes.
const LOOKS: u32 = 4096;

/// Takes a place, as soon as nobody holds it.
pub fn take_place(
    rt: &impl Wait,
    store: &Store,
    latch: &mut LatchPass,
    place: u32,
) -> Held<StoreSlot>
    requires latch { IsLatchOf store.now latch.old }
    requires place { place < cells_of store.now.accounts.config + 2 }
    ensures latch { IsLatchOf store.now latch.new }
    ensures number { number_of latch.new.me.0 ≡ number_of latch.old.me.0 }
    ensures held { (result.cell ≡ place) × (result.changed ≡ false) }
    ensures fits { FitsPlace store.now.accounts.config store.now.accounts.table.shared.table_id place result.value }
    ensures slots { latch.new.me.1 ≡ (place, slots.Out) ∷ latch.old.me.1 }
{
    store.cells().take(rt, latch, place)
}

/// Looks at a place a number of times, and takes it if a look finds it free.
pub fn try_place(store: &Store, latch: &mut LatchPass, place: u32) -> Option<Held<StoreSlot>>
    requires latch { IsLatchOf store.now latch.old }
    requires place { place < cells_of store.now.accounts.config + 2 }
    ensures latch { IsLatchOf store.now latch.new }
    ensures number { number_of latch.new.me.0 ≡ number_of latch.old.me.0 }
    ensures held { IfSome result (λ h. (h.cell ≡ place) × (h.changed ≡ false)
        × FitsPlace store.now.accounts.config store.now.accounts.table.shared.table_id place h.value
        × (latch.new.me.1 ≡ (place, slots.Out) ∷ latch.old.me.1)) }
    ensures busy { result ≡ None → latch.new.me.1 ≡ latch.old.me.1 }
{
    let cells = store.cells();
    'looks: for _look in 0..LOOKS {
        match cells.try_take(latch, place) {
            Ok(held) => return Some(held),
            // Only a pause and no wait: whoever holds others must not leave its processor while they wait for it.
            Err(_) => spin_loop(),
        }
    }
    None
}

/// Gives all places of a pass back: puts each value back, and then releases each place.
pub fn give_places(
    store: &Store,
    latch: &mut LatchPass,
    packed: &mut Vec<Held<StoreSlot>>,
    laid: &mut Vec<Laid>,
)
    requires latch { IsLatchOf store.now latch.old }
    requires out { latch.old.me.1 ≡ taken_of slots.Out packed.old.items }
    requires fit { AreFit store.now packed.old.items }
    requires room { (laid.old.items ≡ []) × (length packed.old.items ≤ vec_capacity laid.old) }
    ensures latch { IsLatchOf store.now latch.new }
    ensures number { number_of latch.new.me.0 ≡ number_of latch.old.me.0 }
    ensures none { (latch.new.me.1 ≡ []) × (packed.new.items ≡ []) × (laid.new.items ≡ []) }
    ensures capacity { (vec_capacity packed.old ≤ vec_capacity packed.new)
        × (vec_capacity laid.old ≤ vec_capacity laid.new) }
{
    store.cells().give_all(latch, packed, laid);
}

/// Gives the only place of a pass back.
pub fn give_place(store: &Store, latch: &mut LatchPass, held: Held<StoreSlot>)
    requires latch { IsLatchOf store.now latch.old }
    requires out { latch.old.me.1 ≡ (held.cell, slots.Out) ∷ [] }
    requires place { held.cell < cells_of store.now.accounts.config + 2 }
    requires fits { FitsPlace store.now.accounts.config store.now.accounts.table.shared.table_id held.cell held.value }
    ensures latch { IsLatchOf store.now latch.new }
    ensures number { number_of latch.new.me.0 ≡ number_of latch.old.me.0 }
    ensures none { latch.new.me.1 ≡ [] }
{
    store.cells().give(latch, held);
}

/// Takes a place: whoever holds none waits as long as it takes, and whoever holds others looks a number of times.
pub fn take_next_place(
    rt: &impl Wait,
    store: &Store,
    latch: &mut LatchPass,
    place: u32,
    holds_none: bool,
) -> Option<Held<StoreSlot>>
    requires latch { IsLatchOf store.now latch.old }
    requires place { place < cells_of store.now.accounts.config + 2 }
    ensures latch { IsLatchOf store.now latch.new }
    ensures number { number_of latch.new.me.0 ≡ number_of latch.old.me.0 }
    ensures held { IfSome result (λ h. (h.cell ≡ place) × (h.changed ≡ false)
        × FitsPlace store.now.accounts.config store.now.accounts.table.shared.table_id place h.value
        × (latch.new.me.1 ≡ (place, slots.Out) ∷ latch.old.me.1)) }
    ensures busy { result ≡ None → latch.new.me.1 ≡ latch.old.me.1 }
{
    if holds_none {
        Some(take_place(rt, store, latch, place))
    } else {
        try_place(store, latch, place)
    }
}
