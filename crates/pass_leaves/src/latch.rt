//! Latches of leaves and of the index.
//!
//! 1. The cells of a leaf are taken by rising keys, and the index after them: the order in which all passes take them.
//! 2. Only the first place of all is waited for without end. Where a later one stays busy the caller gives all back.

ghost use Rattle.std.specs.Prelude.{◌≡◌, ◌<◌, ◌≤◌, ◌+◌, ◌*◌, ◌++◌, [], ◌∷◌, length, true, false};
ghost use Rattle.std.specs.Vec.{vec_capacity};
ghost use Rattle.atomic_table.specs.Table.{rest};
ghost use Rattle.latch_table.specs.Latched.{number_of};
ghost use Rattle.latch_table.specs.Several.{taken_of};
ghost use Rattle.pass_cells.specs.RuleModel.Sight.{cells_of};
ghost use Rattle.pass_cells.specs.StoreRule.Slots.{FitsPlace};
ghost use Rattle.pass_cells.specs.StoreRuleDeclared.slot.StoreSlot.TheVariants as slots;
ghost use Rattle.pass_cells.specs.Holding.{AreFit, IsLatchOf};
ghost use Rattle.pass_leaves.specs.Hand.{HasLatched, cells_of_leaves, numbers_from, numbers_held};

use graph_model::LEAF_SEGMENTS;
use latch_table::{Held, Laid};
use pass_cells::below::{LatchPass, Store, StoreSlot};
use pass_cells::{give_places, take_next_place};
use std::sync::Wait;

/// Takes all cells of these leaves. Where one stays busy, or a leaf doesn't exist, some are taken.
pub fn latch_leaves(
    rt: &impl Wait,
    store: &Store,
    latch: &mut LatchPass,
    leaves: &[u32],
    packed: &mut Vec<Held<StoreSlot>>,
) -> bool
    requires latched { HasLatched store.now latch.old packed.old.items }
    requires none { packed.old.items ≡ [] }
    requires few { length leaves.now ≤ 2 }
    requires room { 17 ≤ vec_capacity packed.old }
    ensures latched { HasLatched store.now latch.new packed.new.items }
    ensures number { number_of latch.new.me.0 ≡ number_of latch.old.me.0 }
    ensures numbers { result ≡ true → numbers_held packed.new.items ≡ cells_of_leaves leaves.now }
    ensures few { length packed.new.items ≤ 16 }
    ensures capacity { vec_capacity packed.old ≤ vec_capacity packed.new }
{
    'leaves: for place in 0..leaves.len() {
        if !latch_leaf(rt, store, latch, leaves[place], packed) {
            return false;
        }
    }
    true
}

/// Takes the cells of one leaf more, in the order of their fence keys.
fn latch_leaf(
    rt: &impl Wait,
    store: &Store,
    latch: &mut LatchPass,
    leaf: u32,
    packed: &mut Vec<Held<StoreSlot>>,
) -> bool
    requires latched { HasLatched store.now latch.old packed.old.items }
    requires room { length packed.old.items + 8 ≤ vec_capacity packed.old }
    ensures latched { HasLatched store.now latch.new packed.new.items }
    ensures number { number_of latch.new.me.0 ≡ number_of latch.old.me.0 }
    ensures numbers { result ≡ true
        → numbers_held packed.new.items ≡ numbers_held packed.old.items ++ numbers_from (8 * leaf) 8 }
    ensures few { length packed.new.items ≤ length packed.old.items + 8 }
    ensures capacity { vec_capacity packed.old ≤ vec_capacity packed.new }
{
    // A hint may name a leaf that doesn't exist.
    if leaf >= store.config().leaves {
        return false;
    }
    let first = 8 * leaf;
    'segments: for segment in 0..LEAF_SEGMENTS as u32 {
        if !latch_cell(rt, store, latch, first + segment, packed) {
            return false;
        }
    }
    true
}

/// Takes one cell more.
fn latch_cell(
    rt: &impl Wait,
    store: &Store,
    latch: &mut LatchPass,
    cell: u32,
    packed: &mut Vec<Held<StoreSlot>>,
) -> bool
    requires latched { HasLatched store.now latch.old packed.old.items }
    requires cell { cell < cells_of store.now.accounts.config }
    requires room { length packed.old.items < vec_capacity packed.old }
    ensures latched { HasLatched store.now latch.new packed.new.items }
    ensures number { number_of latch.new.me.0 ≡ number_of latch.old.me.0 }
    ensures more { result ≡ true → (numbers_held packed.new.items ≡ numbers_held packed.old.items ++ cell ∷ [])
        × (length packed.new.items ≡ length packed.old.items + 1) }
    ensures none { result ≡ false → packed.new.items ≡ packed.old.items }
    ensures capacity { vec_capacity packed.old ≤ vec_capacity packed.new }
{
    // Only the first cell may be waited for without end.
    let holds_none = packed.is_empty();
    let Some(held) = take_next_place(rt, store, latch, cell, holds_none) else {
        return false;
    };
    match packed.push(held) {
        Ok(()) => true,
        Err(_) => unreachable!(),
    }
}

/// Puts the index back, which was taken last, and releases it. The pass keeps the cells.
pub fn give_index_first(store: &Store, latch: &mut LatchPass, index: Held<StoreSlot>)
    requires latch { IsLatchOf store.now latch.old }
    requires out { latch.old.me.1 ≡ (index.cell, slots.Out) ∷ rest latch.old.me.1 }
    requires index { FitsPlace store.now.accounts.config store.now.accounts.table.shared.table_id index.cell index.value
        × (index.cell < cells_of store.now.accounts.config + 2) }
    ensures latch { IsLatchOf store.now latch.new }
    ensures number { number_of latch.new.me.0 ≡ number_of latch.old.me.0 }
    ensures cells { latch.new.me.1 ≡ rest latch.old.me.1 }
{
    store.cells().give_last(latch, index);
}

/// Puts the values of all places and of the index, which was taken last, back and releases them.
pub fn give_all_places(
    store: &Store,
    latch: &mut LatchPass,
    index: Held<StoreSlot>,
    packed: &mut Vec<Held<StoreSlot>>,
    laid: &mut Vec<Laid>,
)
    requires latch { IsLatchOf store.now latch.old }
    requires out { latch.old.me.1 ≡ (index.cell, slots.Out) ∷ taken_of slots.Out packed.old.items }
    requires fit { AreFit store.now packed.old.items }
    requires index { FitsPlace store.now.accounts.config store.now.accounts.table.shared.table_id index.cell index.value
        × (index.cell < cells_of store.now.accounts.config + 2) }
    requires room { (laid.old.items ≡ []) × (length packed.old.items < vec_capacity packed.old)
        × (length packed.old.items < vec_capacity laid.old) }
    ensures latch { IsLatchOf store.now latch.new }
    ensures number { number_of latch.new.me.0 ≡ number_of latch.old.me.0 }
    ensures none { (latch.new.me.1 ≡ []) × (packed.new.items ≡ []) × (laid.new.items ≡ []) }
    ensures capacity { (vec_capacity packed.old ≤ vec_capacity packed.new)
        × (vec_capacity laid.old ≤ vec_capacity laid.new) }
{
    match packed.push(index) {
        Ok(()) => {}
        Err(_) => unreachable!(),
    }
    give_places(store, latch, packed, laid);
}
