//! How a pass gives leaves and the index back.
//!
//! 1. All values of cells are back before the first of their latches is released, so nobody finds rows that have moved
//!    in two cells, or in none.
//! 2. The index goes back before the cells are packed, since others wait for it. Whoever is led by it to one of these
//!    cells finds that held until all have their values.

ghost use Rattle.std.specs.Prelude.{◌≡◌, ◌≤◌, ◌<◌, [], ◌∷◌, length, List, ℕ};
ghost use Rattle.std.specs.Vec.{vec_capacity};
ghost use Rattle.latch_table.specs.Several.{taken_of};
ghost use Rattle.pass_cells.specs.StoreRuleDeclared.buffers.TheConstants.{MOST_UNPACKED};
ghost use Rattle.pass_cells.specs.StoreRuleDeclared.slot.StoreSlot.TheVariants as slots;
ghost use Rattle.pass_cells.specs.Holding.{AreFit, HoldsNone, IsLatchOf, KeepsPass};
ghost use Rattle.pass_leaves.specs.Hand.{HasIndexHeld, HoldsLeaves};

use crate::latch::{give_all_places, give_index_first};
use crate::own::PassLeaves;
use crate::take::HeldIndex;
use crate::unpack::pack_all;
use latch_table::{Held, Laid};
use pass_cells::below::{Pass, Store, StoreSlot};
use pass_cells::give_places;

impl PassLeaves {
    /// Gives the index back, then packs all cells in hand and puts them back, and then releases each. What wasn't changed
    /// keeps its version. Takes no memory.
    pub fn put_back(&mut self, store: &Store, pass: &mut Pass, index: HeldIndex)
        requires holds { (leaves : List ℕ) × (length leaves ≤ 2)
            × HoldsLeaves store.now pass.old leaves self.old.cells.items index }
        ensures none { HoldsNone store.now pass.new × (self.new.cells.items ≡ []) }
        ensures kept { KeepsPass pass.old pass.new }
    {
        // The view knows the whole move by now, and what is packed changes none of the index.
        let index = store.lay_index(pass, index);
        give_index_first(store, &mut pass.latch, index);
        pack_all(store, pass, &mut self.cells, &mut self.packed);
        give_places(store, &mut pass.latch, &mut self.packed, &mut self.laid);
    }
}

/// Gives the index back, and places that are held as they were taken.
pub fn give_index(
    store: &Store,
    pass: &mut Pass,
    index: HeldIndex,
    packed: &mut Vec<Held<StoreSlot>>,
    laid: &mut Vec<Laid>,
)
    requires latch { IsLatchOf store.now pass.old.latch }
    requires out { pass.old.latch.me.1 ≡ (index.cell, slots.Out) ∷ taken_of slots.Out packed.old.items }
    requires table { pass.old.account.table_id ≡ store.now.accounts.table.shared.table_id }
    requires fit { AreFit store.now packed.old.items }
    requires index { HasIndexHeld store.now.accounts.config pass.old.account.me.0 index }
    requires none { (pass.old.account.me.0.cells ≡ []) × (pass.old.buffers ≡ MOST_UNPACKED) }
    requires room { (laid.old.items ≡ []) × (length packed.old.items < vec_capacity packed.old)
        × (length packed.old.items < vec_capacity laid.old) }
    ensures none { HoldsNone store.now pass.new × (packed.new.items ≡ []) × (laid.new.items ≡ []) }
    ensures kept { KeepsPass pass.old pass.new }
    ensures capacity { (vec_capacity packed.old ≤ vec_capacity packed.new)
        × (vec_capacity laid.old ≤ vec_capacity laid.new) }
{
    let index = store.lay_index(pass, index);
    give_all_places(store, &mut pass.latch, index, packed, laid);
}
