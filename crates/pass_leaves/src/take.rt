//! How a pass comes by leaves and the index.
//!
//! 1. A hint names the leaf. Its latches are taken, then the index, and only then it is looked whether it is the key's.
//! 2. Where it isn't, all goes back as it was taken, and what the index has told is noted for the next try.

ghost use Rattle.std.specs.Prelude.{◌≡◌, ◌<◌, ◌≤◌, [], ◌∷◌, length, IfOk, IfSome, OnErr, OnOk, None, slice_index};
ghost use Rattle.pass_cells.specs.StoreRuleDeclared.slot.StoreSlot.TheVariants as slots;
ghost use Rattle.pass_cells.specs.Holding.{HoldsNone, IsLatchOf, KeepsPass};
ghost use Rattle.pass_leaves.specs.Fit.{TellsFit};
ghost use Rattle.pass_leaves.specs.Hand.{HasIndexHeld, HoldsLeaves, IsLeafOfKey, KeepsHand};

use crate::fit::learn_fit;
use crate::latch::latch_leaves;
use crate::own::PassLeaves;
use crate::put_back::give_index;
use crate::unpack::unpack_all;
use graph_model::Key;
use latch_table::Held;
use leaf_index::LeafIndex;
use pass_cells::below::{Pass, Store};
use pass_cells::{CellHints, give_places, try_place};
use std::sync::Wait;

/// The index in hand.
pub type HeldIndex = Held<Box<LeafIndex>>;

/// A leaf whose cells are in hand, and the index.
pub struct LeafInHand {
    /// The number of the leaf.
    pub leaf: u32,
    /// The value with its latch.
    pub index: HeldIndex,
}

impl PassLeaves {
    /// Takes the leaf whose range holds the key, and the index. Takes no memory. It waits until it has all of them.
    pub fn take(
        &mut self,
        rt: &impl Wait,
        store: &Store,
        pass: &mut Pass,
        hints: &mut CellHints,
        key: Key,
    ) -> LeafInHand
        requires none { HoldsNone store.now pass.old × (self.old.cells.items ≡ []) }
        ensures holds { HoldsLeaves store.now pass.new (result.leaf ∷ []) self.new.cells.items result.index }
        ensures key { IsLeafOfKey key result.index.value.value result.leaf }
        ensures fit { TellsFit store.now.accounts.config pass.new.account.me.0 }
        ensures kept { KeepsPass pass.old pass.new }
    {
        // A hint first, since the index is the last place in the order and can't be kept while cells are waited for.
        let mut leaf = hints.leaf_of(key);
        'tries: for _ in rt.forever() {
            match self.take_leaves(rt, store, pass, hints, key, &[leaf]) {
                Ok(index) => return LeafInHand { leaf, index },
                Err(next) => leaf = next,
            }
        }
        unreachable!()
    }

    /// Takes these leaves, of which the first is to be the key's, and the index. Where a place stays busy, or another
    /// leaf is the key's, all are given back, and the answer is which leaf to try next as the first one.
    pub fn take_leaves(
        &mut self,
        rt: &impl Wait,
        store: &Store,
        pass: &mut Pass,
        hints: &mut CellHints,
        key: Key,
        leaves: &[u32],
    ) -> Result<HeldIndex, u32>
        requires none { HoldsNone store.now pass.old × (self.old.cells.items ≡ []) }
        requires some { 1 ≤ length leaves.now }
        requires few { length leaves.now ≤ 2 }
        ensures holds { IfOk result (λ index. HoldsLeaves store.now pass.new leaves.now self.new.cells.items index
            × IsLeafOfKey key index.value.value (slice_index leaves.now 0)) }
        ensures fit { OnOk result (TellsFit store.now.accounts.config pass.new.account.me.0) }
        ensures none { OnErr result (HoldsNone store.now pass.new × (self.new.cells.items ≡ [])) }
        ensures kept { KeepsPass pass.old pass.new }
    {
        if !latch_leaves(rt, store, &mut pass.latch, leaves, &mut self.packed) {
            give_places(store, &mut pass.latch, &mut self.packed, &mut self.laid);
            // The same leaf once more, if there is such a one: a busy place tells nothing against the hint.
            return Err(existing(store, leaves[0]));
        }
        let Some(index) = take_index(store, pass) else {
            give_places(store, &mut pass.latch, &mut self.packed, &mut self.laid);
            return Err(leaves[0]);
        };
        // With the cells and the index in hand, and before anything is unpacked, it is certain whether this is the
        // key's leaf.
        let leaf = index.value.leaf_at(key).leaf;
        if leaf != leaves[0] {
            hints.note_leaf(&index.value, key);
            give_index(store, pass, index, &mut self.packed, &mut self.laid);
            return Err(leaf);
        }
        // Only now: a leaf that isn't the key's goes back without a word of it having been loaded.
        unpack_all(store, pass, &mut self.packed, &mut self.cells);
        learn_fit(store, pass);
        Ok(index)
    }
}

/// The leaf, or leaf 0 where there is none of its number.
fn existing(store: &Store, leaf: u32) -> u32 {
    if leaf < store.config().leaves {
        leaf
    } else {
        0
    }
}

/// Takes the index beside places that are held, and its note in.
fn take_index(store: &Store, pass: &mut Pass) -> Option<HeldIndex>
    requires latch { IsLatchOf store.now pass.old.latch }
    requires table { pass.old.account.table_id ≡ store.now.accounts.table.shared.table_id }
    requires none { pass.old.account.me.0.indexes ≡ [] }
    ensures latch { IsLatchOf store.now pass.new.latch }
    ensures index { IfSome result (λ index. HasIndexHeld store.now.accounts.config pass.new.account.me.0 index
        × (pass.new.latch.me.1 ≡ (index.cell, slots.Out) ∷ pass.old.latch.me.1)) }
    ensures busy { result ≡ None → (pass.new.latch.me.1 ≡ pass.old.latch.me.1)
        × (pass.new.account.me.0.indexes ≡ []) }
    ensures hand { KeepsHand pass.old pass.new }
    ensures kept { KeepsPass pass.old pass.new }
{
    let held = try_place(store, &mut pass.latch, store.index_place())?;
    Some(store.gather_index(pass, held))
}
