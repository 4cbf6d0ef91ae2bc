//! Leaves are taken for a call, and put back before it ends.
//!
//! 1. So a pass that makes room has nothing in hand when it goes on with its write.
//! 2. All cells that will be taken are read before the first latch, so that these reads wait for memory together, and
//!    nobody waits for them.

ghost use Rattle.std.specs.Prelude.{◌≡◌, ◌≤◌, ℕ, [], ◌∷◌, List, length, IfNone, IfSome, slice_index};
ghost use Rattle.pass_splits.specs.PassLeaves.Fit.{TellsFit};
ghost use Rattle.pass_splits.specs.PassLeaves.Hand.{IsLeafOfKey};
ghost use Rattle.pass_writes.specs.Hand.{HasNothing, KeepsState};
ghost use Rattle.pass_room.specs.Making.{HasLeavesInHand};

use graph_model::{Key, LEAF_SEGMENTS};
use pass_splits::below::{HeldIndex, LeafInHand, PassLeaves};
use pass_writes::below::{CellHints, Pass, Store};
use std::sync::Wait;

/// Takes the leaf of a key, and the index.
pub(crate) fn take_leaf(
    rt: &impl Wait,
    store: &Store,
    pass: &mut Pass,
    own: &mut PassLeaves,
    hints: &mut CellHints,
    key: Key,
) -> LeafInHand
    requires none { HasNothing store.now pass.old own.old.cells.items }
    ensures hand { HasLeavesInHand store.now pass.new (result.leaf ∷ []) own.new.cells.items result.index }
    ensures key { IsLeafOfKey key result.index.value.value result.leaf }
    ensures fit { TellsFit store.now.accounts.config pass.new.account.me.0 }
    ensures kept { KeepsState pass.old pass.new }
{
    let leaf = hints.leaf_of(key);
    hints.read_ahead(store, &cells_of(leaf));
    own.take(rt, store, pass, hints, key)
}

/// Takes two leaves, of which the first is to be the key's, and the index; or none.
pub(crate) fn take_both(
    rt: &impl Wait,
    store: &Store,
    pass: &mut Pass,
    own: &mut PassLeaves,
    hints: &mut CellHints,
    key: Key,
    leaves: [u32; 2],
) -> Option<HeldIndex>
    requires none { HasNothing store.now pass.old own.old.cells.items }
    ensures hand { IfSome result (λ index. HasLeavesInHand store.now pass.new leaves own.new.cells.items index
        × IsLeafOfKey key index.value.value (slice_index leaves 0)) }
    ensures fit { IfSome result (λ _. TellsFit store.now.accounts.config pass.new.account.me.0) }
    ensures none { IfNone result (HasNothing store.now pass.new own.new.cells.items) }
    ensures kept { KeepsState pass.old pass.new }
{
    // The first leaf was in hand a moment ago, so its cells are near.
    hints.read_ahead(store, &cells_of(leaves[1]));
    match own.take_leaves(rt, store, pass, hints, key, &leaves) {
        Ok(index) => Some(index),
        Err(_leaf) => None,
    }
}

/// The numbers of a leaf's cells. Where there is no such leaf there are no such cells, and none of them is read.
fn cells_of(leaf: u32) -> [u32; LEAF_SEGMENTS] {
    let first = leaf.saturating_mul(8);
    let mut cells = [first; LEAF_SEGMENTS];
    'cells: for place in 1..LEAF_SEGMENTS {
        cells[place] = first.saturating_add(place as u32);
    }
    cells
}

/// Puts all leaves and the index back.
pub(crate) fn put_back(store: &Store, pass: &mut Pass, own: &mut PassLeaves, index: HeldIndex)
    requires hand { (leaves : List ℕ) × (length leaves ≤ 2)
        × HasLeavesInHand store.now pass.old leaves own.old.cells.items index }
    ensures none { HasNothing store.now pass.new own.new.cells.items }
    ensures kept { KeepsState pass.old pass.new }
{
    own.put_back(store, pass, index);
}
