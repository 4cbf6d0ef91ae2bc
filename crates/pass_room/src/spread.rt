//! Room in the leaf of a key, without another leaf.
//!
//! 1. Where no window fits it tells which leaf is free, or that none is, and gives all back.

ghost use Rattle.std.specs.Prelude.{◌≡◌, ◌≤◌, true, [], ◌∷◌, IfErr, IfOk};
ghost use Rattle.graph_model.specs.Rows.{is_below, end_key};
ghost use Rattle.pass_splits.specs.PassLeaves.Fit.{TellsFit};
ghost use Rattle.pass_splits.specs.PassLeaves.Hand.{IsLeafOfKey};
ghost use Rattle.pass_splits.specs.PassMoves.Moving.{values_of};
ghost use Rattle.pass_splits.specs.PassMoves.Room.{IsCrowdedAt};
ghost use Rattle.pass_writes.specs.PassSteps.Passes.{state_of};
ghost use Rattle.pass_writes.specs.Hand.{HasNothing};
ghost use Rattle.pass_room.specs.Making.{HasLeavesInHand, IsNoRoom, IsSpread, KeepsPassAs, MayAskFor, state_after};

use crate::full::note_full;
use crate::hand::{put_back, take_leaf};
use crate::made::{NoRoom, RoomMade, StoreFull};
use crate::own::PassRoom;
use graph_model::{Key, NoMemory};
use pass_splits::below::{CellRoom, HeldIndex, LeafInHand, free_places};
use pass_splits::next_free;
use pass_writes::below::{CellHints, Leaf, Pass, Store, TakenCell};
use std::alloc::Global;
use std::sync::Wait;

/// What came of it.
#[derive(Debug, Drop, PartialEq, Eq)]
pub enum Spread {
    /// The cell has its places.
    Made(RoomMade),
    /// No window of the leaf fits, and this leaf was free then.
    Crowded { leaf: u32, free: u32 },
}

/// Takes the leaf of the key, and has the key's cell have its places where a window fits.
pub(crate) fn try_spread(
    rt: &impl Wait,
    store: &Store,
    pass: &mut Pass,
    own: &mut PassRoom,
    hints: &mut CellHints,
    key: Key,
    need: u8,
    alloc: Global,
) -> Result<Spread, NoRoom>
    requires none { HasNothing store.now pass.old own.old.leaves.cells.items }
    requires asked { MayAskFor key need }
    ensures none { HasNothing store.now pass.new own.new.leaves.cells.items }
    ensures kept { KeepsPassAs pass.old pass.new (state_after result (state_of pass.old)) }
    ensures made { IfOk result (IsSpread key need) }
    ensures refused { IfErr result (IsNoRoom store.now key need) }
{
    let LeafInHand { leaf, mut index } = take_leaf(rt, store, pass, &mut own.leaves, hints, key);
    let spread = spread_in_hand(
        store,
        pass,
        &mut own.leaves.cells,
        &mut index,
        leaf,
        key,
        need,
        &mut own.space,
        alloc,
    );
    // Before a split all goes back, since the free leaf's cells may stand before those in hand.
    put_back(store, pass, &mut own.leaves, index);
    spread
}

/// The same of the leaf in hand.
fn spread_in_hand(
    store: &Store,
    pass: &mut Pass,
    cells: &mut [TakenCell],
    index: &mut HeldIndex,
    leaf: u32,
    key: Key,
    need: u8,
    space: &mut Leaf,
    alloc: Global,
) -> Result<Spread, NoRoom>
    requires hand { HasLeavesInHand store.now pass.old (leaf ∷ []) cells.old index.old }
    requires key { IsLeafOfKey key index.old.value.value leaf }
    requires fit { TellsFit store.now.accounts.config pass.old.account.me.0 }
    requires asked { MayAskFor key need }
    ensures hand { HasLeavesInHand store.now pass.new (leaf ∷ []) cells.new index.new }
    ensures kept { KeepsPassAs pass.old pass.new (state_after result (state_of pass.old)) }
    ensures made { IfOk result (IsSpread key need) }
    ensures refused { IfErr result (IsNoRoom store.now key need) }
{
    match free_places(store, pass, cells, index, key, need, space, alloc) {
        Ok(CellRoom::Free) => Ok(Spread::Made(RoomMade::at(store, pass, cells, index, key, need))),
        Ok(CellRoom::Crowded) => look_for_free(store, pass, cells, index, leaf, key, need),
        Err(NoMemory) => Err(NoRoom::NoMemory),
    }
}

/// Looks which leaf is free, where the leaf in hand is crowded. Where none is the store is full, which the pass notes.
fn look_for_free(
    store: &Store,
    pass: &mut Pass,
    cells: &[TakenCell],
    index: &mut HeldIndex,
    leaf: u32,
    key: Key,
    need: u8,
) -> Result<Spread, NoRoom>
    requires hand { HasLeavesInHand store.now pass.old (leaf ∷ []) cells.now index.old }
    requires fit { TellsFit store.now.accounts.config pass.old.account.me.0 }
    requires crowded { IsCrowdedAt key need index.old.value.value leaf (values_of cells.now) }
    requires below { is_below key end_key ≡ true }
    requires few { need ≤ 2 }
    ensures hand { HasLeavesInHand store.now pass.new (leaf ∷ []) cells.now index.new }
    ensures kept { KeepsPassAs pass.old pass.new (state_after result (state_of pass.old)) }
    ensures made { IfOk result (IsSpread key need) }
    ensures refused { IfErr result (IsNoRoom store.now key need) }
{
    match next_free(&mut index.value) {
        Some(free) => Ok(Spread::Crowded { leaf, free }),
        None => {
            // Made while leaf and index are in hand: a moment later a leaf may be free, and the answer is still right
            // of this moment.
            let full = StoreFull::at(store, pass, cells, index, key, need);
            note_full(store, pass, cells, index, leaf, key, need);
            Err(NoRoom::Full(full))
        }
    }
}
