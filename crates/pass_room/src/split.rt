//! Room in the leaf of a key, with a leaf that is free.
//!
//! 1. Both leaves are taken in one go by rising keys. Whether the split is still to be done is looked at with both in
//!    hand.

ghost use Rattle.std.specs.Prelude.{[], ◌∷◌, IfOk, IfSome};
ghost use Rattle.pass_splits.specs.PassLeaves.Fit.{TellsFit};
ghost use Rattle.pass_splits.specs.PassLeaves.Hand.{IsLeafOfKey};
ghost use Rattle.pass_writes.specs.Hand.{HasNothing, KeepsState};
ghost use Rattle.pass_room.specs.Making.{HasLeavesInHand, IsMadeFor, MayAskFor};

use crate::hand::{put_back, take_both};
use crate::made::RoomMade;
use crate::own::PassRoom;
use graph_model::{Key, NoMemory};
use pass_splits::below::HeldIndex;
use pass_splits::{Split, split_free};
use pass_writes::below::{CellHints, Leaf, Pass, Store, TakenCell};
use std::alloc::Global;
use std::sync::Wait;

/// Takes the key's leaf and a free one, and splits the first into the second if that is still to be done. It isn't done
/// where a place stays busy or others came first: whoever asks looks again.
pub(crate) fn try_split(
    rt: &impl Wait,
    store: &Store,
    pass: &mut Pass,
    own: &mut PassRoom,
    hints: &mut CellHints,
    key: Key,
    need: u8,
    leaf: u32,
    free: u32,
    alloc: Global,
) -> Result<Option<RoomMade>, NoMemory>
    requires none { HasNothing store.now pass.old own.old.leaves.cells.items }
    requires asked { MayAskFor key need }
    ensures none { HasNothing store.now pass.new own.new.leaves.cells.items }
    ensures kept { KeepsState pass.old pass.new }
    ensures made { IfOk result (λ made. IfSome made (IsMadeFor key need)) }
{
    let Some(mut index) = take_both(rt, store, pass, &mut own.leaves, hints, key, [leaf, free])
    else {
        return Ok(None);
    };
    let made = split_in_hand(
        store,
        pass,
        &mut own.leaves.cells,
        &mut index,
        leaf,
        key,
        need,
        free,
        &mut own.space,
        alloc,
    );
    // Whatever came of it: also where memory was refused all has to go back.
    put_back(store, pass, &mut own.leaves, index);
    made
}

/// The same of the two leaves in hand.
fn split_in_hand(
    store: &Store,
    pass: &mut Pass,
    cells: &mut [TakenCell],
    index: &mut HeldIndex,
    leaf: u32,
    key: Key,
    need: u8,
    free: u32,
    space: &mut Leaf,
    alloc: Global,
) -> Result<Option<RoomMade>, NoMemory>
    requires hand { HasLeavesInHand store.now pass.old (leaf ∷ free ∷ []) cells.old index.old }
    requires key { IsLeafOfKey key index.old.value.value leaf }
    requires fit { TellsFit store.now.accounts.config pass.old.account.me.0 }
    requires asked { MayAskFor key need }
    ensures hand { HasLeavesInHand store.now pass.new (leaf ∷ free ∷ []) cells.new index.new }
    ensures kept { KeepsState pass.old pass.new }
    ensures made { IfOk result (λ made. IfSome made (IsMadeFor key need)) }
{
    match split_free(store, pass, cells, index, key, need, free, space, alloc)? {
        Split::Done => Ok(Some(RoomMade::at(store, pass, cells, index, key, need))),
        Split::Other => Ok(None),
    }
}
