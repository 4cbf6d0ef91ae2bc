//! Room for rows in a key's cell.
//!
//! 1. A window is tried first, since it needs one leaf; a split needs a free leaf besides, whose cells are taken
//!    together with those of the first.
//! 2. What was found before the places were taken is looked at again with them in hand, since others may have come
//!    first.

ghost use Rattle.std.specs.Prelude.{IfErr, IfOk, IfSome};
ghost use Rattle.pass_writes.specs.PassSteps.Passes.{state_of};
ghost use Rattle.pass_writes.specs.Hand.{HasNothing};
ghost use Rattle.pass_writes.specs.PassSettles.Settled.{HasNoneInHand};
ghost use Rattle.pass_room.specs.Making.{IsMadeFor, IsNoRoom, KeepsPassAs, MayAskFor, state_after};

use crate::made::{NoRoom, RoomMade};
use crate::own::PassRoom;
use crate::split::try_split;
use crate::spread::{Spread, try_spread};
use graph_model::{Key, NoMemory};
use pass_writes::below::{CellHints, Pass, Store};
use std::alloc::Global;
use std::sync::Wait;

/// Has so many places be free in the cell of the key while the pass holds it: as it is, or once the smallest window
/// that fits was spread, or the leaf was split. Others may have used the places up by the time that this returns. Takes
/// all memory that it needs before anything moves. May wait.
pub fn make_room(
    rt: &impl Wait,
    store: &Store,
    pass: &mut Pass,
    own: &mut PassRoom,
    hints: &mut CellHints,
    key: Key,
    need: u8,
    alloc: Global,
) -> Result<RoomMade, NoRoom>
    requires idle { HasNoneInHand store.now pass.old }
    requires asked { MayAskFor key need }
    ensures idle { HasNoneInHand store.now pass.new }
    ensures kept { KeepsPassAs pass.old pass.new (state_after result (state_of pass.old)) }
    ensures made { IfOk result (IsMadeFor key need) }
    ensures refused { IfErr result (IsNoRoom store.now key need) }
{
    'tries: for _ in rt.forever() {
        match try_room(rt, store, pass, own, hints, key, need, alloc) {
            Ok(Some(made)) => return Ok(made),
            // Somebody changed the leaf between two looks, so all is looked at again.
            Ok(None) => {}
            Err(refused) => return Err(refused),
        }
    }
    unreachable!()
}

/// Spreads a window of the key's leaf, or splits the leaf. Neither is done where others came first.
fn try_room(
    rt: &impl Wait,
    store: &Store,
    pass: &mut Pass,
    own: &mut PassRoom,
    hints: &mut CellHints,
    key: Key,
    need: u8,
    alloc: Global,
) -> Result<Option<RoomMade>, NoRoom>
    requires none { HasNothing store.now pass.old own.old.leaves.cells.items }
    requires asked { MayAskFor key need }
    ensures none { HasNothing store.now pass.new own.new.leaves.cells.items }
    ensures kept { KeepsPassAs pass.old pass.new (state_after result (state_of pass.old)) }
    ensures made { IfOk result (λ made. IfSome made (IsMadeFor key need)) }
    ensures refused { IfErr result (IsNoRoom store.now key need) }
{
    // A window first: it needs one leaf, and most often it is enough.
    let (leaf, free) = match try_spread(rt, store, pass, own, hints, key, need, alloc) {
        Ok(Spread::Made(made)) => return Ok(Some(made)),
        Ok(Spread::Crowded { leaf, free }) => (leaf, free),
        Err(refused) => return Err(refused),
    };
    match try_split(rt, store, pass, own, hints, key, need, leaf, free, alloc) {
        Ok(made) => Ok(made),
        Err(NoMemory) => Err(NoRoom::NoMemory),
    }
}
