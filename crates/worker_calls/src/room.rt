//! Room for the rows of a write of the open transaction.
//!
//! 1. It is made with no cell of the write in hand, since it takes whole leaves.
//! 2. It changes no view, so nothing has to be taken back where the write isn't made after all.

ghost use Rattle.std.specs.Prelude.{◌≡◌, IfErr, IsSome, OnOk};
ghost use Rattle.pass_room.specs.Making.{MayAskFor};
ghost use Rattle.reader_parts.specs.SharedStore.Passes.{IsOpen, account_of};
ghost use Rattle.worker_calls.specs.Room.{IsRoomRefusal, account_after};

use graph_model::{Key, NoMemory};
use pass_room::{NoRoom, PassRoom, make_room};
use reader_parts::below::{Pass, Store};
use std::alloc::Global;
use std::mem::replace;
use std::sync::Wait;
use txn_manager::RoomRefusal;

/// Has a key's cell have so many free places, as it was found at least once. Where no leaf is free the pass keeps that
/// it was answered so.
pub(crate) fn room_for(
    rt: &impl Wait,
    store: &Store,
    pass: &mut Pass,
    room: &mut Option<PassRoom>,
    key: Key,
    need: u8,
) -> Result<(), RoomRefusal>
    requires opened { IsOpen store.now pass.old }
    requires asked { MayAskFor key need }
    ensures opened { IsOpen store.now pass.new }
    ensures account { account_of store.now pass.new ≡ account_after result (account_of store.now pass.old) }
    ensures refused { IfErr result (IsRoomRefusal store.now.accounts.config.leaves) }
{
    let alloc = pass.alloc;
    match has_room(room, alloc) {
        Ok(()) => {}
        Err(NoMemory) => return Err(RoomRefusal::NoMemory),
    }
    let Some(room) = room else { unreachable!() };
    match make_room(
        rt,
        store,
        &mut pass.seats,
        room,
        &mut pass.cells.hints,
        key,
        need,
        alloc,
    ) {
        // That there was room holds of a moment that is past. The caller tries its write again, and may come back.
        Ok(_) => Ok(()),
        Err(NoRoom::Full(full)) => Err(RoomRefusal::Full {
            leaves: full.leaves(),
        }),
        Err(NoRoom::NoMemory) => Err(RoomRefusal::NoMemory),
    }
}

/// What a worker keeps for rows that move, made if it has none.
pub fn has_room(room: &mut Option<PassRoom>, alloc: Global) -> Result<(), NoMemory>
    ensures { OnOk result (IsSome room.new) }
{
    if room.is_some() {
        return Ok(());
    }
    let made = PassRoom::new(alloc)?;
    let before = replace(room, Some(made));
    let None = before else { unreachable!() };
    Ok(())
}
