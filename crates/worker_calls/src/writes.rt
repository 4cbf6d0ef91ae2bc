//! Writes that make the room that they need.
//!
//! 1. A try that finds no place has changed nothing and holds nothing, so room may be made and the write tried again.
//! 2. Others may take the room that was made. So there may be any number of tries, and no clause says how many.

ghost use Rattle.std.specs.Prelude.{◌≡◌, OnOk, IfErr, Err};
ghost use Rattle.graph_model.specs.AccountSteps.{WritesBy};
ghost use Rattle.graph_model.specs.Refused.{IsWithinLimits};
ghost use Rattle.pass_room.specs.PassWrites.Making.{NeedsRoom};
ghost use Rattle.pass_room.specs.PassWritesDeclared.making.Written.TheVariants.{NeedRoom};
ghost use Rattle.reader_parts.specs.SharedStore.Passes.{IsOpen, account_of};
ghost use Rattle.reader_parts.specs.SharedStore.Writes.{IsAllowedBy};

use crate::room::room_for;
use graph_model::{Refusal, Write};
use pass_room::PassRoom;
use reader_parts::below::{self, Pass, RoomNeed, Store, Written};
use std::sync::Wait;
use txn_manager::RoomRefusal;

/// Makes a write. Where it finds no place, room is made and it is tried again.
pub(crate) fn write_with_room(
    rt: &impl Wait,
    store: &Store,
    pass: &mut Pass,
    room: &mut Option<PassRoom>,
    write: Write,
) -> Result<(), Refusal>
    requires opened { IsOpen store.now pass.old }
    requires within { IsWithinLimits write }
    ensures opened { IsOpen store.now pass.new }
    ensures writes { WritesBy (account_of store.now pass.old) write result (account_of store.now pass.new) }
{
    'tries: for _ in rt.forever() {
        match below::write(rt, store, pass, write) {
            Ok(Written::Done) => return Ok(()),
            // Nothing has changed, and no cell is in hand: so room may be made, which takes whole leaves.
            Ok(Written::NeedRoom(short)) => {
                match make_way(rt, store, pass, room, write, short) {
                    Ok(()) => {}
                    Err(refusal) => return Err(refusal),
                }
            }
            Err(refusal) => return Err(refusal),
        }
    }
    unreachable!()
}

/// Makes the room that a write needs, or says why the write isn't made.
fn make_way(
    rt: &impl Wait,
    store: &Store,
    pass: &mut Pass,
    room: &mut Option<PassRoom>,
    write: Write,
    short: RoomNeed,
) -> Result<(), Refusal>
    requires opened { IsOpen store.now pass.old }
    requires within { IsWithinLimits write }
    requires allowed { IsAllowedBy (account_of store.now pass.old) write }
    requires needs { NeedsRoom store.now.accounts.config.kind write (NeedRoom short) }
    ensures opened { IsOpen store.now pass.new }
    ensures same { OnOk result (account_of store.now pass.new ≡ account_of store.now pass.old) }
    ensures refused { IfErr result (λ refusal. WritesBy (account_of store.now pass.old) write (Err refusal)
        (account_of store.now pass.new)) }
{
    match room_for(rt, store, pass, room, short.key(), short.need()) {
        Ok(()) => Ok(()),
        Err(RoomRefusal::Full { leaves }) => Err(Refusal::Full { leaves }),
        Err(RoomRefusal::NoMemory) => Err(Refusal::NoMemory),
    }
}
