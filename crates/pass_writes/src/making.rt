//! Writes of an open transaction.
//!
//! 1. Check, room and change are made with the same cells in hand, so others meet a write whole or not at all.
//! 2. A write that is refused, or finds no place, changes no row.

ghost use Rattle.std.specs.Prelude.{◌≡◌, Err, IfOk, OnErr};
ghost use Rattle.graph_model.specs.Refused.{IsWithinLimits};
ghost use Rattle.pass_prunes.specs.RowWrites.Written.{written_keys};
ghost use Rattle.pass_prunes.specs.StoreRule.Passes.{OnlyAccount};
ghost use Rattle.pass_prunes.specs.PassCells.Taken.{rows_in};
ghost use Rattle.pass_prunes.specs.PassSteps.Passes.{IsPassOf, state_of};
ghost use Rattle.pass_writes.specs.Found.{Finds, view_of};
ghost use Rattle.pass_writes.specs.Hand.{HasAllBack, HasInHand, HasNothing, KeepsInHand};
ghost use Rattle.pass_writes.specs.Making.{CanLay, HoldsRowsOf, IsForInsert, IsOpenIn, IsShortOf, KnowsEdges, Lays, Makes, NeedsRoom, after_refusal, noted};
ghost use Rattle.graph_model.specs.declared.refusal.Refusal.TheVariants as refusals;

use crate::checks::check;
use crate::hand::{put_cells_back, take_cells};
use crate::keys::FewKeys;
use graph_model::{Begun, Cause, NoMemory, Refusal, TxnName, Write};
use pass_prunes::below::{
    FoundRows, Pass, PassCells, RoomNeed, Store, TakenCells, WrittenRows, learn, name_holder,
    note_later, rows_in_hand_are_known,
};
use std::sync::Wait;
use undo_chain::Touched;

/// What a write that its view allows is answered, and that nobody stands against.
#[derive(Debug, Drop, PartialEq, Eq)]
pub enum Written {
    Done,
    /// Rows of the write find no place in a cell that was held.
    NeedRoom(RoomNeed),
}

/// Makes a write of the open transaction, given what its begin answered, or says why it isn't made. Whether the vertex
/// that it removes has edges was looked for before. A commit that stands against it is noted, and still to be seen.
pub fn write(
    rt: &impl Wait,
    store: &Store,
    pass: &mut Pass,
    cells: &mut PassCells,
    begun: Begun,
    write: Write,
    has_edges: bool,
) -> Result<Written, Refusal>
    requires none { HasNothing store.now pass.old cells.old.taken.list.items }
    requires opened { IsOpenIn begun pass.old }
    requires known { KnowsEdges (view_of store.now.accounts.config.kind (state_of pass.old)) write has_edges }
    ensures makes { Makes store.now.accounts.config pass.old.number (state_of pass.old) write result
        (state_of pass.new) }
    ensures room { IfOk result (λ written. NeedsRoom store.now.accounts.config.kind write written) }
    ensures back { HasAllBack store.now pass.old pass.new cells.new.taken.list.items }
{
    let rows = WrittenRows::of(store.config().kind, write);
    let keys = FewKeys::of_write(&rows);
    take_cells(rt, store, pass, cells, keys.as_slice());
    let written = write_in_hand(store, pass, cells, begun, write, &rows, has_edges);
    // All of them, once the view knows the write: nobody finds one row of it without the others.
    put_cells_back(store, pass, cells);
    written
}

/// The same with the cells in hand.
fn write_in_hand(
    store: &Store,
    pass: &mut Pass,
    cells: &mut PassCells,
    begun: Begun,
    write: Write,
    rows: &WrittenRows,
    has_edges: bool,
) -> Result<Written, Refusal>
    requires hand { HasInHand store.now pass.old cells.old.taken.list.items }
    requires opened { IsOpenIn begun pass.old }
    requires rows { HoldsRowsOf store.now.accounts.config.kind (rows_in cells.old.taken) write rows.now }
    requires known { KnowsEdges (view_of store.now.accounts.config.kind (state_of pass.old)) write has_edges }
    ensures makes { Makes store.now.accounts.config pass.old.number (state_of pass.old) write result
        (state_of pass.new) }
    ensures short { IfOk result (λ written. IsShortOf (rows_in cells.old.taken) (written_keys rows.now) written
        × IsForInsert write written) }
    ensures still { KeepsInHand store.now pass.old pass.new cells.new.taken.list.items }
{
    rows_in_hand_are_known();
    // Once, with all cells in hand: a commit is published by then or isn't, and that for all of its rows alike.
    let clock = learn(store, pass);
    let taken = &cells.taken;
    // Each row is searched for once.
    let found = taken.find(rows);
    match check(
        store,
        pass,
        taken,
        clock,
        begun,
        write,
        &found.near,
        has_edges,
    ) {
        Ok(()) => match lay(store, pass, cells, begun.by, write, &found) {
            Ok(written) => Ok(written),
            Err(NoMemory) => Err(Refusal::NoMemory),
        },
        Err(refusal) => {
            note_refusal(store, pass, &cells.taken, write, refusal);
            Err(refusal)
        }
    }
}

/// Notes who stands against a write, where that is why it is refused.
fn note_refusal(store: &Store, pass: &mut Pass, taken: &TakenCells, write: Write, refusal: Refusal)
    requires hand { HasInHand store.now pass.old taken.now.list.items }
    requires found { Finds store.now.accounts.config pass.old.account.me.0 pass.old.number (state_of pass.old) write
        (Err refusal) }
    ensures state { state_of pass.new ≡ after_refusal write refusal (state_of pass.old) }
    ensures still { KeepsInHand store.now pass.old pass.new taken.now.list.items }
{
    match refusal {
        Refusal::Conflict { cause } => note(store, pass, write, cause),
        Refusal::SelfLoop => {}
        Refusal::NoVertex { v: _ } => {}
        Refusal::VertexExists => {}
        Refusal::EdgeExists => {}
        Refusal::NoEdge => {}
        Refusal::HasEdges => {}
        Refusal::Full { leaves: _ } => {}
        Refusal::NoMemory => {}
    }
}

/// Notes who stands against a write.
fn note(store: &Store, pass: &mut Pass, write: Write, cause: Cause)
    requires pass { IsPassOf store.now pass.old }
    requires found { Finds store.now.accounts.config pass.old.account.me.0 pass.old.number (state_of pass.old) write
        (Err (refusals.Conflict cause)) }
    ensures { OnlyAccount pass.old pass.new (noted pass.old.number write cause pass.old.account.me.0) }
{
    match cause {
        Cause::Holder { by } => name_holder(store, pass, by, write),
        Cause::Later { stamp } => note_later(store, pass, write, stamp),
    }
}

/// Makes a write that may be made, unless its rows find no places. Where memory is refused it isn't made.
fn lay(
    store: &Store,
    pass: &mut Pass,
    cells: &mut PassCells,
    by: TxnName,
    write: Write,
    found: &FoundRows<usize>,
) -> Result<Written, NoMemory>
    requires hand { HasInHand store.now pass.old cells.old.taken.list.items }
    requires opened { IsOpenIn (record { by = by; start = (state_of pass.old).start }) pass.old }
    requires within { IsWithinLimits write }
    requires rows { HoldsRowsOf store.now.accounts.config.kind (rows_in cells.old.taken) write found.now.rows }
    requires can { CanLay store.now.accounts.config pass.old.account.me.0 pass.old.number (state_of pass.old)
        (rows_in cells.old.taken) write }
    ensures ok { IfOk result (λ written. Lays (state_of pass.old) write written (state_of pass.new)
        × IsShortOf (rows_in cells.old.taken) (written_keys found.now.rows) written × IsForInsert write written) }
    ensures err { OnErr result (state_of pass.new ≡ state_of pass.old) }
    ensures still { KeepsInHand store.now pass.old pass.new cells.new.taken.list.items }
{
    // Before a row changes: a write with places for some of its rows alone would have to be taken back.
    if let Some(short) = cells.taken.room_need(found) {
        return Ok(Written::NeedRoom(short));
    }
    cells.write(store, pass, by, write, found, Touched::Maybe)?;
    Ok(Written::Done)
}
