//! What an open transaction reads in a cell that its pass takes for it.
//!
//! 1. The clock is loaded with the cell in hand, so no record in it gets its stamp between the load and the read.

ghost use Rattle.std.specs.Prelude.{◌≡◌, true};
ghost use Rattle.graph_model.specs.Rows.{value_at};
ghost use Rattle.pass_prunes.specs.PassCells.Taken.{rows_in};
ghost use Rattle.pass_prunes.specs.PassSteps.Asking.{KnowsLooks, asking_of};
ghost use Rattle.pass_prunes.specs.PassSteps.Passes.{state_of};
ghost use Rattle.pass_writes.specs.Found.{view_of};
ghost use Rattle.pass_writes.specs.Hand.{HasAllBack, HasNothing, ReadsInHand};
ghost use Rattle.pass_writes.specs.Making.{IsOpenIn, NotesOnly};

use crate::hand::{put_cells_back, take_cells};
use graph_model::{Begun, Key};
use pass_prunes::below::{
    Asker, Pass, PassCells, PassStates, Store, TakenCells, learn, rows_in_hand_are_known,
};
use std::marker::Brand;
use std::sync::Wait;
use undo_chain::Snapshot;

/// The value of a key in the view of the open transaction, given what its begin answered. Takes no memory.
pub fn value(
    rt: &impl Wait,
    store: &Store,
    pass: &mut Pass,
    cells: &mut PassCells,
    begun: Begun,
    key: Key,
) -> Option<u64>
    requires none { HasNothing store.now pass.old cells.old.taken.list.items }
    requires opened { IsOpenIn begun pass.old }
    ensures value { result ≡ value_at (view_of store.now.accounts.config.kind (state_of pass.old)) key }
    ensures state { NotesOnly (state_of pass.old) (state_of pass.new) }
    ensures back { HasAllBack store.now pass.old pass.new cells.new.taken.list.items }
{
    take_cells(rt, store, pass, cells, &[key]);
    let clock = learn(store, pass);
    let snapshot = Snapshot {
        start: begun.start,
        own: begun.by,
    };
    let value = value_in_hand(store, pass, &cells.taken, clock, &snapshot, key);
    put_cells_back(store, pass, cells);
    value
}

/// The same where the cell is in hand, and the pass has learnt of its rows.
fn value_in_hand(
    store: &Store,
    pass: &mut Pass,
    taken: &TakenCells,
    clock: u64,
    snapshot: &Snapshot,
    key: Key,
) -> Option<u64>
    requires reading { ReadsInHand store.now pass.old taken.now.list.items clock snapshot.now }
    requires held { (rows_in taken.now).holds key ≡ true }
    ensures looked { KnowsLooks pass.old.account.me.0 pass.old pass.new }
    ensures value { result ≡ value_at (view_of store.now.accounts.config.kind (state_of pass.old)) key }
{
    value_as::<Brand>(store, pass, taken, clock, snapshot, key)
}

/// The same by whoever asks.
fn value_as<B: Asker>(
    store: &Store,
    pass: &mut Pass,
    taken: &TakenCells,
    clock: u64,
    snapshot: &Snapshot,
    key: Key,
) -> Option<u64>
    requires asking { B.asking ≡ asking_of store.now pass.old clock }
    requires reading { ReadsInHand store.now pass.old taken.now.list.items clock snapshot.now }
    requires held { (rows_in taken.now).holds key ≡ true }
    ensures looked { KnowsLooks pass.old.account.me.0 pass.old pass.new }
    ensures value { result ≡ value_at (view_of store.now.accounts.config.kind (state_of pass.old)) key }
{
    rows_in_hand_are_known();
    let mut states = PassStates::<B>::lend(store, pass, clock);
    let value = taken.value(key, snapshot, &mut states);
    states.give_back(pass);
    value
}
