//! Whether a write may be made, as its pass finds in the cells in hand.
//!
//! 1. The cells stay in hand from the check to the change, so what was found still holds when rows change.

ghost use Rattle.std.specs.Prelude.{◌≡◌, Bool};
ghost use Rattle.pass_prunes.specs.RowWrites.Checks.{looked_keys};
ghost use Rattle.pass_prunes.specs.RowWrites.Held.{AreHeld};
ghost use Rattle.pass_prunes.specs.PassCells.Taken.{rows_in};
ghost use Rattle.pass_prunes.specs.PassSteps.Asking.{KnowsLooks, asking_of};
ghost use Rattle.pass_prunes.specs.PassSteps.Passes.{state_of};
ghost use Rattle.pass_writes.specs.Found.{Finds, view_of};
ghost use Rattle.pass_writes.specs.Hand.{ReadsInHand};
ghost use Rattle.pass_writes.specs.Making.{KnowsEdges};

use graph_model::{Begun, Refusal, Write};
use pass_prunes::below::{
    Asker, Fingers, Pass, PassStates, Store, TakenCells, rows_in_hand_are_known,
};
use std::marker::Brand;
use undo_chain::Snapshot;

/// Whether a write of the open transaction, given what its begin has answered, may be made. The pass has learnt of its
/// rows at this clock. Whether the vertex that it removes has edges was looked for before.
pub fn check(
    store: &Store,
    pass: &mut Pass,
    taken: &TakenCells,
    clock: u64,
    begun: Begun,
    write: Write,
    near: &Fingers<usize>,
    has_edges: bool,
) -> Result<(), Refusal>
    requires reading { ReadsInHand store.now pass.old taken.now.list.items clock
        (record { start = begun.start; own = begun.by }) }
    requires held { AreHeld (rows_in taken.now) (looked_keys write) }
    requires known { KnowsEdges (view_of store.now.accounts.config.kind (state_of pass.old)) write has_edges }
    ensures looked { KnowsLooks pass.old.account.me.0 pass.old pass.new }
    ensures found { Finds store.now.accounts.config pass.new.account.me.0 pass.old.number (state_of pass.new)
        write result }
{
    let snapshot = Snapshot {
        start: begun.start,
        own: begun.by,
    };
    check_as::<Brand>(store, pass, taken, clock, &snapshot, write, near, has_edges)
}

/// The same by whoever asks.
fn check_as<B: Asker>(
    store: &Store,
    pass: &mut Pass,
    taken: &TakenCells,
    clock: u64,
    snapshot: &Snapshot,
    write: Write,
    near: &Fingers<usize>,
    has_edges: bool,
) -> Result<(), Refusal>
    requires asking { B.asking ≡ asking_of store.now pass.old clock }
    requires reading { ReadsInHand store.now pass.old taken.now.list.items clock snapshot.now }
    requires held { AreHeld (rows_in taken.now) (looked_keys write) }
    requires known { KnowsEdges (view_of store.now.accounts.config.kind (state_of pass.old)) write has_edges }
    ensures looked { KnowsLooks pass.old.account.me.0 pass.old pass.new }
    ensures found { Finds store.now.accounts.config pass.new.account.me.0 pass.old.number (state_of pass.new)
        write result }
{
    rows_in_hand_are_known();
    // Where a writer stands is asked by loads that the pass's own seat makes, so the seat is lent meanwhile.
    let mut states = PassStates::<B>::lend(store, pass, clock);
    // Looked for before a cell was taken: a scan takes cells, and none is taken while others are in hand.
    let seen_before = |_v: u64| -> bool
        ensures { result ≡ has_edges }
    { has_edges };
    let checked = pass_prunes::below::check(taken, snapshot, &mut states, write, near, seen_before);
    states.give_back(pass);
    checked
}
