//! Turns of the service: a sweep, then a turn of merging, and so on in turn.
//!
//! 1. No turn changes a view. One that is refused memory has changed nothing, and the other kind comes next.

ghost use Rattle.std.specs.Prelude.{◌≡◌};
ghost use Rattle.graph_model.specs.AccountSteps.{ReadsBy};
ghost use Rattle.worker_calls.specs.SharedStore.Passes.{account_of};
ghost use Rattle.worker_calls.specs.Ready.{HasSeenLegal, IsReady};
ghost use Rattle.rebalance_service.specs.Turns.{next_turn};

use crate::idle::NextLeaf;
use crate::leaf_notes::LeafNotes;
use graph_model::NoMemory;
use pass_merges::{MergeKey, MergeTurn, merge_step};
use std::alloc::Global;
use std::sync::Wait;
use worker_calls::below::{LeafSwept, Pass, PassRoom, Store, SweepKey, SweepTurn, sweep_step};
use worker_calls::has_room;

/// What a turn of the service does.
#[derive(Clone, Copy, Debug, PartialEq, Eq)]
pub enum WorkerTurn {
    /// Rows of a leaf are pruned.
    Sweep,
    /// A window is spread, or two leaves become one.
    Merge,
}

/// Where a worker's service goes on.
#[derive(Clone, Copy, Debug, PartialEq, Eq)]
pub struct ServiceKeys {
    /// Which comes next.
    pub turn: WorkerTurn,
    /// Where sweeps go on.
    pub sweep: SweepKey,
    /// Where merging goes on.
    pub merge: MergeKey,
    /// The leaf that is likely to be swept next.
    pub sweep_leaf: NextLeaf,
    /// The same of merging.
    pub merge_leaf: NextLeaf,
}

impl ServiceKeys {
    /// The first leaf is swept first.
    pub(crate) fn first() -> ServiceKeys {
        ServiceKeys {
            turn: WorkerTurn::Sweep,
            sweep: SweepKey::first(),
            merge: MergeKey::first(),
            sweep_leaf: NextLeaf::first(),
            merge_leaf: NextLeaf::first(),
        }
    }
}

/// Takes a turn, and answers whether a cell has changed. May wait. Only a turn of merging takes memory.
pub(crate) fn serve(
    rt: &impl Wait,
    store: &Store,
    pass: &mut Pass,
    room: &mut Option<PassRoom>,
    notes: &mut LeafNotes,
    keys: &mut ServiceKeys,
) -> Result<bool, NoMemory>
    requires ready { ∥ IsReady store.now pass.old ∥₁ }
    ensures ready { ∥ IsReady store.now pass.new ∥₁ }
    ensures legal { HasSeenLegal (account_of store.now pass.new) }
    ensures reads { ReadsBy (account_of store.now pass.old) (account_of store.now pass.new) }
    ensures turn { keys.new.turn ≡ next_turn keys.old.turn }
{
    match keys.turn {
        WorkerTurn::Sweep => {
            // The turn is passed on first, so that neither step can hold up the other.
            keys.turn = WorkerTurn::Merge;
            Ok(sweep(
                rt,
                store,
                pass,
                notes,
                &mut keys.sweep,
                &mut keys.sweep_leaf,
            ))
        }
        WorkerTurn::Merge => {
            keys.turn = WorkerTurn::Sweep;
            merge(
                rt,
                store,
                pass,
                room,
                notes,
                &mut keys.merge,
                &mut keys.merge_leaf,
            )
        }
    }
}

/// Prunes the next leaf, and answers whether a record went. A leaf that is likely to have none, or is being changed, is
/// passed over without a latch.
fn sweep(
    rt: &impl Wait,
    store: &Store,
    pass: &mut Pass,
    notes: &mut LeafNotes,
    key: &mut SweepKey,
    next: &mut NextLeaf,
) -> bool
    requires ready { ∥ IsReady store.now pass.old ∥₁ }
    ensures ready { ∥ IsReady store.now pass.new ∥₁ }
    ensures legal { HasSeenLegal (account_of store.now pass.new) }
    ensures reads { ReadsBy (account_of store.now pass.old) (account_of store.now pass.new) }
{
    // Before the sweep: a cell that changes while it goes on has another sum afterwards, and then the leaf isn't noted
    // as settled.
    let looked = notes.look(store, &mut pass.cells.hints, next, key.next);
    if let Some(high) = notes.beyond_settled(looked) {
        key.next = high;
        return false;
    }
    let swept = sweep_here(rt, store, pass, key);
    notes.note(store, looked, &swept);
    swept.took()
}

/// Prunes the next leaf, and answers what was swept.
fn sweep_here(rt: &impl Wait, store: &Store, pass: &mut Pass, key: &mut SweepKey) -> LeafSwept
    requires ready { ∥ IsReady store.now pass.old ∥₁ }
    ensures ready { ∥ IsReady store.now pass.new ∥₁ }
    ensures legal { HasSeenLegal (account_of store.now pass.new) }
    ensures reads { ReadsBy (account_of store.now pass.old) (account_of store.now pass.new) }
{
    let turn = sweep_step(rt, store, &mut pass.seats, key);
    let SweepTurn { swept, freed: _ } = turn;
    swept
}

/// Spreads a window of the next leaf, or makes one leaf of it and the one after it, if there is anything to do with
/// it. Answers whether a cell has changed. A leaf that is likely to be full is passed over without a latch.
fn merge(
    rt: &impl Wait,
    store: &Store,
    pass: &mut Pass,
    room: &mut Option<PassRoom>,
    notes: &mut LeafNotes,
    key: &mut MergeKey,
    next: &mut NextLeaf,
) -> Result<bool, NoMemory>
    requires ready { ∥ IsReady store.now pass.old ∥₁ }
    ensures ready { ∥ IsReady store.now pass.new ∥₁ }
    ensures legal { HasSeenLegal (account_of store.now pass.new) }
    ensures reads { ReadsBy (account_of store.now pass.old) (account_of store.now pass.new) }
{
    let alloc = pass.alloc;
    // Before a leaf is passed over: else a store of full leaves would have no notes in its first round. Where memory is
    // refused there are none, and each leaf is swept.
    let _ = notes.make_room(alloc, store.accounts.config.leaves);
    // A look at words with no latch. If it is wrong the leaf is looked at when the turn comes round again.
    if let Some(high) = notes.beyond_full(store, &mut pass.cells.hints, next, key.next) {
        key.next = high;
        return Ok(false);
    }
    match has_room(room, alloc) {
        Ok(()) => {}
        Err(refused) => return Err(refused),
    }
    let Some(room) = room else { unreachable!() };
    merge_here(rt, store, pass, room, key, alloc)
}

/// The same with what is kept for rows that move.
fn merge_here(
    rt: &impl Wait,
    store: &Store,
    pass: &mut Pass,
    room: &mut PassRoom,
    key: &mut MergeKey,
    alloc: Global,
) -> Result<bool, NoMemory>
    requires ready { ∥ IsReady store.now pass.old ∥₁ }
    ensures ready { ∥ IsReady store.now pass.new ∥₁ }
    ensures legal { HasSeenLegal (account_of store.now pass.new) }
    ensures reads { ReadsBy (account_of store.now pass.old) (account_of store.now pass.new) }
{
    let turn = merge_step(
        rt,
        store,
        &mut pass.seats,
        &mut room.leaves,
        &mut room.space,
        &mut pass.cells.hints,
        key,
        alloc,
    );
    has_changed(turn)
}

/// Whether a turn of merging has changed a cell.
fn has_changed(turn: Result<MergeTurn, NoMemory>) -> Result<bool, NoMemory> {
    match turn {
        Ok(turn) => Ok(turn.has_changed()),
        Err(refused) => Err(refused),
    }
}
