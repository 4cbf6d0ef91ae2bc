//! The rows of a transaction that ends: those of an abort are as they were, those of a commit get its stamp.
//!
//! 1. The cells of one write are back before those of the next are taken, so an end holds four at a time at most.
//! 2. A commit is published before its first row has its stamp. Whoever meets a row before asks its pass's word.

ghost use Rattle.std.specs.Prelude.{◌≡◌, ◌≤◌, [], ◌∷◌, ◌++◌, length, take};
ghost use Rattle.std.specs.List.{AllByRecursion};
ghost use Rattle.graph_model.specs.Refused.{IsWithinLimits};
ghost use Rattle.pass_prunes.specs.StoreRelation.Steps.{taken_back};
ghost use Rattle.pass_prunes.specs.PassCells.Changes.{but_newest, keys_beside};
ghost use Rattle.pass_prunes.specs.PassSteps.Passes.{state_of};
ghost use Rattle.pass_settles.specs.Settled.{IsSettling, StampsKeys};
ghost use Rattle.pass_writes.specs.Ending.{AreLeft, AreStampedTo, IsAborting, LeavesRows};
ghost use Rattle.pass_writes.specs.Hand.{HasAllBack, HasNothing};

use crate::hand::{put_cells_back, take_cells};
use crate::keys::FewKeys;
use epoch_reclaim::Sweep;
use graph_model::{Key, TxnName, Write};
use pass_prunes::below::{Pass, PassCells, Store, TakenCells, WrittenRows};
use pass_prunes::prune_taken;
use pass_settles::{Unsettled, UnsettledCells, settle_keys, settle_reached};
use std::sync::Wait;

/// A commit leaves the prune to the sweeps where its horizon is more commits behind. A transaction is open that long:
/// what it sees stays, and a row that was written often has a record for each commit since, through all of which a
/// prune would go.
const MOST_COMMITS_BEHIND: u64 = 64;

/// One commit of so many prunes the cells that it can't settle, where its horizon is near. The others stamp them in
/// their place, which is much cheaper. So a row that is written often has a few records more than a reader needs.
const COMMITS_A_PRUNE: u64 = 8;

/// Takes all writes of a transaction that is being aborted back, the newest first. Takes no memory.
pub fn undo_all(
    rt: &impl Wait,
    store: &Store,
    pass: &mut Pass,
    cells: &mut PassCells,
    by: TxnName,
    writes: &[Write],
)
    requires none { HasNothing store.now pass.old cells.old.taken.list.items }
    requires aborting { IsAborting pass.old by }
    requires writes { (state_of pass.old).laid ≡ writes.now }
    requires within { AllByRecursion IsWithinLimits writes.now }
    ensures undone { state_of pass.new ≡ taken_back (state_of pass.old) [] }
    ensures back { HasAllBack store.now pass.old pass.new cells.new.taken.list.items }
{
    // The newest first, as the records of a row stand: each undo finds its own record in front.
    let mut left = writes.len();
    'writes: while left > 0 {
        left -= 1;
        undo_one(rt, store, pass, cells, by, writes[left]);
    }
}

/// Takes the newest write that still stands back.
fn undo_one(
    rt: &impl Wait,
    store: &Store,
    pass: &mut Pass,
    cells: &mut PassCells,
    by: TxnName,
    write: Write,
)
    requires none { HasNothing store.now pass.old cells.old.taken.list.items }
    requires aborting { IsAborting pass.old by }
    requires newest { (state_of pass.old).laid ≡ but_newest (state_of pass.old).laid ++ write ∷ [] }
    requires within { IsWithinLimits write }
    ensures undone { state_of pass.new ≡ taken_back (state_of pass.old) (but_newest (state_of pass.old).laid) }
    ensures back { HasAllBack store.now pass.old pass.new cells.new.taken.list.items }
{
    let rows = WrittenRows::of(store.config().kind, write);
    let keys = FewKeys::of_write(&rows);
    take_cells(rt, store, pass, cells, keys.as_slice());
    cells.undo(store, pass, by, write);
    put_cells_back(store, pass, cells);
}

/// Gives the records in all rows of the last commit its stamp, given its writes, and settles or prunes the cells of
/// these rows at the horizon of the pass's sweep, where that is near. Then it settles cells that earlier commits of the
/// pass have left, and notes those that it leaves. Takes no memory. The journal is free meanwhile: whoever meets a
/// record without a stamp is told by the pass's word.
pub fn stamp_all(
    rt: &impl Wait,
    store: &Store,
    pass: &mut Pass,
    cells: &mut PassCells,
    unsettled: &mut UnsettledCells,
    sweep: &Sweep,
    by: TxnName,
    stamp: u64,
    writes: &[Write],
)
    requires none { HasNothing store.now pass.old cells.old.taken.list.items }
    requires settling { IsSettling store.now pass.old sweep.now by stamp }
    requires left { AreLeft store.now.accounts.config.kind writes.now (state_of pass.old).unstamped }
    requires within { AllByRecursion IsWithinLimits writes.now }
    ensures stamped { LeavesRows [] (state_of pass.old) (state_of pass.new) }
    ensures back { HasAllBack store.now pass.old pass.new cells.new.taken.list.items }
{
    'writes: for place in 0..writes.len() {
        stamp_one(
            rt,
            store,
            pass,
            cells,
            unsettled,
            sweep,
            by,
            stamp,
            writes[place],
        );
    }
    // Those of this commit are not among them: their stamp comes after the horizon.
    settle_reached(rt, store, pass, sweep, unsettled);
}

/// Stamps the rows of one write: in cells that settle, in packed ones as they lie, or in cells that are unpacked.
fn stamp_one(
    rt: &impl Wait,
    store: &Store,
    pass: &mut Pass,
    cells: &mut PassCells,
    unsettled: &mut UnsettledCells,
    sweep: &Sweep,
    by: TxnName,
    stamp: u64,
    write: Write,
)
    requires none { HasNothing store.now pass.old cells.old.taken.list.items }
    requires settling { IsSettling store.now pass.old sweep.now by stamp }
    requires within { IsWithinLimits write }
    ensures stamped { AreStampedTo store.now.accounts.config.kind write (state_of pass.old) (state_of pass.new) }
    ensures back { HasAllBack store.now pass.old pass.new cells.new.taken.list.items }
{
    let rows = WrittenRows::of(store.config().kind, write);
    let few = FewKeys::of_changes(&rows);
    let keys = few.as_slice();
    // Most cells need not be unpacked, which is the cheap way. From the first key on whose cell has to be, the rest is
    // stamped in hand.
    let settled = settle_cells(rt, store, pass, cells, unsettled, sweep, by, stamp, keys);
    if settled < keys.len() {
        stamp_in_hand(
            rt,
            store,
            pass,
            cells,
            unsettled,
            sweep,
            by,
            stamp,
            &keys[settled..],
        );
    }
}

/// Settles the cells of these keys, or stamps them in their place, until one is to be unpacked. Answers of how many
/// keys the rows are stamped then.
fn settle_cells(
    rt: &impl Wait,
    store: &Store,
    pass: &mut Pass,
    cells: &mut PassCells,
    unsettled: &mut UnsettledCells,
    sweep: &Sweep,
    by: TxnName,
    stamp: u64,
    keys: &[Key],
) -> usize
    requires none { HasNothing store.now pass.old cells.old.taken.list.items }
    requires settling { IsSettling store.now pass.old sweep.now by stamp }
    requires few { length keys.now ≤ 4 }
    ensures count { result ≤ length keys.now }
    ensures stamped { StampsKeys (take result keys.now) (state_of pass.old) (state_of pass.new) }
    ensures back { HasAllBack store.now pass.old pass.new cells.new.taken.list.items }
{
    // The cells of a write are asked for once more, so the hints still have most of them. A wrong guess ends the cheap
    // way at its key.
    let guesses = cells.hints.of_all(store, keys);
    let end = end_of_unsettled(store, sweep, stamp);
    let settled = settle_keys(rt, store, pass, sweep, by, stamp, end, keys, &guesses);
    if !is_reached(store, sweep, stamp) {
        note_cells(unsettled, &guesses[..settled], stamp);
    }
    settled
}

/// Stamps the rows of these keys in cells that are taken for it, and prunes the cells where the horizon is near.
fn stamp_in_hand(
    rt: &impl Wait,
    store: &Store,
    pass: &mut Pass,
    cells: &mut PassCells,
    unsettled: &mut UnsettledCells,
    sweep: &Sweep,
    by: TxnName,
    stamp: u64,
    keys: &[Key],
)
    requires none { HasNothing store.now pass.old cells.old.taken.list.items }
    requires settling { IsSettling store.now pass.old sweep.now by stamp }
    requires few { length keys.now ≤ 4 }
    ensures stamped { LeavesRows (keys_beside keys.now (state_of pass.old).unstamped) (state_of pass.old)
        (state_of pass.new) }
    ensures back { HasAllBack store.now pass.old pass.new cells.new.taken.list.items }
{
    take_cells(rt, store, pass, cells, keys);
    cells.stamp(store, pass, by, stamp, keys);
    // The cells are unpacked already, so a prune costs a look at their records alone.
    if is_worth_a_prune(store, sweep, stamp) {
        prune_taken(store, pass, cells, sweep);
    }
    if !is_reached(store, sweep, stamp) {
        note_taken(unsettled, &cells.taken, stamp);
    }
    put_cells_back(store, pass, cells);
}

/// What a commit does with cells that can't settle.
fn end_of_unsettled(store: &Store, sweep: &Sweep, stamp: u64) -> Unsettled
    requires whole { sweep.now.looked ≡ store.now.accounts.config.passes }
{
    // A cell that is left is taken in hand next, where it is stamped and pruned.
    if stamp % COMMITS_A_PRUNE == 0 && is_worth_a_prune(store, sweep, stamp) {
        Unsettled::Leave
    } else {
        Unsettled::Stamp
    }
}

/// Whether a commit prunes: the horizon lies so few commits back that it looks at few records for what can go.
fn is_worth_a_prune(store: &Store, sweep: &Sweep, stamp: u64) -> bool
    requires whole { sweep.now.looked ≡ store.now.accounts.config.passes }
{
    stamp.saturating_sub(store.pins().horizon(sweep)) <= MOST_COMMITS_BEHIND
}

/// Whether the horizon has reached the stamp of a commit. Then the commit notes none of its cells: one that can't settle
/// has a record of another writer, who settles it.
fn is_reached(store: &Store, sweep: &Sweep, stamp: u64) -> bool
    requires whole { sweep.now.looked ≡ store.now.accounts.config.passes }
{
    stamp <= store.pins().horizon(sweep)
}

/// Notes cells that a commit leaves with records.
fn note_cells(unsettled: &mut UnsettledCells, cells: &[u32], stamp: u64) {
    'cells: for cell in cells {
        unsettled.note(*cell, stamp);
    }
}

/// Notes those in hand.
fn note_taken(unsettled: &mut UnsettledCells, taken: &TakenCells, stamp: u64) {
    'cells: for taken in &taken.list {
        unsettled.note(taken.held.cell, stamp);
    }
}
