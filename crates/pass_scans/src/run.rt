//! Runs of rows: those of a key range, as far as a cell goes.
//!
//! 1. Words and records are of one moment: the cell stays in hand from the first load to the last row.
//! 2. The clock is loaded in that time too, so no record gets its stamp between the load and the look at it.

ghost use Rattle.std.specs.Prelude.{◌≡◌, true, IfSome};
ghost use Rattle.graph_model.specs.Rows.{is_below, is_between, rows};
ghost use Rattle.pass_cells.specs.Reading.{lesser};
ghost use Rattle.pass_sweeps.specs.CellsModel.Cells.{CellState};
ghost use Rattle.pass_sweeps.specs.StoreRelationDeclared.stage.Stage.TheVariants.{Open};
ghost use Rattle.pass_sweeps.specs.StoreRule.Slots.{RestsAs};
ghost use Rattle.pass_sweeps.specs.PassSteps.Asking.{IsSnapshotOf, KnowsLooks, asking_of};
ghost use Rattle.pass_sweeps.specs.PassSteps.Passes.{pin_of, state_of};
ghost use Rattle.pass_sweeps.specs.Pruning.{FindsWords};
ghost use Rattle.pass_settles.specs.Settled.{HasNoneInHand};
ghost use Rattle.pass_scans.specs.Packed.{HasPacked, IsRunTo, MayRead, ReadsAt, view_seen};

use crate::packed::load_packed;
use graph_model::{Begun, Key, Row};
use pass_cells::below::Rows32;
use pass_sweeps::below::{Asker, Pass, PassStates, Resting, Store, learn};
use pass_sweeps::{give_cell, take_cell};
use std::marker::Brand;
use std::sync::Wait;
use undo_chain::Snapshot;

/// What was read of a cell.
#[derive(Clone, Copy, Debug, PartialEq, Eq)]
pub struct PackedRun {
    /// Where the rows end that were read.
    pub end: Key,
    /// Whether no record in the cell is of a later commit than the transaction's start, or of an open transaction. Then
    /// a sweep may settle it, unless an older transaction needs its records.
    pub may_settle: bool,
}

/// Reads the rows that the open transaction sees from a key on and before another, as far as a cell goes, given what
/// its begin has answered. Answers where they end, or nothing where the cell isn't the first key's. The rows take the
/// place of those in the buffer. May wait for the cell, and takes no memory.
pub fn read_packed(
    rt: &impl Wait,
    store: &Store,
    pass: &mut Pass,
    begun: Begun,
    cell: u32,
    from: Key,
    until: Key,
    run: &mut Rows32,
) -> Option<PackedRun>
    requires idle { HasNoneInHand store.now pass.old }
    requires opened { (state_of pass.old).stage ≡ Open }
    requires begun { IsSnapshotOf pass.old (record { start = begun.start; own = begun.by }) }
    requires ahead { is_below from until ≡ true }
    ensures idle { HasNoneInHand store.now pass.new }
    ensures found { FindsWords pass.old pass.new }
    ensures run { IfSome result (λ read. IsRunTo read.end (view_seen store.now.accounts.config (state_of pass.old))
        from until run.new) }
{
    if cell >= store.index_place() {
        return None;
    }
    let snapshot = Snapshot {
        start: begun.start,
        own: begun.by,
    };
    // With nothing in hand, so it may be waited for as long as it takes.
    let held = take_cell(rt, store, pass, cell);
    let cell = held.cell;
    let resting = &held.value;
    let read = read_held(store, pass, cell, resting, &snapshot, from, until, run);
    give_cell(store, pass, held);
    read
}

/// The same where the cell is in hand.
fn read_held(
    store: &Store,
    pass: &mut Pass,
    cell: u32,
    resting: &Resting,
    snapshot: &Snapshot,
    from: Key,
    until: Key,
    run: &mut Rows32,
) -> Option<PackedRun>
    requires taken { (c : CellState) × HasPacked store.now pass.old (state_of pass.old) (pin_of pass.old) cell c
        × RestsAs c.segment resting.now }
    requires opened { (state_of pass.old).stage ≡ Open }
    requires snapshot { IsSnapshotOf pass.old snapshot.now }
    requires ahead { is_below from until ≡ true }
    ensures taken { (c : CellState) × HasPacked store.now pass.new (state_of pass.new) (pin_of pass.new) cell c
        × RestsAs c.segment resting.now }
    ensures found { FindsWords pass.old pass.new }
    ensures run { IfSome result (λ read. IsRunTo read.end (view_seen store.now.accounts.config (state_of pass.old))
        from until run.new) }
{
    let mut words = Rows32::new();
    let (low, high) = load_packed(store, pass, cell, &mut words);
    // The number was a guess, and rows have moved since.
    if !holds(low, high, from) {
        return None;
    }
    // Once for the whole cell: a commit is published by then or isn't, and that for all of its rows alike.
    let clock = learn(store, pass);
    let end = lesser(high, until);
    let words = words.as_slice();
    read_rows(
        store, pass, cell, resting, words, clock, snapshot, from, end, run,
    );
    // A guess at what a sweep would find: no clause speaks of it.
    let may_settle = resting.can_settle(snapshot.own, snapshot.start);
    Some(PackedRun { end, may_settle })
}

/// Whether a key stands between fence keys.
fn holds(low: Key, high: Key, key: Key) -> bool
    ensures { result ≡ is_between low high key }
{
    !key.is_below(low) && key.is_below(high)
}

/// Of two keys the one whose row stands first.
fn lesser(one: Key, other: Key) -> Key
    ensures { result ≡ lesser one other }
{
    if one.is_below(other) { one } else { other }
}

/// Reads the rows of a range in a cell in hand, given the words of all its rows, of which the pass has learnt.
fn read_rows(
    store: &Store,
    pass: &mut Pass,
    cell: u32,
    resting: &Resting,
    words: &[Row],
    clock: u64,
    snapshot: &Snapshot,
    from: Key,
    end: Key,
    run: &mut Rows32,
)
    requires reading { ReadsAt store.now pass.old clock snapshot.now }
    requires may { (c : CellState) × MayRead store.now.accounts.config pass.old.account.me.0 cell resting.now words.now
        from end c }
    ensures looked { KnowsLooks pass.old.account.me.0 pass.old pass.new }
    ensures run { run.new ≡ rows (view_seen store.now.accounts.config (state_of pass.old)) from end }
{
    read_as::<Brand>(
        store, pass, cell, resting, words, clock, snapshot, from, end, run,
    );
}

/// The same by whoever asks.
fn read_as<B: Asker>(
    store: &Store,
    pass: &mut Pass,
    _cell: u32,
    resting: &Resting,
    words: &[Row],
    clock: u64,
    snapshot: &Snapshot,
    from: Key,
    end: Key,
    run: &mut Rows32,
)
    requires asking { B.asking ≡ asking_of store.now pass.old clock }
    requires reading { ReadsAt store.now pass.old clock snapshot.now }
    requires may { (c : CellState) × MayRead store.now.accounts.config pass.old.account.me.0 _cell resting.now words.now
        from end c }
    ensures looked { KnowsLooks pass.old.account.me.0 pass.old pass.new }
    ensures run { run.new ≡ rows (view_seen store.now.accounts.config (state_of pass.old)) from end }
{
    let mut states = PassStates::<B>::lend(store, pass, clock);
    resting.run_at(words, from, end, snapshot, &mut states, run);
    states.give_back(pass);
}
