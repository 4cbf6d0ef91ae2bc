//! Cells whose records nobody needs any more are settled at the horizon of a sweep, one after the other.
//!
//! 1. Somebody has met records in them, or has left some there. Where the horizon has passed all of them nothing is
//!    left but newest values. A cell with other records is given back as it was found.
//! 2. No cell is unpacked, and no leaf is looked for.

ghost use Rattle.std.specs.Prelude.{◌≡◌, ◌≤◌, ◌==◌, ℕ, true, false, length};
ghost use Rattle.epoch_reclaim.specs.Pinned.{horizon_of};
ghost use Rattle.pass_sweeps.specs.CellsModel.Cells.{CellState};
ghost use Rattle.pass_sweeps.specs.PassSteps.Passes.{HoldsNone, IsPassOf, pin_of, state_of};
ghost use Rattle.pass_sweeps.specs.Pruning.{FindsWords};
ghost use Rattle.pass_sweeps.specs.SweepLaws.{TellsWriters};
ghost use Rattle.pass_sweeps.specs.Sweeping.{HasSwept};
ghost use Rattle.pass_sweeps.specs.VersionSegment.Resting.{CanSettle};
ghost use Rattle.pass_settles.specs.Settled.{IsPackedWith};
ghost use Rattle.pass_settles.specs.Swept.{nobody};

use crate::cell::{clear_cell, know_settled, lower_cell, raise_cell};
use crate::unsettled::UnsettledCells;
use epoch_reclaim::Sweep;
use graph_model::TxnName;
use latch_table::Held;
use pass_sweeps::below::{Pass, Resting, Store};
use pass_sweeps::{give_cell, learn_writers, take_cell};
use std::sync::Wait;

/// Settles cells that earlier commits have left with records, and whose stamp the horizon of a sweep has reached, a few
/// of them. They are forgotten, also those that can't settle: in such a cell stands a newer record, whose writer settles
/// it. May wait for each, and takes no memory.
pub fn settle_reached(
    rt: &impl Wait,
    store: &Store,
    pass: &mut Pass,
    sweep: &Sweep,
    unsettled: &mut UnsettledCells,
)
    requires pass { IsPassOf store.now pass.old }
    requires none { HoldsNone pass.old }
    requires swept { HasSwept store.now pass.old sweep.now }
    ensures pass { IsPassOf store.now pass.new }
    ensures none { HoldsNone pass.new }
    ensures found { FindsWords pass.old pass.new }
{
    let horizon = store.pins().horizon(sweep);
    let reached = unsettled.take_reached(horizon);
    settle_at_horizon(rt, store, pass, sweep, reached.as_slice());
}

/// Settles those of these cells of which nothing would be left at the horizon of a sweep but newest values, and answers
/// whether there was one. May wait for each, and takes no memory.
pub fn settle_at_horizon(
    rt: &impl Wait,
    store: &Store,
    pass: &mut Pass,
    sweep: &Sweep,
    cells: &[u32],
) -> bool
    requires pass { IsPassOf store.now pass.old }
    requires none { HoldsNone pass.old }
    requires swept { HasSwept store.now pass.old sweep.now }
    ensures pass { IsPassOf store.now pass.new }
    ensures none { HoldsNone pass.new }
    ensures found { FindsWords pass.old pass.new }
{
    let mut took = false;
    'cells: for place in 0..cells.len() {
        if settle_one(rt, store, pass, sweep, cells[place]) {
            took = true;
        }
    }
    took
}

/// Settles one of them, if nothing would be left of it.
fn settle_one(rt: &impl Wait, store: &Store, pass: &mut Pass, sweep: &Sweep, cell: u32) -> bool
    requires pass { IsPassOf store.now pass.old }
    requires none { HoldsNone pass.old }
    requires swept { HasSwept store.now pass.old sweep.now }
    ensures pass { IsPassOf store.now pass.new }
    ensures none { HoldsNone pass.new }
    ensures found { FindsWords pass.old pass.new }
{
    if cell >= store.index_place() {
        return false;
    }
    let held = take_cell(rt, store, pass, cell);
    let (held, took) = end_swept(store, pass, sweep, held);
    give_cell(store, pass, held);
    took
}

/// The same of a cell in hand.
fn end_swept(
    store: &Store,
    pass: &mut Pass,
    sweep: &Sweep,
    held: Held<Resting>,
) -> (Held<Resting>, bool)
    requires taken { (c : CellState) × IsPackedWith store.now pass.old (state_of pass.old) (pin_of pass.old) held.cell
        held.value c }
    requires swept { HasSwept store.now pass.old sweep.now }
    ensures held { result.0.cell ≡ held.cell }
    ensures taken { (c : CellState) × IsPackedWith store.now pass.new (state_of pass.new) (pin_of pass.new) held.cell
        result.0.value c }
    ensures found { FindsWords pass.old pass.new }
{
    if !may_have_records(&held.value) {
        return (held, false);
    }
    if !can_settle(store, sweep, &held.value) {
        return (held, false);
    }
    // The pass has to know that whoever wrote a record without a stamp is a pass.
    let clock = learn_writers(store, pass);
    (settle_known(store, pass, sweep, clock, held), true)
}

/// Whether a cell has rows, and may have records.
fn may_have_records(resting: &Resting) -> bool
    ensures { result ≡ true → (length resting.now.rows == 0) ≡ false }
{
    !resting.is_empty() && !resting.is_settled()
}

/// Whether nothing would be left of a cell at the horizon of a sweep but newest values.
fn can_settle(store: &Store, sweep: &Sweep, resting: &Resting) -> bool
    requires whole { sweep.now.looked ≡ store.now.accounts.config.passes }
    ensures { result ≡ true → CanSettle (nobody store.now.accounts.config) (horizon_of sweep.now) resting.now.rows }
{
    let horizon = store.pins().horizon(sweep);
    // No pass has this number, so no record without a stamp is left out of account.
    let nobody = TxnName {
        job: store.config().passes,
        number: 0,
    };
    resting.can_settle(nobody, horizon)
}

/// Settles a cell in hand, of which nothing would be left.
fn settle_known(
    store: &Store,
    pass: &mut Pass,
    sweep: &Sweep,
    _clock: u64,
    held: Held<Resting>,
) -> Held<Resting>
    requires taken { (c : CellState) × IsPackedWith store.now pass.old (state_of pass.old) (pin_of pass.old) held.cell
        held.value c }
    requires some { (length held.value.rows == 0) ≡ false }
    requires swept { HasSwept store.now pass.old sweep.now }
    requires told { TellsWriters store.now.accounts.config pass.old.account.me.0 (state_of pass.old) _clock }
    requires settles { CanSettle (nobody store.now.accounts.config) (horizon_of sweep.now) held.value.rows }
    ensures held { result.cell ≡ held.cell }
    ensures taken { (c : CellState) × IsPackedWith store.now pass.new (state_of pass.old) (pin_of pass.old) held.cell
        result.value c }
    ensures found { FindsWords pass.old pass.new }
{
    let Held {
        cell,
        found,
        changed: _,
        value,
    } = held;
    raise_cell(store, pass, cell);
    know_settled(store, pass, cell);
    clear_cell(store, pass, cell, &value);
    lower_cell(store, pass, cell, true);
    Held {
        cell,
        found,
        changed: true,
        value: value.settle(),
    }
}
