//! The cells of a commit's keys are settled or stamped, each held by itself.
//!
//! 1. A cell is taken by its number, which may lag behind: its fence keys tell whether it is the key's.
//! 2. Keys that stand between the fence keys of the cell that was stamped last need no other one.

ghost use Rattle.std.specs.Prelude.{◌≡◌, ◌≤◌, true, false, None, length, take, IfSome};
ghost use Rattle.epoch_reclaim.specs.Pinned.{horizon_of};
ghost use Rattle.graph_model.specs.Rows.{is_between};
ghost use Rattle.pass_sweeps.specs.PassSteps.Passes.{IsSamePass, pin_of, state_of};
ghost use Rattle.pass_sweeps.specs.CellsModel.Cells.{CellState};
ghost use Rattle.pass_sweeps.specs.CellsModel.Indexed.{covers};
ghost use Rattle.pass_sweeps.specs.CellsModel.Words.{Spells};
ghost use Rattle.pass_sweeps.specs.RuleModel.Sight.{HasCell};
ghost use Rattle.pass_sweeps.specs.VersionSegment.Resting.{CanSettle};
ghost use Rattle.pass_settles.specs.declared.keys.CellEnd.TheVariants.{Settle};
ghost use Rattle.pass_settles.specs.Settled.{GivesBack, HasNoneInHand, IsPackedWith, IsSettling, StampsKeys, stamped_between};

use crate::cell::{settle_cell, stamp_cell};
use crate::fences::{Fences, load_fences};
use epoch_reclaim::Sweep;
use graph_model::{Key, TxnName};
use latch_table::Held;
use pass_sweeps::below::{Pass, Resting, Store};
use pass_sweeps::{give_cell, take_cell};
use std::sync::Wait;

/// What is done with a cell of which records would be left.
#[derive(Clone, Copy, Debug, PartialEq, Eq)]
pub enum Unsettled {
    /// Its rows are stamped, and keep their records.
    Stamp,
    /// It is given back as it was found.
    Leave,
}

/// How a cell is given back.
enum CellEnd {
    /// Its rows are stamped, and their records go.
    Settle,
    /// Its rows are stamped, and their records stay.
    Stamp,
    /// As it was found.
    Leave,
}

/// Settles the cells of these keys, one after the other, or does with a cell that can't settle as it is told, until one
/// is left as it was. Answers of how many keys the rows are stamped then. `cells` names the one in which each key may
/// stand. Takes no memory.
pub fn settle_keys(
    rt: &impl Wait,
    store: &Store,
    pass: &mut Pass,
    sweep: &Sweep,
    by: TxnName,
    stamp: u64,
    unsettled: Unsettled,
    keys: &[Key],
    cells: &[u32],
) -> usize
    requires idle { HasNoneInHand store.now pass.old }
    requires settling { IsSettling store.now pass.old sweep.now by stamp }
    requires named { length keys.now ≤ length cells.now }
    ensures count { result ≤ length keys.now }
    ensures stamped { StampsKeys (take result keys.now) (state_of pass.old) (state_of pass.new) }
    ensures back { GivesBack store.now pass.old pass.new }
{
    let mut fences = Fences::empty();
    'keys: for place in 0..keys.len() {
        let key = keys[place];
        let cell = cells[place];
        if fences.holds(key) {
            continue;
        }
        match settle_key(rt, store, pass, sweep, by, stamp, unsettled, key, cell) {
            Some(found) => fences = found,
            None => return place,
        }
    }
    keys.len()
}

/// Settles or stamps a cell, and answers its fence keys, if it is the key's and isn't left as it was.
fn settle_key(
    rt: &impl Wait,
    store: &Store,
    pass: &mut Pass,
    sweep: &Sweep,
    by: TxnName,
    stamp: u64,
    unsettled: Unsettled,
    key: Key,
    cell: u32,
) -> Option<Fences>
    requires idle { HasNoneInHand store.now pass.old }
    requires settling { IsSettling store.now pass.old sweep.now by stamp }
    ensures settled { IfSome result (λ f. (state_of pass.new ≡ stamped_between f.low f.high (state_of pass.old))
        × (is_between f.low f.high key ≡ true)) }
    ensures left { result ≡ None → state_of pass.new ≡ state_of pass.old }
    ensures back { GivesBack store.now pass.old pass.new }
{
    if cell >= store.index_place() {
        return None;
    }
    // With nothing in hand, so it may be waited for as long as it takes.
    let held = take_cell(rt, store, pass, cell);
    let fences = load_fences(store, pass, cell);
    if !fences.holds(key) {
        give_cell(store, pass, held);
        return None;
    }
    let (held, is_stamped) = end_cell(store, pass, sweep, by, stamp, unsettled, held);
    give_cell(store, pass, held);
    if is_stamped { Some(fences) } else { None }
}

/// Settles or stamps a cell in hand, which has the key, or leaves it. Answers whether its rows are stamped.
fn end_cell(
    store: &Store,
    pass: &mut Pass,
    sweep: &Sweep,
    by: TxnName,
    stamp: u64,
    unsettled: Unsettled,
    held: Held<Resting>,
) -> (Held<Resting>, bool)
    requires taken { (c : CellState) × IsPackedWith store.now pass.old (state_of pass.old) (pin_of pass.old) held.cell
        held.value c × (Spells c.block c.segment → (q : Key) × (covers c.segment q ≡ true)) }
    requires settling { IsSettling store.now pass.old sweep.now by stamp }
    ensures held { result.0.cell ≡ held.cell }
    ensures packed { (d : CellState) × IsPackedWith store.now pass.new (state_of pass.new) (pin_of pass.old)
        held.cell result.0.value d }
    ensures stamped { result.1 ≡ true → (c : CellState) → HasCell pass.old.account.me.0 held.cell c
        → Spells c.block c.segment
        × (state_of pass.new ≡ stamped_between c.segment.low c.segment.high (state_of pass.old)) }
    ensures left { result.1 ≡ false → state_of pass.new ≡ state_of pass.old }
    ensures same { IsSamePass pass.old pass.new }
{
    match end_of(store, sweep, by, stamp, unsettled, &held.value) {
        CellEnd::Settle => (settle_cell(store, pass, sweep, by, stamp, held), true),
        CellEnd::Stamp => (stamp_cell(store, pass, by, stamp, held), true),
        CellEnd::Leave => (held, false),
    }
}

/// How a cell is to be given back. One without a value in some row, which a prune would take away, is left where the
/// horizon has reached the stamp.
fn end_of(
    store: &Store,
    sweep: &Sweep,
    by: TxnName,
    stamp: u64,
    unsettled: Unsettled,
    resting: &Resting,
) -> CellEnd
    requires whole { sweep.now.looked ≡ store.now.accounts.config.passes }
    ensures { result ≡ Settle → (stamp ≤ horizon_of sweep.now) × CanSettle by (horizon_of sweep.now) resting.now.rows }
{
    // Of a sweep that was made after the pass had unpinned itself, so its own start is not among the pins.
    let horizon = store.pins().horizon(sweep);
    if stamp <= horizon {
        // All who are open began with the commit or after it, so nobody needs an older value of these rows.
        if resting.can_settle(by, horizon) {
            return CellEnd::Settle;
        }
        // A row without a value goes with a prune, which shifts other rows, so the cell has to be unpacked.
        if !resting.has_values() {
            return CellEnd::Leave;
        }
    }
    match unsettled {
        Unsettled::Stamp => CellEnd::Stamp,
        Unsettled::Leave => CellEnd::Leave,
    }
}
