//! The cells of a leaf are pruned, each held by itself.
//!
//! 1. One cell is in hand at a time, so others wait for a sweep no longer than a prune of one cell takes.
//! 2. The count of cells can't be copied or made elsewhere: whoever has one of eight has pruned a leaf.

ghost use Rattle.std.specs.Prelude.{◌≡◌, ◌<◌, ◌&&◌, ◌||◌, Bool, false, true};
ghost use Rattle.epoch_reclaim.specs.Pinned.{horizon_of};
ghost use Rattle.pass_steps.specs.Passes.{HoldsNone, IsPassOf, state_of};
ghost use Rattle.pass_sweeps.specs.Pruning.{FindsWords, IsPrunedInHand, TakesAway, TakesAwayOf, stamps_seen};
ghost use Rattle.pass_sweeps.specs.Swept.{IsWhole, leaf_of, next_cell, settled_of, took_of, with_cell};
ghost use Rattle.pass_sweeps.specs.Sweeping.{HasSwept};

use crate::cells::{give_cell, take_cell};
use crate::prune::prune_cell;
use epoch_reclaim::Sweep;
use pass_steps::below::{Pass, Store};
use std::sync::Wait;

/// A leaf has so many cells.
const CELLS: u32 = 8;

/// Cells of a leaf that were pruned one after the other, whether a record went, and whether none is left. A cell is
/// counted with it in hand, here alone, and the count can't be copied: whoever has one of all cells has it of a leaf
/// that was pruned.
#[derive(Debug, Drop, PartialEq, Eq)]
pub struct LeafSwept {
    /// The number of the leaf.
    leaf: u32,
    /// How many of its cells were pruned, of eight.
    cells: u32,
    /// Whether a record went in one of them.
    took: bool,
    /// Whether none of them has a record left.
    settled: bool,
}

impl LeafSwept {
    /// No cell of the leaf.
    fn none_of(leaf: u32) -> LeafSwept
        ensures { result ≡ record { leaf = leaf; cells = 0; took = false; settled = true } }
    {
        LeafSwept {
            leaf,
            cells: 0,
            took: false,
            settled: true,
        }
    }

    /// Counts the next cell, which is in hand and has been pruned.
    fn count(
        &mut self,
        store: &Store,
        pass: &Pass,
        sweep: &Sweep,
        cell: u32,
        went: bool,
        settled: bool,
    )
        requires next { cell ≡ next_cell self.old }
        requires more { self.old.cells < 8 }
        requires pruned { IsPrunedInHand store.now pass.now sweep.now cell went settled }
        ensures { self.new ≡ with_cell self.old went settled }
    {
        self.cells += 1;
        self.took = either(went, self.took);
        self.settled = both(settled, self.settled);
    }

    /// The number of the leaf.
    pub fn leaf(&self) -> u32
        ensures { result ≡ leaf_of self.now }
    {
        self.leaf
    }

    /// Whether a record went.
    pub fn took(&self) -> bool
        ensures { result ≡ took_of self.now }
    {
        self.took
    }

    /// Whether all cells were without records when they were given back.
    pub fn settled(&self) -> bool
        ensures { result ≡ settled_of self.now }
    {
        self.settled
    }
}

/// Prunes the cells of a leaf at the horizon of the pass's sweep, one after the other. May wait for each of them, and
/// takes no memory.
pub fn sweep_leaf(
    rt: &impl Wait,
    store: &Store,
    pass: &mut Pass,
    sweep: &Sweep,
    leaf: u32,
) -> LeafSwept
    requires pass { IsPassOf store.now pass.old }
    requires none { HoldsNone pass.old }
    requires inside { leaf < store.now.accounts.config.leaves }
    requires swept { HasSwept store.now pass.old sweep.now }
    ensures pass { IsPassOf store.now pass.new }
    ensures none { HoldsNone pass.new }
    ensures same { FindsWords pass.old pass.new }
    ensures whole { IsWhole leaf result }
    ensures took { TakesAwayOf (stamps_seen (state_of pass.old)) (horizon_of sweep.now) 8 (took_of result) }
{
    let mut swept = LeafSwept::none_of(leaf);
    'cells: for _cell in 0..CELLS {
        sweep_cell(rt, store, pass, sweep, &mut swept);
    }
    swept
}

/// Whether one of two is true.
fn either(one: bool, other: bool) -> bool
    ensures { result ≡ (one || other) }
{
    one || other
}

/// Whether both are true.
fn both(one: bool, other: bool) -> bool
    ensures { result ≡ (one && other) }
{
    one && other
}

/// Prunes the next cell of a leaf. One without records is given back as it was found.
fn sweep_cell(rt: &impl Wait, store: &Store, pass: &mut Pass, sweep: &Sweep, swept: &mut LeafSwept)
    requires pass { IsPassOf store.now pass.old }
    requires none { HoldsNone pass.old }
    requires inside { swept.old.leaf < store.now.accounts.config.leaves }
    requires more { swept.old.cells < 8 }
    requires swept { HasSwept store.now pass.old sweep.now }
    ensures pass { IsPassOf store.now pass.new }
    ensures none { HoldsNone pass.new }
    ensures same { FindsWords pass.old pass.new }
    ensures took { (went settled : Bool) × TakesAway (stamps_seen (state_of pass.old)) (horizon_of sweep.now) went
        × (swept.new ≡ with_cell swept.old went settled) }
{
    let cell = CELLS * swept.leaf + swept.cells;
    let held = take_cell(rt, store, pass, cell);
    // What is kept of a packed cell tells that it has no record, so its words need not be loaded, and its version
    // stays.
    if held.value.is_settled() {
        swept.count(store, pass, sweep, cell, false, true);
        give_cell(store, pass, held);
        return;
    }
    let (held, went) = prune_cell(store, pass, sweep, held);
    let settled = held.value.is_settled();
    swept.count(store, pass, sweep, cell, went, settled);
    give_cell(store, pass, held);
}
