//! A cell in hand is pruned at the horizon of its pass's sweep.
//!
//! 1. Its rows change first. Then one load of the clock makes the pass's view know them, and only then is it packed.
//! 2. Where a writer of a record without a stamp stands is asked by its pass's word. A stamp that is not published up
//!    to the horizon lets nothing go.
//! 3. Where no record goes the cell is packed as it was found, and keeps its version.

ghost use Rattle.std.specs.Prelude.{◌≡◌, ℕ, ◌+◌, ◌<◌, ◌≤◌, false, length};
ghost use Rattle.epoch_reclaim.specs.declared.sweep.Sweep.{Sweep};
ghost use Rattle.pass_steps.specs.CellsModel.Cells.{CellState};
ghost use Rattle.epoch_reclaim.specs.Pinned.{horizon_of};
ghost use Rattle.pass_steps.specs.RuleModel.Sight.{HasCell, cells_of, with_cells};
ghost use Rattle.pass_steps.specs.StoreRule.Passes.{OnlyAccount};
ghost use Rattle.pass_steps.specs.StoreRule.Slots.{RestsAs};
ghost use Rattle.pass_steps.specs.VersionSegment.Rows.{IsSameSegment, IsSegment, PrunesRows, all_records};
ghost use Rattle.pass_steps.specs.Asking.{KnowsLooks, asking_of};
ghost use Rattle.pass_steps.specs.Passes.{IsPassOf, pin_of, state_of};
ghost use Rattle.pass_sweeps.specs.Pruning.{FindsWords, HasCellOnly, IsPruned, IsUnpackedAs, news_of, stamps_seen};
ghost use Rattle.pass_sweeps.specs.SweepLaws.{CanPruneSeen, TellsWriters};
ghost use Rattle.pass_sweeps.specs.Sweeping.{HasSwept};

use crate::seen::learn_writers;
use epoch_reclaim::Sweep;
use latch_table::Held;
use pass_steps::below::{Change, Pass, Resting, Store, VersionSegment};
use pass_steps::{Asker, PassStates};
use std::marker::Brand;

/// Prunes a packed cell in hand, and answers whether a record went. Takes no memory.
pub(crate) fn prune_cell(
    store: &Store,
    pass: &mut Pass,
    sweep: &Sweep,
    held: Held<Resting>,
) -> (Held<Resting>, bool)
    requires taken { (c : CellState)
        × HasCellOnly store.now pass.old (state_of pass.old) (pin_of pass.old) held.cell c 0
        × (c.unpacked ≡ false) × RestsAs c.segment held.value }
    requires unchanged { held.changed ≡ false }
    requires swept { HasSwept store.now pass.old sweep.now }
    ensures held { result.0.cell ≡ held.cell }
    ensures pruned { (c : CellState) → HasCell pass.old.account.me.0 held.cell c
        → (d : CellState) × HasCellOnly store.now pass.new (state_of pass.new) (pin_of pass.old) held.cell d 0
        × (d.unpacked ≡ false) × RestsAs d.segment result.0.value
        × IsPruned (stamps_seen (state_of pass.old)) (horizon_of sweep.now) c.segment d.segment result.1 }
    ensures same { FindsWords pass.old pass.new }
{
    let mut held = store.unpack(pass, held);
    let went = prune_unpacked(store, pass, sweep, &mut held);
    let words_changed = held.changed;
    (store.pack(pass, held, words_changed), went)
}

/// The same of a cell that is unpacked.
fn prune_unpacked(
    store: &Store,
    pass: &mut Pass,
    sweep: &Sweep,
    held: &mut Held<VersionSegment>,
) -> bool
    requires taken { (c : CellState)
        × HasCellOnly store.now pass.old (state_of pass.old) (pin_of pass.old) held.old.cell c 1
        × IsUnpackedAs c held.old.value held.old.changed }
    requires unchanged { held.old.changed ≡ false }
    requires swept { HasSwept store.now pass.old sweep.now }
    ensures held { held.new.cell ≡ held.old.cell }
    ensures taken { (d : CellState)
        × HasCellOnly store.now pass.new (state_of pass.new) (pin_of pass.old) held.old.cell d 1
        × IsUnpackedAs d held.new.value held.new.changed }
    ensures pruned { IsPruned (stamps_seen (state_of pass.old)) (horizon_of sweep.now) held.old.value
        held.new.value result }
    ensures same { FindsWords pass.old pass.new }
{
    // The pass has to know whose records these are before it may say which of them go.
    let clock = learn_writers(store, pass);
    let horizon = store.pins().horizon(sweep);
    if prune_rows(store, pass, clock, horizon, &mut held.value) == 0 {
        return false;
    }
    // Only where a record went: else readers of the cell would be disturbed for nothing.
    held.changed = true;
    know_pruned(store, pass, held.cell, &held.value);
    true
}

/// Makes the pass's view know the pruned rows of a cell in hand.
fn know_pruned(store: &Store, pass: &mut Pass, cell: u32, segment: &VersionSegment)
    requires table { pass.old.account.table_id ≡ store.now.accounts.table.shared.table_id }
    requires may { (sweep : Sweep) × CanPruneSeen store.now.accounts.config pass.old.account.me.0 pass.old.number
        (state_of pass.old) (pin_of pass.old) sweep (news_of pass.old.account.me.0 cell segment.now) }
    ensures { OnlyAccount pass.old pass.new (with_cells pass.old.account.me.0
        (news_of pass.old.account.me.0 cell segment.now)) }
{
    let planned = KnowsPruned { cell, segment };
    store.change(pass, &planned);
}

/// A load of the clock by which a pass knows a cell's pruned rows.
#[derive(Drop)]
struct KnowsPruned<'a> {
    /// The number of the cell.
    cell: u32,
    /// Its rows as they are now.
    segment: &'a VersionSegment,
}

impl Change for KnowsPruned<'_> {
    ghost use Rattle.pass_steps.specs.RuleModel.Sight.{with_cells};
    ghost use Rattle.pass_steps.specs.RuleModel.Steps.{Nothing};
    ghost use Rattle.pass_sweeps.specs.Pruning.{news_of};

    ghost next = { λ planned n v. with_cells v (news_of v planned.cell planned.segment.now) };

    ghost told = { λ planned n v. Nothing n };
}

/// Prunes the rows of a cell in hand, and answers how many records went.
pub fn prune_rows(
    store: &Store,
    pass: &mut Pass,
    clock: u64,
    horizon: u64,
    segment: &mut VersionSegment,
) -> usize
    requires pass { IsPassOf store.now pass.old }
    requires told { TellsWriters store.now.accounts.config pass.old.account.me.0 (state_of pass.old) clock }
    requires known { horizon ≤ length (state_of pass.old).seen }
    requires cell { (k : ℕ) × (c : CellState) × HasCell pass.old.account.me.0 k c
        × (k < cells_of store.now.accounts.config) × IsSameSegment c.segment segment.old }
    requires sound { IsSegment segment.old }
    ensures pruned { PrunesRows (stamps_seen (state_of pass.old)) horizon segment.old segment.new }
    ensures went { result + all_records segment.new.rows ≡ all_records segment.old.rows }
    ensures sound { IsSegment segment.new }
    ensures looked { KnowsLooks pass.old.account.me.0 pass.old pass.new }
{
    let went = prune_as::<Brand>(store, pass, clock, horizon, segment);
    segment.is_segment();
    went
}

/// The same by whoever asks.
fn prune_as<B: Asker>(
    store: &Store,
    pass: &mut Pass,
    clock: u64,
    horizon: u64,
    segment: &mut VersionSegment,
) -> usize
    requires asking { B.asking ≡ asking_of store.now pass.old clock }
    requires pass { IsPassOf store.now pass.old }
    requires told { TellsWriters store.now.accounts.config pass.old.account.me.0 (state_of pass.old) clock }
    requires known { horizon ≤ length (state_of pass.old).seen }
    requires cell { (k : ℕ) × (c : CellState) × HasCell pass.old.account.me.0 k c
        × (k < cells_of store.now.accounts.config) × IsSameSegment c.segment segment.old }
    requires sound { IsSegment segment.old }
    ensures pruned { PrunesRows (stamps_seen (state_of pass.old)) horizon segment.old segment.new }
    ensures went { result + all_records segment.new.rows ≡ all_records segment.old.rows }
    ensures looked { KnowsLooks pass.old.account.me.0 pass.old pass.new }
{
    let mut states = PassStates::<B>::lend(store, pass, clock);
    let went = segment.prune(horizon, &mut states);
    states.give_back(pass);
    went
}
