//! Cells in hand are pruned at the horizon of their pass's sweep.
//!
//! 1. The rows of all cells change first. Then one load of the clock makes the pass's view know them.
//! 2. Where a writer of a record without a stamp stands is asked by its pass's word. A stamp that is not published up
//!    to the horizon lets nothing go.

ghost use Rattle.std.specs.Prelude.{◌≡◌, ◌≤◌, length};
ghost use Rattle.epoch_reclaim.specs.Pinned.{horizon_of};
ghost use Rattle.pass_cells.specs.Holding.{AreKnown, Holds, IsKnown};
ghost use Rattle.pass_prunes.specs.Pruned.{ArePruned, IsPrunedCell, KeepsHand, PrunesVersions};
ghost use Rattle.pass_sweeps.specs.PassSteps.Passes.{IsPassOf, state_of};
ghost use Rattle.pass_sweeps.specs.Pruning.{FindsWords, stamps_seen};
ghost use Rattle.pass_sweeps.specs.Sweeping.{HasSwept};

use epoch_reclaim::Sweep;
use pass_cells::below::{Change, Pass, Store};
use pass_cells::{PassCells, TakenCell, TakenCells};
use pass_sweeps::{learn_writers, prune_rows};

/// The pass has pruned the rows in hand.
#[derive(Drop)]
struct KnowsTakenPruned<'a> {
    /// The cells in hand, with their rows as they are now.
    taken: &'a TakenCells,
}

impl Change for KnowsTakenPruned<'_> {
    ghost use Rattle.pass_cells.specs.RuleModel.Sight.{with_cells};
    ghost use Rattle.pass_cells.specs.RuleModel.Steps.{Nothing};
    ghost use Rattle.pass_cells.specs.Changes.{news_of};

    ghost next = { λ c _ v. with_cells v (news_of v c.taken.now.list.items) };

    ghost told = { λ _ n _. Nothing n };
}

/// Prunes the rows of all cells in hand at the horizon of the pass's sweep. Takes no memory, and waits for nobody.
pub fn prune_taken(store: &Store, pass: &mut Pass, cells: &mut PassCells, sweep: &Sweep)
    requires pass { IsPassOf store.now pass.old }
    requires holds { Holds store.now pass.old cells.old.taken.list.items }
    requires swept { HasSwept store.now pass.old sweep.now }
    ensures pass { IsPassOf store.now pass.new }
    ensures holds { Holds store.now pass.new cells.new.taken.list.items }
    ensures found { FindsWords pass.old pass.new }
    ensures journals { pass.new.account.me.0.journals ≡ pass.old.account.me.0.journals }
    ensures pruned { PrunesVersions (stamps_seen (state_of pass.old)) (horizon_of sweep.now)
        cells.old.taken.list.items cells.new.taken.list.items }
{
    // The horizon was found before the cells were taken, and may be older than one that would be found now. Then more
    // records stay than must.
    let horizon = store.pins().horizon(sweep);
    prune_each(store, pass, horizon, cells.taken.list.as_mut_slice());
    let planned = KnowsTakenPruned {
        taken: &cells.taken,
    };
    store.change(pass, &planned);
    cells.taken.count_rows();
}

/// Prunes the rows of cell after cell. The view doesn't know it yet.
fn prune_each(store: &Store, pass: &mut Pass, horizon: u64, taken: &mut [TakenCell])
    requires pass { IsPassOf store.now pass.old }
    requires seen { horizon ≤ length (state_of pass.old).seen }
    requires known { AreKnown store.now.accounts.config pass.old.account.me.0 taken.old }
    ensures pass { IsPassOf store.now pass.new }
    ensures found { FindsWords pass.old pass.new }
    ensures hand { KeepsHand pass.old pass.new }
    ensures pruned { ArePruned (stamps_seen (state_of pass.old)) horizon taken.old taken.new }
{
    let Some((first, rest)) = taken.split_first_mut() else {
        return;
    };
    prune_one(store, pass, horizon, first);
    prune_each(store, pass, horizon, rest);
}

/// Prunes the rows of a cell.
fn prune_one(store: &Store, pass: &mut Pass, horizon: u64, taken: &mut TakenCell)
    requires pass { IsPassOf store.now pass.old }
    requires seen { horizon ≤ length (state_of pass.old).seen }
    requires known { IsKnown store.now.accounts.config pass.old.account.me.0 taken.old }
    ensures pass { IsPassOf store.now pass.new }
    ensures found { FindsWords pass.old pass.new }
    ensures hand { KeepsHand pass.old pass.new }
    ensures pruned { IsPrunedCell (stamps_seen (state_of pass.old)) horizon taken.old taken.new }
{
    let clock = learn_writers(store, pass);
    taken.held.changed = true;
    taken.words_changed = true;
    prune_rows(store, pass, clock, horizon, &mut taken.held.value);
}
