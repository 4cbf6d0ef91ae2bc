//! The index in hand, and retired leaves that are freed while it is.
//!
//! 1. Whoever notes a leaf holds the index, so while a sweep has it nobody notes one that is about to be freed.
//! 2. A leaf is free once each pass that is pinned began after it was retired: none of these can have noted it.

ghost use Rattle.std.specs.Prelude.{◌≡◌, ◌≤◌, Some, None, length};
ghost use Rattle.leaf_index.specs.Calls.{freed};
ghost use Rattle.leaf_index.specs.Index.{IsIndex};
ghost use Rattle.pass_steps.specs.RuleModel.PinSteps.{with_sweeper};
ghost use Rattle.pass_steps.specs.RuleModel.Sight.{IndexState, PinState, cells_of, with_index};
ghost use Rattle.pass_steps.specs.StoreRelation.Passes.{PassState};
ghost use Rattle.pass_steps.specs.StoreRule.Passes.{OnlyAccount};
ghost use Rattle.pass_steps.specs.Passes.{HoldsNone, IsPassOf, IsSamePass, pin_of, state_of};
ghost use Rattle.pass_sweeps.specs.Freed.{HasFreed, until_of};
ghost use Rattle.pass_sweeps.specs.Sweeping.{HasIndexOnly, bound_of, free_bound, index_in, leaves_freed, with_sweep};

use crate::pins::{begin_with_index, look_at_all};
use epoch_reclaim::Sweep;
use latch_table::Held;
use leaf_index::LeafIndex;
use pass_steps::below::{Change, Pass, STAMPS_END, Store};
use std::sync::Wait;

/// Takes the index as soon as no other pass has it.
pub(crate) fn take_index(rt: &impl Wait, store: &Store, pass: &mut Pass) -> Held<Box<LeafIndex>>
    requires pass { IsPassOf store.now pass.old }
    requires none { HoldsNone pass.old }
    ensures taken { (y : IndexState) × HasIndexOnly store.now pass.new (state_of pass.old) (pin_of pass.old) y
        × (y.sweeper ≡ None) × (result.value.value ≡ y.index) }
    ensures place { result.cell ≡ cells_of store.now.accounts.config }
    ensures same { IsSamePass pass.old pass.new }
{
    let cells = store.cells();
    let held = cells.take(rt, &mut pass.latch, store.index_place());
    store.gather_index(pass, held)
}

/// Gives the index back. Nobody sweeps under it.
pub(crate) fn give_index(store: &Store, pass: &mut Pass, held: Held<Box<LeafIndex>>)
    requires taken { (st : PassState) × (x : PinState) × (y : IndexState) × HasIndexOnly store.now pass.old st x y
        × (y.sweeper ≡ None) × (held.value.value ≡ y.index) }
    requires place { held.cell ≡ cells_of store.now.accounts.config }
    ensures pass { IsPassOf store.now pass.new }
    ensures none { HoldsNone pass.new }
    ensures state { state_of pass.new ≡ state_of pass.old }
    ensures pin { pin_of pass.new ≡ pin_of pass.old }
    ensures same { IsSamePass pass.old pass.new }
{
    let held = store.lay_index(pass, held);
    let cells = store.cells();
    cells.give(&mut pass.latch, held);
}

/// Loads the clock, and learns how many leaves the index in hand has.
pub(crate) fn learn_leaves(store: &Store, pass: &mut Pass)
    requires taken { (st : PassState) × (x : PinState) × (y : IndexState) × HasIndexOnly store.now pass.old st x y }
    ensures same { OnlyAccount pass.old pass.new pass.old.account.me.0 }
    ensures told { (index_in pass.old.account.me.0).index.leaves ≡ store.now.accounts.config.leaves }
{
    let planned = LearnsLeaves {
        leaves: store.accounts.config.leaves,
    };
    store.change(pass, &planned);
}

/// A pass learns of the index that it holds.
#[derive(Drop)]
struct LearnsLeaves {
    /// How many leaves the store has.
    leaves: u32,
}

impl Change for LearnsLeaves {
    ghost use Rattle.std.specs.Prelude.{◌≡◌};
    ghost use Rattle.pass_sweeps.specs.Sweeping.{index_in};

    ghost next = { λ planned n v. v };

    ghost told = { λ planned n v. (index_in v).index.leaves ≡ planned.leaves };
}

/// Retired leaves with a stamp below this one are free. It is made with the index in hand, here alone, and can't be
/// copied.
#[derive(Debug, Drop, PartialEq, Eq)]
pub struct LeavesFreed {
    /// Those with a lesser stamp are free.
    until: u64,
}

impl LeavesFreed {
    /// Those that a whole sweep lets go, with the index in hand in which they are free.
    fn by(store: &Store, pass: &Pass, sweep: &Sweep) -> LeavesFreed
        requires { HasFreed store.now pass.now sweep.now }
        ensures { until_of result ≡ free_bound sweep.now }
    {
        LeavesFreed {
            until: bound(store.pins().least_pin(sweep)),
        }
    }
}

/// Sweeps over the pins of all passes with the index in hand, and frees all retired leaves that may be freed. Nobody
/// sweeps under the index any more then, and the pass goes on with its sweep.
pub(crate) fn sweep_and_free(
    store: &Store,
    pass: &mut Pass,
    held: Held<Box<LeafIndex>>,
) -> (Held<Box<LeafIndex>>, Sweep, LeavesFreed)
    requires taken { (st : PassState) × (x : PinState) × (y : IndexState) × HasIndexOnly store.now pass.old st x y
        × (y.sweeper ≡ None) × (held.value.value ≡ y.index) }
    ensures held { result.0.cell ≡ held.cell }
    ensures freed { (y : IndexState) × HasIndexOnly store.now pass.new (state_of pass.old)
        (with_sweep (pin_of pass.old) (Some result.1)) y × (y.sweeper ≡ None) × (result.0.value.value ≡ y.index)
        × (y.index ≡ (leaves_freed result.1 (index_in pass.old.account.me.0)).index) }
    ensures whole { result.1.looked ≡ store.now.accounts.config.passes }
    ensures clock { length (state_of pass.old).seen ≤ result.1.clock }
    ensures until { until_of result.2 ≡ free_bound result.1 }
    ensures same { IsSamePass pass.old pass.new }
{
    // With the index in hand: a retired leaf isn't in it, so whoever noted one did so before, and is pinned.
    let mut sweep = begin_with_index(store, pass);
    look_at_all(store, pass, &mut sweep);
    let held = free_leaves(store, pass, held, &sweep);
    yield_index(store, pass);
    let freed = LeavesFreed::by(store, pass, &sweep);
    (held, sweep, freed)
}

/// Frees all retired leaves that may be freed, by a whole sweep.
fn free_leaves(
    store: &Store,
    pass: &mut Pass,
    held: Held<Box<LeafIndex>>,
    sweep: &Sweep,
) -> Held<Box<LeafIndex>>
    requires taken { (st : PassState) × (x : PinState) × (y : IndexState) × HasIndexOnly store.now pass.old st x y
        × (y.sweeper ≡ Some pass.old.number) × (held.value.value ≡ y.index) }
    requires sweeps { (pin_of pass.old).sweep ≡ Some sweep.now }
    requires whole { sweep.now.looked ≡ store.now.accounts.config.passes }
    ensures held { result.cell ≡ held.cell }
    ensures step { OnlyAccount pass.old pass.new (with_index pass.old.account.me.0
        (leaves_freed sweep.now (index_in pass.old.account.me.0))) }
    ensures index { result.value.value ≡ (leaves_freed sweep.now (index_in pass.old.account.me.0)).index }
{
    let until = bound(store.pins().least_pin(sweep));
    // No more leaves can be retired than there are, so this many means all.
    let most = held.value.leaves() as usize;
    let mut held = held;
    // Where none was freed the index keeps its version.
    held.changed = free_below(&mut held.value, until, most) > 0;
    let planned = FreesLeaves { until, most };
    store.change(pass, &planned);
    held
}

/// Frees those of the first retired leaves whose stamps are below a bound, and answers how many.
fn free_below(index: &mut LeafIndex, until: u64, most: usize) -> u32
    ensures freed { index.new ≡ freed until most index.old }
    ensures sound { IsIndex index.new }
{
    let freed = index.free_retired(until, most);
    index.is_index();
    freed
}

/// Retired leaves with a stamp below this one may be freed.
fn bound(least: Option<u64>) -> u64
    ensures { result ≡ bound_of least }
{
    match least {
        Some(least) => least,
        None => STAMPS_END,
    }
}

/// A load of the clock by which the sweeper's view has the leaves as free.
#[derive(Drop)]
struct FreesLeaves {
    /// Those with a lesser stamp become free.
    until: u64,
    /// So many at the most, which is all.
    most: usize,
}

impl Change for FreesLeaves {
    ghost use Rattle.leaf_index.specs.Calls.{freed};
    ghost use Rattle.pass_steps.specs.RuleModel.Sight.{with_index};
    ghost use Rattle.pass_steps.specs.RuleModel.Steps.{Nothing};
    ghost use Rattle.pass_sweeps.specs.Sweeping.{index_in};

    ghost next = { λ planned n v. with_index v
        (record (index_in v) { index = freed planned.until planned.most (index_in v).index }) };

    ghost told = { λ planned n v. Nothing n };
}

/// Sweeps under the index no more: others may note leaves as soon as it is given back.
fn yield_index(store: &Store, pass: &mut Pass)
    requires taken { (st : PassState) × (x : PinState) × (y : IndexState) × HasIndexOnly store.now pass.old st x y }
    ensures { OnlyAccount pass.old pass.new (with_sweeper pass.old.account.me.0 pass.old.number (pin_of pass.old)
        (record (index_in pass.old.account.me.0) { sweeper = None })) }
{
    let planned = YieldsIndex {
        number: pass.number,
    };
    store.change(pass, &planned);
}

/// A load of the clock by which the sweeper goes on without the index.
#[derive(Drop)]
struct YieldsIndex {
    /// The number of the pass.
    number: u32,
}

impl Change for YieldsIndex {
    ghost use Rattle.std.specs.Prelude.{None};
    ghost use Rattle.pass_steps.specs.RuleModel.PinSteps.{with_sweeper};
    ghost use Rattle.pass_steps.specs.RuleModel.Steps.{Nothing};
    ghost use Rattle.pass_steps.specs.Passes.{pin_in};
    ghost use Rattle.pass_sweeps.specs.Sweeping.{index_in};

    ghost next = { λ planned n v. with_sweeper v planned.number (pin_in v planned.number)
        (record (index_in v) { sweeper = None }) };

    ghost told = { λ planned n v. Nothing n };
}
