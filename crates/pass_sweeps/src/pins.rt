//! A pass's sweep over the pins of all passes.
//!
//! 1. The clock is loaded before any pin, and the pins are loaded one after the other. They may have changed by the
//!    time that the last one is loaded: then the horizon is too old, which keeps records that nobody reads.
//! 2. What the pass's view has of its sweep comes by these loads alone, so a sweep can't be made up.

ghost use Rattle.std.specs.Prelude.{◌≡◌, ℕ, ◌<◌, ◌≤◌, Some, None, length};
ghost use Rattle.epoch_reclaim.specs.Pinned.{begun, looked_at};
ghost use Rattle.pass_steps.specs.RuleModel.PinSteps.{with_sweeper};
ghost use Rattle.pass_steps.specs.RuleModel.Places.{lines};
ghost use Rattle.pass_steps.specs.RuleModel.Sight.{IndexState, with_pin};
ghost use Rattle.pass_steps.specs.StoreRelation.Passes.{PassState};
ghost use Rattle.pass_steps.specs.RuleModel.Sight.{PinState};
ghost use Rattle.pass_steps.specs.StoreRule.Passes.{OnlyAccount};
ghost use Rattle.pass_steps.specs.StoreWords.Steps.{MayLoad};
ghost use Rattle.pass_steps.specs.Passes.{HoldsNone, IsPassOf, pin_of, state_of};
ghost use Rattle.pass_sweeps.specs.Sweeping.{GoesOn, HasIndexOnly, HasSwept, OnlySweep, index_in, with_sweep};

use crate::seen::see_published;
use epoch_reclaim::Sweep;
use pass_steps::below::{Change, Pass, Store, Turn, Turns};
use std::marker::Brand;

/// Sweeps over the pins of all passes, with nothing in hand. The pass sees what is published then. Takes no memory, and
/// waits for nobody.
pub fn sweep_pins(store: &Store, pass: &mut Pass) -> Sweep
    requires pass { IsPassOf store.now pass.old }
    requires none { HoldsNone pass.old }
    ensures pass { IsPassOf store.now pass.new }
    ensures none { HoldsNone pass.new }
    ensures swept { HasSwept store.now pass.new result }
    ensures clock { length (state_of pass.old).seen ≤ result.clock }
    ensures same { GoesOn pass.old pass.new }
{
    let mut sweep = begin_sweep(store, pass);
    look_at_all(store, pass, &mut sweep);
    see_published(store, pass);
    sweep
}

/// Ends the pass's sweep.
pub fn end_sweep(store: &Store, pass: &mut Pass)
    requires pass { IsPassOf store.now pass.old }
    ensures { OnlyAccount pass.old pass.new (with_pin pass.old.account.me.0 pass.old.number
        (with_sweep (pin_of pass.old) None)) }
{
    let planned = EndsSweep {
        number: pass.number,
    };
    store.change(pass, &planned);
}

/// A load of the clock by which a pass forgets its sweep.
#[derive(Drop)]
struct EndsSweep {
    /// The number of the pass.
    number: u32,
}

impl Change for EndsSweep {
    ghost use Rattle.std.specs.Prelude.{None};
    ghost use Rattle.pass_steps.specs.RuleModel.Sight.{with_pin};
    ghost use Rattle.pass_steps.specs.RuleModel.Steps.{Nothing};
    ghost use Rattle.pass_steps.specs.Passes.{pin_in};
    ghost use Rattle.pass_sweeps.specs.Sweeping.{with_sweep};

    ghost next = { λ planned n v. with_pin v planned.number (with_sweep (pin_in v planned.number) None) };

    ghost told = { λ planned n v. Nothing n };
}

/// Begins a sweep: its clock is no less than what the pass has seen.
fn begin_sweep(store: &Store, pass: &mut Pass) -> Sweep
    requires pass { IsPassOf store.now pass.old }
    ensures begun { result ≡ begun result.clock }
    ensures step { OnlyAccount pass.old pass.new (with_pin pass.old.account.me.0 pass.old.number
        (with_sweep (pin_of pass.old) (Some (begun result.clock)))) }
    ensures behind { length (state_of pass.old).seen ≤ result.clock }
{
    begin_as::<Brand>(store, pass)
}

/// The same with the index in hand: nobody notes a leaf until the sweeper gives it back.
pub(crate) fn begin_with_index(store: &Store, pass: &mut Pass) -> Sweep
    requires taken { (st : PassState) × (x : PinState) × (y : IndexState) × HasIndexOnly store.now pass.old st x y
        × (y.sweeper ≡ None) }
    ensures begun { result ≡ begun result.clock }
    ensures step { OnlyAccount pass.old pass.new (with_sweeper pass.old.account.me.0 pass.old.number
        (with_sweep (pin_of pass.old) (Some (begun result.clock)))
        (record (index_in pass.old.account.me.0) { sweeper = Some pass.old.number })) }
    ensures behind { length (state_of pass.old).seen ≤ result.clock }
{
    begin_as::<Brand>(store, pass)
}

fn begin_as<C: Turn>(store: &Store, pass: &mut Pass) -> Sweep
    requires table { pass.old.account.table_id ≡ store.now.accounts.table.shared.table_id }
    requires may { MayLoad store.now.accounts.config pass.old.account
        (lines store.now.accounts.config.passes).clock C.next C.told }
    ensures begun { result ≡ begun result.clock }
    ensures step { OnlyAccount pass.old pass.new (C.next result.clock pass.old.account.me.0) }
    ensures told { C.told result.clock pass.old.account.me.0 }
{
    // Its order is that of `Pins::sweep_begin`, where the step is made; likewise below.
    let pins = store.pins();
    pins.sweep_begin::<Turns<C>>(&mut pass.account)
}

/// Looks at the pins that are left.
pub(crate) fn look_at_all(store: &Store, pass: &mut Pass, sweep: &mut Sweep)
    requires pass { IsPassOf store.now pass.old }
    requires sweeps { (pin_of pass.old).sweep ≡ Some sweep.old }
    requires few { sweep.old.looked ≤ store.now.accounts.config.passes }
    ensures whole { sweep.new.looked ≡ store.now.accounts.config.passes }
    ensures clock { sweep.new.clock ≡ sweep.old.clock }
    ensures step { OnlySweep pass.old pass.new (Some sweep.new) }
{
    'pins: while sweep.looked < store.accounts.config.passes {
        look_next(store, pass, sweep);
    }
}

/// Looks at the next pin.
fn look_next(store: &Store, pass: &mut Pass, sweep: &mut Sweep)
    requires pass { IsPassOf store.now pass.old }
    requires sweeps { (pin_of pass.old).sweep ≡ Some sweep.old }
    requires left { sweep.old.looked < store.now.accounts.config.passes }
    ensures looked { (word : ℕ) × (sweep.new ≡ looked_at sweep.old word)
        × OnlyAccount pass.old pass.new (with_pin pass.old.account.me.0 pass.old.number
        (with_sweep (pin_of pass.old) (Some (looked_at sweep.old word)))) }
{
    look_as::<Brand>(store, pass, sweep);
}

fn look_as<C: Turn>(store: &Store, pass: &mut Pass, sweep: &mut Sweep)
    requires table { pass.old.account.table_id ≡ store.now.accounts.table.shared.table_id }
    requires left { sweep.old.looked < store.now.accounts.config.passes }
    requires may { MayLoad store.now.accounts.config pass.old.account
        ((lines store.now.accounts.config.passes).pin sweep.old.looked) C.next C.told }
    ensures looked { (word : ℕ) × (sweep.new ≡ looked_at sweep.old word)
        × OnlyAccount pass.old pass.new (C.next word pass.old.account.me.0) }
{
    let pins = store.pins();
    pins.sweep_look::<Turns<C>>(&mut pass.account, sweep);
}
