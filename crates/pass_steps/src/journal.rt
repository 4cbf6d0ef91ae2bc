//! The journal is taken and given back.
//!
//! While a pass has it nobody else begins or commits, so the clock stays as it is.

ghost use Rattle.std.specs.Prelude.{◌≡◌, ◌+◌};
ghost use Rattle.store_rule.specs.RuleModel.Sight.{cells_of};
ghost use Rattle.store_rule.specs.StoreRelation.Passes.{PassState};
ghost use Rattle.store_rule.specs.StoreRelation.Shared.{JournalState};
ghost use Rattle.store_rule.specs.RuleModel.Sight.{PinState};
ghost use Rattle.store_rule.specs.Slots.{IsListOf};
ghost use Rattle.pass_steps.specs.Journal.{HasTaken};
ghost use Rattle.pass_steps.specs.Passes.{HoldsNone, IsPassOf, IsSamePass, pin_of, state_of};

use graph_model::RoomyJournal;
use latch_table::Held;
use std::sync::Wait;
use store_rule::{Pass, Store};

/// Takes the journal as soon as no other pass has it.
pub(crate) fn take_journal(
    rt: &impl Wait,
    store: &Store,
    pass: &mut Pass,
) -> Held<Box<RoomyJournal>>
    requires pass { IsPassOf store.now pass.old }
    requires none { HoldsNone pass.old }
    ensures taken { (j : JournalState) × HasTaken store.now pass.new (state_of pass.old) (pin_of pass.old) j
        × IsListOf j result.value.value }
    ensures place { result.cell ≡ cells_of store.now.accounts.config + 1 }
    ensures same { IsSamePass pass.old pass.new }
{
    let cells = store.cells();
    let held = cells.take(rt, &mut pass.latch, store.journal_place());
    store.gather_journal(pass, held)
}

/// Gives the journal back. All its commits are published.
pub(crate) fn give_journal(store: &Store, pass: &mut Pass, held: Held<Box<RoomyJournal>>)
    requires taken { (st : PassState) × (x : PinState) × (j : JournalState) × HasTaken store.now pass.old st x j
        × IsListOf j held.value.value }
    requires place { held.cell ≡ cells_of store.now.accounts.config + 1 }
    ensures pass { IsPassOf store.now pass.new }
    ensures none { HoldsNone pass.new }
    ensures state { state_of pass.new ≡ state_of pass.old }
    ensures pin { pin_of pass.new ≡ pin_of pass.old }
    ensures same { IsSamePass pass.old pass.new }
{
    let held = store.lay_journal(pass, held);
    let cells = store.cells();
    cells.give(&mut pass.latch, held);
}
