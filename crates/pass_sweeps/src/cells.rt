//! One cell in hand.
//!
//! 1. A sweep holds one cell at a time, so it waits for it as long as it takes.

ghost use Rattle.std.specs.Prelude.{◌≡◌, ◌<◌, false};
ghost use Rattle.pass_steps.specs.CellsModel.Cells.{CellState};
ghost use Rattle.pass_steps.specs.RuleModel.Sight.{PinState, cells_of};
ghost use Rattle.pass_steps.specs.StoreRelation.Passes.{PassState};
ghost use Rattle.pass_steps.specs.StoreRule.Slots.{RestsAs};
ghost use Rattle.pass_steps.specs.Passes.{HoldsNone, IsPassOf, IsSamePass, pin_of, state_of};
ghost use Rattle.pass_sweeps.specs.Pruning.{HasCellOnly};

use latch_table::Held;
use pass_steps::below::{Pass, Resting, Store};
use std::sync::Wait;

/// Takes a cell as soon as no other pass has it.
pub fn take_cell(rt: &impl Wait, store: &Store, pass: &mut Pass, cell: u32) -> Held<Resting>
    requires pass { IsPassOf store.now pass.old }
    requires none { HoldsNone pass.old }
    requires inside { cell < cells_of store.now.accounts.config }
    ensures taken { (c : CellState) × HasCellOnly store.now pass.new (state_of pass.old) (pin_of pass.old) cell c 0
        × (c.unpacked ≡ false) × RestsAs c.segment result.value }
    ensures held { (result.cell ≡ cell) × (result.changed ≡ false) }
    ensures same { IsSamePass pass.old pass.new }
{
    let cells = store.cells();
    let held = cells.take(rt, &mut pass.latch, cell);
    store.gather_cell(pass, held)
}

/// Gives a packed cell back.
pub fn give_cell(store: &Store, pass: &mut Pass, held: Held<Resting>)
    requires taken { (st : PassState) × (x : PinState) × (c : CellState)
        × HasCellOnly store.now pass.old st x held.cell c 0 × (c.unpacked ≡ false) × RestsAs c.segment held.value }
    ensures pass { IsPassOf store.now pass.new }
    ensures none { HoldsNone pass.new }
    ensures state { state_of pass.new ≡ state_of pass.old }
    ensures pin { pin_of pass.new ≡ pin_of pass.old }
    ensures same { IsSamePass pass.old pass.new }
{
    let held = store.lay_cell(pass, held);
    let cells = store.cells();
    cells.give(&mut pass.latch, held);
}
