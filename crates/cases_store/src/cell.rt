//! A pass takes a cell, unpacks it, packs it as one that was changed, and puts it back.

ghost use Rattle.std.specs.Prelude.{◌≡◌, ◌<◌, false};
ghost use Rattle.cases_store.specs.Visits.{IsAtEase, KeepsPass, StaysAtEase};
ghost use Rattle.store_rule.specs.CellsModel.Cells.{CellState};
ghost use Rattle.store_rule.specs.RuleModel.Sight.{HasCell, cells_of};
ghost use Rattle.store_rule.specs.Slots.{IsCellSlot, RestsAs};

use latch_table::Held;
use std::sync::Wait;
use store_rule::{Pass, Resting, Store, StoreSlot};

/// Visits a cell as soon as no other pass has it.
pub fn visit(rt: &impl Wait, store: &Store, pass: &mut Pass, cell: u32)
    requires pass { IsAtEase store.now pass.old }
    requires cell { cell < cells_of store.now.accounts.config }
    ensures { StaysAtEase store.now pass.old pass.new }
{
    let cells = store.cells();
    let held = cells.take(rt, &mut pass.latch, cell);
    let held = change_cell(store, pass, held);
    cells.give(&mut pass.latch, held);
}

/// Changes a cell that the pass has taken, so that its version rises once it is given back.
pub fn change_cell(store: &Store, pass: &mut Pass, held: Held<StoreSlot>) -> Held<StoreSlot>
    requires table { pass.old.account.table_id ≡ store.now.accounts.table.shared.table_id }
    requires cell { held.cell < cells_of store.now.accounts.config }
    requires slot { IsCellSlot store.now.accounts.table.shared.table_id held.cell held.value }
    requires buffers { 0 < pass.old.buffers }
    ensures held { result.cell ≡ held.cell }
    ensures slot { IsCellSlot store.now.accounts.table.shared.table_id held.cell result.value }
    ensures latch { pass.new.latch ≡ pass.old.latch }
    ensures kept { KeepsPass pass.old pass.new }
{
    let held = store.gather_cell(pass, held);
    let held = pack_again(store, pass, held);
    store.lay_cell(pass, held)
}

/// Unpacks a gathered cell and packs it as one that was changed.
fn pack_again(store: &Store, pass: &mut Pass, held: Held<Resting>) -> Held<Resting>
    requires table { pass.old.account.table_id ≡ store.now.accounts.table.shared.table_id }
    requires cell { held.cell < cells_of store.now.accounts.config }
    requires packed { (c : CellState) × HasCell pass.old.account.me.0 held.cell c × (c.unpacked ≡ false)
        × RestsAs c.segment held.value }
    requires buffers { 0 < pass.old.buffers }
    ensures held { result.cell ≡ held.cell }
    ensures packed { (c : CellState) × HasCell pass.new.account.me.0 result.cell c × (c.unpacked ≡ false)
        × RestsAs c.segment result.value }
    ensures latch { pass.new.latch ≡ pass.old.latch }
    ensures kept { KeepsPass pass.old pass.new }
{
    let mut held = store.unpack(pass, held);
    held.changed = true;
    store.pack(pass, held, true)
}
