//! Cells are taken for a call, and put back before it ends.
//!
//! 1. All cells of a call are taken before a row is looked at, and no other place while one of them is in hand.

ghost use Rattle.std.specs.Prelude.{◌≤◌, length};
ghost use Rattle.pass_prunes.specs.RowWrites.Held.{AreHeld};
ghost use Rattle.pass_prunes.specs.PassCells.Taken.{held_rows};
ghost use Rattle.pass_writes.specs.Hand.{HasInHand, HasNothing, KeepsState};

use graph_model::Key;
use pass_prunes::below::{Pass, PassCells, Store};
use std::sync::Wait;

/// Takes the cells of these keys.
pub(crate) fn take_cells(
    rt: &impl Wait,
    store: &Store,
    pass: &mut Pass,
    cells: &mut PassCells,
    keys: &[Key],
)
    requires none { HasNothing store.now pass.old cells.old.taken.list.items }
    requires few { length keys.now ≤ 4 }
    ensures hand { HasInHand store.now pass.new cells.new.taken.list.items }
    ensures held { AreHeld (held_rows cells.new.taken.list.items) keys.now }
    ensures kept { KeepsState pass.old pass.new }
{
    cells.take(rt, store, pass, keys);
}

/// Puts all cells back.
pub(crate) fn put_cells_back(store: &Store, pass: &mut Pass, cells: &mut PassCells)
    requires hand { HasInHand store.now pass.old cells.old.taken.list.items }
    ensures none { HasNothing store.now pass.new cells.new.taken.list.items }
    ensures kept { KeepsState pass.old pass.new }
{
    cells.put_back(store, pass);
}
