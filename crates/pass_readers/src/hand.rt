//! Cells that a reader takes for a call, and puts back before it ends.
//!
//! 1. A reader holds nothing between two calls, so nobody waits for its next one.
//! 2. It has no transaction of its own: the rows that it puts back are those that it found.

ghost use Rattle.std.specs.Prelude.{◌≤◌, length};
ghost use Rattle.pass_cells.specs.RowWrites.Held.{AreHeld};
ghost use Rattle.pass_cells.specs.Taken.{held_rows};
ghost use Rattle.pass_steps.specs.RuleModel.NoteSteps.{LearnsRows};
ghost use Rattle.pass_readers.specs.Hand.{HasNothing, HasReadInHand, KeepsReader};
ghost use Rattle.pass_readers.specs.Readers.{read_by};

use crate::learn::learn_rows;
use graph_model::Key;
use pass_cells::PassCells;
use pass_steps::below::{Pass, Store};
use std::sync::Wait;

/// Takes the cells of these keys.
pub(crate) fn take_cells(
    rt: &impl Wait,
    store: &Store,
    reader: &mut Pass,
    cells: &mut PassCells,
    keys: &[Key],
)
    requires none { HasNothing store.now reader.old cells.old.taken.list.items }
    requires few { length keys.now ≤ 4 }
    ensures hand { HasReadInHand store.now reader.new cells.new.taken.list.items }
    ensures held { AreHeld (held_rows cells.new.taken.list.items) keys.now }
    ensures kept { KeepsReader reader.old reader.new }
{
    // By hints first, and by the index where they are wrong, as for a pass with a transaction.
    cells.take(rt, store, reader, keys);
}

/// Learns of the rows in hand.
pub(crate) fn learn_in_hand(store: &Store, reader: &mut Pass, _cells: &PassCells) -> u64
    requires hand { HasReadInHand store.now reader.old _cells.now.taken.list.items }
    ensures hand { HasReadInHand store.now reader.new _cells.now.taken.list.items }
    ensures kept { KeepsReader reader.old reader.new }
    ensures learnt { LearnsRows store.now.accounts.config reader.new.account.me.0 (read_by reader.new) result }
{
    learn_rows(store, reader)
}

/// Puts all cells back.
pub(crate) fn put_cells_back(store: &Store, reader: &mut Pass, cells: &mut PassCells)
    requires hand { HasReadInHand store.now reader.old cells.old.taken.list.items }
    ensures none { HasNothing store.now reader.new cells.new.taken.list.items }
    ensures kept { KeepsReader reader.old reader.new }
{
    cells.put_back(store, reader);
}
