//! How a write is taken back. Takes no memory.

ghost use Rattle.row_writes.specs.Held.{AreHeld};
ghost use Rattle.row_writes.specs.Laying.{TakesBack, UndoesWritten, UntouchesEnds};
ghost use Rattle.row_writes.specs.Written.{all_keys, touched_keys, written_keys};

use crate::cells::HeldCells;
use crate::written::FoundRows;
use graph_model::TxnName;
use version_segment::RowChange;

/// Takes the front pair of each row that is written away.
fn undo_written<C: HeldCells>(cells: &mut C, by: TxnName, found: &FoundRows<C::Finger>)
    requires { AreHeld (C.rows cells.old) (written_keys found.now.rows) }
    ensures undoes { UndoesWritten found.now.rows (C.rows cells.old) (C.rows cells.new) }
    ensures keeps { C.keeps cells.old cells.new }
{
    cells.change(found.rows.row, found.near.row, by, RowChange::Undo);
    match found.rows.back {
        // Where both are one key its record went with the first undo.
        Some(back) if back != found.rows.row => {
            cells.change(back, found.near.back, by, RowChange::Undo);
        }
        _ => {}
    }
}

/// Takes the transaction's touches of the ends of an added edge away.
fn untouch_ends<C: HeldCells>(cells: &mut C, by: TxnName, found: &FoundRows<C::Finger>)
    requires { AreHeld (C.rows cells.old) (touched_keys found.now.rows) }
    ensures untouches { UntouchesEnds by found.now.rows (C.rows cells.old) (C.rows cells.new) }
    ensures keeps { C.keeps cells.old cells.new }
{
    match found.rows.ends {
        Some(ends) if found.rows.touches => {
            cells.change(ends.source, found.near.source, by, RowChange::Untouch);
            if ends.target != ends.source {
                cells.change(ends.target, found.near.target, by, RowChange::Untouch);
            }
        }
        _ => {}
    }
}

/// Takes the newest write of a transaction back.
pub fn undo<C: HeldCells>(cells: &mut C, by: TxnName, found: &FoundRows<C::Finger>)
    requires { AreHeld (C.rows cells.old) (all_keys found.now.rows) }
    ensures undone { TakesBack by found.now.rows (C.rows cells.old) (C.rows cells.new) }
    ensures keeps { C.keeps cells.old cells.new }
{
    undo_written(cells, by, found);
    untouch_ends(cells, by, found);
}
