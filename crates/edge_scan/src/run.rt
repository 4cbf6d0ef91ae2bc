//! One step of a scan.
//!
//! 1. A step moves the cursor after the last row that it gave, and to the end of the run where all of it was given. So
//!    a scan gives each row once, however rows move between two of its steps.
//! 2. The run is lent and the buffer is the caller's: a step takes no memory.

ghost use Rattle.std.specs.Prelude.{◌≡◌, ◌⊎◌, true, false, ◌++◌, ◌≤◌, length};
ghost use Rattle.graph_model.specs.declared.row.Cursor.{Cursor};
ghost use Rattle.graph_model.specs.Graph.{Graph};
ghost use Rattle.graph_model.specs.Rows.{is_below, rows};
ghost use Rattle.edge_scan.specs.Steps.{IsUnderWay, end_of};

use graph_model::{Cursor, Key, Row, Rows64};

/// Takes the rows of a run into the buffer, as many as there is room for, and moves the cursor after them.
/// The run has the rows from the cursor's key on and below `high`, or below the end of the scan where that
/// comes first. The scan is done where its end is reached and the buffer has room left.
pub fn step(cursor: &mut Cursor, high: Key, run: &[Row], buffer: &mut Rows64)
    requires going { cursor.old.done ≡ false }
    requires ahead { is_below cursor.old.next (end_of high cursor.old) ≡ true }
    ensures under_way { (g : Graph) (first : Cursor) → run.now ≡ rows g cursor.old.next (end_of high cursor.old)
        → IsUnderWay g first cursor.old buffer.old → IsUnderWay g first cursor.new buffer.new }
    ensures onward { cursor.new.done ≡ false → (length buffer.new ≡ 64) ⊎ (cursor.new.next ≡ high) }
{
    let room = 64 - buffer.len();
    if room < run.len() {
        push_all(buffer, &run[..room]);
        cursor.next = run[room].key;
        return;
    }
    push_all(buffer, run);
    if high.is_below(cursor.until) {
        cursor.next = high;
        return;
    }
    cursor.next = cursor.until;
    cursor.done = !buffer.is_full();
}

/// Appends rows for which there is room.
fn push_all(buffer: &mut Rows64, run: &[Row])
    requires { length (buffer.old ++ run.now) ≤ 64 }
    ensures appended { buffer.new ≡ buffer.old ++ run.now }
    ensures few { length buffer.new ≤ 64 }
{
    'run: for row in run {
        buffer.push(*row);
    }
}
