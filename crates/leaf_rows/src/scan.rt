//! What a reader sees of the rows in the order of their keys.
//!
//! A cursor keeps a key and no position, so the rows may move between two calls.

ghost use Rattle.std.specs.Prelude.{◌≡◌, ◌⊎◌, ◌<◌, ◌≤◌, true, false, length};
ghost use Rattle.graph_model.specs.declared.row.Cursor.{Cursor};
ghost use Rattle.graph_model.specs.Graph.{Graph};
ghost use Rattle.graph_model.specs.Rows.{is_below, rows};
ghost use Rattle.graph_model.specs.Scans.{ScansBy};
ghost use Rattle.edge_scan.specs.Steps.{IsUnderWay, end_of};
ghost use Rattle.leaf_rows.specs.Readers.{Shows};

use crate::reader::Reader;
use crate::rows::LeafRows;
use edge_scan::step;
use graph_model::{Cursor, Key, Row, Rows64};
use row_writes::below::Rows32;

impl LeafRows {
    /// Gives the next rows of a scan, 64 at most.
    pub fn scan(&self, reader: &Reader, cursor: &mut Cursor, rows: &mut Rows64)
        requires going { cursor.old.done ≡ false }
        requires started { reader.now.start ≤ length reader.now.manager.now.journal }
        ensures { (g : Graph) → Shows reader.now self.now g → ScansBy g cursor.old cursor.new rows.new }
    {
        self.store.is_sound();
        rows.clear();
        let mut buffer = Rows32::new();
        'cells: while cursor.next.is_below(cursor.until) && cursor.next.is_below(Key::end()) {
            // The cell of the next key is looked for anew: rows may have moved since the last step.
            let run = self.run_for(reader, cursor.next, cursor.until, &mut buffer);
            if has_portion(cursor, run.end, run.rows, rows) {
                return;
            }
        }
        cursor.done = true;
    }
}

/// Takes a step of a scan, and answers whether it has given the next portion: it is done then, or the buffer is full.
fn has_portion(cursor: &mut Cursor, high: Key, run: &[Row], buffer: &mut Rows64) -> bool
    requires going { cursor.old.done ≡ false }
    requires ahead { is_below cursor.old.next (end_of high cursor.old) ≡ true }
    ensures under_way { (g : Graph) (first : Cursor) → run.now ≡ rows g cursor.old.next (end_of high cursor.old)
        → IsUnderWay g first cursor.old buffer.old → IsUnderWay g first cursor.new buffer.new }
    ensures until { cursor.new.until ≡ cursor.old.until }
    ensures portion { result ≡ true → (cursor.new.done ≡ true)
        ⊎ ((cursor.new.done ≡ false) × (length buffer.new ≡ 64)) }
    ensures onward { result ≡ false → (cursor.new.done ≡ false) × (length buffer.new < 64)
        × (cursor.new.next ≡ high) }
{
    let mut stepped = *cursor;
    step(&mut stepped, high, run, buffer);
    cursor.next = stepped.next;
    cursor.done = stepped.done;
    cursor.done || buffer.len() == 64
}
