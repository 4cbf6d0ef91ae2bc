//! Scans of a reader, cell after cell.
//!
//! 1. A cursor keeps a key and no position, so rows may move between two cells.

ghost use Rattle.std.specs.Prelude.{◌≡◌, ◌⊎◌, [], true, false, length, ◌<◌};
ghost use Rattle.graph_model.specs.declared.row.Cursor.{Cursor};
ghost use Rattle.graph_model.specs.Graph.{Graph};
ghost use Rattle.graph_model.specs.Rows.{is_below, rows};
ghost use Rattle.graph_model.specs.Scans.{ScansBy, rows_left};
ghost use Rattle.edge_scan.specs.Steps.{IsUnderWay};
ghost use Rattle.shared_readers.specs.Readers.{EndsWithKeys, IsReader, KeepsReading, seen_in};

use crate::place::ReadPlace;
use crate::reader::SnapshotReader;
use crate::runs::read_run;
use edge_scan::step;
use graph_model::{Cursor, Key, Rows64};
use shared_store::Store;
use std::sync::Wait;

/// Takes one turn of a scan: the next rows that the reader sees, 64 at most, take the place of those in the buffer. May
/// wait, and takes no memory.
pub fn scan_reader(
    rt: &impl Wait,
    store: &Store,
    reader: &mut SnapshotReader,
    place: &mut ReadPlace<'_>,
    cursor: &mut Cursor,
    rows: &mut Rows64,
)
    requires reader { IsReader store.now reader.old }
    requires going { cursor.old.done ≡ false }
    ensures kept { KeepsReading store.now reader.old reader.new }
    ensures answer { ScansBy (seen_in store.now reader.old) cursor.old cursor.new rows.new }
{
    let mut run = Rows64::new();
    rows.clear();
    // A cell may have no row of the range, so there is no bound on how many a portion takes.
    'cells: for _cell in rt.forever() {
        if !has_more(cursor) {
            cursor.done = true;
            return;
        }
        let end = read_run(
            rt,
            store,
            reader,
            place,
            cursor.next,
            cursor.until,
            &mut run,
        );
        if take_run(cursor, end, &run, rows) {
            return;
        }
    }
    unreachable!()
}

/// Whether a scan may still come to rows.
fn has_more(cursor: &Cursor) -> bool
    ensures ahead { result ≡ true → is_below cursor.now.next cursor.now.until ≡ true }
    ensures none { result ≡ false → (g : Graph) → EndsWithKeys g → rows_left g cursor.now ≡ [] }
{
    cursor.next.is_below(cursor.until) && cursor.next.is_below(Key::end())
}

/// Takes the rows that were read before this end, and answers whether the portion is whole: the scan is done then, or
/// there is no room left.
fn take_run(cursor: &mut Cursor, end: Key, run: &Rows64, given: &mut Rows64) -> bool
    requires going { cursor.old.done ≡ false }
    requires ahead { is_below cursor.old.next end ≡ true }
    requires inside { is_below cursor.old.until end ≡ false }
    ensures under_way { (g : Graph) (first : Cursor) → run.now ≡ rows g cursor.old.next end
        → IsUnderWay g first cursor.old given.old → IsUnderWay g first cursor.new given.new }
    ensures whole { result ≡ true → (cursor.new.done ≡ true)
        ⊎ ((cursor.new.done ≡ false) × (length given.new ≡ 64)) }
    ensures onward { result ≡ false → (cursor.new.done ≡ false) × (length given.new < 64) }
{
    step(cursor, end, run.as_slice(), given);
    cursor.done || given.len() == 64
}
