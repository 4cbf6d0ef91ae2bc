//! Scans of an open transaction, cell after cell.
//!
//! 1. The rows of a cell are read without its latch, straight into the caller's buffer. Where somebody changes a cell
//!    meanwhile the portion is read again.
//! 2. Where a row has undo records, the latch of its cell is taken, and the rows from its own on are read as they lie.
//!    Where a cell stays busy, or no hint has it, the whole portion is read anew by latches.
//! 3. The rows of a cell end with its high fence key, from which the scan goes on. So nothing is left out, whichever
//!    cells are looked at: first the one in which the last step ended, after a cell the one with the next number, since
//!    the cells of a leaf stand in the order of their keys, and then the one that a hint names.

ghost use Rattle.std.specs.Prelude.{◌≡◌, ◌⊎◌, ◌<◌, [], true, false, length, IfSome};
ghost use Rattle.graph_model.specs.declared.row.Cursor.{Cursor};
ghost use Rattle.graph_model.specs.Graph.{Graph};
ghost use Rattle.graph_model.specs.Rows.{is_below, rows};
ghost use Rattle.graph_model.specs.Scans.{ScansBy};
ghost use Rattle.edge_scan.specs.Steps.{IsUnderWay};
ghost use Rattle.reader_parts.specs.OptimisticRead.Runs.{EndsRun, IsRun};
ghost use Rattle.reader_parts.specs.SharedStore.Passes.{IsOpen, KeepsOpen, view_in};
ghost use Rattle.worker_calls.specs.Scanned.{ReadsNone};

use crate::reads::{TRIES, likely_cell};
use crate::scan_place::ScanPlace;
use edge_scan::step;
use graph_model::{Cursor, Key, Row, Rows64};
use pass_scans::below::Rows32;
use pass_scans::{PackedRun, read_packed};
use reader_parts::below::{self, CellRoute, Pass, Store, TriedRun, try_run};
use std::hint::spin_loop;
use std::sync::Wait;

/// Takes one turn of a scan: the next rows that the open transaction sees, 64 at most, take the place of those in the
/// buffer. May wait, and takes no memory.
pub fn scan_step(
    rt: &impl Wait,
    store: &Store,
    pass: &mut Pass,
    place: &mut ScanPlace,
    cursor: &mut Cursor,
    rows: &mut Rows64,
)
    requires opened { IsOpen store.now pass.old }
    requires going { cursor.old.done ≡ false }
    ensures kept { KeepsOpen store.now pass.old pass.new }
    ensures answer { ScansBy (view_in store.now pass.old) cursor.old cursor.new rows.new }
{
    // A portion is read whole or not at all: what a try has read of it is let go, and the next one begins at the same
    // key.
    let first = *cursor;
    'tries: for _ in 0..TRIES {
        *cursor = first;
        rows.clear();
        if read_portion(rt, store, pass, place, cursor, rows) {
            return;
        }
        // Whoever changes the cell is soon done.
        spin_loop();
    }
    // Where it stays busy the latch is waited for: then the scan goes on for certain.
    *cursor = first;
    below::scan_step(rt, store, pass, cursor, rows);
}

/// Reads the next portion into an empty buffer. Answers false where a try in a cell comes to nothing.
fn read_portion(
    rt: &impl Wait,
    store: &Store,
    pass: &mut Pass,
    place: &mut ScanPlace,
    cursor: &mut Cursor,
    rows: &mut Rows64,
) -> bool
    requires opened { IsOpen store.now pass.old }
    requires going { cursor.old.done ≡ false }
    requires empty { rows.old ≡ [] }
    ensures kept { KeepsOpen store.now pass.old pass.new }
    ensures answer { result ≡ true → ScansBy (view_in store.now pass.old) cursor.old cursor.new rows.new }
{
    'cells: for _cell in rt.forever() {
        if !cursor.next.is_below(cursor.until) {
            cursor.done = true;
            return true;
        }
        if !read_on(rt, store, pass, place, cursor, rows) {
            return false;
        }
        // The buffer is full, or the scan is over.
        if is_whole(cursor, rows) {
            return true;
        }
        // The next cell in key order often has the next number, so it is looked at first.
        place.go_on();
    }
    unreachable!()
}

/// Whether the portion is whole: the scan is done then, or there is no room left.
fn is_whole(cursor: &Cursor, rows: &Rows64) -> bool
    ensures whole { result ≡ true → (cursor.now.done ≡ true)
        ⊎ ((cursor.now.done ≡ false) × (length rows.now ≡ 64)) }
    ensures onward { result ≡ false → (cursor.now.done ≡ false) × (length rows.now < 64) }
{
    cursor.done || rows.len() == 64
}

/// Reads the rows of the next key's cell, and those with records by latches.
fn read_on(
    rt: &impl Wait,
    store: &Store,
    pass: &mut Pass,
    place: &mut ScanPlace,
    cursor: &mut Cursor,
    rows: &mut Rows64,
) -> bool
    requires opened { IsOpen store.now pass.old }
    requires going { cursor.old.done ≡ false }
    requires ahead { is_below cursor.old.next cursor.old.until ≡ true }
    ensures kept { KeepsOpen store.now pass.old pass.new }
    ensures on { result ≡ true → (first : Cursor)
        → IsUnderWay (view_in store.now pass.old) first cursor.old rows.old
        → IsUnderWay (view_in store.now pass.old) first cursor.new rows.new }
{
    match try_likely(store, pass, place, cursor, rows) {
        TriedRun::Rows { end } => {
            go_to(cursor, end, rows);
            true
        }
        TriedRun::Chained { key, end } => {
            // The rows before this one are in the buffer and right; from it on records have to be read.
            cursor.next = key;
            read_chained(rt, store, pass, place, cursor, end, rows)
        }
        _ => false,
    }
}

/// The scan goes on at this key, and is done where it is the last one and there is room left.
fn go_to(cursor: &mut Cursor, end: Key, rows: &Rows64)
    ensures next { cursor.new.next ≡ end }
    ensures until { cursor.new.until ≡ cursor.old.until }
    ensures ended { cursor.new.done ≡ true → (is_below end cursor.old.until ≡ false) × (length rows.now < 64) }
{
    cursor.next = end;
    cursor.done = is_last(end, cursor.until, rows);
}

/// Whether a key is the end of the scan, and there is room left.
fn is_last(end: Key, until: Key, rows: &Rows64) -> bool
    ensures { result ≡ true → (is_below end until ≡ false) × (length rows.now < 64) }
{
    !end.is_below(until) && rows.len() < 64
}

/// Reads rows by latches, where one has undo records: those of the scan's cell as they lie, or where it isn't the next
/// key's any more, those before this end. Answers false where they are too many for one portion.
fn read_chained(
    rt: &impl Wait,
    store: &Store,
    pass: &mut Pass,
    place: &mut ScanPlace,
    cursor: &mut Cursor,
    end: Key,
    rows: &mut Rows64,
) -> bool
    requires opened { IsOpen store.now pass.old }
    requires going { cursor.old.done ≡ false }
    requires ends { EndsRun end cursor.old.next cursor.old.until }
    ensures kept { KeepsOpen store.now pass.old pass.new }
    ensures on { result ≡ true → (first : Cursor)
        → IsUnderWay (view_in store.now pass.old) first cursor.old rows.old
        → IsUnderWay (view_in store.now pass.old) first cursor.new rows.new }
{
    let mut run = Rows32::new();
    let cell = place.cell;
    match read_cell(rt, store, pass, cell, cursor.next, cursor.until, &mut run) {
        Some(read) => {
            place.note_met(cell, read.may_settle);
            take_run(cursor, read.end, run.as_slice(), rows);
            true
        }
        None => read_held(rt, store, pass, cursor, end, rows),
    }
}

/// Reads the rows from a key on and before another by the latch of this cell, as far as it goes, and answers where they
/// end, or nothing where it isn't the first key's.
fn read_cell(
    rt: &impl Wait,
    store: &Store,
    pass: &mut Pass,
    cell: u32,
    from: Key,
    until: Key,
    run: &mut Rows32,
) -> Option<PackedRun>
    requires opened { IsOpen store.now pass.old }
    requires ahead { is_below from until ≡ true }
    ensures kept { KeepsOpen store.now pass.old pass.new }
    ensures run { IfSome result (λ read. EndsRun read.end from until
        × (run.new ≡ rows (view_in store.now pass.old) from read.end)) }
{
    let begun = pass.latest();
    read_packed(rt, store, &mut pass.seats, begun, cell, from, until, run)
}

/// Reads the rows before this end by latches, as many as there is room for. Answers false where they are too many for
/// one cell.
fn read_held(
    rt: &impl Wait,
    store: &Store,
    pass: &mut Pass,
    cursor: &mut Cursor,
    end: Key,
    rows: &mut Rows64,
) -> bool
    requires opened { IsOpen store.now pass.old }
    requires going { cursor.old.done ≡ false }
    requires ends { EndsRun end cursor.old.next cursor.old.until }
    ensures kept { KeepsOpen store.now pass.old pass.new }
    ensures on { result ≡ true → (first : Cursor)
        → IsUnderWay (view_in store.now pass.old) first cursor.old rows.old
        → IsUnderWay (view_in store.now pass.old) first cursor.new rows.new }
{
    let mut run = Rows64::new();
    let mut part = Cursor {
        next: cursor.next,
        until: end,
        done: false,
    };
    below::scan_step(rt, store, pass, &mut part, &mut run);
    // The rest of the cell and what is in the buffer are too much for one portion: then all of it is read by latches.
    if !part.done {
        return false;
    }
    take_run(cursor, end, run.as_slice(), rows);
    true
}

/// Takes the rows that were read before this end.
fn take_run(cursor: &mut Cursor, end: Key, run: &[Row], given: &mut Rows64)
    requires going { cursor.old.done ≡ false }
    requires ends { EndsRun end cursor.old.next cursor.old.until }
    ensures under_way { (g : Graph) (first : Cursor) → run.now ≡ rows g cursor.old.next end
        → IsUnderWay g first cursor.old given.old → IsUnderWay g first cursor.new given.new }
{
    step(cursor, end, run, given);
}

/// What tries near the place of the scan have found last, or where no cell there has the key, in the one that a hint
/// names.
fn try_likely(
    store: &Store,
    pass: &mut Pass,
    place: &mut ScanPlace,
    cursor: &Cursor,
    rows: &mut Rows64,
) -> TriedRun
    requires opened { IsOpen store.now pass.old }
    requires ahead { is_below cursor.now.next cursor.now.until ≡ true }
    ensures kept { KeepsOpen store.now pass.old pass.new }
    ensures run { IsRun result (view_in store.now pass.old) cursor.now.next cursor.now.until rows.old rows.new }
{
    let tried = try_near(store, pass, place, cursor, rows);
    if !has_moved(&tried) {
        return tried;
    }
    place.cell = likely_cell(store, &mut pass.cells.hints, cursor.next);
    try_cell(store, pass, place.cell, cursor, rows)
}

/// What tries in the scan's cell, or where its keys end before the next one, in the cell with the next number, have
/// found last.
fn try_near(
    store: &Store,
    pass: &mut Pass,
    place: &mut ScanPlace,
    cursor: &Cursor,
    rows: &mut Rows64,
) -> TriedRun
    requires opened { IsOpen store.now pass.old }
    requires ahead { is_below cursor.now.next cursor.now.until ≡ true }
    ensures kept { KeepsOpen store.now pass.old pass.new }
    ensures run { IsRun result (view_in store.now pass.old) cursor.now.next cursor.now.until rows.old rows.new }
{
    let tried = try_cell(store, pass, place.cell, cursor, rows);
    if !is_behind(&tried, cursor.next) {
        return tried;
    }
    place.go_on();
    try_cell(store, pass, place.cell, cursor, rows)
}

/// Whether the cell that was tried has keys before this one alone.
fn is_behind(tried: &TriedRun, key: Key) -> bool
    ensures { result ≡ true → ReadsNone tried.now }
{
    match tried {
        TriedRun::Moved { high, .. } => !key.is_below(*high),
        _ => false,
    }
}

/// Whether the cell that was tried has other keys.
fn has_moved(tried: &TriedRun) -> bool
    ensures { result ≡ true → ReadsNone tried.now }
{
    matches!(tried, TriedRun::Moved { .. })
}

/// What a try to read the next rows in a cell has found. No key is in a cell that isn't one of the store.
fn try_cell(
    store: &Store,
    pass: &mut Pass,
    cell: u32,
    cursor: &Cursor,
    rows: &mut Rows64,
) -> TriedRun
    requires opened { IsOpen store.now pass.old }
    requires ahead { is_below cursor.now.next cursor.now.until ≡ true }
    ensures kept { KeepsOpen store.now pass.old pass.new }
    ensures run { IsRun result (view_in store.now pass.old) cursor.now.next cursor.now.until rows.old rows.new }
{
    // The place of a scan may name no cell, as at its begin.
    if cell >= store.index_place() {
        return TriedRun::Moved {
            low: Key::END,
            high: Key::END,
        };
    }
    try_run(
        store,
        &mut pass.seats,
        &CellRoute { cell },
        cursor.next,
        cursor.until,
        rows,
    )
}
