//! Runs of rows that a reader reads.
//!
//! 1. First without a latch, for as many tries as a change of a cell may last; then by the cell's latch.
//! 2. Each run ends after its first key, so whoever goes on from there gets to the end.

ghost use Rattle.std.specs.Prelude.{◌≡◌, true, IfSome};
ghost use Rattle.graph_model.specs.Rows.{is_below};
ghost use Rattle.optimistic_read.specs.Runs.{IsRun};
ghost use Rattle.pass_readers.specs.Runs.{IsRunTo};
ghost use Rattle.shared_readers.specs.Readers.{IsReader, KeepsReading, seen_in};
ghost use Rattle.shared_readers.specs.Runs.{ReadsNone, ReadsTo};

use crate::place::ReadPlace;
use crate::reader::SnapshotReader;
use graph_model::{Key, Rows64};
use optimistic_read::{CellRoute, TriedRun, try_reader_run};
use shared_store::Store;
use std::hint::spin_loop;
use std::sync::Wait;

/// How often a cell that somebody changes is read before its latch is taken. A change of a cell takes about as long as
/// a few reads.
const TRIES: u32 = 4;

/// So many cells are looked at for a key: as many as a leaf has.
const MOST_LOOKS: u32 = 8;

/// Reads the rows that the reader sees from a key on and before another, as far as one cell goes at most, and answers
/// where they end. They take the place of those in the buffer. May wait, and takes no memory.
pub fn read_run(
    rt: &impl Wait,
    store: &Store,
    reader: &mut SnapshotReader,
    place: &mut ReadPlace<'_>,
    from: Key,
    until: Key,
    run: &mut Rows64,
) -> Key
    requires reader { IsReader store.now reader.old }
    requires ahead { is_below from until ≡ true }
    ensures kept { KeepsReading store.now reader.old reader.new }
    ensures run { IsRunTo result (seen_in store.now reader.old) from until run.new }
{
    match try_run(store, reader, place, from, until, run) {
        Some(end) => end,
        // The latch is waited for, so a cell that stays busy keeps nobody from its rows for good.
        None => read_held(rt, store, reader, from, until, run),
    }
}

/// Reads the run in a cell that it takes.
fn read_held(
    rt: &impl Wait,
    store: &Store,
    reader: &mut SnapshotReader,
    from: Key,
    until: Key,
    run: &mut Rows64,
) -> Key
    requires reader { IsReader store.now reader.old }
    requires ahead { is_below from until ≡ true }
    ensures kept { KeepsReading store.now reader.old reader.new }
    ensures run { IsRunTo result (seen_in store.now reader.old) from until run.new }
{
    let SnapshotReader { pass, snapshot } = reader;
    pass_readers::read_run(
        rt,
        store,
        &mut pass.seats,
        &mut pass.cells,
        snapshot,
        from,
        until,
        run,
    )
}

/// Where the run ends that tries without a latch have read. None where they come to nothing: the buffer has anything in
/// it then.
fn try_run(
    store: &Store,
    reader: &mut SnapshotReader,
    place: &mut ReadPlace<'_>,
    from: Key,
    until: Key,
    run: &mut Rows64,
) -> Option<Key>
    requires reader { IsReader store.now reader.old }
    requires ahead { is_below from until ≡ true }
    ensures kept { KeepsReading store.now reader.old reader.new }
    ensures run { IfSome result (λ end. IsRunTo end (seen_in store.now reader.old) from until run.new) }
{
    'tries: for _ in 0..TRIES {
        // A torn read may have left anything in the buffer.
        run.clear();
        let tried = try_near(store, reader, place, from, until, run);
        if !matches!(tried, TriedRun::Busy { .. }) {
            place.go_behind(&tried);
            return end_of(&tried, from);
        }
        // A pause and no wait: a change of a cell is over before a thread would be woken.
        spin_loop();
    }
    None
}

/// The end of a run that was read, where that is behind its first key.
fn end_of(tried: &TriedRun, from: Key) -> Option<Key>
    ensures { IfSome result (ReadsTo tried.now from) }
{
    match tried {
        TriedRun::Rows { end } => behind(from, *end),
        TriedRun::Chained { key, .. } => behind(from, *key),
        _ => None,
    }
}

/// A key that is behind another one.
fn behind(from: Key, key: Key) -> Option<Key>
    ensures { IfSome result (λ end. (end ≡ key) × (is_below from end ≡ true)) }
{
    from.is_below(key).then_some(key)
}

/// What tries near the place of the reader have found last, or where no cell there has the key, in the leaf that a hint
/// names.
fn try_near(
    store: &Store,
    reader: &mut SnapshotReader,
    place: &mut ReadPlace<'_>,
    from: Key,
    until: Key,
    run: &mut Rows64,
) -> TriedRun
    requires reader { IsReader store.now reader.old }
    requires ahead { is_below from until ≡ true }
    ensures kept { KeepsReading store.now reader.old reader.new }
    ensures run { IsRun result (seen_in store.now reader.old) from until run.old run.new }
{
    let tried = try_on(store, reader, place, from, until, run);
    if !has_moved(&tried) {
        return tried;
    }
    // Rows have moved, or the reader begins elsewhere: the hints are asked once for it.
    place.go_to(from);
    try_on(store, reader, place, from, until, run)
}

/// What tries in the reader's cell, and as long as their keys end before this one in the next ones of its leaf, have
/// found last.
fn try_on(
    store: &Store,
    reader: &mut SnapshotReader,
    place: &mut ReadPlace<'_>,
    from: Key,
    until: Key,
    run: &mut Rows64,
) -> TriedRun
    requires reader { IsReader store.now reader.old }
    requires ahead { is_below from until ≡ true }
    ensures kept { KeepsReading store.now reader.old reader.new }
    ensures run { IsRun result (seen_in store.now reader.old) from until run.old run.new }
{
    let mut tried = try_cell(store, reader, place.cell, from, until, run);
    'cells: for _ in 1..MOST_LOOKS {
        if !is_behind(&tried, from) {
            return tried;
        }
        // The cells of a leaf stand in the order of their keys, so a later one may have the key.
        place.go_on();
        tried = try_cell(store, reader, place.cell, from, until, run);
    }
    tried
}

/// Whether the cell that was tried has keys before this one alone.
fn is_behind(tried: &TriedRun, key: Key) -> bool
    ensures { result ≡ true → ReadsNone tried.now }
{
    match tried {
        TriedRun::Moved { high, .. } => !key.is_below(*high),
        _ => false,
    }
}

/// Whether the cell that was tried has other keys.
fn has_moved(tried: &TriedRun) -> bool
    ensures { result ≡ true → ReadsNone tried.now }
{
    matches!(tried, TriedRun::Moved { .. })
}

/// What a try to read the run in a cell has found. No key is in a cell that isn't one of the store.
fn try_cell(
    store: &Store,
    reader: &mut SnapshotReader,
    cell: u32,
    from: Key,
    until: Key,
    run: &mut Rows64,
) -> TriedRun
    requires reader { IsReader store.now reader.old }
    requires ahead { is_below from until ≡ true }
    ensures kept { KeepsReading store.now reader.old reader.new }
    ensures run { IsRun result (seen_in store.now reader.old) from until run.old run.new }
{
    if cell >= store.index_place() {
        return TriedRun::Moved {
            low: Key::END,
            high: Key::END,
        };
    }
    try_reader_run(
        store,
        &mut reader.pass.seats.account,
        &CellRoute { cell },
        from,
        until,
        run,
    )
}
