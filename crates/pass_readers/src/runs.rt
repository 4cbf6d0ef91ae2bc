//! Runs of rows that a reader reads in a cell that it takes.
//!
//! 1. The cell stays in hand from before the clock is loaded until the last row is copied, so no record in it gets its
//!    stamp meanwhile.

ghost use Rattle.std.specs.Prelude.{◌≡◌, ◌≤◌, true, false, length};
ghost use Rattle.graph_model.specs.Rows.{is_below, rows};
ghost use Rattle.pass_cells.specs.Taken.{rows_in};
ghost use Rattle.pass_readers.specs.Hand.{HasNothing, HasReadInHand, KeepsReader, ReadsInHand};
ghost use Rattle.pass_readers.specs.Looks.{asked_by};
ghost use Rattle.pass_readers.specs.Readers.{IsSnapshotOf, read_by, seen_by};
ghost use Rattle.pass_readers.specs.Runs.{IsRunTo};

use crate::hand::{learn_in_hand, put_cells_back, take_cells};
use crate::looks::{ReaderStates, Reading};
use graph_model::{Key, Row, Rows64};
use pass_cells::below::Rows32;
use pass_cells::{PassCells, TakenCells, rows_in_hand_are_known};
use pass_steps::below::{Pass, Store};
use std::marker::Brand;
use std::sync::Wait;
use undo_chain::Snapshot;

/// Reads the rows that the reader sees from a key on and before another, as far as the first key's cell goes, and
/// answers where they end. They take the place of those in the buffer. May wait, and takes no memory.
pub fn read_run(
    rt: &impl Wait,
    store: &Store,
    reader: &mut Pass,
    cells: &mut PassCells,
    snapshot: &Snapshot,
    from: Key,
    until: Key,
    run: &mut Rows64,
) -> Key
    requires none { HasNothing store.now reader.old cells.old.taken.list.items }
    requires snapshot { IsSnapshotOf (read_by reader.old) snapshot.now }
    requires ahead { is_below from until ≡ true }
    ensures none { HasNothing store.now reader.new cells.new.taken.list.items }
    ensures kept { KeepsReader reader.old reader.new }
    ensures run { IsRunTo result (seen_by store.now.accounts.config (read_by reader.old)) from until run.new }
{
    take_cells(rt, store, reader, cells, &[from]);
    // Once, with the cell in hand: a commit is published by then or isn't, and that for all rows of the run alike.
    let clock = learn_in_hand(store, reader, cells);
    let end = read_in_hand(
        store,
        reader,
        &cells.taken,
        clock,
        snapshot,
        from,
        until,
        run,
    );
    put_cells_back(store, reader, cells);
    end
}

/// The same where the cell is in hand, and the reader has learnt of its rows.
fn read_in_hand(
    store: &Store,
    reader: &mut Pass,
    taken: &TakenCells,
    clock: u64,
    snapshot: &Snapshot,
    from: Key,
    until: Key,
    run: &mut Rows64,
) -> Key
    requires reading { ReadsInHand store.now reader.old taken.now.list.items clock snapshot.now }
    requires held { (rows_in taken.now).holds from ≡ true }
    requires ahead { is_below from until ≡ true }
    ensures hand { HasReadInHand store.now reader.new taken.now.list.items }
    ensures kept { KeepsReader reader.old reader.new }
    ensures run { IsRunTo result (seen_by store.now.accounts.config (read_by reader.old)) from until run.new }
{
    read_as::<Brand>(store, reader, taken, clock, snapshot, from, until, run)
}

/// The same by whoever asks.
fn read_as<B: Reading>(
    store: &Store,
    reader: &mut Pass,
    taken: &TakenCells,
    clock: u64,
    snapshot: &Snapshot,
    from: Key,
    until: Key,
    run: &mut Rows64,
) -> Key
    requires asking { B.asking ≡ asked_by store.now reader.old clock }
    requires reading { ReadsInHand store.now reader.old taken.now.list.items clock snapshot.now }
    requires held { (rows_in taken.now).holds from ≡ true }
    requires ahead { is_below from until ≡ true }
    ensures hand { HasReadInHand store.now reader.new taken.now.list.items }
    ensures kept { KeepsReader reader.old reader.new }
    ensures run { IsRunTo result (seen_by store.now.accounts.config (read_by reader.old)) from until run.new }
{
    rows_in_hand_are_known();
    let mut buffer = Rows32::new();
    let mut states = ReaderStates::<B>::lend(store, reader, clock);
    let lent = taken.run(from, until, snapshot, &mut states, &mut buffer);
    // Rows without records are lent as they stand in the cell, so they are copied before it is given back.
    copy_rows(lent.rows, run);
    let end = lent.end;
    states.give_back(reader);
    end
}

/// Puts these rows into the place of those in the buffer.
fn copy_rows(rows: &[Row], run: &mut Rows64)
    requires { length rows.now ≤ 64 }
    ensures { run.new ≡ rows.now }
{
    run.clear();
    'rows: for row in rows {
        run.push(*row);
    }
}
