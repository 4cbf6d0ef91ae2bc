//! Scans of an open transaction, cell after cell.
//!
//! 1. A cursor keeps a key and no position, so rows may move between two cells.
//! 2. No cell covers a key from `Key::END` on, so a scan ends there at the latest.

ghost use Rattle.std.specs.Prelude.{◌≡◌, ◌⊎◌, ◌<◌, [], true, false, length};
ghost use Rattle.graph_model.specs.declared.row.Cursor.{Cursor};
ghost use Rattle.graph_model.specs.Graph.{Graph};
ghost use Rattle.graph_model.specs.Rows.{is_below, rows};
ghost use Rattle.graph_model.specs.Scans.{ScansBy, rows_left};
ghost use Rattle.edge_scan.specs.Steps.{IsUnderWay, end_of};
ghost use Rattle.pass_prunes.specs.PassCells.Taken.{rows_in};
ghost use Rattle.pass_prunes.specs.PassSteps.Asking.{KnowsLooks, asking_of};
ghost use Rattle.pass_prunes.specs.PassSteps.Passes.{state_of};
ghost use Rattle.pass_writes.specs.Found.{view_of};
ghost use Rattle.pass_writes.specs.Hand.{HasAllBack, HasNothing, ReadsInHand};
ghost use Rattle.pass_writes.specs.Making.{IsOpenIn, NotesOnly};
ghost use Rattle.pass_writes.specs.Scanning.{EndsWithKeys, HasMore, IsPortion};

use crate::hand::{put_cells_back, take_cells};
use edge_scan::step;
use graph_model::{Begun, Cursor, Key, Row, Rows64};
use pass_prunes::below::{
    Asker, Pass, PassCells, PassStates, Rows32, Store, TakenCells, learn, rows_in_hand_are_known,
};
use std::marker::Brand;
use std::sync::Wait;
use undo_chain::Snapshot;

/// Gives the next rows that the open transaction sees, 64 at most, given what its begin answered. Takes no memory.
pub fn scan(
    rt: &impl Wait,
    store: &Store,
    pass: &mut Pass,
    cells: &mut PassCells,
    begun: Begun,
    cursor: &mut Cursor,
    rows: &mut Rows64,
)
    requires none { HasNothing store.now pass.old cells.old.taken.list.items }
    requires opened { IsOpenIn begun pass.old }
    requires ends { EndsWithKeys (view_of store.now.accounts.config.kind (state_of pass.old)) }
    requires going { cursor.old.done ≡ false }
    ensures answer { ScansBy (view_of store.now.accounts.config.kind (state_of pass.old)) cursor.old cursor.new rows.new }
    ensures state { NotesOnly (state_of pass.old) (state_of pass.new) }
    ensures back { HasAllBack store.now pass.old pass.new cells.new.taken.list.items }
{
    rows.clear();
    let mut buffer = Rows32::new();
    // A cell may have no row of the range, so there is no bound on how many a portion takes.
    'cells: for _cell in rt.forever() {
        if !has_more(cursor) {
            cursor.done = true;
            return;
        }
        if scan_cell(rt, store, pass, cells, begun, cursor, rows, &mut buffer) {
            return;
        }
    }
    unreachable!()
}

/// Whether a scan may still come to rows.
fn has_more(cursor: &Cursor) -> bool
    ensures ahead { result ≡ true → is_below cursor.now.next cursor.now.until ≡ true }
    ensures none { result ≡ false → (g : Graph) → EndsWithKeys g → rows_left g cursor.now ≡ [] }
{
    cursor.next.is_below(cursor.until) && cursor.next.is_below(Key::end())
}

/// Goes on in the cell of the next key. Answers whether the portion is whole.
fn scan_cell(
    rt: &impl Wait,
    store: &Store,
    pass: &mut Pass,
    cells: &mut PassCells,
    begun: Begun,
    cursor: &mut Cursor,
    rows: &mut Rows64,
    buffer: &mut Rows32,
) -> bool
    requires none { HasNothing store.now pass.old cells.old.taken.list.items }
    requires opened { IsOpenIn begun pass.old }
    requires more { HasMore cursor.old }
    ensures portion { IsPortion (view_of store.now.accounts.config.kind (state_of pass.old)) cursor.old cursor.new
        rows.old rows.new result }
    ensures state { NotesOnly (state_of pass.old) (state_of pass.new) }
    ensures back { HasAllBack store.now pass.old pass.new cells.new.taken.list.items }
{
    take_cells(rt, store, pass, cells, &[cursor.next]);
    // Each cell by a clock of its own: whoever commits meanwhile has a stamp above the transaction's start.
    let clock = learn(store, pass);
    let snapshot = Snapshot {
        start: begun.start,
        own: begun.by,
    };
    let taken = &cells.taken;
    let whole = scan_in_hand(store, pass, taken, clock, &snapshot, cursor, rows, buffer);
    // Before the next cell is taken: rows may move in between, and the cursor's key finds them where they are.
    put_cells_back(store, pass, cells);
    whole
}

/// The same where the cell is in hand, and the pass has learnt of its rows.
fn scan_in_hand(
    store: &Store,
    pass: &mut Pass,
    taken: &TakenCells,
    clock: u64,
    snapshot: &Snapshot,
    cursor: &mut Cursor,
    rows: &mut Rows64,
    buffer: &mut Rows32,
) -> bool
    requires reading { ReadsInHand store.now pass.old taken.now.list.items clock snapshot.now }
    requires held { (rows_in taken.now).holds cursor.old.next ≡ true }
    requires more { HasMore cursor.old }
    ensures looked { KnowsLooks pass.old.account.me.0 pass.old pass.new }
    ensures portion { IsPortion (view_of store.now.accounts.config.kind (state_of pass.old)) cursor.old cursor.new
        rows.old rows.new result }
{
    scan_as::<Brand>(store, pass, taken, clock, snapshot, cursor, rows, buffer)
}

/// The same by whoever asks.
fn scan_as<B: Asker>(
    store: &Store,
    pass: &mut Pass,
    taken: &TakenCells,
    clock: u64,
    snapshot: &Snapshot,
    cursor: &mut Cursor,
    rows: &mut Rows64,
    buffer: &mut Rows32,
) -> bool
    requires asking { B.asking ≡ asking_of store.now pass.old clock }
    requires reading { ReadsInHand store.now pass.old taken.now.list.items clock snapshot.now }
    requires held { (rows_in taken.now).holds cursor.old.next ≡ true }
    requires more { HasMore cursor.old }
    ensures looked { KnowsLooks pass.old.account.me.0 pass.old pass.new }
    ensures portion { IsPortion (view_of store.now.accounts.config.kind (state_of pass.old)) cursor.old cursor.new
        rows.old rows.new result }
{
    rows_in_hand_are_known();
    let mut states = PassStates::<B>::lend(store, pass, clock);
    let run = taken.run(cursor.next, cursor.until, snapshot, &mut states, buffer);
    let whole = has_portion(cursor, run.end, run.rows, rows);
    states.give_back(pass);
    whole
}

/// Takes a step of a scan, and answers whether it has given the next portion: it is done then, or the buffer is full.
fn has_portion(cursor: &mut Cursor, high: Key, run: &[Row], buffer: &mut Rows64) -> bool
    requires going { cursor.old.done ≡ false }
    requires ahead { is_below cursor.old.next (end_of high cursor.old) ≡ true }
    ensures under_way { (g : Graph) (first : Cursor) → run.now ≡ rows g cursor.old.next (end_of high cursor.old)
        → IsUnderWay g first cursor.old buffer.old → IsUnderWay g first cursor.new buffer.new }
    ensures portion { result ≡ true → (cursor.new.done ≡ true)
        ⊎ ((cursor.new.done ≡ false) × (length buffer.new ≡ 64)) }
    ensures onward { result ≡ false → (cursor.new.done ≡ false) × (length buffer.new < 64) }
{
    step(cursor, high, run, buffer);
    cursor.done || buffer.len() == 64
}
