//! What the open transaction reads.
//!
//! 1. These reads take latches, one cell at a time, and wait for it; `optimistic_read` has those that don't.
//! 2. A read changes no row, and writes no word of the store but latches.

ghost use Rattle.std.specs.Prelude.{◌≡◌, ◌≤◌, false};
ghost use Rattle.graph_model.specs.declared.limits.TheConstants.{MAX_ID};
ghost use Rattle.graph_model.specs.Graph.{has_vertex, weight_of};
ghost use Rattle.graph_model.specs.Scans.{ScansBy};
ghost use Rattle.shared_store.specs.Passes.{IsOpen, KeepsOpen, view_in};

use crate::pass::Pass;
use graph_model::{Cursor, Key, Rows64};
use pass_writes::below::Store;
use pass_writes::{scan, value};
use std::sync::Wait;

/// Whether the open transaction sees a vertex. May wait, and takes no memory.
pub fn has_vertex(rt: &impl Wait, store: &Store, pass: &mut Pass, v: u64) -> bool
    requires opened { IsOpen store.now pass.old }
    requires within { v ≤ MAX_ID }
    ensures kept { KeepsOpen store.now pass.old pass.new }
    ensures answer { result ≡ has_vertex (view_in store.now pass.old) v }
{
    let begun = pass.latest();
    let key = Key::of_vertex(v);
    value(rt, store, &mut pass.seats, &mut pass.cells, begun, key).is_some()
}

/// The weight of an arc that the open transaction sees. May wait, and takes no memory.
pub fn weight(rt: &impl Wait, store: &Store, pass: &mut Pass, u: u64, v: u64) -> Option<u64>
    requires opened { IsOpen store.now pass.old }
    requires source_within { u ≤ MAX_ID }
    requires target_within { v ≤ MAX_ID }
    ensures kept { KeepsOpen store.now pass.old pass.new }
    ensures answer { result ≡ weight_of (view_in store.now pass.old) u v }
{
    let begun = pass.latest();
    let key = Key::of_arc(u, v);
    value(rt, store, &mut pass.seats, &mut pass.cells, begun, key)
}

/// Takes one turn of a scan: the next rows that the open transaction sees, 64 at most, take the place of those in the
/// buffer. Goes from cell to cell, and holds one at a time. May wait, and takes no memory.
pub fn scan_step(
    rt: &impl Wait,
    store: &Store,
    pass: &mut Pass,
    cursor: &mut Cursor,
    rows: &mut Rows64,
)
    requires opened { IsOpen store.now pass.old }
    requires going { cursor.old.done ≡ false }
    ensures kept { KeepsOpen store.now pass.old pass.new }
    ensures answer { ScansBy (view_in store.now pass.old) cursor.old cursor.new rows.new }
{
    let begun = pass.latest();
    scan(
        rt,
        store,
        &mut pass.seats,
        &mut pass.cells,
        begun,
        cursor,
        rows,
    );
}
