//! Whether a vertex has edges, as the open transaction sees.
//!
//! 1. Scans with one cell in hand at a time, and none between two: so they may wait as long as it takes.

ghost use Rattle.std.specs.Prelude.{◌≡◌, ◌≤◌, false};
ghost use Rattle.std.specs.List.{list_any};
ghost use Rattle.graph_model.specs.declared.limits.TheConstants.{MAX_ID};
ghost use Rattle.graph_model.specs.Graph.{has_edges};
ghost use Rattle.graph_model.specs.Rows.{rows};
ghost use Rattle.leaf_rows.specs.Runs.{has_second};
ghost use Rattle.shared_store.specs.Passes.{IsOpen, KeepsOpen, view_in};

use crate::pass::Pass;
use crate::reads::scan_step;
use graph_model::{Cursor, Key, Kind, Rows64};
use leaf_rows::any_with;
use pass_writes::below::Store;
use std::sync::Wait;

/// Whether a vertex is an end of an arc. Where arcs have a direction, those that lead to the vertex are looked for in
/// all rows.
pub(crate) fn has_edges(rt: &impl Wait, store: &Store, pass: &mut Pass, v: u64) -> bool
    requires opened { IsOpen store.now pass.old }
    requires within { v ≤ MAX_ID }
    ensures kept { KeepsOpen store.now pass.old pass.new }
    ensures answer { result ≡ has_edges (view_in store.now pass.old) v }
{
    let first = Key { src: v, second: 1 };
    // The arcs that lead from the vertex are one range, and in an undirected graph each edge has one of them.
    if sees_any(rt, store, pass, first, Key::of_vertex(v + 1), None) {
        return true;
    }
    match store.config().kind {
        // An arc that leads to the vertex may have any source, so all rows are looked through; only a removal of a
        // vertex pays for it.
        Kind::Directed => sees_any(rt, store, pass, Key::of_vertex(0), Key::end(), Some(v + 1)),
        Kind::Undirected => false,
    }
}

/// Whether there is a row in a key range, with this second number in its key if one is given.
fn sees_any(
    rt: &impl Wait,
    store: &Store,
    pass: &mut Pass,
    from: Key,
    until: Key,
    second: Option<u64>,
) -> bool
    requires opened { IsOpen store.now pass.old }
    ensures kept { KeepsOpen store.now pass.old pass.new }
    ensures answer { result ≡ list_any (has_second second) (rows (view_in store.now pass.old) from until) }
{
    let mut cursor = Cursor {
        next: from,
        until,
        done: false,
    };
    let mut rows = Rows64::new();
    'turns: while !cursor.done {
        scan_step(rt, store, pass, &mut cursor, &mut rows);
        if any_with(rows.as_slice(), second) {
            return true;
        }
    }
    false
}
