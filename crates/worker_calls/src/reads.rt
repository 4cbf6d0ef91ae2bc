//! Reads of a key by an open transaction.
//!
//! 1. A hint names the cell that is likely to be the key's. It is read without its latch, and again where somebody
//!    changes it meanwhile.
//! 2. Where that gives no value the latch is taken: the cell is not the key's, its row has undo records, or it stays
//!    busy. Then the index is asked where the hint was wrong, so the next read has a better one.

ghost use Rattle.std.specs.Prelude.{◌≡◌, ◌≤◌, ◌<◌, IfSome};
ghost use Rattle.graph_model.specs.declared.limits.TheConstants.{MAX_ID};
ghost use Rattle.graph_model.specs.Graph.{has_vertex, weight_of};
ghost use Rattle.graph_model.specs.Rows.{value_at};
ghost use Rattle.reader_parts.specs.RuleModel.Sight.{cells_of};
ghost use Rattle.reader_parts.specs.SharedStore.Passes.{IsOpen, KeepsOpen, view_in};
ghost use Rattle.reader_parts.specs.OptimisticRead.Tried.{IsValueOf};

use graph_model::Key;
use pass_room::below::CellHints;
use reader_parts::below::{self, CellRoute, Pass, Store, Tried, try_key};
use std::hint::spin_loop;
use std::sync::Wait;

/// How often a cell that somebody changes is read before its latch is taken. A change of a cell takes about as long as
/// a few reads.
pub(crate) const TRIES: u32 = 4;

/// Whether the open transaction sees a vertex. May wait, and takes no memory.
pub fn has_vertex(rt: &impl Wait, store: &Store, pass: &mut Pass, v: u64) -> bool
    requires opened { IsOpen store.now pass.old }
    requires within { v ≤ MAX_ID }
    ensures kept { KeepsOpen store.now pass.old pass.new }
    ensures answer { result ≡ has_vertex (view_in store.now pass.old) v }
{
    match try_value(store, pass, Key::of_vertex(v)) {
        Some(Tried::Value { weight }) => weight.is_some(),
        _ => below::has_vertex(rt, store, pass, v),
    }
}

/// The weight of an arc that the open transaction sees. May wait, and takes no memory.
pub fn weight(rt: &impl Wait, store: &Store, pass: &mut Pass, u: u64, v: u64) -> Option<u64>
    requires opened { IsOpen store.now pass.old }
    requires source_within { u ≤ MAX_ID }
    requires target_within { v ≤ MAX_ID }
    ensures kept { KeepsOpen store.now pass.old pass.new }
    ensures answer { result ≡ weight_of (view_in store.now pass.old) u v }
{
    match try_value(store, pass, Key::of_arc(u, v)) {
        Some(Tried::Value { weight }) => weight,
        _ => below::weight(rt, store, pass, u, v),
    }
}

/// What tries to read a key in its likely cell have found last. None where the hint is of no cell.
fn try_value(store: &Store, pass: &mut Pass, key: Key) -> Option<Tried>
    requires opened { IsOpen store.now pass.old }
    ensures kept { KeepsOpen store.now pass.old pass.new }
    ensures value { IfSome result (λ tried. IsValueOf tried (value_at (view_in store.now pass.old) key)) }
{
    let route = likely_route(store, &mut pass.cells.hints, key)?;
    let mut tried = try_once(store, pass, &route, key);
    'tries: for _ in 1..TRIES {
        // A busy cell is tried again, since whoever changes it is soon done; all other answers stay what they are.
        if !matches!(tried, Tried::Busy { .. }) {
            return Some(tried);
        }
        spin_loop();
        tried = try_once(store, pass, &route, key);
    }
    Some(tried)
}

/// One try.
fn try_once(store: &Store, pass: &mut Pass, route: &CellRoute, key: Key) -> Tried
    requires opened { IsOpen store.now pass.old }
    requires cell { route.now.cell < cells_of store.now.accounts.config }
    ensures kept { KeepsOpen store.now pass.old pass.new }
    ensures value { IsValueOf result (value_at (view_in store.now pass.old) key) }
{
    try_key(store, &mut pass.seats, route, key)
}

/// The cell that is likely to be the key's.
fn likely_route(store: &Store, hints: &mut CellHints, key: Key) -> Option<CellRoute>
    ensures { IfSome result (λ route. route.cell < cells_of store.now.accounts.config) }
{
    let cell = likely_cell(store, hints, key);
    (cell < store.index_place()).then_some(CellRoute { cell })
}

/// The number that a hint has for it, which may be of no cell.
pub(crate) fn likely_cell(store: &Store, hints: &mut CellHints, key: Key) -> u32 {
    hints.survey(store);
    hints.of_all(store, &[key])[0]
}
