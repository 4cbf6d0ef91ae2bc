//! Steps of a transaction that reads without a latch.

ghost use Rattle.std.specs.Prelude.{◌≡◌, ◌≤◌, ◌<◌};
ghost use Rattle.graph_model.specs.declared.limits.TheConstants.{MAX_ID};
ghost use Rattle.cases_workers.specs.RuleModel.Sight.{cells_of};
ghost use Rattle.cases_shared.specs.SharedStore.Passes.{IsOpen};

use cases_shared::below::{Pass, Store};
use cases_workers::below::{CellRoute, Tried, TriedRun, route, try_has_vertex, try_run};
use graph_model::{Key, Rows64};
use std::sync::Wait;

/// What a try to read a run of rows has found, and how many rows it has loaded.
#[derive(Clone, Copy, Debug, PartialEq, Eq)]
pub struct FoundRun {
    pub tried: TriedRun,
    pub loaded: usize,
}

/// The cell that the index has for a vertex.
pub fn route_of(rt: &impl Wait, store: &Store, pass: &mut Pass, v: u64) -> CellRoute
    requires opened { IsOpen store.now pass.old }
    ensures opened { IsOpen store.now pass.new }
    ensures number { pass.new.seats.number ≡ pass.old.seats.number }
    ensures cell { result.cell < cells_of store.now.accounts.config }
{
    route(rt, store, &mut pass.seats, Key::of_vertex(v))
}

/// What a try to read a vertex in that cell finds.
pub fn tried_in(store: &Store, pass: &mut Pass, route: &CellRoute, v: u64) -> Tried
    requires opened { IsOpen store.now pass.old }
    requires cell { route.now.cell < cells_of store.now.accounts.config }
    requires within { v ≤ MAX_ID }
    ensures opened { IsOpen store.now pass.new }
    ensures number { pass.new.seats.number ≡ pass.old.seats.number }
{
    try_has_vertex(store, &mut pass.seats, route, v)
}

/// What a try to read the rows from one vertex on and before another finds in that cell.
pub fn run_in(store: &Store, pass: &mut Pass, route: &CellRoute, from: u64, until: u64) -> FoundRun
    requires opened { IsOpen store.now pass.old }
    requires cell { route.now.cell < cells_of store.now.accounts.config }
    requires ahead { from < until }
    ensures opened { IsOpen store.now pass.new }
    ensures number { pass.new.seats.number ≡ pass.old.seats.number }
{
    let mut rows = Rows64::new();
    let first = Key::of_vertex(from);
    let last = Key::of_vertex(until);
    let tried = try_run(store, &mut pass.seats, route, first, last, &mut rows);
    FoundRun {
        tried,
        loaded: rows.len(),
    }
}
