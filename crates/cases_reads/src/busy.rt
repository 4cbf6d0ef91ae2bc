//! A cell that another pass holds.

ghost use Rattle.std.specs.Prelude.{◌≡◌, ◌<◌};
ghost use Rattle.cases_workers.specs.RuleModel.Sight.{cells_of};
ghost use Rattle.cases_shared.specs.SharedStore.Passes.{IsIdle, IsOpen};

use crate::txns::{FoundRun, route_of, run_in, tried_in};
use cases_shared::Case;
use cases_shared::below::{Pass, Store, abort, begin};
use cases_workers::below::{CellRoute, Tried};
use graph_model::Key;
use std::sync::Wait;

/// The first pass looks for vertex 5 in its cell, and for the rows before vertex 9, while the second one holds the
/// cell, and once it has given it back.
#[derive(Clone, Copy, Debug, PartialEq, Eq)]
pub struct ReadHeldCell {
    pub held: Option<Tried>,
    pub held_run: Option<FoundRun>,
    pub free: Option<Tried>,
    pub free_run: Option<FoundRun>,
}

impl<R: Wait> Case<R> for ReadHeldCell {
    fn run(&mut self, rt: &R, store: &Store, one: &mut Pass, two: &mut Pass) {
        match begin(rt, store, one) {
            Ok(_) => {}
            Err(_) => return,
        }
        let route = route_of(rt, store, one, 5);
        try_beside_holder(rt, store, one, two, &route, self);
        self.free = Some(tried_in(store, one, &route, 5));
        self.free_run = Some(run_in(store, one, &route, 5, 9));
        abort(rt, store, one);
    }
}

/// Tries while the second pass holds the cell.
fn try_beside_holder(
    rt: &impl Wait,
    store: &Store,
    one: &mut Pass,
    two: &mut Pass,
    route: &CellRoute,
    read: &mut ReadHeldCell,
)
    requires one { IsOpen store.now one.old }
    requires two { IsIdle store.now two.old }
    requires cell { route.now.cell < cells_of store.now.accounts.config }
    ensures one { IsOpen store.now one.new }
    ensures two { IsIdle store.now two.new }
    ensures first_number { one.new.seats.number ≡ one.old.seats.number }
    ensures second_number { two.new.seats.number ≡ two.old.seats.number }
{
    let key = Key::of_vertex(5);
    two.cells.take(rt, store, &mut two.seats, &[key]);
    read.held = Some(tried_in(store, one, route, 5));
    read.held_run = Some(run_in(store, one, route, 5, 9));
    two.cells.put_back(store, &mut two.seats);
}
