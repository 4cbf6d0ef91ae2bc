//! Rows with undo records, without them, and in other cells.

ghost use Rattle.std.specs.Prelude.{◌≡◌};
ghost use Rattle.cases_shared.specs.SharedStore.Passes.{IsIdle};

use crate::txns::{FoundRun, route_of, run_in, tried_in};
use cases_shared::below::{Pass, Store, SweepKey, abort, begin, commit, sweep_step};
use cases_shared::{Case, makes};
use cases_workers::below::{CellRoute, Tried};
use graph_model::Write;
use std::sync::Wait;

/// A transaction adds vertex 5 and looks for it.
#[derive(Clone, Copy, Debug, PartialEq, Eq)]
pub struct ReadOwnWrite {
    pub tried: Option<Tried>,
}

impl<R: Wait> Case<R> for ReadOwnWrite {
    fn run(&mut self, rt: &R, store: &Store, one: &mut Pass, _two: &mut Pass) {
        match begin(rt, store, one) {
            Ok(_) => {}
            Err(_) => return,
        }
        makes(rt, store, one, Write::AddVertex { v: 5 });
        let route = route_of(rt, store, one, 5);
        self.tried = Some(tried_in(store, one, &route, 5));
        abort(rt, store, one);
    }
}

/// The second pass commits the vertices from 1 to 30 and sweeps all leaves. Then the first one looks for 7, for 31, and
/// for 7 in the next cell.
#[derive(Clone, Copy, Debug, PartialEq, Eq)]
pub struct ReadSettled {
    pub there: Option<Tried>,
    pub missing: Option<Tried>,
    pub elsewhere: Option<Tried>,
}

impl<R: Wait> Case<R> for ReadSettled {
    fn run(&mut self, rt: &R, store: &Store, one: &mut Pass, two: &mut Pass) {
        add_all(rt, store, two);
        sweep_all(rt, store, two);
        match begin(rt, store, one) {
            Ok(_) => {}
            Err(_) => return,
        }
        let route = route_of(rt, store, one, 7);
        self.there = Some(tried_in(store, one, &route, 7));
        self.missing = Some(tried_in(store, one, &route, 31));
        let next = CellRoute {
            cell: route.cell + 1,
        };
        if next.cell < store.index_place() {
            self.elsewhere = Some(tried_in(store, one, &next, 7));
        }
        abort(rt, store, one);
    }
}

/// The same, and the first pass reads the rows from vertex 7 on: before vertex 10, all in the cell, and all in the next
/// cell; and once it has added vertex 31 itself, before vertex 10 and all again.
#[derive(Clone, Copy, Debug, PartialEq, Eq)]
pub struct ReadRuns {
    pub few: Option<FoundRun>,
    pub all: Option<FoundRun>,
    pub elsewhere: Option<FoundRun>,
    pub few_again: Option<FoundRun>,
    pub all_again: Option<FoundRun>,
}

/// The vertex that stands at the end of all keys.
const LAST: u64 = 9223372036854775807;

impl<R: Wait> Case<R> for ReadRuns {
    fn run(&mut self, rt: &R, store: &Store, one: &mut Pass, two: &mut Pass) {
        add_all(rt, store, two);
        sweep_all(rt, store, two);
        match begin(rt, store, one) {
            Ok(_) => {}
            Err(_) => return,
        }
        let route = route_of(rt, store, one, 7);
        self.few = Some(run_in(store, one, &route, 7, 10));
        self.all = Some(run_in(store, one, &route, 7, LAST));
        let next = CellRoute {
            cell: route.cell + 1,
        };
        if next.cell < store.index_place() {
            self.elsewhere = Some(run_in(store, one, &next, 7, LAST));
        }
        makes(rt, store, one, Write::AddVertex { v: 31 });
        self.few_again = Some(run_in(store, one, &route, 7, 10));
        self.all_again = Some(run_in(store, one, &route, 7, LAST));
        abort(rt, store, one);
    }
}

/// Commits the vertices from 1 to 30.
fn add_all(rt: &impl Wait, store: &Store, pass: &mut Pass)
    requires idle { IsIdle store.now pass.old }
    ensures idle { IsIdle store.now pass.new }
    ensures number { pass.new.seats.number ≡ pass.old.seats.number }
{
    match begin(rt, store, pass) {
        Ok(_) => {}
        Err(_) => return,
    }
    'vertices: for v in 1..31u64 {
        makes(rt, store, pass, Write::AddVertex { v });
    }
    commit(rt, store, pass);
}

/// Sweeps each leaf once.
fn sweep_all(rt: &impl Wait, store: &Store, pass: &mut Pass)
    requires idle { IsIdle store.now pass.old }
    ensures idle { IsIdle store.now pass.new }
    ensures number { pass.new.seats.number ≡ pass.old.seats.number }
{
    let mut key = SweepKey::first();
    'leaves: for _leaf in 0..store.config().leaves {
        sweep_one(rt, store, pass, &mut key);
    }
}

/// Sweeps the next leaf.
fn sweep_one(rt: &impl Wait, store: &Store, pass: &mut Pass, key: &mut SweepKey)
    requires idle { IsIdle store.now pass.old }
    ensures idle { IsIdle store.now pass.new }
    ensures number { pass.new.seats.number ≡ pass.old.seats.number }
{
    sweep_step(rt, store, &mut pass.seats, key);
}
