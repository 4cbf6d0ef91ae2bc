//! Routes that go out of date.

ghost use Rattle.std.specs.Prelude.{◌≡◌, ◌≤◌, None, Some};
ghost use Rattle.graph_model.specs.declared.limits.TheConstants.{MAX_ID};
ghost use Rattle.cases_shared.specs.SharedStore.Ends.{AreIdle};
ghost use Rattle.cases_shared.specs.SharedStore.Passes.{IsIdle};
ghost use Rattle.cases_workers.specs.Cases.{StaysClosed};

use crate::txns::{route_of, tried_in};
use cases_shared::below::{Pass, Store, abort, begin, close, new};
use cases_workers::below::{Home, Tried, Worker};
use cases_workers::{EngineCase, leave, put_last, take_last};
use graph_model::VertexEngine;
use std::alloc::Global;
use std::marker::Brand;
use std::sync::Wait;
use txn_manager::{Config, StoreRefusal};

/// What one transaction finds of a vertex: in the cell that the index has for it, in the same cell once others have
/// moved rows, and in the cell that the index has for it then.
#[derive(Clone, Copy, Debug, PartialEq, Eq)]
pub struct OldRoute {
    pub first: Tried,
    pub later: Tried,
    pub again: Tried,
}

/// Makes a store of two passes or more. The worker of the last one does the first case, and then the other one while a
/// transaction of the pass before it is open, which looks for the vertex before and afterwards.
pub fn run_with_route<R: Wait, A: EngineCase, B: EngineCase>(
    rt: &R,
    alloc: Global,
    config: Config,
    v: u64,
    before: &mut A,
    beside: &mut B,
) -> Result<Option<OldRoute>, StoreRefusal>
    requires passes { 2 ≤ config.passes }
    requires within { v ≤ MAX_ID }
{
    let (store, mut passes) = match new(alloc, config) {
        Ok(made) => made,
        Err(refused) => return Err(refused),
    };
    let list = &mut passes.list;
    let found = run_two::<R, A, B, Brand>(rt, &store, list, v, before, beside);
    close(store, passes);
    Ok(found)
}

/// Both passes leave the list, and come back in the order of their numbers.
fn run_two<R: Wait, A: EngineCase, B: EngineCase, H: Home>(
    rt: &R,
    store: &Store,
    list: &mut Vec<Pass>,
    v: u64,
    before: &mut A,
    beside: &mut B,
) -> Option<OldRoute>
    requires home { H.home ≡ Some store.now }
    requires passes { 2 ≤ store.now.accounts.config.passes }
    requires within { v ≤ MAX_ID }
    requires idle { AreIdle store.now list.old.items }
    ensures { AreIdle store.now list.new.items }
{
    let mut worker: Worker<'_, R, H> = Worker::new(rt, store, take_last(list));
    let mut reader = take_last(list);
    before.run(&mut worker);
    let found = read_around(rt, store, &mut reader, v, &mut worker, beside);
    put_last(list, reader);
    put_last(list, leave(store, worker));
    found
}

/// A transaction looks for the vertex before and after an engine does its case, and by a new route then.
fn read_around<E: VertexEngine, C: EngineCase>(
    rt: &impl Wait,
    store: &Store,
    reader: &mut Pass,
    v: u64,
    engine: &mut E,
    case: &mut C,
) -> Option<OldRoute>
    requires idle { IsIdle store.now reader.old }
    requires within { v ≤ MAX_ID }
    requires closed { (E.account engine.old).start ≡ None }
    ensures idle { IsIdle store.now reader.new }
    ensures number { reader.new.seats.number ≡ reader.old.seats.number }
    ensures closed { StaysClosed (E.account engine.old) (E.account engine.new) }
{
    match begin(rt, store, reader) {
        Ok(_) => {}
        Err(_) => return None,
    }
    let route = route_of(rt, store, reader, v);
    let first = tried_in(store, reader, &route, v);
    case.run(engine);
    let later = tried_in(store, reader, &route, v);
    let new_route = route_of(rt, store, reader, v);
    let again = tried_in(store, reader, &new_route, v);
    abort(rt, store, reader);
    Some(OldRoute {
        first,
        later,
        again,
    })
}
