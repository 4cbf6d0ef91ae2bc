//! What the worker of one pass does, from the making of the store to its end.

ghost use Rattle.std.specs.Prelude.{◌≡◌, ◌≤◌, ◌+◌, ◌++◌, [], ◌∷◌, length, None, Some};
ghost use Rattle.std.specs.Vec.{vec_capacity};
ghost use Rattle.rebalance_service.specs.SharedStore.Ends.{AreIdle};
ghost use Rattle.rebalance_service.specs.SharedStore.Passes.{IsIdle, account_of};
ghost use Rattle.cases_workers.specs.Cases.{StaysClosed};

use graph_model::VertexEngine;
use rebalance_service::below::{Closed, Pass, Store, close, new};
use rebalance_service::{Home, Worker};
use std::alloc::Global;
use std::marker::Brand;
use std::sync::Wait;
use txn_manager::{Config, StoreRefusal};

/// What is done with an engine that has no transaction before and none afterwards. It keeps what it is answered.
pub trait EngineCase {
    fn run<E: VertexEngine>(&mut self, engine: &mut E)
        requires { (E.account engine.old).start ≡ None }
        ensures { StaysClosed (E.account engine.old) (E.account engine.new) };
}

/// Makes a store without rows, has a worker of its last pass do this, and closes it with all passes.
pub fn run_case<R: Wait, C: EngineCase>(
    rt: &R,
    alloc: Global,
    config: Config,
    case: &mut C,
) -> Result<Closed, StoreRefusal> {
    let (store, mut passes) = match new(alloc, config) {
        Ok(made) => made,
        Err(refused) => return Err(refused),
    };
    run_by_last::<R, C, Brand>(rt, &store, &mut passes.list, case);
    Ok(close(store, passes))
}

/// Has a worker of the last pass do this.
fn run_by_last<R: Wait, C: EngineCase, H: Home>(
    rt: &R,
    store: &Store,
    list: &mut Vec<Pass>,
    case: &mut C,
)
    requires home { H.home ≡ Some store.now }
    requires idle { AreIdle store.now list.old.items }
    ensures { AreIdle store.now list.new.items }
{
    if list.is_empty() {
        return;
    }
    let mut worker: Worker<'_, R, H> = Worker::new(rt, store, take_last(list));
    case.run(&mut worker);
    put_last(list, leave(store, worker));
}

/// The last pass of a list that has one.
pub fn take_last(list: &mut Vec<Pass>) -> Pass
    requires { 1 ≤ length list.old.items }
    ensures items { list.old.items ≡ list.new.items ++ result ∷ [] }
    ensures capacity { vec_capacity list.old ≤ vec_capacity list.new }
{
    let Some(pass) = list.pop() else {
        unreachable!()
    };
    pass
}

/// Puts a pass at the end of a list that has room for it.
pub fn put_last(list: &mut Vec<Pass>, pass: Pass)
    requires { length list.old.items + 1 ≤ vec_capacity list.old }
    ensures items { list.new.items ≡ list.old.items ++ pass ∷ [] }
    ensures capacity { vec_capacity list.old ≤ vec_capacity list.new }
{
    match list.push(pass) {
        Ok(()) => {}
        Err(_) => unreachable!(),
    }
}

/// The pass of a worker of this store that has no transaction.
pub fn leave<R: Wait, H: Home>(store: &Store, worker: Worker<'_, R, H>) -> Pass
    requires home { H.home ≡ Some store.now }
    requires closed { (account_of worker.store.now worker.pass).start ≡ None }
    ensures pass { result ≡ worker.entry.pass }
    ensures idle { IsIdle store.now result }
{
    worker.into_pass()
}
