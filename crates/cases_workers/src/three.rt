//! Three threads on one store, each with the worker of a pass.

ghost use Rattle.std.specs.Prelude.{◌≡◌, None, Some};
ghost use Rattle.std.specs.Thread.{IsSend, IsSync};
ghost use Rattle.rebalance_service.specs.SharedStore.Ends.{AreIdle};
ghost use Rattle.cases_workers.specs.Cases.{StaysClosed};

use crate::case::{EngineCase, leave, put_last, take_last};
use graph_model::VertexEngine;
use rebalance_service::below::{Closed, Pass, Store, close, new};
use rebalance_service::{Home, Worker};
use std::alloc::Global;
use std::marker::Brand;
use std::sync::Wait;
use std::thread::{Threads, join_mut};
use txn_manager::{Config, StoreRefusal};

/// Makes a store of three passes, has the worker of each do its case in a thread of its own, and closes it.
pub fn run_together<R, A, B, C>(
    rt: &R,
    alloc: Global,
    config: Config,
    one: &mut A,
    two: &mut B,
    three: &mut C,
) -> Result<Closed, StoreRefusal>
where
    R: Threads + Wait + Sync,
    A: EngineCase + Send,
    B: EngineCase + Send,
    C: EngineCase + Send,
    requires { config.passes ≡ 3 }
{
    let (store, mut passes) = match new(alloc, config) {
        Ok(made) => made,
        Err(refused) => return Err(refused),
    };
    run_three::<R, A, B, C, Brand>(rt, &store, &mut passes.list, one, two, three);
    Ok(close(store, passes))
}

/// The passes leave the list, and come back in the order of their numbers.
fn run_three<R, A, B, C, H>(
    rt: &R,
    store: &Store,
    list: &mut Vec<Pass>,
    one: &mut A,
    two: &mut B,
    three: &mut C,
)
where
    R: Threads + Wait + Sync,
    A: EngineCase + Send,
    B: EngineCase + Send,
    C: EngineCase + Send,
    H: Home + Send,
    requires home { H.home ≡ Some store.now }
    requires passes { store.now.accounts.config.passes ≡ 3 }
    requires idle { AreIdle store.now list.old.items }
    ensures { AreIdle store.now list.new.items }
{
    let mut third: Worker<'_, R, H> = Worker::new(rt, store, take_last(list));
    let mut second: Worker<'_, R, H> = Worker::new(rt, store, take_last(list));
    let mut first: Worker<'_, R, H> = Worker::new(rt, store, take_last(list));
    run_beside(rt, &mut first, one, &mut second, two, &mut third, three);
    put_last(list, leave(store, first));
    put_last(list, leave(store, second));
    put_last(list, leave(store, third));
}

/// Each of three engines has its case in a thread of its own.
fn run_beside<R, E, A, B, C>(
    rt: &R,
    first: &mut E,
    one: &mut A,
    second: &mut E,
    two: &mut B,
    third: &mut E,
    three: &mut C,
)
where
    R: Threads + Sync,
    E: VertexEngine + Send,
    A: EngineCase + Send,
    B: EngineCase + Send,
    C: EngineCase + Send,
    requires first { (E.account first.old).start ≡ None }
    requires second { (E.account second.old).start ≡ None }
    requires third { (E.account third.old).start ≡ None }
    ensures first { StaysClosed (E.account first.old) (E.account first.new) }
    ensures second { StaysClosed (E.account second.old) (E.account second.new) }
    ensures third { StaysClosed (E.account third.old) (E.account third.new) }
{
    join_mut(
        rt,
        &mut ||
            requires { (E.account first.now).start ≡ None }
            ensures { StaysClosed (E.account first.entry.now) (E.account first.exit.now) }
        { one.run(first) },
        &mut ||
            requires { IsSync R.row × IsSend E.row × IsSend B.row × IsSend C.row
                × ((E.account second.now).start ≡ None) × ((E.account third.now).start ≡ None) }
            ensures { StaysClosed (E.account second.entry.now) (E.account second.exit.now)
                × StaysClosed (E.account third.entry.now) (E.account third.exit.now) }
        { run_both(rt, second, two, third, three) },
    );
}

/// Each of two engines has its case in a thread of its own.
fn run_both<R, E, A, B>(rt: &R, first: &mut E, one: &mut A, second: &mut E, two: &mut B)
where
    R: Threads + Sync,
    E: VertexEngine + Send,
    A: EngineCase + Send,
    B: EngineCase + Send,
    requires first { (E.account first.old).start ≡ None }
    requires second { (E.account second.old).start ≡ None }
    ensures first { StaysClosed (E.account first.old) (E.account first.new) }
    ensures second { StaysClosed (E.account second.old) (E.account second.new) }
{
    join_mut(
        rt,
        &mut ||
            requires { (E.account first.now).start ≡ None }
            ensures { StaysClosed (E.account first.entry.now) (E.account first.exit.now) }
        { one.run(first) },
        &mut ||
            requires { (E.account second.now).start ≡ None }
            ensures { StaysClosed (E.account second.entry.now) (E.account second.exit.now) }
        { two.run(second) },
    );
}
