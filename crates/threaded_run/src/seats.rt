//! Passes are lent to workers, each beside the job of its script, and come back.
//!
//! 1. Pass 0 has the load and the service; script n runs on pass n.

ghost use Rattle.std.specs.Prelude.{◌≡◌, ◌<◌, ◌≤◌, ◌+◌, ◌-◌, ◌++◌, ◌^◌, [], ◌∷◌, Some, length, map};
ghost use Rattle.std.specs.List.{AllByRecursion};
ghost use Rattle.std.specs.Vec.{vec_capacity};
ghost use Rattle.rebalance_service.specs.SharedStore.Passes.{IsIdle, account_of};
ghost use Rattle.rebalance_service.specs.WorkerCalls.Ready.{IsReady};
ghost use Rattle.threaded_run.specs.Seats.{AreSeated, IsSeated};

use rebalance_service::below::{Pass, Store, meet};
use rebalance_service::{Home, IdlePasses, Worker};
use run_model::Script;
use std::alloc::Global;
use std::sync::{Mutex, Wait};
use std::thread::Threads;
use thread_runner::below::Job;

/// Takes a pass for each script, which meets pass 0. The jobs are numbered from 1 in the order of the scripts. Takes no
/// memory.
pub(crate) fn seat_all<'a, R: Threads + Wait + Sync, H: Home>(
    rt: &'a R,
    alloc: Global,
    store: &'a Store,
    loader: &mut Pass,
    passes: &mut Vec<Pass>,
    pool: &'a Mutex<IdlePasses<H>>,
    mut scripts: Vec<Script>,
    seats: &mut Vec<(Job, Worker<'a, R, H>)>,
)
    requires home { H.home ≡ Some store.now }
    requires loader { IsIdle store.now loader.old }
    requires idle { AllByRecursion (IsIdle store.now) passes.old.items }
    requires count { length passes.old.items ≡ length scripts.items }
    requires few { length scripts.items < 2 ^ 32 - 1 }
    requires room { (seats.old.items ≡ []) × (length scripts.items ≤ vec_capacity seats.old) }
    ensures loader { IsIdle store.now loader.new }
    ensures account { account_of store.now loader.new ≡ account_of store.now loader.old }
    ensures seated { AreSeated store.now (account_of store.now loader.old).seen 1 scripts.items passes.old.items
        (map (λ x. (x.0, x.1.pass)) seats.new.items) }
    ensures store { AllByRecursion (λ x. x.1.store.now ≡ store.now) seats.new.items }
    ensures passes { (passes.new.items ≡ []) × (vec_capacity passes.new ≡ vec_capacity passes.old) }
{
    let mut number = 1;
    'scripts: while !scripts.is_empty() {
        // In the order of both lists: the pass of a script has its number, by which answers name its transactions.
        let pass = passes.remove(0);
        let script = scripts.remove(0);
        seats.push_reserved(seat_one(rt, alloc, store, loader, pass, pool, number, script));
        number += 1;
    }
}

/// A job of a script, and the worker of its pass, which has met pass 0 and reads for kernels by the passes of the pool.
fn seat_one<'a, R: Threads + Wait + Sync, H: Home>(
    rt: &'a R,
    alloc: Global,
    store: &'a Store,
    loader: &mut Pass,
    mut pass: Pass,
    pool: &'a Mutex<IdlePasses<H>>,
    number: u32,
    script: Script,
) -> (Job, Worker<'a, R, H>)
    requires home { H.home ≡ Some store.now }
    requires loader { IsIdle store.now loader.old }
    requires idle { IsIdle store.now pass }
    ensures loader { IsIdle store.now loader.new }
    ensures account { account_of store.now loader.new ≡ account_of store.now loader.old }
    ensures seated { IsSeated store.now (account_of store.now loader.old).seen number script pass result.0 result.1.pass }
    ensures store { result.1.store.now ≡ store.now }
{
    // So it has seen the load: its first transaction begins behind that, whatever other passes do by then.
    meet(store, loader, &mut pass);
    (
        Job::new(alloc, number, script),
        Worker::with_readers(rt, store, pass, pool),
    )
}

/// Takes the passes and the jobs back, in their order. Takes no memory.
pub(crate) fn leave_all<R: Wait, H: Home>(
    store: &Store,
    mut seats: Vec<(Job, Worker<'_, R, H>)>,
    passes: &mut Vec<Pass>,
    jobs: &mut Vec<Job>,
)
    requires home { H.home ≡ Some store.now }
    requires passes { length passes.old.items + length seats.items ≤ vec_capacity passes.old }
    requires jobs { length jobs.old.items + length seats.items ≤ vec_capacity jobs.old }
    ensures passes { passes.new.items ≡ passes.old.items ++ map (λ x. x.1.pass) seats.entry.items }
    ensures room { vec_capacity passes.new ≡ vec_capacity passes.old }
    ensures jobs { jobs.new.items ≡ jobs.old.items ++ map (λ x. x.0) seats.entry.items }
    ensures ready { AllByRecursion (λ x. IsReady store.now x.1.pass × (x.1.store.now ≡ store.now)) seats.entry.items }
{
    'seats: while !seats.is_empty() {
        let (job, worker) = seats.remove(0);
        passes.push_reserved(take_pass(store, worker));
        jobs.push_reserved(job);
    }
    // A worker is no value that may be dropped, since its pass would be lost: so the list is shown to be empty.
    seats.destroy_empty();
}

/// The pass of a worker of this store.
pub(crate) fn take_pass<R: Wait, H: Home>(store: &Store, worker: Worker<'_, R, H>) -> Pass
    requires home { H.home ≡ Some store.now }
    ensures pass { result ≡ worker.entry.pass }
    ensures ready { IsReady store.now result }
    ensures store { worker.entry.store.now ≡ store.now }
{
    worker.into_pass()
}
