//! Passes become workers, and workers passes.

ghost use Rattle.std.specs.Prelude.{◌≡◌, ◌≤◌, ◌+◌, ◌++◌, [], Some, length, map};
ghost use Rattle.std.specs.List.{AllByRecursion};
ghost use Rattle.std.specs.Vec.{vec_capacity};
ghost use Rattle.cases_workers.specs.SharedStore.Passes.{IsIdle};
ghost use Rattle.cases_workers.specs.RebalanceService.Ready.{IsReady};

use cases_workers::below::{Home, Pass, Store, Worker};
use std::sync::Wait;

/// Makes a worker of each pass. Takes no memory.
pub fn hire_all<'a, R: Wait, H: Home>(
    rt: &'a R,
    store: &'a Store,
    passes: &mut Vec<Pass>,
    workers: &mut Vec<Worker<'a, R, H>>,
)
    requires home { H.home ≡ Some store.now }
    requires idle { AllByRecursion (IsIdle store.now) passes.old.items }
    requires room { (workers.old.items ≡ []) × (length passes.old.items ≤ vec_capacity workers.old) }
    ensures workers { map (λ w. w.pass) workers.new.items ≡ passes.old.items }
    ensures stores { AllByRecursion (λ w. w.store.now ≡ store.now) workers.new.items }
    ensures passes { (passes.new.items ≡ []) × (vec_capacity passes.new ≡ vec_capacity passes.old) }
{
    'passes: while !passes.is_empty() {
        let pass = passes.remove(0);
        workers.push_reserved(Worker::new(rt, store, pass));
    }
}

/// Takes the passes of all workers back, in their order. Takes no memory.
pub fn dismiss_all<R: Wait, H: Home>(
    store: &Store,
    mut workers: Vec<Worker<'_, R, H>>,
    passes: &mut Vec<Pass>,
)
    requires home { H.home ≡ Some store.now }
    requires room { length passes.old.items + length workers.items ≤ vec_capacity passes.old }
    ensures passes { passes.new.items ≡ passes.old.items ++ map (λ w. w.pass) workers.entry.items }
    ensures capacity { vec_capacity passes.old ≤ vec_capacity passes.new }
    ensures ready { AllByRecursion (λ w. IsReady store.now w.pass × (w.store.now ≡ store.now)) workers.entry.items }
{
    'workers: while !workers.is_empty() {
        passes.push_reserved(take_pass(store, workers.remove(0)));
    }
    workers.destroy_empty();
}

/// The pass of a worker of this store.
fn take_pass<R: Wait, H: Home>(store: &Store, worker: Worker<'_, R, H>) -> Pass
    requires home { H.home ≡ Some store.now }
    ensures pass { result ≡ worker.entry.pass }
    ensures ready { IsReady store.now result }
    ensures store { worker.entry.store.now ≡ store.now }
{
    worker.into_pass()
}
