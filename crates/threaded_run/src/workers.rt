//! Workers run the scripts on the passes of a store.
//!
//! 1. The store has a name of its own in the types of its workers, by which passes that come back are known to be of
//!    it.
//! 2. The passes after those of the scripts begin no transaction. They lie in a pool, and a kernel borrows all of them
//!    while it reads.

ghost use Rattle.std.specs.Prelude.{◌≡◌, ◌<◌, ◌≤◌, ◌+◌, ◌++◌, ◌∷◌, List, IfOk, OnOk, Some, length, map, drop};
ghost use Rattle.std.specs.List.{AllByRecursion, AllZip};
ghost use Rattle.std.specs.Vec.{vec_capacity};
ghost use Rattle.graph_model.specs.AccountSteps.{ReadsBy};
ghost use Rattle.run_model.specs.Inputs.{Inputs};
ghost use Rattle.shared_runs.specs.Closing.{HaveRunOn, OthersMadeNothing};
ghost use Rattle.rebalance_service.specs.SharedStoreDeclared.pass.Pass.{Pass};
ghost use Rattle.rebalance_service.specs.SharedStore.Ends.{AreIdle};
ghost use Rattle.rebalance_service.specs.SharedStore.Passes.{account_of};
ghost use Rattle.rebalance_service.specs.WorkerCalls.Ready.{IsReady};
ghost use Rattle.rebalance_service.specs.Spare.{AreSpare};
ghost use Rattle.thread_runner.specs.Driving.{HasRun, some_gave_up};
ghost use Rattle.threaded_run.specs.Seats.{AreIdleFrom, CanRunBefore, CanRunOn};

use crate::seats::{leave_all, seat_all, take_pass};
use desk_io::Gate;
use graph_model::NoMemory;
use items::Items;
use rebalance_service::below::{Pass, Store};
use rebalance_service::{Home, IdlePasses, Worker};
use run_model::Script;
use std::alloc::Global;
use std::marker::Brand;
use std::sync::{Mutex, Wait};
use std::thread::Threads;
use thread_runner::below::{Job, Jobs};
use thread_runner::{JobsOver, run_threads};

/// Runs the scripts, and has all passes in the list again, none of which has a transaction.
pub(crate) fn run_passes<R: Threads + Wait + Sync, G: Gate>(
    rt: &R,
    alloc: Global,
    store: &Store,
    passes: &mut Vec<Pass>,
    scripts: Items<Script>,
    workers: u32,
    gate: &G,
) -> Result<Jobs, NoMemory>
    requires can { (inputs : Inputs) × CanRunOn inputs store.now passes.old.items scripts }
    requires workers { (0 < workers) × (workers ≤ 32) }
    ensures idle { AreIdle store.now passes.new.items }
    ensures others { OnOk result (OthersMadeNothing (length scripts) store.now.accounts.config passes.new.items) }
    ensures ran { IfOk result (λ jobs. (inputs : Inputs) → CanRunOn inputs store.now passes.old.items scripts
        → HaveRunOn inputs store.now.accounts.config passes.new.items jobs) }
{
    run_at_home::<R, G, Brand>(rt, alloc, store, passes, scripts, workers, gate)
}

/// The same, with a name for the store, by which the passes that come back are known to be of it.
fn run_at_home<R: Threads + Wait + Sync, G: Gate, H: Home + Send>(
    rt: &R,
    alloc: Global,
    store: &Store,
    passes: &mut Vec<Pass>,
    scripts: Items<Script>,
    workers: u32,
    gate: &G,
) -> Result<Jobs, NoMemory>
    requires home { H.home ≡ Some store.now }
    requires spare { H.spare ≡ map (account_of store.now) (drop (length scripts + 1) passes.old.items) }
    requires can { (inputs : Inputs) × CanRunOn inputs store.now passes.old.items scripts }
    requires workers { (0 < workers) × (workers ≤ 32) }
    ensures idle { AreIdle store.now passes.new.items }
    ensures others { OnOk result (OthersMadeNothing (length scripts) store.now.accounts.config passes.new.items) }
    ensures ran { IfOk result (λ jobs. (inputs : Inputs) → CanRunOn inputs store.now passes.old.items scripts
        → HaveRunOn inputs store.now.accounts.config passes.new.items jobs) }
{
    let others = passes.split_off(scripts.len() + 1)?;
    let pool = Mutex::new(IdlePasses::<H>::new(store, others));
    let ended = run_with_pool(rt, alloc, store, passes, &pool, scripts, workers, gate);
    // All passes come back before an error is passed on: the store can be taken apart only with all of them.
    put_behind(passes, pool.into_inner().into_passes(store));
    ended
}

/// The same on the passes of the load and of the scripts. The pool has the others.
fn run_with_pool<R: Threads + Wait + Sync, G: Gate, H: Home + Send>(
    rt: &R,
    alloc: Global,
    store: &Store,
    passes: &mut Vec<Pass>,
    pool: &Mutex<IdlePasses<H>>,
    scripts: Items<Script>,
    workers: u32,
    gate: &G,
) -> Result<Jobs, NoMemory>
    requires home { H.home ≡ Some store.now }
    requires can { (inputs : Inputs) × (others : List Pass)
        × CanRunBefore inputs store.now passes.old.items others scripts }
    requires workers { (0 < workers) × (workers ≤ 32) }
    ensures idle { AreIdleFrom store.now 0 passes.new.items }
    ensures count { length passes.new.items ≡ length passes.old.items }
    ensures room { vec_capacity passes.new ≡ vec_capacity passes.old }
    ensures ran { IfOk result (λ jobs. (inputs : Inputs) (others : List Pass)
        → CanRunBefore inputs store.now passes.old.items others scripts
        → HaveRunOn inputs store.now.accounts.config passes.new.items jobs) }
{
    let mut jobs = Vec::with_capacity(alloc, scripts.len())?;
    let mut seats = Vec::with_capacity(alloc, scripts.len())?;
    // Pass 0 has made the load, and serves from now on.
    let mut loader = passes.remove(0);
    seat_all(
        rt,
        alloc,
        store,
        &mut loader,
        passes,
        pool,
        scripts.into_vec(),
        &mut seats,
    );
    let mut over: JobsOver<Worker<'_, R, H>> = JobsOver {
        jobs: seats,
        service: Worker::new(rt, store, loader),
    };
    let ended = run_threads(rt, &mut over, workers, gate);
    let JobsOver {
        jobs: seats,
        service,
    } = over;
    // These come back before an error is passed on, too.
    passes.push_reserved(take_pass(store, service));
    leave_all(store, seats, passes, &mut jobs);
    ended?;
    Ok(Jobs::from_vec(jobs))
}

/// Puts passes behind those of a list that has room for them. Takes no memory.
fn put_behind(passes: &mut Vec<Pass>, mut others: Vec<Pass>)
    requires { length passes.old.items + length others.items ≤ vec_capacity passes.old }
    ensures { passes.new.items ≡ passes.old.items ++ others.items }
{
    match passes.append(&mut others) {
        Ok(()) => {}
        Err(_) => unreachable!(),
    }
    // A pass is no value that may be dropped, so the list is shown to be empty.
    others.destroy_empty();
}
