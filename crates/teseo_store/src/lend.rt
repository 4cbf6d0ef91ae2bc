//! Sessions are lent to works, each in a thread of its own, and come back.
//!
//! 1. The last pass of a list leaves it, is lent beside those before it, and stands behind them again.
//! 2. A closure that threads run holds nothing that has to be closed. So a pass lies in a slot beside it, and is a
//!    session only in the thread that works with it.

ghost use Rattle.std.specs.Prelude.{◌≡◌, ◌≤◌, ◌+◌, ◌++◌, [], ◌∷◌, Some, length};
ghost use Rattle.std.specs.Thread.{IsSend, IsSync};
ghost use Rattle.std.specs.Vec.{vec_capacity};
ghost use Rattle.rebalance_service.specs.SharedStore.Ends.{AreIdle};
ghost use Rattle.rebalance_service.specs.SharedStore.Passes.{IsIdle};
ghost use Rattle.teseo_store.specs.Lending.{AreDone, AreInOrder, HoldsIdle, IsDoneByLast, IsDoneInSlot, IsLentBack};

use graph_model::VertexEngine;
use rebalance_service::below::{Pass, Store};
use rebalance_service::{Home, Worker};
use sessions::{Session, SessionPlace};
use std::marker::Brand;
use std::sync::Wait;
use std::thread::{Threads, join_mut};

/// What is done with a session.
pub trait Work {
    ghost use Rattle.graph_model.specs.Account.{Account};

    /// What doing it does: from its own state, and the account of its session before, to both after. Where nobody is to
    /// know, it isn't said.
    ghost did: { Self → Account → Self → Account → Type 0 } = { λ _ _ _ _. Unit {0} };

    /// Runs transactions, and gives the session back.
    fn work<E: VertexEngine, P: SessionPlace>(&mut self, session: Session<E, P>) -> Session<E, P>
        ensures { did self.old (E.account session.engine) self.new (E.account result.engine) };
}

/// Has each work done with one of the passes.
pub(crate) fn work_on<R: Threads + Wait + Sync, W: Work + Send>(
    rt: &R,
    store: &Store,
    list: &mut Vec<Pass>,
    works: &mut [W],
)
    requires idle { AreIdle store.now list.old.items }
    requires enough { length works.old ≤ length list.old.items }
    ensures idle { AreIdle store.now list.new.items }
    ensures done { AreDone W.did store.now works.old works.new list.old.items list.new.items }
{
    work_from_last(rt, store, list, works);
}

/// Has a work done with the last pass.
pub(crate) fn work_with_last<R: Wait, W: Work>(
    rt: &R,
    store: &Store,
    list: &mut Vec<Pass>,
    work: &mut W,
)
    requires idle { AreIdle store.now list.old.items }
    requires some { 1 ≤ length list.old.items }
    ensures idle { AreIdle store.now list.new.items }
    ensures done { IsDoneByLast W.did store.now work.old work.new (λ rest after. after ≡ rest) list.old.items
        list.new.items }
{
    let pass = take_last(list);
    put_last(list, lend::<R, W, Brand, Brand>(rt, store, pass, work));
}

/// The first work has the last pass, and the others have those before it.
#[cycle(works)]
fn work_from_last<R: Threads + Wait + Sync, W: Work + Send>(
    rt: &R,
    store: &Store,
    list: &mut Vec<Pass>,
    works: &mut [W],
)
    requires threads { IsSync R.row × IsSend W.row }
    requires order { AreInOrder store.now list.old.items }
    requires enough { length works.old ≤ length list.old.items }
    ensures order { AreInOrder store.now list.new.items }
    ensures count { length list.new.items ≡ length list.old.items }
    ensures capacity { vec_capacity list.old ≤ vec_capacity list.new }
    ensures done { AreDone W.did store.now works.old works.new list.old.items list.new.items }
{
    let Some((work, rest)) = works.split_first_mut() else {
        return;
    };
    let mut slot = Some(take_last(list));
    work_beside(rt, store, &mut slot, work, list, rest);
    let Some(pass) = slot else { unreachable!() };
    put_last(list, pass);
}

/// A work with the pass in a slot, and beside it the others.
#[cycle(works)]
fn work_beside<R: Threads + Wait + Sync, W: Work + Send>(
    rt: &R,
    store: &Store,
    slot: &mut Option<Pass>,
    work: &mut W,
    list: &mut Vec<Pass>,
    rest: &mut [W],
)
    requires threads { IsSync R.row × IsSend W.row }
    requires slot { HoldsIdle store.now slot.old }
    requires order { AreInOrder store.now list.old.items }
    requires enough { length rest.old ≤ length list.old.items }
    ensures order { AreInOrder store.now list.new.items }
    ensures count { length list.new.items ≡ length list.old.items }
    ensures capacity { vec_capacity list.old ≤ vec_capacity list.new }
    ensures work { IsDoneInSlot W.did store.now work.old work.new slot.old slot.new }
    ensures others { AreDone W.did store.now rest.old rest.new list.old.items list.new.items }
{
    let mut first = ||
        requires { HoldsIdle store.now slot.now }
        ensures { IsDoneInSlot W.did store.entry.now work.entry.now work.exit.now slot.entry.now slot.exit.now }
    { work_in_slot(rt, store, slot, work) };
    let mut others = ||
        requires { IsSync R.row × IsSend W.row × AreInOrder store.now list.now.items
            × (length rest.now ≤ length list.now.items) }
        ensures { AreInOrder store.entry.now list.exit.now.items
            × (length list.exit.now.items ≡ length list.entry.now.items)
            × (vec_capacity list.entry.now ≤ vec_capacity list.exit.now)
            × AreDone W.did store.entry.now rest.entry.now rest.exit.now list.entry.now.items list.exit.now.items }
    { work_from_last(rt, store, list, rest) };
    join_mut(rt, &mut first, &mut others);
}

/// A work with the pass in a slot, where it lies again afterwards.
fn work_in_slot<R: Wait, W: Work>(rt: &R, store: &Store, slot: &mut Option<Pass>, work: &mut W)
    requires { HoldsIdle store.now slot.old }
    ensures { IsDoneInSlot W.did store.now work.old work.new slot.old slot.new }
{
    let Some(pass) = slot.take() else {
        unreachable!()
    };
    let back = lend::<R, W, Brand, Brand>(rt, store, pass, work);
    let before = slot.replace(back);
    let None = before else { unreachable!() };
}

/// Lends a pass as a session, and takes it back.
fn lend<R: Wait, W: Work, H: Home, P: SessionPlace>(
    rt: &R,
    store: &Store,
    pass: Pass,
    work: &mut W,
) -> Pass
    requires home { H.home ≡ Some store.now }
    requires place { P.number ≡ pass.seats.number }
    requires idle { IsIdle store.now pass }
    ensures { IsLentBack W.did store.now work.old work.new pass result }
{
    let worker: Worker<'_, R, H> = Worker::new(rt, store, pass);
    let session: Session<Worker<'_, R, H>, P> = Session::of(worker);
    work.work(session).into_engine().into_pass()
}

/// The last pass of a list that has one.
fn take_last(list: &mut Vec<Pass>) -> Pass
    requires { 1 ≤ length list.old.items }
    ensures items { list.old.items ≡ list.new.items ++ result ∷ [] }
    ensures capacity { vec_capacity list.old ≤ vec_capacity list.new }
{
    let Some(pass) = list.pop() else {
        unreachable!()
    };
    pass
}

/// Puts a pass at the end of a list that has room for it.
fn put_last(list: &mut Vec<Pass>, pass: Pass)
    requires { length list.old.items + 1 ≤ vec_capacity list.old }
    ensures items { list.new.items ≡ list.old.items ++ pass ∷ [] }
    ensures capacity { vec_capacity list.old ≤ vec_capacity list.new }
{
    match list.push(pass) {
        Ok(()) => {}
        Err(_) => unreachable!(),
    }
}
