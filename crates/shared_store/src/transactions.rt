//! Transactions begin and end.
//!
//! 1. `begin` makes room in the journal, and a write makes room in its pass's lists, so neither a commit nor an abort
//!    takes memory.
//! 2. The rows of a commit are stamped once the journal is free. Whoever meets one before is told by the pass's word.
//! 3. Whoever has committed holds nothing back any more, so its own rows may be pruned while they are stamped: where
//!    nobody is open who began before, they keep no record.

ghost use Rattle.std.specs.Prelude.{◌≡◌, ◌⊎◌, ◌≤◌, ◌↔◌, Err, OnOk, OnErr, []};
ghost use mathlib.Core.List.{IsPrefix};
ghost use Rattle.graph_model.specs.AccountSteps.{AbortsBy, BeginsBy, CommitsBy, ReadsBy};
ghost use Rattle.graph_model.specs.declared.refusal.BeginRefusal.TheVariants.{TxnsUsed};
ghost use Rattle.pass_writes.specs.PassSteps.Passes.{IsEndedPass, IsIdlePass, pin_of, state_of};
ghost use Rattle.pass_writes.specs.PassSweeps.Sweeping.{with_sweep};
ghost use Rattle.shared_store.specs.Passes.{IsIdle, IsOpen, KeepsLists, MayStamp, Settles, account_of};

use crate::pass::Pass;
use graph_model::{BeginRefusal, Begun, RoomyWrites, TxnName};
use items::RoomyItems;
use pass_writes::below::{Store, end, end_sweep, stop, sweep_pins, unpin};
use pass_writes::{stamp_all, undo_all};
use std::mem::replace;
use std::sync::Wait;

/// Begins the next transaction of a pass that has none. It sees all that was committed before. May wait.
pub fn begin(rt: &impl Wait, store: &Store, pass: &mut Pass) -> Result<Begun, BeginRefusal>
    requires idle { IsIdle store.now pass.old }
    ensures opened { OnOk result (IsOpen store.now pass.new) }
    ensures idle { OnErr result (IsIdle store.now pass.new) }
    ensures begins { BeginsBy (account_of store.now pass.old) result (account_of store.now pass.new) }
    ensures used { (result ≡ Err TxnsUsed)
        ↔ (store.now.accounts.config.txns_per_pass ≤ (account_of store.now pass.old).begun) }
    ensures number { pass.new.seats.number ≡ pass.old.seats.number }
{
    let begun = match pass_writes::below::begin(rt, store, &mut pass.seats, pass.begun) {
        Ok(begun) => begun,
        Err(refused) => return Err(refused),
    };
    // Kept so that no later call has to ask the store for the name of the open transaction.
    pass.begun = begun.by.number;
    pass.start = begun.start;
    Ok(begun)
}

/// Commits the open transaction, and answers the stamp, or none where nothing was written. May wait, and takes no
/// memory.
pub fn commit(rt: &impl Wait, store: &Store, pass: &mut Pass) -> Option<u64>
    requires opened { IsOpen store.now pass.old }
    ensures idle { IsIdle store.now pass.new }
    ensures commits { CommitsBy (account_of store.now pass.old) result (account_of store.now pass.new) }
    ensures number { pass.new.seats.number ≡ pass.old.seats.number }
{
    let begun = pass.latest();
    let writes = replace(&mut pass.own, RoomyItems::new(pass.alloc)).into_items();
    let stamp = pass_writes::below::commit(rt, store, &mut pass.seats, begun, writes);
    finish(rt, store, pass, begun.by, stamp);
    stamp
}

/// Holds nothing back for a transaction that has ended with this answer, stamps its rows, and forgets its writes.
fn finish(rt: &impl Wait, store: &Store, pass: &mut Pass, by: TxnName, stamp: Option<u64>)
    requires { MayStamp store.now pass.old by stamp }
    ensures idle { IsIdlePass store.now pass.new.seats }
    ensures account { ReadsBy (account_of store.now pass.old) (account_of store.now pass.new) }
    ensures number { pass.new.seats.number ≡ pass.old.seats.number }
    ensures lists { KeepsLists pass.old pass.new [] }
{
    unpin(store, &mut pass.seats);
    stamp_rows(rt, store, pass, by, stamp);
    clear(&mut pass.changed);
}

/// Stamps the rows of a commit, if there was one, and prunes them at the horizon that the pass finds then: where nobody
/// is open they have no record any more. Cells that earlier commits had to leave are settled as well.
fn stamp_rows(rt: &impl Wait, store: &Store, pass: &mut Pass, by: TxnName, stamp: Option<u64>)
    requires { MayStamp store.now pass.old by stamp }
    ensures ended { IsEndedPass store.now pass.new.seats }
    ensures settled { Settles (state_of pass.old.seats) (state_of pass.new.seats) }
    ensures pin { pin_of pass.new.seats ≡ with_sweep (pin_of pass.old.seats) (pin_of pass.new.seats).sweep }
    ensures number { pass.new.seats.number ≡ pass.old.seats.number }
    ensures lists { KeepsLists pass.old pass.new pass.old.changed.items }
{
    let Some(stamp) = stamp else {
        return;
    };
    // After the pass was unpinned, so its own start doesn't hold its records back.
    let sweep = sweep_pins(store, &mut pass.seats);
    stamp_all(
        rt,
        store,
        &mut pass.seats,
        &mut pass.cells,
        &mut pass.unsettled,
        &sweep,
        by,
        stamp,
        pass.changed.as_slice(),
    );
    // The sweep has served, and the pass's view forgets it.
    end_sweep(store, &mut pass.seats);
}

/// Ends the open transaction and takes its writes back. May wait, and takes no memory.
pub fn abort(rt: &impl Wait, store: &Store, pass: &mut Pass)
    requires opened { IsOpen store.now pass.old }
    ensures idle { IsIdle store.now pass.new }
    ensures aborts { AbortsBy (account_of store.now pass.old) (account_of store.now pass.new) }
    ensures number { pass.new.seats.number ≡ pass.old.seats.number }
{
    let begun = pass.latest();
    // From here on it can't commit, before a row is taken back.
    stop(store, &mut pass.seats);
    undo_all(
        rt,
        store,
        &mut pass.seats,
        &mut pass.cells,
        begun.by,
        pass.own.as_slice(),
    );
    // Only after the last record is gone: while one is left its word has to say that it hasn't committed.
    end(store, &mut pass.seats);
    unpin(store, &mut pass.seats);
    clear(&mut pass.own);
    clear(&mut pass.changed);
}

/// Has a pass without a transaction see what another has seen. Takes no memory, and waits for nobody.
pub fn meet(store: &Store, from: &mut Pass, to: &mut Pass)
    requires from { IsIdle store.now from.old ⊎ IsOpen store.now from.old }
    requires to { IsIdle store.now to.old }
    ensures idle_from { IsIdle store.now from.old → IsIdle store.now from.new }
    ensures open_from { IsOpen store.now from.old → IsOpen store.now from.new }
    ensures from { account_of store.now from.new ≡ account_of store.now from.old }
    ensures to { IsIdle store.now to.new }
    ensures reads { ReadsBy (account_of store.now to.old) (account_of store.now to.new) }
    ensures met { IsPrefix (account_of store.now from.old).seen (account_of store.now to.new).seen }
{
    pass_writes::below::meet(store, &mut from.seats, &mut to.seats);
}

/// Takes all writes out of a list, whose room stays.
fn clear(list: &mut RoomyWrites)
    ensures { list.new.items ≡ [] }
{
    'items: while let Some(_) = list.pop() {}
}
