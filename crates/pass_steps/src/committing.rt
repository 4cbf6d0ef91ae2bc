//! A transaction commits.
//!
//! 1. The pass holds the journal from before it stores its stamp until it has stored the clock. The entry is put at the
//!    journal's end between the two, into room that was made when the transaction began: no memory is taken.
//! 2. From the store of the clock on the commit is seen by whoever begins. Its rows get their stamps later: until then
//!    the pass's word tells whoever meets one of them.
//! 3. A transaction without writes stores neither, and has no stamp.

ghost use Rattle.std.specs.Prelude.{◌≡◌, ◌+◌, ◌<◌, ◌≤◌, ◌^◌, IfOk, IfSome, [], length};
ghost use Rattle.graph_model.specs.AccountSteps.{CommitsBy};
ghost use Rattle.graph_model.specs.Legal.{IsLegal};
ghost use Rattle.store_rule.specs.RuleModel.Sight.{with_commit};
ghost use Rattle.store_rule.specs.StoreRelation.Keys.{changed_keys};
ghost use Rattle.store_rule.specs.StoreRelation.Passes.{PassState};
ghost use Rattle.store_rule.specs.StoreRelation.Shared.{JournalState, entries, entry_of};
ghost use Rattle.store_rule.specs.StoreRelation.Steps.{committed, committing, published_now, with_entry};
ghost use Rattle.store_rule.specs.StoreRelationDeclared.stage.Stage.TheVariants.{Committing, Open};
ghost use Rattle.store_rule.specs.Passes.{OnlyAccount};
ghost use Rattle.pass_steps.specs.Journal.{HasTaken};
ghost use Rattle.pass_steps.specs.Passes.{IsEndedPass, IsOpenPass, IsSamePass, account_of_pass, journal_in, name_of_pass, pin_of, state_of};
ghost use Rattle.pass_steps.specs.Txns.{Commits, CommitsAs, HasCommitted};

use crate::beginning::load_clock;
use crate::ending::{end, stop};
use crate::journal::{give_journal, take_journal};
use graph_model::{Begun, Commit, Writes};
use std::marker::Brand;
use std::sync::Wait;
use store_rule::{Pass, Store};
use txn_manager::Config;

/// Commits the open transaction, given what `begin` answered and its writes. Answers the stamp, or none where nothing
/// was written. Takes no memory. The rows that it has changed are still to be stamped.
pub fn commit(
    rt: &impl Wait,
    store: &Store,
    pass: &mut Pass,
    begun: Begun,
    writes: Writes,
) -> Option<u64>
    requires pass { IsOpenPass store.now pass.old }
    requires alone { (state_of pass.old).readers_out ≡ 0 }
    requires begun { (begun.by ≡ name_of_pass pass.old) × (begun.start ≡ (state_of pass.old).start) }
    requires writes { writes ≡ (state_of pass.old).own }
    ensures ended { IsEndedPass store.now pass.new }
    ensures commits { CommitsAs store.now.accounts.config pass.old.number (state_of pass.old) result (state_of pass.new) }
    ensures stamp { IfSome result (λ stamp. HasCommitted pass.new.number (state_of pass.new) stamp) }
    ensures pin { pin_of pass.new ≡ pin_of pass.old }
    ensures account { CommitsBy (account_of_pass store.now pass.old) result (account_of_pass store.now pass.new) }
    ensures same { IsSamePass pass.old pass.new }
{
    if writes.is_empty() {
        stop(store, pass);
        end(store, pass);
        return None;
    }
    Some(enter(rt, store, pass, begun, writes))
}

/// Enters a commit at the end of the journal, and answers its stamp.
fn enter(rt: &impl Wait, store: &Store, pass: &mut Pass, begun: Begun, writes: Writes) -> u64
    requires pass { IsOpenPass store.now pass.old }
    requires alone { (state_of pass.old).readers_out ≡ 0 }
    requires begun { (begun.by ≡ name_of_pass pass.old) × (begun.start ≡ (state_of pass.old).start) }
    requires writes { (writes ≡ (state_of pass.old).own) × (0 < length writes) }
    ensures ended { IsEndedPass store.now pass.new }
    ensures commits { Commits store.now.accounts.config pass.old.number (state_of pass.old) result (state_of pass.new) }
    ensures pin { pin_of pass.new ≡ pin_of pass.old }
    ensures same { IsSamePass pass.old pass.new }
{
    // With the journal in hand nobody else commits, so the stamp that is one more than the clock is this commit's
    // alone.
    let mut held = take_journal(rt, store, pass);
    let journal = &mut *held.value;
    let clock = load_clock(store, pass);
    let entered = journal.len() as u64;
    prove!(clock == entered);
    store_stamp(store, pass, clock);
    journal.push_within(Commit {
        stamp: clock + 1,
        start: begun.start,
        by: begun.by,
        writes,
    });
    publish(store, pass, clock);
    // Before the rows get their stamps, so that others commit meanwhile.
    give_journal(store, pass, held);
    clock + 1
}

/// Stores the stamp in the word of the pass, while the clock is this.
fn store_stamp(store: &Store, pass: &mut Pass, clock: u64)
    requires taken { (j : JournalState) × HasTaken store.now pass.old (state_of pass.old) (pin_of pass.old) j
        × (j.next ≡ []) × (clock ≡ length j.commits) }
    requires small { clock + 3 < 2 ^ 64 }
    requires stage { ((state_of pass.old).stage ≡ Open) × ((state_of pass.old).readers_out ≡ 0) }
    requires wrote { 0 < length (state_of pass.old).own }
    ensures { OnlyAccount pass.old pass.new (with_commit pass.old.account.me.0 pass.old.number
        (committing (state_of pass.old))
        (with_entry (journal_in pass.old.account.me.0) pass.old.number (state_of pass.old))) }
{
    let number = pass.number;
    let place = store.accounts.pass_place(number);
    // Has to come before the store of the clock for all: whoever finds the new clock finds the stamp. Whoever finds the
    // stamp alone is told by the clock that it isn't published.
    store
        .accounts
        .store_as::<Brand, u32>(&mut pass.account, place, clock + 3, &number);
}

/// Publishes the commit, whose stamp is stored.
fn publish(store: &Store, pass: &mut Pass, clock: u64)
    requires taken { (j : JournalState) × HasTaken store.now pass.old (state_of pass.old) (pin_of pass.old) j
        × (clock ≡ length j.commits) }
    requires small { clock + 1 < 2 ^ 64 }
    requires stage { (state_of pass.old).stage ≡ Committing }
    ensures published { OnlyAccount pass.old pass.new (with_commit pass.old.account.me.0 pass.old.number
        (committed (state_of pass.old) (journal_in pass.old.account.me.0)
        (changed_keys store.now.accounts.config.kind (state_of pass.old).own))
        (published_now (journal_in pass.old.account.me.0))) }
    ensures legal { IsLegal store.now.accounts.config.kind (entries (journal_in pass.old.account.me.0)) }
{
    let about = (pass.number, store.accounts.config);
    let place = store.accounts.clock_place();
    // Has to be a release: whoever finds this clock finds the stamp in the pass's word.
    store
        .accounts
        .store_as::<Brand, (u32, Config)>(&mut pass.account, place, clock + 1, &about);
}
