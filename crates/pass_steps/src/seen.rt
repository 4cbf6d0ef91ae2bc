//! The journal is seen, or what another pass has seen of it.
//!
//! 1. What a pass has seen never shrinks.
//! 2. Who holds the journal sees all of it. From another pass it is taken by a note, and nobody waits.

ghost use Rattle.std.specs.Prelude.{◌≡◌, ◌+◌, [], length};
ghost use Rattle.graph_model.specs.Legal.{IsLegal};
ghost use Rattle.store_rule.specs.RuleModel.Sight.{HasPass, no_sight, with_pass};
ghost use mathlib.Core.List.{IsPrefix};
ghost use Rattle.store_rule.specs.RuleModel.TxnSteps.{TellsJournal};
ghost use Rattle.store_rule.specs.StoreRelation.Passes.{PassState};
ghost use Rattle.store_rule.specs.StoreRelation.Shared.{JournalState};
ghost use Rattle.store_rule.specs.StoreRelation.Steps.{refreshed};
ghost use Rattle.store_rule.specs.RuleModel.Sight.{PinState};
ghost use Rattle.store_rule.specs.Passes.{OnlyAccount};
ghost use Rattle.store_rule.specs.StoreWords.Notes.{IsNote};
ghost use Rattle.pass_steps.specs.Asking.{lent_part};
ghost use Rattle.pass_steps.specs.Journal.{HasTaken};
ghost use Rattle.pass_steps.specs.Passes.{HoldsNone, IsIdlePass, IsPassOf, IsSamePass, journal_in, pin_of, state_of};
ghost use Rattle.pass_steps.specs.Txns.{Meets, Refreshes, told_seen, told_with};

use crate::journal::{give_journal, take_journal};
use std::marker::Brand;
use std::sync::Wait;
use store_rule::below::Account;
use store_rule::{Change, Pass, Store};
use txn_manager::Config;

/// Has the pass see all that is published, and answers the clock.
pub fn refresh(rt: &impl Wait, store: &Store, pass: &mut Pass) -> u64
    requires pass { IsPassOf store.now pass.old }
    requires none { HoldsNone pass.old }
    ensures pass { IsPassOf store.now pass.new }
    ensures none { HoldsNone pass.new }
    ensures seen { Refreshes store.now.accounts.config (state_of pass.old) result (state_of pass.new) }
    ensures pin { pin_of pass.new ≡ pin_of pass.old }
    ensures same { IsSamePass pass.old pass.new }
{
    let held = take_journal(rt, store, pass);
    // With the journal in hand: nobody commits meanwhile, so all that is published is seen.
    let clock = see_journal(store, pass);
    give_journal(store, pass, held);
    clock
}

/// The same with the journal held.
fn see_journal(store: &Store, pass: &mut Pass) -> u64
    requires taken { (st : PassState) × (x : PinState) × (j : JournalState) × HasTaken store.now pass.old st x j }
    ensures seen { OnlyAccount pass.old pass.new (with_pass pass.old.account.me.0 pass.old.number
        (refreshed (state_of pass.old) (journal_in pass.old.account.me.0).commits)) }
    ensures told { TellsJournal store.now.accounts.config (state_of pass.old)
        (journal_in pass.old.account.me.0) result }
{
    let planned = SeesJournal {
        config: store.accounts.config,
        number: pass.number,
    };
    store.change(pass, &planned)
}

/// A load of the clock by which a pass that has the journal sees all of it.
#[derive(Drop)]
struct SeesJournal {
    /// How the store was made.
    config: Config,
    /// The number of the pass.
    number: u32,
}

impl Change for SeesJournal {
    ghost use Rattle.pass_steps.specs.Passes.{journal_in, state_in};
    ghost use Rattle.store_rule.specs.RuleModel.Sight.{with_pass};
    ghost use Rattle.store_rule.specs.RuleModel.TxnSteps.{TellsJournal};
    ghost use Rattle.store_rule.specs.StoreRelation.Steps.{refreshed};

    ghost next = { λ planned n v. with_pass v planned.number
        (refreshed (state_in v planned.number) (journal_in v).commits) };

    ghost told = { λ planned n v. TellsJournal planned.config (state_in v planned.number) (journal_in v) n };
}

/// Has a pass without a transaction see what another has seen, by a note that holds a copy of that and nothing else.
/// Takes no memory, and waits for nobody.
pub fn meet(store: &Store, from: &mut Pass, to: &mut Pass)
    requires from { IsPassOf store.now from.old }
    requires to { IsIdlePass store.now to.old }
    ensures from { OnlyAccount from.old from.new from.old.account.me.0 }
    ensures to { IsIdlePass store.now to.new }
    ensures met { Meets (state_of from.old).seen (state_of to.old) (state_of to.new) }
    ensures pin { pin_of to.new ≡ pin_of to.old }
    ensures number { to.new.number ≡ to.old.number }
{
    let note = copy_seen(store, from);
    // What was seen is known to be so for good, so a copy of it may be anybody's.
    store.accounts.join(&mut to.account, note);
    see_told(store, to);
    forget_told(store, to);
}

/// A note of what a pass has seen.
fn copy_seen(store: &Store, pass: &mut Pass) -> Account
    requires { IsPassOf store.now pass.old }
    ensures same { OnlyAccount pass.old pass.new pass.old.account.me.0 }
    ensures note { IsNote store.now.accounts.table.shared.table_id
        (record no_sight { told = (state_of pass.old).seen }) result }
{
    let number = pass.number;
    store
        .accounts
        .cut_as::<Brand, u32>(&mut pass.account, &number)
}

/// Has a pass see what it was told.
fn see_told(store: &Store, pass: &mut Pass)
    requires table { pass.old.account.table_id ≡ store.now.accounts.table.shared.table_id }
    requires pass { HasPass pass.old.account.me.0 pass.old.number (state_of pass.old) }
    ensures seen { OnlyAccount pass.old pass.new (told_seen pass.old.number pass.old.account.me.0) }
    ensures told { IsPrefix (state_of pass.old).seen (told_with pass.old.number pass.old.account.me.0)
        × IsPrefix pass.old.account.me.0.told (told_with pass.old.number pass.old.account.me.0) }
{
    let planned = SeesTold {
        number: pass.number,
    };
    store.change(pass, &planned);
}

/// A load of the clock by which a pass sees what it was told.
#[derive(Drop)]
struct SeesTold {
    /// The number of the pass.
    number: u32,
}

impl Change for SeesTold {
    ghost use mathlib.Core.List.{IsPrefix};
    ghost use Rattle.pass_steps.specs.Passes.{state_in};
    ghost use Rattle.pass_steps.specs.Txns.{told_seen, told_with};

    ghost next = { λ planned n v. told_seen planned.number v };

    ghost told = { λ planned n v. IsPrefix (state_in v planned.number).seen (told_with planned.number v)
        × IsPrefix v.told (told_with planned.number v) };
}

/// Takes a seat for the pass that knows what it knew, but for what it was told, which it has seen.
fn forget_told(store: &Store, pass: &mut Pass)
    requires table { pass.old.account.table_id ≡ store.now.accounts.table.shared.table_id }
    requires slots { pass.old.account.me.1 ≡ [] }
    ensures { OnlyAccount pass.old pass.new (lent_part pass.old.account.me.0) }
{
    let number = pass.number;
    pass.account = store
        .accounts
        .cut_as::<Brand, u32>(&mut pass.account, &number);
}
