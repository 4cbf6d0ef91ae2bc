//! A transaction begins.
//!
//! 1. The pass holds the journal from before it loads the clock until 'open' stands in its word. Nobody commits
//!    meanwhile, so the transaction begins at the clock that was loaded.
//! 2. It has announced before, so that no sweep has a horizon above its start, and pins itself at its start once the
//!    journal is given back.

ghost use Rattle.std.specs.Prelude.{◌≡◌, ◌↔◌, ◌<◌, ◌≤◌, ◌^◌, Err, Ok, IfOk, OnErr, OnOk, [], true, false, length};
ghost use Rattle.graph_model.specs.AccountSteps.{BeginsBy};
ghost use Rattle.graph_model.specs.declared.refusal.BeginRefusal.TheVariants.{TxnsUsed};
ghost use Rattle.store_rule.specs.RuleModel.Sight.{PinState, with_journal, with_pass};
ghost use Rattle.store_rule.specs.RuleModel.TxnSteps.{TellsClock};
ghost use Rattle.store_rule.specs.StoreRelationDeclared.stage.Stage.TheVariants.{Idle};
ghost use Rattle.store_rule.specs.StoreRelation.Passes.{PassState, number_of};
ghost use Rattle.store_rule.specs.StoreRelation.Shared.{JournalState};
ghost use Rattle.store_rule.specs.StoreRelation.Steps.{begun};
ghost use Rattle.store_rule.specs.Passes.{OnlyAccount};
ghost use Rattle.store_rule.specs.Slots.{IsListOf};
ghost use Rattle.pass_steps.specs.Journal.{HasTaken};
ghost use Rattle.pass_steps.specs.Passes.{HasNoTxn, HoldsNone, IsIdlePass, IsOpenPass, IsPassOf, IsSamePass, account_of_pass, journal_in, pin_of, state_of};
ghost use Rattle.pass_steps.specs.Txns.{Begins, Opens};

use crate::journal::{give_journal, take_journal};
use crate::pins::{announce, pin};
use graph_model::{BeginRefusal, Begun, NoMemory, RoomyJournal, TxnName};
use std::marker::Brand;
use std::sync::Wait;
use store_rule::{Change, Pass, Store};
use txn_manager::Config;

/// The word of a pass whose transaction is open.
const OPEN: u64 = 1;

/// Begins the next transaction of a pass that has begun so many. Its start is the clock that this call loads. Makes
/// room in the journal for the commits of all passes, so that none of them needs memory. After a refusal the pass is as
/// it was, and holds nothing back.
pub fn begin(
    rt: &impl Wait,
    store: &Store,
    pass: &mut Pass,
    count: u32,
) -> Result<Begun, BeginRefusal>
    requires pass { IsIdlePass store.now pass.old }
    requires count { count ≡ number_of (state_of pass.old) }
    ensures opened { OnOk result (IsOpenPass store.now pass.new) }
    ensures begun { IfOk result (λ answer. Begins pass.old.number (state_of pass.old) answer (state_of pass.new)) }
    ensures used { (result ≡ Err TxnsUsed) ↔ (store.now.accounts.config.txns_per_pass ≤ number_of (state_of pass.old)) }
    ensures err { OnErr result (IsIdlePass store.now pass.new × (state_of pass.new ≡ state_of pass.old)) }
    ensures pin { pin_of pass.new ≡ pin_of pass.old }
    ensures account { BeginsBy (account_of_pass store.now pass.old) result (account_of_pass store.now pass.new) }
    ensures same { IsSamePass pass.old pass.new }
{
    if count >= store.accounts.config.txns_per_pass {
        return Err(BeginRefusal::TxnsUsed);
    }
    let start = open_txn(rt, store, pass)?;
    // The announcement of the begin has held back all sweeps since before the clock was loaded, so none came in
    // between.
    pin(store, pass, start);
    Ok(Begun {
        by: TxnName {
            job: pass.number,
            number: count + 1,
        },
        start,
    })
}

/// Loads the clock and opens the transaction, with the journal held. Answers the clock.
fn open_txn(rt: &impl Wait, store: &Store, pass: &mut Pass) -> Result<u64, NoMemory>
    requires pass { IsIdlePass store.now pass.old }
    requires more { number_of (state_of pass.old) < store.now.accounts.config.txns_per_pass }
    ensures ok { IfOk result (λ start. Opens (state_of pass.old) start (state_of pass.new)
        × (pin_of pass.new ≡ record (pin_of pass.old) { announced = true }) × (start < 2 ^ 63)) }
    ensures err { OnErr result ((state_of pass.new ≡ state_of pass.old) × (pin_of pass.new ≡ pin_of pass.old)) }
    ensures pass { IsPassOf store.now pass.new }
    ensures none { HoldsNone pass.new }
    ensures same { IsSamePass pass.old pass.new }
{
    let mut held = take_journal(rt, store, pass);
    let opened = open_within(store, pass, &mut *held.value);
    give_journal(store, pass, held);
    opened
}

/// The same with the journal in hand.
fn open_within(store: &Store, pass: &mut Pass, journal: &mut RoomyJournal) -> Result<u64, NoMemory>
    requires taken { (j : JournalState) × HasTaken store.now pass.old (state_of pass.old) (pin_of pass.old) j
        × IsListOf j journal.old }
    requires idle { HasNoTxn (state_of pass.old) (pin_of pass.old) }
    requires more { number_of (state_of pass.old) < store.now.accounts.config.txns_per_pass }
    ensures ok { IfOk result (λ start. Opens (state_of pass.old) start (state_of pass.new)
        × (pin_of pass.new ≡ record (pin_of pass.old) { announced = true }) × (start < 2 ^ 63)) }
    ensures err { OnErr result ((state_of pass.new ≡ state_of pass.old) × (pin_of pass.new ≡ pin_of pass.old)) }
    ensures taken { (j : JournalState) × HasTaken store.now pass.new (state_of pass.new) (pin_of pass.new) j
        × IsListOf j journal.new }
    ensures same { IsSamePass pass.old pass.new }
{
    // Memory first, while nothing of the transaction exists: its commit then takes none, and can't fail.
    make_room(store, pass, journal)?;
    // Before the clock is loaded: a sweep that looked between the two would otherwise find no pin, and prune what this
    // transaction is about to see.
    announce(store, pass);
    let start = load_clock(store, pass);
    let commits = journal.len() as u64;
    prove!(start == commits);
    store_open(store, pass);
    Ok(start)
}

/// Makes room in the journal for the commit of each pass.
fn make_room(store: &Store, pass: &mut Pass, journal: &mut RoomyJournal) -> Result<(), NoMemory>
    requires taken { (st : PassState) × (x : PinState) × (j : JournalState) × HasTaken store.now pass.old st x j
        × IsListOf j journal.old }
    ensures ok { OnOk result ((st : PassState) (x : PinState) (j : JournalState)
        → HasTaken store.now pass.old st x j → IsListOf j journal.old
        → (j' : JournalState) × HasTaken store.now pass.new st x j' × IsListOf j' journal.new
        × (j'.commits ≡ j.commits) × (store.now.accounts.config.passes ≤ j'.room)) }
    ensures err { OnErr result ((pass.new ≡ pass.old) × (journal.new ≡ journal.old)) }
    ensures same { IsSamePass pass.old pass.new }
{
    journal.reserve(store.accounts.config.passes as usize)?;
    store.change(pass, &CountsRoom { journal: &*journal });
    Ok(())
}

/// The pass counts on all the room that a journal has.
#[derive(Drop)]
struct CountsRoom<'a> {
    /// With room for the commits that may come.
    journal: &'a RoomyJournal,
}

impl Change for CountsRoom<'_> {
    ghost use Rattle.pass_steps.specs.Passes.{journal_in};
    ghost use Rattle.store_rule.specs.RuleModel.Sight.{with_journal};

    ghost next = { λ planned n v. with_journal v (record (journal_in v) { room = planned.journal.now.spare }) };

    ghost told = { λ planned n v. Unit {0} };
}

/// Loads the clock, while the pass has the journal.
pub(crate) fn load_clock(store: &Store, pass: &mut Pass) -> u64
    requires taken { (st : PassState) × (x : PinState) × (j : JournalState) × HasTaken store.now pass.old st x j }
    ensures same { OnlyAccount pass.old pass.new pass.old.account.me.0 }
    ensures told { TellsClock store.now.accounts.config (state_of pass.old) (journal_in pass.old.account.me.0) result }
{
    let planned = LoadsClock {
        config: store.accounts.config,
        number: pass.number,
    };
    store.change(pass, &planned)
}

/// A load of the clock by a pass that has the journal.
#[derive(Drop)]
struct LoadsClock {
    /// How the store was made.
    config: Config,
    /// The number of the pass.
    number: u32,
}

impl Change for LoadsClock {
    ghost use Rattle.pass_steps.specs.Passes.{journal_in, state_in};
    ghost use Rattle.store_rule.specs.RuleModel.TxnSteps.{TellsClock};

    ghost next = { λ planned n v. v };

    ghost told = { λ planned n v. TellsClock planned.config (state_in v planned.number) (journal_in v) n };
}

/// Stores 'open' in the word of the pass: from then on its transaction has begun.
fn store_open(store: &Store, pass: &mut Pass)
    requires taken { (j : JournalState) × HasTaken store.now pass.old (state_of pass.old) (pin_of pass.old) j
        × (store.now.accounts.config.passes ≤ j.room) }
    requires stage { ((state_of pass.old).stage ≡ Idle) × ((state_of pass.old).unstamped ≡ []) }
    requires more { number_of (state_of pass.old) < store.now.accounts.config.txns_per_pass }
    requires pin { ((pin_of pass.old).announced ≡ true) × ((pin_of pass.old).noted ≡ []) }
    ensures { OnlyAccount pass.old pass.new (with_pass pass.old.account.me.0 pass.old.number
        (begun (state_of pass.old) (journal_in pass.old.account.me.0))) }
{
    let number = pass.number;
    let place = store.accounts.pass_place(number);
    // Sequentially consistent, and has to come after the load of the clock for all. Whoever finds a record of this
    // transaction has taken a cell that it has given back since, and so finds this word or a later one.
    store
        .accounts
        .store_as::<Brand, u32>(&mut pass.account, place, OPEN, &number);
}
