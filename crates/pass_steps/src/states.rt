//! Where other transactions stand, as a pass finds it at their passes' words.
//!
//! 1. Who asks holds the cells in which the asked-for transaction has a record without a stamp. So that is its pass's
//!    latest transaction, and the word speaks of it.
//! 2. A stamp that is found and isn't published, as far as the clock is known, is of a transaction that is still open
//!    for whoever asks.
//! 3. The pass keeps each word that it has found: by those it shows what it answers of a conflict.

ghost use Rattle.std.specs.Prelude.{◌≡◌, ◌⊎◌, ℕ, ◌<◌, ◌≤◌, ◌+◌, true, [], length};
ghost use Rattle.graph_model.specs.History.{view};
ghost use Rattle.graph_model.specs.Rows.{value_at};
ghost use Rattle.store_rule.specs.RuleModel.NoteSteps.{HasRow, LearnsRows};
ghost use Rattle.store_rule.specs.RuleModel.Sight.{HasPass};
ghost use Rattle.store_rule.specs.StoreRelation.ReadLaws.{Answers};
ghost use Rattle.store_rule.specs.Passes.{OnlyAccount};
ghost use Rattle.store_rule.specs.StoreWords.Steps.{Knows};
ghost use Rattle.store_rule.specs.VersionSegment.Rows.{IsSameSegment};
ghost use Rattle.store_rule.specs.CellsModel.Cells.{CellState};
ghost use Rattle.store_rule.specs.StoreWords.Notes.{IsNote};
ghost use Rattle.pass_steps.specs.Asking.{asking_of, is_writer, kept_part, lent_part, state_at, word_kept, IsSnapshotOf, KnowsLooks};
ghost use Rattle.pass_steps.specs.Passes.{IsPassOf, reader_of_pass, state_in, state_of};

use graph_model::{Key, State, TxnName};
use std::marker::{Brand, Model, PhantomData};
use store_rule::below::{Account, Accounts, VersionSegment};
use store_rule::{Pass, Store};
use undo_chain::{Snapshot, States};

/// Whoever asks, as it was when it began to. A function that asks is generic in it, and its caller says by a pick who
/// that is: so what is known before is known after the questions as well.
pub trait Asker {
    ghost use Rattle.pass_steps.specs.Asking.{Asking};

    ghost asking: { Asking };
}

impl Asker for Brand {
    ghost use Rattle.pass_steps.specs.Asking.{nobody};

    ghost asking = { nobody };
}

/// A seat that a pass lends, with what the pass knows.
pub struct PassStates<'a, B: Asker> {
    /// The table of the words.
    accounts: &'a Accounts,
    /// What the pass knows, while it is lent.
    seat: Account,
    /// The number of the pass.
    number: u32,
    /// Up to it commits are known to be published.
    clock: u64,
    of: PhantomData<B>,
}

impl<'a, B: Asker> Model for PassStates<'a, B> {
    ghost use Rattle.store_rule.specs.RuleModel.Sight.{Sight};
    ghost use Rattle.pass_steps.specs.Asking.{IsLentBy};

    ghost Value = { Sight };

    ghost view = { λ s. s.seat.me.0 };

    ghost invariant = { λ s. IsLentBy B.asking s.accounts.now.table.shared.table_id s.accounts.now.config s.seat
        s.number s.clock };
}

impl<B: Asker> States for PassStates<'_, B> {
    ghost use Rattle.pass_steps.specs.Asking.{knowledge_at};

    ghost knowledge = { λ s. knowledge_at B.asking.config B.asking.number B.asking.clock s };

    fn state(&mut self, by: TxnName) -> State {
        let word = look(self.accounts, &mut self.seat, self.number, by);
        state_by(word, self.clock)
    }
}

impl<'a, B: Asker> PassStates<'a, B> {
    /// Lends what a pass knows. The clock is one that it has found since it holds what it knows of.
    pub fn lend(store: &'a Store, pass: &mut Pass, clock: u64) -> PassStates<'a, B>
        requires pass { IsPassOf store.now pass.old }
        requires clock { length (state_of pass.old).seen ≤ clock }
        requires asking { B.asking ≡ asking_of store.now pass.old clock }
        ensures kept { OnlyAccount pass.old pass.new (kept_part pass.old.account.me.0) }
        ensures lent { result ≡ lent_part pass.old.account.me.0 }
    {
        let seat = lend_seat(&store.accounts, &mut pass.account, pass.number);
        PassStates {
            accounts: &store.accounts,
            seat,
            number: pass.number,
            clock,
            of: PhantomData,
        }
    }

    /// Gives back what was lent, with the words that were found.
    pub fn give_back(self, pass: &mut Pass)
        requires table { pass.old.account.table_id ≡ B.asking.table }
        requires kept { (pass.old.account.me.0 ≡ kept_part B.asking.sight) × (pass.old.number ≡ B.asking.number) }
        requires told { (B.asking.sight.told ≡ []) × (B.asking.sight.readers ≡ []) }
        ensures looked { KnowsLooks B.asking.sight pass.old pass.new }
        ensures looks { (state_of pass.new).looks ≡ (state_in self.entry B.asking.number).looks }
    {
        let PassStates {
            accounts,
            seat,
            number: _,
            clock: _,
            of: _,
        } = self;
        accounts.join(&mut pass.account, seat);
    }
}

/// All that a seat keeps, but for its readers and its read.
fn lend_seat(accounts: &Accounts, seat: &mut Account, number: u32) -> Account
    requires { seat.old.table_id ≡ accounts.now.table.shared.table_id }
    ensures kept { Knows seat.old seat.new (kept_part seat.old.me.0) }
    ensures lent { IsNote accounts.now.table.shared.table_id (lent_part seat.old.me.0) result }
{
    accounts.cut_as::<Brand, u32>(seat, &number)
}

/// Loads the word of a writer's pass, which the asking pass keeps.
fn look(accounts: &Accounts, seat: &mut Account, number: u32, by: TxnName) -> u64
    requires table { seat.old.table_id ≡ accounts.now.table.shared.table_id }
    requires pass { HasPass seat.old.me.0 number (state_in seat.old.me.0 number) }
    requires writer { is_writer accounts.now.config seat.old.me.0 by ≡ true }
    ensures kept { Knows seat.old seat.new (word_kept number by result seat.old.me.0) }
    ensures answers { Answers (state_in seat.old.me.0 number).seen by result }
    ensures word { (result ≡ 1) ⊎ (2 < result) }
{
    let place = accounts.pass_place(by.job);
    // Has to be an acquire: where a stamp is found, whoever loads the clock next finds it there, or not yet published.
    // The word may have changed since: then the writer has got a stamp that is above all that was seen, or has ended.
    accounts.load_as::<Brand, (u32, TxnName)>(seat, place, &(number, by))
}

/// What a word says of its pass's latest transaction, for whoever has found this clock.
fn state_by(word: u64, clock: u64) -> State
    ensures { result ≡ state_at clock word }
{
    if word > 2 {
        let stamp = word - 2;
        // A stamp above the clock is stored and not yet published. To whoever found this clock the transaction is still
        // open.
        if stamp <= clock {
            return State::Committed { stamp };
        }
        return State::Live;
    }
    if word == 1 {
        State::Live
    } else {
        State::Aborted
    }
}

/// The value of a key in the view of the open transaction, by the row of a cell that the pass holds and of which it has
/// learnt.
pub fn read(
    store: &Store,
    pass: &mut Pass,
    clock: u64,
    segment: &VersionSegment,
    key: Key,
    snapshot: &Snapshot,
) -> Option<u64>
    requires pass { IsPassOf store.now pass.old }
    requires learnt { LearnsRows store.now.accounts.config pass.old.account.me.0 (reader_of_pass pass.old) clock }
    requires row { (k : ℕ) × (c : CellState) × HasRow store.now.accounts.config pass.old.account.me.0 k c key
        × IsSameSegment c.segment segment.now }
    requires snapshot { IsSnapshotOf pass.old snapshot.now }
    ensures value { let st = state_of pass.old in
        result ≡ value_at (view store.now.accounts.config.kind st.seen st.start st.own) key }
    ensures looked { KnowsLooks pass.old.account.me.0 pass.old pass.new }
{
    read_as::<Brand>(store, pass, clock, segment, key, snapshot)
}

/// The same by whoever asks.
fn read_as<B: Asker>(
    store: &Store,
    pass: &mut Pass,
    clock: u64,
    segment: &VersionSegment,
    key: Key,
    snapshot: &Snapshot,
) -> Option<u64>
    requires asking { B.asking ≡ asking_of store.now pass.old clock }
    requires pass { IsPassOf store.now pass.old }
    requires learnt { LearnsRows store.now.accounts.config pass.old.account.me.0 (reader_of_pass pass.old) clock }
    requires row { (k : ℕ) × (c : CellState) × HasRow store.now.accounts.config pass.old.account.me.0 k c key
        × IsSameSegment c.segment segment.now }
    requires snapshot { IsSnapshotOf pass.old snapshot.now }
    ensures value { let st = state_of pass.old in
        result ≡ value_at (view store.now.accounts.config.kind st.seen st.start st.own) key }
    ensures looked { KnowsLooks pass.old.account.me.0 pass.old pass.new }
{
    let mut states = PassStates::<B>::lend(store, pass, clock);
    let value = segment.read(key, snapshot, &mut states);
    states.give_back(pass);
    value
}
