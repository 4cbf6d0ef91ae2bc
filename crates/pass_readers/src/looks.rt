//! Where other transactions stand, as a reader finds it at their passes' words.
//!
//! Who asks holds the cells in which the asked-for transaction has a record without a stamp, so the word of its pass
//! speaks of it. A stamp that is found and isn't published, as far as the clock is known, is of a transaction that is
//! still open for the reader.

ghost use Rattle.std.specs.Prelude.{◌≡◌, ◌⊎◌, ◌<◌, ◌≤◌, true, [], ◌∷◌, length};
ghost use Rattle.pass_steps.specs.Asking.{is_writer, state_at};
ghost use Rattle.pass_steps.specs.RuleModel.Sight.{no_sight};
ghost use Rattle.pass_steps.specs.StoreRule.Passes.{OnlyAccount};
ghost use Rattle.pass_steps.specs.StoreWords.Steps.{Knows};
ghost use Rattle.pass_steps.specs.RuleModel.StoreRelation.ReadLaws.{Answers};
ghost use Rattle.pass_cells.specs.StoreWords.Notes.{IsNote};
ghost use Rattle.pass_readers.specs.Readers.{read_by, read_in};
ghost use Rattle.pass_readers.specs.Looks.{asked_by};

use graph_model::{State, TxnName};
use pass_steps::below::{Account, Accounts, Pass, Store};
use std::marker::{Brand, Model, PhantomData};
use std::mem::replace;
use undo_chain::States;

/// The reader that asks, as it was when it began to. A function that asks is generic in it, and its caller says by a
/// pick who that is: so what is known before is known after the questions as well.
pub trait Reading {
    ghost use Rattle.pass_steps.specs.Asking.{Asking};

    ghost asking: { Asking };
}

impl Reading for Brand {
    ghost use Rattle.pass_steps.specs.Asking.{nobody};

    ghost asking = { nobody };
}

/// The seat that a reader lends, with all that it knows.
pub struct ReaderStates<'a, B: Reading> {
    accounts: &'a Accounts,
    seat: Account,
    clock: u64,
    of: PhantomData<B>,
}

impl<'a, B: Reading> Model for ReaderStates<'a, B> {
    ghost use Rattle.pass_steps.specs.RuleModel.Sight.{Sight};
    ghost use Rattle.pass_readers.specs.Looks.{IsLent};

    ghost Value = { Sight };

    ghost view = { λ s. s.seat.me.0 };

    ghost invariant = { λ s. IsLent B.asking s.accounts.now.table.shared.table_id s.accounts.now.config s.seat s.clock };
}

impl<B: Reading> States for ReaderStates<'_, B> {
    ghost use Rattle.pass_readers.specs.Looks.{knowledge_in};

    ghost knowledge = { λ s. knowledge_in B.asking.config s };

    fn state(&mut self, by: TxnName) -> State {
        let word = look(self.accounts, &mut self.seat, by);
        state_by(word, self.clock)
    }
}

impl<'a, B: Reading> ReaderStates<'a, B> {
    /// Lends what a reader knows. The clock is one that it has found since it holds what it knows of.
    pub fn lend(store: &'a Store, reader: &mut Pass, clock: u64) -> ReaderStates<'a, B>
        requires table { reader.old.account.table_id ≡ store.now.accounts.table.shared.table_id }
        requires slots { reader.old.account.me.1 ≡ [] }
        requires reads { reader.old.account.me.0.readers ≡ read_by reader.old ∷ [] }
        requires clock { length (read_by reader.old).seen ≤ clock }
        requires asking { B.asking ≡ asked_by store.now reader.old clock }
        ensures kept { OnlyAccount reader.old reader.new no_sight }
        ensures lent { result ≡ reader.old.account.me.0 }
    {
        // A pass has a seat at any time, so one that knows nothing stands in for the one that is lent.
        let rest = cut_nothing(&store.accounts, &mut reader.account);
        let seat = replace(&mut reader.account, rest);
        ReaderStates {
            accounts: &store.accounts,
            seat,
            clock,
            of: PhantomData,
        }
    }

    /// Gives back what was lent.
    pub fn give_back(self, reader: &mut Pass)
        requires table { reader.old.account.table_id ≡ B.asking.table }
        requires none { (reader.old.account.me.0 ≡ no_sight) × (reader.old.account.me.1 ≡ []) }
        ensures { OnlyAccount reader.old reader.new B.asking.sight }
    {
        let ReaderStates {
            accounts,
            seat,
            clock: _,
            of: _,
        } = self;
        let rest = replace(&mut reader.account, seat);
        join_nothing(accounts, &mut reader.account, rest);
    }
}

/// A seat that knows nothing.
fn cut_nothing(accounts: &Accounts, seat: &mut Account) -> Account
    requires { seat.old.table_id ≡ accounts.now.table.shared.table_id }
    ensures kept { Knows seat.old seat.new seat.old.me.0 }
    ensures nothing { IsNote accounts.now.table.shared.table_id no_sight result }
{
    accounts.cut_as::<Brand, ()>(seat, &())
}

/// Lets such a seat go.
fn join_nothing(accounts: &Accounts, seat: &mut Account, nothing: Account)
    requires table { seat.old.table_id ≡ accounts.now.table.shared.table_id }
    requires nothing { IsNote accounts.now.table.shared.table_id no_sight nothing }
    ensures { Knows seat.old seat.new seat.old.me.0 }
{
    accounts.join(seat, nothing);
}

/// Loads the word of a writer's pass.
fn look(accounts: &Accounts, seat: &mut Account, by: TxnName) -> u64
    requires table { seat.old.table_id ≡ accounts.now.table.shared.table_id }
    requires reads { seat.old.me.0.readers ≡ read_in seat.old.me.0 ∷ [] }
    requires writer { is_writer accounts.now.config seat.old.me.0 by ≡ true }
    ensures kept { Knows seat.old seat.new seat.old.me.0 }
    ensures answers { Answers (read_in seat.old.me.0).seen by result }
    ensures word { (result ≡ 1) ⊎ (2 < result) }
{
    let place = accounts.pass_place(by.job);
    // Has to be an acquire: where a stamp is found, whoever loads the clock next finds it there, or not yet published.
    // The word may have changed since: then the writer has got a stamp that is above all that was seen, or has ended.
    accounts.load_as::<Brand, TxnName>(seat, place, &by)
}

/// What a word says of its pass's latest transaction, for whoever has found this clock.
fn state_by(word: u64, clock: u64) -> State
    ensures { result ≡ state_at clock word }
{
    if word > 2 {
        let stamp = word - 2;
        if stamp <= clock {
            return State::Committed { stamp };
        }
        // Stored, and not yet published when the clock was loaded: to this reader it is still open.
        return State::Live;
    }
    if word == 1 {
        State::Live
    } else {
        State::Aborted
    }
}
