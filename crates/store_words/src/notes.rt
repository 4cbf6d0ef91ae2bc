//! Seats that are cut off and joined. A note is a seat that keeps one thing and nothing else: it lies beside the value
//! of which it knows, and what it keeps is the owner's again once it is joined.

ghost use Rattle.std.specs.Prelude.{◌≡◌, ◌<◌, ℕ, [], ◌∷◌};
ghost use Rattle.rule_model.specs.CellsModel.Cells.{CellState};
ghost use Rattle.rule_model.specs.Sight.{HasCell, HasIndex, HasJournal, HasPass, HasPin, IndexState, PinState};
ghost use Rattle.rule_model.specs.ViewSteps.{IsSplit, joined};
ghost use Rattle.rule_model.specs.StoreRelation.Passes.{PassState};
ghost use Rattle.rule_model.specs.StoreRelation.Shared.{JournalState};
ghost use Rattle.store_words.specs.Notes.{IsNote, cell_note, index_note, journal_note, pass_note, without_cell, without_index, without_journal, without_pass};
ghost use Rattle.store_words.specs.Steps.{Knows};

use crate::accounts::Accounts;
use crate::rule::{Account, AccountSight};
use atomic_table::{Join, Split};
use std::marker::{Brand, PhantomData};

/// How a view is cut in two.
pub trait Cut {
    ghost use Rattle.rule_model.specs.Sight.{Sight};

    ghost left: { Sight → Sight };

    ghost right: { Sight → Sight };
}

impl Cut for Brand {
    ghost use Rattle.rule_model.specs.Sight.{no_sight};

    ghost left = { λ v. v };

    ghost right = { λ v. no_sight };
}

/// The same as a split of the table.
pub struct Cuts<N> {
    of: PhantomData<N>,
}

impl<N: Cut> Split<AccountSight> for Cuts<N> {
    ghost left = { λ v. N.left v };

    ghost right = { λ v. N.right v };
}

/// A seat takes in what another knows.
pub struct TakesIn;

impl Join<AccountSight> for TakesIn {
    ghost use Rattle.rule_model.specs.Sight.{no_sight};

    ghost both = { λ v w. joined v w };

    ghost spent = { no_sight };
}

impl Accounts {
    /// Cuts a view in two. How may depend on what it is `about`, which is read by proofs alone.
    pub fn cut_as<N: Cut, A>(&self, seat: &mut Account, _about: &A) -> Account
        requires table { seat.old.table_id ≡ self.now.table.shared.table_id }
        requires cut { IsSplit seat.old.me.0 (N.left seat.old.me.0) (N.right seat.old.me.0) }
        ensures left { Knows seat.old seat.new (N.left seat.old.me.0) }
        ensures right { IsNote self.now.table.shared.table_id (N.right seat.old.me.0) result }
    {
        // Changes no word. The load that it makes, of a word that nobody writes, needs no order.
        self.table.shared.split_seat::<Cuts<N>>(seat)
    }

    /// Takes in what another seat knows.
    pub fn join(&self, seat: &mut Account, other: Account)
        requires table { seat.old.table_id ≡ self.now.table.shared.table_id }
        requires other { (other.table_id ≡ self.now.table.shared.table_id) × (other.me.1 ≡ []) }
        requires readers { other.me.0.readers ≡ [] }
        ensures both { Knows seat.old seat.new (joined seat.old.me.0 other.me.0) }
    {
        // As a cut.
        self.table.shared.join_seat::<TakesIn>(seat, other);
    }

    /// A note of a cell that the seat keeps.
    pub fn note_cell(&self, seat: &mut Account, cell: u32) -> Account
        requires table { seat.old.table_id ≡ self.now.table.shared.table_id }
        requires kept { (c : CellState) × HasCell seat.old.me.0 cell c }
        ensures left { Knows seat.old seat.new (without_cell cell seat.old.me.0) }
        ensures note { (c : CellState) → HasCell seat.old.me.0 cell c
            → IsNote self.now.table.shared.table_id (cell_note cell c) result }
    {
        self.cut_as::<Brand, u32>(seat, &cell)
    }

    /// A note of the index.
    pub fn note_index(&self, seat: &mut Account) -> Account
        requires table { seat.old.table_id ≡ self.now.table.shared.table_id }
        requires kept { (y : IndexState) × HasIndex seat.old.me.0 y }
        ensures left { Knows seat.old seat.new (without_index seat.old.me.0) }
        ensures note { (y : IndexState) → HasIndex seat.old.me.0 y
            → IsNote self.now.table.shared.table_id (index_note y) result }
    {
        self.cut_as::<Brand, ()>(seat, &())
    }

    /// A note of the journal.
    pub fn note_journal(&self, seat: &mut Account) -> Account
        requires table { seat.old.table_id ≡ self.now.table.shared.table_id }
        requires kept { (j : JournalState) × HasJournal seat.old.me.0 j }
        ensures left { Knows seat.old seat.new (without_journal seat.old.me.0) }
        ensures note { (j : JournalState) → HasJournal seat.old.me.0 j
            → IsNote self.now.table.shared.table_id (journal_note j) result }
    {
        self.cut_as::<Brand, ()>(seat, &())
    }

    /// A seat of a pass, with its pin.
    pub fn note_pass(&self, seat: &mut Account, pass: u32) -> Account
        requires table { seat.old.table_id ≡ self.now.table.shared.table_id }
        requires pass { (st : PassState) × HasPass seat.old.me.0 pass st }
        requires pin { (x : PinState) × HasPin seat.old.me.0 pass x }
        ensures left { Knows seat.old seat.new (without_pass pass seat.old.me.0) }
        ensures note { (st : PassState) (x : PinState) → HasPass seat.old.me.0 pass st
            → HasPin seat.old.me.0 pass x
            → IsNote self.now.table.shared.table_id (pass_note pass st x) result }
    {
        self.cut_as::<Brand, u32>(seat, &pass)
    }
}
