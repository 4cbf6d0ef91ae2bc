//! Single steps on a word of the account table: every load and every store there, but for those of pins.
//!
//! A step is given by what its seat knows then and what it is told. Each kind of step is a call of its own in the other
//! modules, which says why a race is harmless and which order it needs; all are sequentially consistent.

ghost use Rattle.std.specs.Prelude.{◌≡◌, ◌<◌};
ghost use Rattle.store_words.specs.Steps.{Knows, MayLoad, MayStore, word_count};

use crate::accounts::Accounts;
use crate::rule::{Account, AccountSight};
use atomic_table::Play;
use std::marker::{Brand, PhantomData};

/// What a step makes of what its seat knows, by the number that it finds or stores, and what it tells.
pub trait Turn {
    ghost use Rattle.std.specs.Prelude.{ℕ};
    ghost use Rattle.rule_model.specs.Sight.{Sight};

    ghost next: { ℕ → Sight → Sight };

    ghost told: { ℕ → Sight → Type 0 };
}

impl Turn for Brand {
    ghost next = { λ n v. v };

    ghost told = { λ n v. Unit {0} };
}

/// The same as a step of the table.
pub struct Turns<C> {
    of: PhantomData<C>,
}

impl<C: Turn> Play<(), AccountSight> for Turns<C> {
    ghost then = { λ _ before n after. (after ≡ (C.next n before.0, before.1)) × C.told n before.0 };
}

impl Accounts {
    /// Loads a word. What the step is may depend on what it is `about`, which is read by proofs alone.
    pub fn load_as<C: Turn, A>(&self, seat: &mut Account, place: usize, _about: &A) -> u64
        requires table { seat.old.table_id ≡ self.now.table.shared.table_id }
        requires inside { place < word_count self.now.config }
        requires may { MayLoad self.now.config seat.old place C.next C.told }
        ensures view { Knows seat.old seat.new (C.next result seat.old.me.0) }
        ensures told { C.told result seat.old.me.0 }
    {
        self.table.shared.load::<Turns<C>>(seat, place)
    }

    /// Stores a word.
    pub fn store_as<C: Turn, A>(&self, seat: &mut Account, place: usize, word: u64, _about: &A)
        requires table { seat.old.table_id ≡ self.now.table.shared.table_id }
        requires inside { place < word_count self.now.config }
        requires may { MayStore self.now.config seat.old place word C.next C.told }
        ensures view { Knows seat.old seat.new (C.next word seat.old.me.0) }
        ensures told { C.told word seat.old.me.0 }
    {
        self.table.shared.store::<Turns<C>>(seat, place, word);
    }
}
