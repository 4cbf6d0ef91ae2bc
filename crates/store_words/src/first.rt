//! Seats that know what a table begins with.
//!
//! A table's first view is told by its key alone. So what depends on more than how the store is made is known to a seat
//! before, of a table without a rule, and the seat goes into the key.

ghost use Rattle.std.specs.Prelude.{◌≡◌, [], IfOk};

use crate::rule::{Account, AccountSight};
use atomic_table::{Table, TableRule};
use graph_model::NoMemory;
use std::alloc::Global;
use std::marker::PhantomData;

/// What is known of a store at first. It has no calls.
pub trait Begins {
    ghost use Rattle.rule_model.specs.Sight.{Sight};

    ghost sight: { Self → Sight };
}

/// No rule: the table's first seat knows that.
struct KnownBegin<B> {
    of: PhantomData<B>,
}

impl<B: Begins> TableRule<(), AccountSight, B> for KnownBegin<B> {
    ghost holds = { λ _ _. Unit {0} };

    ghost first = { λ b. B.sight b };
}

/// A seat that knows what a store begins with.
pub fn first_seat<B: Begins>(alloc: Global, begins: &B) -> Result<Account, NoMemory>
    ensures { IfOk result (λ seat. seat.me ≡ (B.sight begins.now, [])) }
{
    let word = [0];
    let (_table, seat) = Table::<(), AccountSight, B, KnownBegin<B>, Global>::of_words(
        alloc, &word, begins,
    )?;
    Ok(seat)
}
