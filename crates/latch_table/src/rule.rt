//! The rule of the latch table, and the kinds of step on a version word.
//!
//! 1. There are three kinds of step: a look, a compare-exchange, and a store by the holder.

ghost use Rattle.std.specs.Prelude.{◌≡◌};
ghost use Rattle.atomic_table.specs.Table.{rest};
ghost use Rattle.latch_table.specs.Latched.{IsLatched, Took, looked, gave};
ghost use Rattle.latch_table.specs.Opening.{first_sight};

use crate::sight::LatchSight;
use crate::slot::Slot;
use atomic_table::{Play, Seat, TableRule};
use std::marker::PhantomData;

/// The rule of a latch table whose slots are of this type.
pub struct LatchRule<V> {
    of: PhantomData<V>,
}

impl<K, V: Slot<K>> TableRule<V, LatchSight<K>, K> for LatchRule<V> {
    ghost holds = { λ k s. IsLatched V.fits (V.passes k) k s };

    ghost first = { λ k. first_sight (V.passes k) k };
}

/// A seat of the latch table. It takes no bytes.
pub type LatchSeat<V, K> = Seat<V, LatchSight<K>>;

/// A load.
pub struct Looks;

impl<K, V> Play<V, LatchSight<K>> for Looks {
    ghost then = { λ st before n after. after ≡ (looked before.0 st.word n, before.1) };
}

/// A compare-exchange, which takes the cell where it finds the word that was expected.
pub struct Takes<V> {
    of: PhantomData<V>,
}

impl<K, V: Slot<K>> Play<V, LatchSight<K>> for Takes<V> {
    ghost then = { λ st before n after. Took V.fits st before n after };
}

/// A store, which gives the cell back.
pub struct Gives;

impl<K, V> Play<V, LatchSight<K>> for Gives {
    ghost then = { λ st before n after. after ≡ (gave before.0 st.word n, rest before.1) };
}
