//! Which session of its store a session is.
//!
//! 1. It is a type, so two sessions can't be mixed up, and no number has to be looked at.

use std::marker::Brand;

/// Which session of its store a session is. Whoever lends sessions says so by a pick, and knows when one comes back
/// that it is the one that was lent.
pub trait SessionPlace {
    ghost use Rattle.std.specs.Prelude.{ℕ};

    ghost number: { ℕ };
}

impl SessionPlace for Brand {
    ghost number = { 0 };
}
