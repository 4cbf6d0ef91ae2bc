//! What may lie in the slots of a latch table.
//!
//! 1. A type brings a value of its own for 'nothing': an `Option` would take a word more in each slot.

ghost use Rattle.std.specs.Prelude.{◌≡◌};

/// The type of what lies in a slot. K is what the table is told once, when it is made.
pub trait Slot<K> {
    ghost use Rattle.std.specs.Prelude.{ℕ};

    // Which values may lie in the slot of a cell that nobody holds.
    ghost fits: { K → ℕ → Self → Type 0 };

    // How many passes the table has.
    ghost passes: { K → ℕ };

    // What lies in a slot whose value is out with a pass.
    ghost vacant: { Self };

    /// A value for a slot whose own value is out.
    fn new_vacant() -> Self
        ensures { result ≡ vacant };

    /// Lets such a value go.
    fn forget_vacant(self)
        requires { self ≡ vacant };
}
