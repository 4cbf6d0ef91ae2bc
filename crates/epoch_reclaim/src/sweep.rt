//! What a sweep has found of the pins.
//!
//! 1. The clock was loaded before any pin.
//! 2. The least is of the pins of the first passes, as many as were looked at. A pass that has announced counts as
//!    pinned at 0, since it may begin at any stamp.

ghost use Rattle.std.specs.Prelude.{◌≡◌, ◌<◌, ◌^◌, ◌-◌};
ghost use Rattle.epoch_reclaim.specs.Pinned.{looked_at, start_in};

/// A sweep of the pins, pass by pass.
#[derive(Clone, Copy, Debug, Drop, PartialEq)]
pub struct Sweep {
    /// The clock when the sweep began.
    pub clock: u64,
    /// How many passes were looked at.
    pub looked: u32,
    /// The least start that was found.
    pub least: Option<u64>,
}

impl Sweep {
    /// Takes in the pin word of the next pass.
    pub(crate) fn add(&mut self, word: u64)
        requires { self.old.looked < 2 ^ 32 - 1 }
        ensures { self.new ≡ looked_at self.old word }
    {
        self.looked += 1;
        if let Some(start) = start_of(word) {
            self.least = Some(match self.least {
                Some(least) => least.min(start),
                None => start,
            });
        }
    }
}

/// The least start that the pass of a pin word may have.
fn start_of(word: u64) -> Option<u64>
    ensures { result ≡ start_in word }
{
    match word {
        0 => None,
        1 => Some(0),
        _ => Some(word - 2),
    }
}
