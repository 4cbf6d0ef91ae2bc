//! Where the clock and the pins of passes lie.
//!
//! 1. Each pin has a line of the cache for itself, since its pass stores it in each transaction.

ghost use Rattle.std.specs.Prelude.{◌≡◌, ◌<◌, ◌+◌, ◌*◌, ◌^◌};

/// The places of the clock and of the pin words in a table of words. A pass writes its own pin word at each
/// transaction, so a stride of 8 words spares the others its line of the cache. Word 0 is best left alone: each split
/// and join of a seat loads it.
#[derive(Clone, Copy, Debug, Drop)]
pub struct PinPlaces {
    /// The place of the clock.
    pub clock: u32,
    /// The pin word of pass 0.
    pub first: u32,
    /// How many words lie from one pass's pin word to the next one's.
    pub stride: u32,
    /// How many passes there are.
    pub passes: u32,
    pub ghost few: { passes < 2 ^ 32 },
    pub ghost small: { first + stride * passes < 2 ^ 32 },
}

impl PinPlaces {
    /// The place of a pass's pin word.
    pub fn pin(&self, number: u32) -> usize
        requires { number < self.now.passes }
        ensures { result ≡ self.now.first + self.now.stride * number }
    {
        (self.first + self.stride * number) as usize
    }
}
