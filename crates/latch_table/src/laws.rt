//! Where the words of cells lie. The law is the contract of a function.

ghost use Rattle.latch_table.specs.Places.{PlacesAreApart};

/// Cells that many passes want share no line of the cache, with each other or with any other word.
pub fn places_are_apart()
    ensures { PlacesAreApart }
{}
