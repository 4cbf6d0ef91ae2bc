//! What holds of cells in hand, as contracts of functions.

ghost use Rattle.pass_cells.specs.Changes.{WritesHaveRows};
ghost use Rattle.pass_cells.specs.Holding.{RowsAreKnown};

/// The rows in hand are those that the pass's view has in cells, and the other way.
pub fn rows_in_hand_are_known()
    ensures { RowsAreKnown }
{}

/// A write that the view allows has the ends of its edge among the rows in hand, and misses no more rows there than it
/// may insert.
pub fn writes_have_their_rows()
    ensures { WritesHaveRows }
{}
