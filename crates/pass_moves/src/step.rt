//! The load of the clock by which a pass knows that rows have moved.
//!
//! 1. Each key keeps its versions, so no view of anybody changes with it.

use leaf_index::LeafIndex;
use pass_leaves::below::{Change, TakenCell};

/// Rows have moved among the cells in hand, and the index has the cuts that they have now.
#[derive(Drop)]
pub struct Moving<'a> {
    /// With the cuts that the leaf has now.
    pub index: &'a LeafIndex,
    /// The cells of the leaves whose rows have moved.
    pub cells: &'a [TakenCell],
}

impl Change for Moving<'_> {
    ghost use Rattle.pass_leaves.specs.RuleModel.Steps.{Nothing};
    ghost use Rattle.pass_moves.specs.Spreading.{moved};

    ghost next = { λ c _ v. moved v c.index.now c.cells.now };

    ghost told = { λ _ n _. Nothing n };
}
