//! The load of the clock by which a pass knows that two leaves have become one.
//!
//! 1. The same load gives the stamp: transactions that begin later can't have noted the leaf.

use leaf_index::LeafIndex;
use pass_moves::below::{Change, TakenCell};

/// Rows have moved among the cells in hand, and the index has one entry for them. The leaf that has none any more is
/// retired with the number that is loaded: whoever has noted it began no later.
#[derive(Drop)]
pub(crate) struct Retiring<'a> {
    /// With the entry that stands for both leaves now.
    pub(crate) index: &'a LeafIndex,
    /// The cells of both leaves.
    pub(crate) cells: &'a [TakenCell],
    /// The number of the leaf that is retired.
    pub(crate) leaf: u32,
}

impl Change for Retiring<'_> {
    ghost use Rattle.pass_moves.specs.RuleModel.Steps.{Nothing};
    ghost use Rattle.pass_moves.specs.Spreading.{moved};
    ghost use Rattle.pass_merges.specs.Merging.{retired_at};

    ghost next = { λ c n v. moved v (retired_at c.leaf n c.index.now) c.cells.now };

    ghost told = { λ _ n _. Nothing n };
}
