//! The leaf that is the next to be taken.
//!
//! 1. To look at it takes it and gives it back, which leaves the list as it was.

ghost use Rattle.std.specs.Prelude.{◌≡◌, true, Some};
ghost use Rattle.pass_splits.specs.Splitting.{IsNextFree};

use leaf_index::LeafIndex;

/// The free leaf that is the next to be taken, if one is free.
pub fn next_free(index: &mut LeafIndex) -> Option<u32>
    ensures next { IsNextFree index.old result }
    ensures same { index.new ≡ index.old }
{
    let Some(leaf) = index.take_free() else {
        return None;
    };
    index.give_back(leaf);
    Some(leaf)
}

/// Whether this leaf is.
pub(crate) fn is_next_free(index: &mut LeafIndex, leaf: u32) -> bool
    ensures next { result ≡ true → IsNextFree index.old (Some leaf) }
    ensures same { index.new ≡ index.old }
{
    match next_free(index) {
        Some(next) => next == leaf,
        None => false,
    }
}
