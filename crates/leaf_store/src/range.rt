//! The range of a leaf, given in two.
//!
//! 1. The cuts make way before the new leaf gets its entry. Where that is refused memory they are set back, so the
//!    index is as it was.

ghost use Rattle.std.specs.Prelude.{◌≡◌, ◌++◌, ◌∷◌, OnErr, OnOk};
ghost use Rattle.leaf_index.specs.Index.{IsTaken};
ghost use Rattle.leaf_store.specs.Ranges.{CanHalve, CanJoin, eight, first_and, in_two};

use graph_model::{Key, LEAF_SEGMENTS, NoMemory};
use leaf_index::LeafIndex;
use std::alloc::Global;

/// Gives the range from the key on to another leaf. For the time being all cuts but the first are at the key.
pub(crate) fn halve_range(
    index: &mut LeafIndex,
    alloc: Global,
    low: Key,
    cuts: [Key; LEAF_SEGMENTS],
    key: Key,
    leaf: u32,
) -> Result<(), NoMemory>
    requires taken { IsTaken index.old leaf }
    requires within { CanHalve low cuts key index.old.entries }
    ensures ok { OnOk result ((can : CanHalve low cuts key index.old.entries)
        → index.new.entries ≡ in_two can.front can.entry (first_and low key) key leaf (eight key) can.back) }
    ensures others { index.new ≡ record index.old { entries = index.new.entries } }
    ensures err { OnErr result (index.new ≡ index.old) }
{
    index.set_separators(low, [low, key, key, key, key, key, key, key]);
    match index.add_leaf(alloc, key, leaf, [key; LEAF_SEGMENTS]) {
        Ok(()) => Ok(()),
        Err(refused) => {
            index.set_separators(low, cuts);
            Err(refused)
        }
    }
}

/// Gives the range from the key on back to the leaf before, which has these cuts then.
pub(crate) fn join_range(index: &mut LeafIndex, low: Key, cuts: [Key; LEAF_SEGMENTS], key: Key)
    requires { CanJoin low cuts key index.old.entries }
    ensures entries { (can : CanJoin low cuts key index.old.entries)
        → index.new.entries ≡ can.front ++ record can.left { cuts = cuts } ∷ can.back }
    ensures others { index.new ≡ record index.old { entries = index.new.entries } }
{
    index.drop_leaf(key);
    index.set_separators(low, cuts);
}
