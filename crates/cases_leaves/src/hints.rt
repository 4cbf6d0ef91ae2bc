//! Hints of the leaves that hold keys, of which no clause says that they are right.

ghost use Rattle.std.specs.Prelude.{◌≡◌, true, OnOk};
ghost use Rattle.graph_model.specs.Rows.{is_below, end_key};
ghost use Rattle.leaf_index.specs.Calls.{CanDrop};
ghost use Rattle.cases_leaves.specs.Ends.{EndsAt};

use graph_model::Key;
use leaf_index::LeafIndex;
use std::alloc::Global;
use std::test::Fail;
use txn_manager::RoomRefusal;

/// Where the leaves begin, one after the other. The last of eight leaves is taken first.
const FIRST: Key = Key { src: 0, second: 0 };

const SEVENTH: Key = Key { src: 10, second: 0 };

const SIXTH: Key = Key {
    src: 10,
    second: 500,
};

const FIFTH: Key = Key { src: 20, second: 3 };

const FOURTH: Key = Key { src: 30, second: 0 };

#[test]
fn a_hint_is_the_last_leaf_that_begins_below_the_key(rt: HostRuntime) -> Result<(), Fail> {
    let alloc = rt.alloc();
    let mut index = LeafIndex::new(alloc, 8)?;
    split_last(&mut index, alloc, FIRST, SEVENTH)?;
    split_last(&mut index, alloc, SEVENTH, SIXTH)?;
    split_last(&mut index, alloc, SIXTH, FIFTH)?;
    split_last(&mut index, alloc, FIFTH, FOURTH)?;
    index.drop_leaf(FOURTH);
    let keys = [
        Key { src: 9, second: 7 },
        Key {
            src: 10,
            second: 499,
        },
        Key {
            src: 10,
            second: 500,
        },
        Key { src: 31, second: 0 },
    ];
    assert_eq!(rt;
        index.likely_leaves(keys),
        [0, 7, 6, 5],
        "without the fourth"
    );
    Ok(())
}

/// Gives the keys of the last leaf from one on to a leaf of their own.
fn split_last(
    index: &mut LeafIndex,
    alloc: Global,
    before: Key,
    low: Key,
) -> Result<(), RoomRefusal>
    requires last { EndsAt before index.old.entries }
    requires behind { is_below before low ≡ true }
    requires within { is_below low end_key ≡ true }
    ensures last { OnOk result (EndsAt low index.new.entries) }
    ensures drop { OnOk result (CanDrop low index.new.entries) }
{
    let end = Key::END;
    index.set_separators(before, [before, low, low, low, low, low, low, low]);
    let Some(leaf) = index.take_free() else {
        return Err(RoomRefusal::Full { leaves: 8 });
    };
    index.add_leaf(alloc, low, leaf, [low, end, end, end, end, end, end, end])?;
    Ok(())
}
