//! Leaves of which the words of their cells tell that a turn of the service has nothing to do with them.
//!
//! The words are loaded with no latch, while others change cells. So they tell nothing for sure, and no clause speaks
//! of what is found. A leaf that is passed over by mistake has its turn in the next round. The cost of a look is twelve
//! loads, where taking the leaf costs nine latches and the rows of eight cells.

ghost use Rattle.std.specs.Prelude.{◌<◌};
ghost use Rattle.worker_calls.specs.CellsModel.Words.{block_words};

use density_tree::LOWER_LIMITS;
use graph_model::{Key, LEAF_SEGMENTS};
use std::ops::Range;
use worker_calls::below::{CellHints, MERGE_ROWS, Store};

/// The word of a block that has the number of its rows.
const COUNT: u32 = 1;

/// The first word of a block's low fence key, and of its high one.
const LOW: u32 = 2;

const HIGH: u32 = 4;

/// A leaf whose fence keys were found to hold a key.
#[derive(Clone, Copy, Debug, PartialEq, Eq)]
pub(crate) struct LikelyLeaf {
    /// The number of the leaf.
    pub leaf: u32,
    /// Where it ends.
    pub high: Key,
}

/// The leaf to which turns of one kind are likely to come next. Kept: the number after that of the leaf at which the
/// last one looked, since leaves of a load have their numbers in the order of their keys. It may be wrong, since leaves
/// are split and merged. That is harmless: fence keys tell whether it has the key, and a hint is asked where it hasn't.
/// It costs a look at one more leaf's fence keys where it is wrong, and spares a turn the search among the hints.
#[derive(Clone, Copy, Debug, PartialEq, Eq)]
pub struct NextLeaf {
    leaf: u32,
}

impl NextLeaf {
    /// The one with the first number.
    pub(crate) fn first() -> NextLeaf {
        NextLeaf { leaf: 0 }
    }

    /// The number of the leaf to which a turn is likely to come.
    pub(crate) fn number(&self) -> u32 {
        self.leaf
    }

    /// A turn has come to this leaf.
    pub(crate) fn pass(&mut self, leaf: u32) {
        self.leaf = leaf.saturating_add(1);
    }

    /// The leaf that is likely to have a key: this one, or the one that a hint names, if its fence keys hold the key.
    /// None at the last leaf, with which a round ends. The first call looks at the first blocks of all leaves: a pass
    /// that hands out no hint of its own would else come to know one leaf a turn.
    pub(crate) fn of_key(
        &mut self,
        store: &Store,
        hints: &mut CellHints,
        key: Key,
    ) -> Option<LikelyLeaf> {
        // Where the number is right too: a turn that takes the leaf asks the hints, and those of a worker that has only
        // served, and never written, know no leaf.
        hints.survey(store);
        let found = match leaf_with(store, self.leaf, key) {
            Some(found) => found,
            None => leaf_with(store, hints.leaf_of(key), key)?,
        };
        self.pass(found.leaf);
        Some(found)
    }
}

/// A leaf, if the fence keys of its cells hold the key, and it isn't the last one.
fn leaf_with(store: &Store, leaf: u32, key: Key) -> Option<LikelyLeaf> {
    let (low, high) = fences_of(store, leaf);
    // At the last leaf a sweep frees retired leaves too, so it isn't passed over.
    let holds = !key.is_below(low) && key.is_below(high) && high.is_below(Key::END);
    holds.then_some(LikelyLeaf { leaf, high })
}

/// The fence keys of a leaf: the low one of its first cell, and the high one of its last.
pub(crate) fn fences_of(store: &Store, leaf: u32) -> (Key, Key) {
    let cells = cells_of(leaf);
    let low = key_in(store, cells.start, LOW);
    let high = key_in(store, cells.end.saturating_sub(1), HIGH);
    (low, high)
}

/// The cells of a leaf.
pub(crate) fn cells_of(leaf: u32) -> Range<u32> {
    let first = leaf.saturating_mul(LEAF_SEGMENTS as u32);
    first..first.saturating_add(LEAF_SEGMENTS as u32)
}

/// Where the leaf of a key ends, if it is likely that its cells have enough rows each, and too many in all to be
/// merged.
pub(crate) fn beyond_full_leaf(
    store: &Store,
    hints: &mut CellHints,
    next: &mut NextLeaf,
    key: Key,
) -> Option<Key> {
    let LikelyLeaf { leaf, high } = next.of_key(store, hints, key)?;
    are_full(store, cells_of(leaf)).then_some(high)
}

/// Whether these cells of a leaf have enough rows each, and too many in all for a merge.
pub(crate) fn are_full(store: &Store, cells: Range<u32>) -> bool {
    let mut rows: u64 = 0;
    'cells: for cell in cells {
        let count = word_in(store, cell, COUNT);
        // One cell with few rows is enough for a window to be spread.
        if count < u64::from(LOWER_LIMITS[0]) {
            return false;
        }
        rows = rows.saturating_add(count);
    }
    rows > MERGE_ROWS as u64
}

/// The fence key that begins at a word of a cell's block.
fn key_in(store: &Store, cell: u32, word: u32) -> Key
    requires { word < 8 }
{
    Key {
        src: word_in(store, cell, word),
        second: word_in(store, cell, word + 1),
    }
}

/// A word of a cell's block, or 0 if there is no such cell.
fn word_in(store: &Store, cell: u32, word: u32) -> u64
    requires { word < block_words }
{
    if cell >= store.index_place() {
        return 0;
    }
    store.accounts.peek_word(cell, word)
}
