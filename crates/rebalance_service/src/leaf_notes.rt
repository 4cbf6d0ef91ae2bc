//! What is noted of leaves for the turns of a worker: between which keys they are, and which are passed over.
//!
//! A cell's latch word is odd while somebody holds it, and two higher after each hold that changed it. So while nobody
//! holds a cell of a leaf, the sum of their words tells by how much they have changed since it was summed up before.
//!
//! 1. A leaf in which a sweep left no record, and which hasn't changed since, is passed over by sweeps.
//! 2. A leaf that changes is left to its own commits, which settle what nobody needs: it is swept once it hasn't changed
//!    from one look to the next, or has changed often since it was last swept. So no leaf keeps records for more than a
//!    round after it came to rest.
//! 3. Turns of merging pass over a leaf that had enough rows, until it has come to rest or changed often, alike.
//! 4. A leaf begins and ends elsewhere only after a change of all its cells, so its fence keys aren't loaded again
//!    before its words have grown by as much.

use crate::idle::{LikelyLeaf, NextLeaf, are_full, beyond_full_leaf, cells_of, fences_of};
use graph_model::{Key, LEAF_SEGMENTS, NoMemory};
use std::alloc::Global;
use worker_calls::below::{CellHints, LeafSwept, Store};

/// A leaf is looked at again once the sum of its latch words has grown by so much. That are about sixteen transactions:
/// a write and its commit hold a cell once each.
const CHANGES: u32 = 64;

/// By so much the sum grows at least where all cells of a leaf change.
const MOVE: u32 = 2 * LEAF_SEGMENTS as u32;

/// Sums are told apart up to so many.
const SUMS: u64 = 4294967296;

/// A leaf all of whose cells a look found free, with the sum of their latch words.
#[derive(Clone, Copy)]
pub(crate) struct FreeLeaf {
    /// The number of the leaf.
    leaf: u32,
    /// Where it ends.
    high: Key,
    /// The sum of its latch words, each of which was even, up to a multiple of `SUMS`.
    sum: u32,
}

/// Two sums of the latch words of a leaf.
#[derive(Clone, Copy)]
struct LeafSums {
    /// When it was attended to.
    attended: u32,
    /// When it was last looked at.
    looked: u32,
}

impl LeafSums {
    /// Attended to, and looked at, with this sum.
    fn of(sum: u32) -> LeafSums {
        LeafSums {
            attended: sum,
            looked: sum,
        }
    }

    /// Whether it has come to rest with what was changed since, or has changed often.
    fn has_changed(self, sum: u32) -> bool {
        sum != self.attended && (sum == self.looked || sum.wrapping_sub(self.attended) >= CHANGES)
    }
}

/// What is noted of a leaf.
#[derive(Clone, Copy)]
struct LeafNote {
    /// Between these keys its rows were.
    low: Key,
    high: Key,
    /// The sum of its latch words before these were loaded.
    fenced: u32,
    /// The sums of its sweeps.
    sweeps: LeafSums,
    /// The sums of turns of merging.
    merges: LeafSums,
    /// Whether the last sweep left no record in it, and nobody changed a cell meanwhile.
    is_settled: bool,
    /// Whether the last turn of merging found enough rows in it.
    is_full: bool,
}

impl LeafNote {
    /// A leaf begins without records, and its latch words are 0 until a cell is changed.
    fn of_new_leaf() -> LeafNote {
        LeafNote {
            low: Key::END,
            high: Key::END,
            fenced: 0,
            sweeps: LeafSums::of(0),
            merges: LeafSums::of(0),
            is_settled: true,
            is_full: false,
        }
    }

    /// Whether the leaf is likely to have a key, now that its words have this sum.
    fn has(&self, key: Key, sum: u32) -> bool {
        sum.wrapping_sub(self.fenced) < MOVE && !key.is_below(self.low) && key.is_below(self.high)
    }

    /// Whether the leaf is to be swept, now that its words have this sum.
    fn is_sweep_due(&self, sum: u32) -> bool {
        self.sweeps.has_changed(sum) || (sum == self.sweeps.attended && !self.is_settled)
    }

    /// Whether it is to be found out if it has enough rows.
    fn is_merge_due(&self, sum: u32) -> bool {
        self.merges.has_changed(sum) || !self.is_full
    }
}

/// What a worker remembers of leaves for its turns of the service. Kept: for each leaf its fence keys, and sums of the
/// latch words of its cells at the last turns and looks. It may be wrong, since words are loaded one after the other
/// while others take cells, and a hint may name a leaf that is the key's no more. That is harmless: no clause speaks of
/// which leaf a turn looks at, and a leaf that is passed over by mistake has its turn in a later round. It costs 56
/// bytes a leaf. It spares a turn at a leaf with nothing to do the latches of the index and of eight cells, the loads
/// of all pins, and most often those of its blocks, which are the dearest.
#[derive(Drop)]
pub(crate) struct LeafNotes {
    /// By the number of a leaf. Empty until there is memory for all.
    leaves: Vec<LeafNote>,
}

impl LeafNotes {
    /// Nothing can be noted yet, and no leaf is passed over. Takes no memory.
    pub(crate) fn none(alloc: Global) -> LeafNotes {
        LeafNotes {
            leaves: Vec::new(alloc),
        }
    }

    /// Takes the memory for so many leaves, if it has none.
    pub(crate) fn make_room(&mut self, alloc: Global, leaves: u32) -> Result<(), NoMemory> {
        if self.leaves.is_empty() {
            self.leaves = vec![in alloc; LeafNote::of_new_leaf(); leaves as usize]?;
        }
        Ok(())
    }

    /// The leaf that is likely to have a key. None at the last leaf, and where somebody holds a cell.
    pub(crate) fn look(
        &mut self,
        store: &Store,
        hints: &mut CellHints,
        next: &mut NextLeaf,
        key: Key,
    ) -> Option<FreeLeaf> {
        match self.look_again(store, next, key) {
            Some(found) => Some(found),
            None => self.look_first(store, hints, next, key),
        }
    }

    /// The same, if what is noted tells it.
    fn look_again(&self, store: &Store, next: &mut NextLeaf, key: Key) -> Option<FreeLeaf> {
        let leaf = next.number();
        let note = self.leaves.get(leaf as usize)?;
        let sum = free_sum(store, leaf)?;
        if !note.has(key, sum) {
            return None;
        }
        next.pass(leaf);
        Some(FreeLeaf {
            leaf,
            high: note.high,
            sum,
        })
    }

    /// The same by the fence keys of its cells, which are noted.
    fn look_first(
        &mut self,
        store: &Store,
        hints: &mut CellHints,
        next: &mut NextLeaf,
        key: Key,
    ) -> Option<FreeLeaf> {
        let LikelyLeaf { leaf, high } = next.of_key(store, hints, key)?;
        let sum = free_sum(store, leaf)?;
        if let Some(note) = self.leaves.get_mut(leaf as usize) {
            // Loaded once more, so that they aren't older than the sum.
            let (low, high) = fences_of(store, leaf);
            note.low = low;
            note.high = high;
            note.fenced = sum;
        }
        Some(FreeLeaf { leaf, high, sum })
    }

    /// Where a leaf ends, if a sweep passes over it. What its words are now is noted as the last look.
    pub(crate) fn beyond_settled(&mut self, looked: Option<FreeLeaf>) -> Option<Key> {
        let now = looked?;
        let note = self.leaves.get_mut(now.leaf as usize)?;
        if note.is_sweep_due(now.sum) {
            return None;
        }
        note.sweeps.looked = now.sum;
        Some(now.high)
    }

    /// Where the leaf of a key ends, if it is likely that its cells have enough rows each, and too many in all to be
    /// merged.
    pub(crate) fn beyond_full(
        &mut self,
        store: &Store,
        hints: &mut CellHints,
        next: &mut NextLeaf,
        key: Key,
    ) -> Option<Key> {
        match self.look(store, hints, next, key) {
            Some(looked) => self.beyond_if_full(store, looked),
            None => beyond_full_leaf(store, hints, next, key),
        }
    }

    /// The same of a leaf that was looked at.
    fn beyond_if_full(&mut self, store: &Store, looked: FreeLeaf) -> Option<Key> {
        let FreeLeaf { leaf, high, sum } = looked;
        let Some(note) = self.leaves.get_mut(leaf as usize) else {
            return are_full(store, cells_of(leaf)).then_some(high);
        };
        if note.is_merge_due(sum) {
            note.is_full = are_full(store, cells_of(leaf));
            note.merges = LeafSums::of(sum);
        }
        note.merges.looked = sum;
        note.is_full.then_some(high)
    }

    /// Notes a leaf that was swept after this look. It counts as settled if no record is left in it, and no cell has
    /// changed since the look.
    pub(crate) fn note(&mut self, store: &Store, looked: Option<FreeLeaf>, swept: &LeafSwept) {
        let Some(before) = looked else { return };
        // The hint may have named another leaf than the one that was swept.
        if swept.leaf() != before.leaf {
            return;
        }
        if let Some(note) = self.leaves.get_mut(before.leaf as usize) {
            let after = free_sum(store, before.leaf);
            // Latch words never fall, so an equal sum means that none has changed.
            note.is_settled = swept.settled() && after == Some(before.sum);
            note.sweeps = LeafSums::of(after.unwrap_or(before.sum));
        }
    }
}

/// The sum of the latch words of a leaf's cells, if nobody holds one.
fn free_sum(store: &Store, leaf: u32) -> Option<u32> {
    let mut sum: u64 = 0;
    'cells: for cell in cells_of(leaf) {
        if cell >= store.index_place() {
            return None;
        }
        // Sequentially consistent, where a relaxed load would do: a word is compared with what the same word was
        // before, and never falls. Whoever takes the cell after the load is found by the next look.
        let word = store.cells().table.peek(cell as usize);
        if word % 2 == 1 {
            return None;
        }
        sum = sum.wrapping_add(word);
    }
    Some((sum % SUMS) as u32)
}
