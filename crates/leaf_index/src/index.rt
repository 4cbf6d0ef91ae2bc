//! The index over a trie.
//!
//! 1. What the trie doesn't need lies in a table by the numbers of leaves: cuts, and the end of a live leaf's range.
//! 2. The lists of free and of retired leaves have room for all leaves from the start.
//! 3. Only slots of live leaves hold keys. So a hint is right where the slot of the leaf that it names holds the key,
//!    and the trie is asked only where it doesn't. Where leaves come or go, hints are told of it.
//! 4. So it is with a cell that was found before: its leaf's slot says whether it still holds the key.

ghost use Rattle.std.specs.Prelude.{◌≡◌, ◌<◌, ◌≤◌, ◌+◌, [], ◌∷◌, ◌++◌, IfOk, IfSome, OnOk, OnErr, length, take, ◌-◌};
ghost use Rattle.graph_model.specs.Rows.{end_key, first_key};
ghost use Rattle.graph_model.specs.declared.limits.TheConstants.{MAX_LEAVES};
ghost use Rattle.leaf_index.specs.Index.{IsCell, IsIndex, IsRoute, IsTaken};
ghost use Rattle.leaf_index.specs.Slots.{AreRisingStarts, HasSlot, HaveSlots, IsBeforeStart, IsFloorStart, IsRange, OnlyLiveHold, begin_or, first_slots};
ghost use Rattle.leaf_index.specs.Calls.{CanAdd, CanCut, CanDrop, IsLeafBefore, IsLeafRange, TakesFree, freed, freed_of, new_index, with_cuts, with_leaf, without_leaf};

use crate::hints::Hints;
use crate::idle::IdleLeaves;
use crate::route::{LeafRange, Route};
use crate::slot::{IndexSlot, high_of, segment_near, segment_of};
use graph_model::{Key, LEAF_SEGMENTS, NoMemory};
use leaf_trie::{LeafStart, LeafTrie};
use std::alloc::Global;
use std::marker::Model;

/// The leaves of a store. Those that are live have ranges of keys that follow each other.
#[derive(Drop)]
pub struct LeafIndex {
    /// All live leaves.
    trie: LeafTrie,
    /// By the number of a leaf.
    slots: Vec<IndexSlot>,
    /// All leaves that aren't live.
    idle: IdleLeaves,
    /// A guess at the leaf of a key.
    hints: Hints,
}

impl Model for LeafIndex {
    ghost use Rattle.std.specs.Prelude.{◌≡◌, length};
    ghost use Rattle.leaf_index.specs.Index.{Index};

    ghost Value = { Index };

    ghost use Rattle.leaf_index.specs.Slots.{IsKept, OnlyLiveHold, entries_of};

    ghost view = { λ i. record {
      leaves = length i.slots.items;
      entries = entries_of i.slots.items i.trie;
      free = i.idle.free;
      retired = i.idle.retired;
    } };

    ghost invariant = { λ i. IsKept i.slots.items i.trie i.idle.free i.idle.retired
        × (i.idle.leaves ≡ length i.slots.items) × OnlyLiveHold i.slots.items i.trie };
}

/// So many slots. The first has the whole key range, all of it in its first segment, and the others hold no key.
fn new_slots(alloc: Global, leaves: u32) -> Result<Vec<IndexSlot>, NoMemory>
    requires { 1 ≤ leaves }
    ensures { IfOk result (λ v. v.items ≡ first_slots leaves) }
{
    let low = Key { src: 0, second: 0 };
    let end = Key::END;
    // A leaf that isn't live has no keys, so a hint that names it is found to be wrong by its slot.
    let empty = IndexSlot {
        cuts: [end, end, end, end, end, end, end, end],
        high: end,
    };
    let mut slots = Vec::with_capacity(alloc, leaves as usize)?;
    'fill: for _leaf in 0..leaves {
        slots.push(empty)?;
    }
    slots[0] = IndexSlot {
        cuts: [low, end, end, end, end, end, end, end],
        high: end,
    };
    Ok(slots)
}

/// The last leaf that does not begin above the key.
fn floor_of(trie: &LeafTrie, slots: &Vec<IndexSlot>, key: Key) -> u32
    requires first { begin_or trie.now end_key ≡ first_key }
    requires slots { HaveSlots slots.now.items end_key trie.now }
    ensures { IsFloorStart key trie.now result }
{
    let found = trie.search(key);
    match found.at {
        // Of the two candidates the trie can't tell which; the least key of the first one does.
        Some(leaf) if !key.is_below(slots[leaf as usize].cuts[0]) => leaf,
        _ => match found.before {
            Some(leaf) => leaf,
            None => unreachable!(),
        },
    }
}

/// The last leaf that does not begin above the key: the hinted one where its slot holds the key, whatever the hint.
fn leaf_of(trie: &LeafTrie, slots: &Vec<IndexSlot>, hint: u32, key: Key) -> u32
    requires first { begin_or trie.now end_key ≡ first_key }
    requires rising { AreRisingStarts trie.now }
    requires slots { HaveSlots slots.now.items end_key trie.now }
    requires live { OnlyLiveHold slots.now.items trie.now }
    ensures { IsFloorStart key trie.now result }
{
    match slots.get(hint as usize) {
        Some(slot) if slot.holds(key) => hint,
        _ => floor_of(trie, slots, key),
    }
}

/// The last leaf that begins below the key.
fn before_of(trie: &LeafTrie, slots: &Vec<IndexSlot>, key: Key) -> Option<u32>
    requires { HaveSlots slots.now.items end_key trie.now }
    ensures { IsBeforeStart key trie.now result }
{
    let found = trie.search(key);
    match found.at {
        Some(leaf) if slots[leaf as usize].cuts[0].is_below(key) => Some(leaf),
        _ => found.before,
    }
}

/// The range of a live leaf.
fn range_of(slots: &Vec<IndexSlot>, leaf: u32) -> LeafRange
    requires { (start : _) × (high : _) × HasSlot slots.now.items start high × (start.leaf ≡ leaf) }
    ensures { IsRange slots.now.items leaf result }
{
    let slot = &slots[leaf as usize];
    LeafRange {
        leaf,
        low: slot.cuts[0],
        high: slot.high,
    }
}

impl LeafIndex {
    /// Leaf 0 has the whole key range, and the others are free. Takes the memory of both lists, of all cuts and of the
    /// hints.
    pub fn new(alloc: Global, leaves: u32) -> Result<LeafIndex, NoMemory>
        requires some { 1 ≤ leaves }
        requires few { leaves ≤ MAX_LEAVES }
        ensures { IfOk result (λ i. i ≡ new_index leaves) }
    {
        let low = Key { src: 0, second: 0 };
        let trie = LeafTrie::new(alloc, LeafStart { low, leaf: 0 })?;
        let slots = new_slots(alloc, leaves)?;
        let idle = IdleLeaves::new(alloc, leaves)?;
        let hints = Hints::new(alloc, leaves)?;
        Ok(LeafIndex {
            trie,
            slots,
            idle,
            hints,
        })
    }

    /// What holds of each index.
    pub fn is_index(&self)
        ensures index { IsIndex self.now }
        ensures few { self.now.leaves ≤ MAX_LEAVES }
    {
        let _ = &self.slots;
    }

    /// How many leaves there are, in use or not.
    pub fn leaves(&self) -> u32
        ensures { result ≡ self.now.leaves }
    {
        self.slots.len() as u32
    }

    /// The leaf whose range holds the key. The next leaf is that of the range's high key, unless that is `Key::END`.
    pub fn leaf_at(&self, key: Key) -> LeafRange
        ensures { IsLeafRange key self.now.entries result }
    {
        let leaf = leaf_of(&self.trie, &self.slots, self.hints.of(key), key);
        range_of(&self.slots, leaf)
    }

    /// The last leaf that begins below the key, so the one before a leaf that begins at it.
    pub fn leaf_before(&self, key: Key) -> Option<LeafRange>
        ensures { IsLeafBefore key self.now.entries result }
    {
        match before_of(&self.trie, &self.slots, key) {
            Some(leaf) => Some(range_of(&self.slots, leaf)),
            None => None,
        }
    }

    /// Gives a taken leaf the range from the key to the end of the range that has it now.
    pub fn add_leaf(
        &mut self,
        alloc: Global,
        low: Key,
        leaf: u32,
        cuts: [Key; LEAF_SEGMENTS],
    ) -> Result<(), NoMemory>
        requires taken { IsTaken self.old leaf }
        requires place { CanAdd low cuts self.old.entries }
        ensures ok { OnOk result ((can : CanAdd low cuts self.old.entries)
            → self.new.entries ≡ with_leaf low leaf cuts self.old.entries can) }
        ensures others { self.new ≡ record self.old { entries = self.new.entries } }
        ensures err { OnErr result (self.new ≡ self.old) }
    {
        let before = leaf_of(&self.trie, &self.slots, self.hints.of(low), low);
        self.trie.insert(alloc, LeafStart { low, leaf })?;
        let high = self.slots[before as usize].high;
        self.slots[before as usize].high = low;
        self.slots[leaf as usize] = IndexSlot { cuts, high };
        self.hints.note(&self.slots, low, leaf);
        Ok(())
    }

    /// Gives the range of the leaf that begins at the key to the leaf before it.
    pub fn drop_leaf(&mut self, low: Key)
        requires { CanDrop low self.old.entries }
        ensures entries { (can : CanDrop low self.old.entries)
            → self.new.entries ≡ without_leaf low self.old.entries can }
        ensures taken { (can : CanDrop low self.old.entries) → IsTaken self.new can.dropped.leaf }
        ensures others { self.new ≡ record self.old { entries = self.new.entries } }
    {
        let dropped = leaf_of(&self.trie, &self.slots, self.hints.of(low), low);
        let Some(before) = before_of(&self.trie, &self.slots, low) else {
            unreachable!();
        };
        self.trie.remove(low);
        let IndexSlot { cuts, high } = self.slots[dropped as usize];
        self.slots[before as usize].high = high;
        // Its range is empty from here on, so that hints which still name it are found to be wrong.
        self.slots[dropped as usize] = IndexSlot { cuts, high: low };
        self.hints.note_change(&self.slots);
    }

    /// Gives the leaf that begins at the key these cuts, one for each of its segments.
    pub fn set_separators(&mut self, low: Key, cuts: [Key; LEAF_SEGMENTS])
        requires { CanCut low cuts self.old.entries }
        ensures entries { (can : CanCut low cuts self.old.entries)
            → self.new.entries ≡ with_cuts low cuts self.old.entries can }
        ensures others { self.new ≡ record self.old { entries = self.new.entries } }
    {
        let leaf = leaf_of(&self.trie, &self.slots, self.hints.of(low), low);
        let high = self.slots[leaf as usize].high;
        self.slots[leaf as usize] = IndexSlot { cuts, high };
    }

    /// Takes a free leaf, if there is one.
    pub fn take_free(&mut self) -> Option<u32>
        ensures { TakesFree self.old self.new result }
    {
        self.idle.take_free()
    }

    /// Puts a taken leaf among those that are free.
    pub fn give_back(&mut self, leaf: u32)
        requires { IsTaken self.old leaf }
        ensures { self.new ≡ record self.old { free = self.old.free ++ leaf ∷ [] } }
    {
        self.idle.give_back(leaf);
    }

    /// Puts a taken leaf last among those that are retired.
    pub fn retire(&mut self, leaf: u32, stamp: u64)
        requires { IsTaken self.old leaf }
        ensures { self.new
            ≡ record self.old { retired = self.old.retired ++ record { leaf = leaf; stamp = stamp } ∷ [] } }
    {
        self.idle.retire(leaf, stamp);
    }

    /// How many leaves are free.
    pub fn free(&self) -> u32
        ensures { result ≡ length self.now.free }
    {
        self.idle.free_count()
    }

    /// How many leaves are neither free nor retired.
    pub fn in_use(&self) -> u32
        ensures { result ≡ (self.now.leaves - length self.now.free) - length self.now.retired }
    {
        let idle = self.idle.free_count();
        self.leaves()
            .saturating_sub(idle)
            .saturating_sub(self.idle.retired_count())
    }

    /// How many leaves are retired.
    pub fn retired(&self) -> u32
        ensures { result ≡ length self.now.retired }
    {
        self.idle.retired_count()
    }

    /// Frees those among the first retired leaves, so many, whose stamps are below the given one, and answers how many.
    /// Whoever frees all of them gives a number that is as great as that of the leaves.
    pub fn free_retired(&mut self, until: u64, upto: usize) -> u32
        ensures freed { self.new ≡ freed until upto self.old }
        ensures count { result ≡ length (freed_of until (take upto self.old.retired)) }
    {
        self.idle.free_retired(until, upto)
    }

    /// The cell whose range holds the key. It does as long as the index doesn't change.
    pub fn route(&self, key: Key) -> Route
        ensures { IsRoute key self.now.entries result }
    {
        self.find_route(key, self.hints.of(key))
    }

    /// The cell alone, for a caller that found the key in one before: that one is looked at first, and where it doesn't
    /// hold the key the key is looked for anew. Any cell is allowed, a wrong one costs time alone.
    pub fn cell_near(&self, key: Key, near: u32) -> u32
        ensures { IsCell key self.now.entries result }
    {
        let leaf = near / 8;
        match self.slots.get(leaf as usize) {
            Some(slot) if slot.holds(key) => {
                8 * leaf + segment_near(&slot.cuts, key, (near % 8) as usize) as u32
            }
            _ => self.route(key).cell,
        }
    }

    /// The leaves in which four keys are likely to be, whose slots are read ahead. No clause says that they are right.
    pub fn likely_leaves(&mut self, keys: [Key; 4]) -> [u32; 4]
        ensures { self.new ≡ self.old }
    {
        let likely = self.hints.of_four(keys);
        self.hints.read_ahead(&self.slots, likely);
        likely
    }

    /// The same in the leaf in which the key is likely to be, or by the trie.
    pub fn route_in(&self, key: Key, likely: u32) -> Route
        ensures { IsRoute key self.now.entries result }
    {
        self.find_route(key, likely)
    }

    /// The key's route: the hinted leaf is looked at first.
    fn find_route(&self, key: Key, hint: u32) -> Route
        ensures { IsRoute key self.now.entries result }
    {
        // The slot of the leaf has to be read for its cuts anyway, and says by the way whether the hint was right.
        let leaf = leaf_of(&self.trie, &self.slots, hint, key);
        let slot = &self.slots[leaf as usize];
        let segment = segment_of(&slot.cuts, key);
        Route {
            cell: 8 * leaf + segment as u32,
            low: slot.cuts[segment],
            high: high_of(slot, segment),
        }
    }
}
