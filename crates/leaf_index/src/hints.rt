//! Hints of the leaves that hold keys.
//!
//! 1. No contract says that a hint is right, or even that there is such a leaf. Whoever takes one looks whether that
//!    leaf's slot holds the key, which only the slot of the key's own leaf does.
//! 2. The first hints are in the order of their keys, and are searched. Those that came since stand after them, and
//!    are found when all are put in order anew: when a sixteenth of them came or went, or there is no place for one
//!    more.
//! 3. Sources are divided into groups of the same width, and where the hints of a group begin is kept. So few hints
//!    are searched for most keys.

ghost use Rattle.std.specs.Prelude.{◌≡◌, ◌-◌, ◌/◌, ◌≤◌, length};
ghost use Rattle.leaf_index.specs.Hinted.{IsRun};

use crate::slot::IndexSlot;
use graph_model::{Key, NoMemory};
use std::alloc::Global;
use std::marker::Model;

/// Hints are put in order again when one of so many came or went.
const HINTS_A_CHANGE: usize = 16;

/// Into so many groups sources are divided.
const GROUPS: usize = 16384;

/// A leaf with its least key, of whose two numbers the last 32 bits each are enough to tell most keys apart.
#[derive(Clone, Copy, Debug, PartialEq, Eq, PartialOrd, Ord)]
struct Hint {
    src: u32,
    second: u32,
    leaf: u32,
}

impl Hint {
    fn new(low: Key, leaf: u32) -> Hint {
        Hint {
            src: last_bits(low.src),
            second: last_bits(low.second),
            leaf,
        }
    }

    /// Both numbers as one, which is in the same order.
    fn number(self) -> u64 {
        u64::from(self.src) * 4294967296 + u64::from(self.second)
    }

    /// Whether the leaf is live and begins at the key.
    fn is_true(self, slots: &Vec<IndexSlot>) -> bool {
        match slots.get(self.leaf as usize) {
            Some(slot) => {
                let low = slot.cuts[0];
                slot.holds(low) && Hint::new(low, self.leaf) == self
            }
            None => false,
        }
    }
}

/// Hints one after the other, the last of which that is not above a key is looked for.
#[derive(Clone, Copy)]
pub struct HintRun {
    /// The place of the first one.
    pub first: usize,
    /// How many there are, at least one.
    pub count: usize,
}

impl HintRun {
    /// The half in which the hint that is looked for is. There is no branch on it, since every other one would be
    /// foretold wrongly.
    fn half(self, hints: &[Hint], wanted: u64) -> HintRun
        requires { IsRun (length hints.now) self }
        ensures run { IsRun (length hints.now) result }
        ensures count { result.count ≡ self.count - self.count / 2 }
    {
        let half = self.count / 2;
        let is_behind = (hints[self.first + half].number() <= wanted) as usize;
        HintRun {
            first: self.first + half * is_behind,
            count: self.count - half,
        }
    }
}

/// The leaves by their least keys, as they stood a while ago. Kept: for each leaf its number and its least key, and
/// what was read ahead. It may be wrong, since leaves come and go. That is harmless: whoever is given a leaf looks at
/// its slot, which holds the key only where the leaf is the key's, and asks the trie where it isn't. It costs 13.5
/// bytes a leaf with the groups, and a sort when a sixteenth of the leaves came or went. It spares nearly each search
/// of the trie, which takes some 120 ns in a store of 131,072 leaves.
#[derive(Drop)]
pub struct Hints {
    /// The first of them in the order of their keys, and those that came since after them.
    hints: Vec<Hint>,
    /// How many are in order.
    sorted: usize,
    /// How many leaves came or went since they were put in order.
    changes: usize,
    /// How many hints are of sources before each group, and after it the number of all.
    starts: Vec<u32>,
    /// How many sources a group has.
    width: u32,
    /// What was read ahead. Nobody asks for it: it is kept so that no compiler leaves out the reads.
    ahead: u64,
}

impl Model for Hints {
    ghost use Rattle.std.specs.Prelude.{◌≤◌, length};

    ghost Value = { Unit {0} };

    ghost view = { λ _. tt };

    ghost invariant = { λ h. (h.sorted ≤ length h.hints.items) × (1 ≤ h.width) };
}

impl Hints {
    /// That leaf 0 has all keys. Takes the memory of a hint for each leaf, of those that are wrong before they are put
    /// in order, and of the groups.
    pub fn new(alloc: Global, leaves: u32) -> Result<Hints, NoMemory> {
        let leaves = leaves as usize;
        // All memory at once: a hint that finds no room is left out, which costs a search of the trie.
        let mut hints = Vec::with_capacity(alloc, leaves + leaves / HINTS_A_CHANGE + 2)?;
        hints.push(Hint::new(Key { src: 0, second: 0 }, 0))?;
        let starts = vec![in alloc; 1; GROUPS + 1]?;
        Ok(Hints {
            hints,
            sorted: 1,
            changes: 0,
            starts,
            width: 1,
            ahead: 0,
        })
    }

    /// The key's hint.
    pub fn of(&self, key: Key) -> u32 {
        let hints = &self.hints.as_slice()[..self.sorted];
        if hints.is_empty() {
            return 0;
        }
        let hint = Hint::new(key, 0);
        let wanted = hint.number();
        let mut run = run_of(hints, &self.starts, self.width, hint.src);
        'halves: while run.count > 1 {
            run = run.half(hints, wanted);
        }
        leaf_of(hints, run.first)
    }

    /// The hints of four keys, which are looked for side by side, so that their searches wait for memory together.
    pub fn of_four(&self, keys: [Key; 4]) -> [u32; 4] {
        let hints = &self.hints.as_slice()[..self.sorted];
        if hints.is_empty() {
            return [0; 4];
        }
        let wanted = keys.map(|key| Hint::new(key, 0));
        let mut first = run_of(hints, &self.starts, self.width, wanted[0].src);
        let mut second = run_of(hints, &self.starts, self.width, wanted[1].src);
        let mut third = run_of(hints, &self.starts, self.width, wanted[2].src);
        let mut fourth = run_of(hints, &self.starts, self.width, wanted[3].src);
        let mut longest = first
            .count
            .max(second.count)
            .max(third.count.max(fourth.count));
        // All four go the same number of steps, as many as the longest run needs, so that no branch depends on a key.
        'halves: while longest > 1 {
            first = first.half(hints, wanted[0].number());
            second = second.half(hints, wanted[1].number());
            third = third.half(hints, wanted[2].number());
            fourth = fourth.half(hints, wanted[3].number());
            longest -= longest / 2;
        }
        [first, second, third, fourth].map(|run| leaf_of(hints, run.first))
    }

    /// Reads the slots of four hints, so that these reads too wait for memory together.
    pub fn read_ahead(&mut self, slots: &Vec<IndexSlot>, hints: [u32; 4]) {
        let [first, second, third, fourth] = hints;
        self.ahead = sum_of(slots, first)
            .wrapping_add(sum_of(slots, second))
            .wrapping_add(sum_of(slots, third))
            .wrapping_add(sum_of(slots, fourth));
    }

    /// Notes that a leaf has the keys from this one on. Where memory is refused there is no hint of it.
    pub fn note(&mut self, slots: &Vec<IndexSlot>, low: Key, leaf: u32) {
        self.note_change(slots);
        let _ = self.hints.push(Hint::new(low, leaf));
    }

    /// Notes that a leaf has come or gone.
    pub fn note_change(&mut self, slots: &Vec<IndexSlot>) {
        let count = self.hints.len();
        let is_full = count >= self.hints.capacity();
        if is_full || self.changes >= count / HINTS_A_CHANGE {
            self.put_in_order(slots);
        }
        self.changes = self.changes.saturating_add(1);
    }

    /// Lets go of the hints that are wrong, and puts all others in order.
    fn put_in_order(&mut self, slots: &Vec<IndexSlot>) {
        self.hints.retain(|hint| hint.is_true(slots));
        self.hints.sort_unstable();
        self.hints.dedup();
        self.sorted = self.hints.len();
        self.changes = 0;
        self.width = divide(self.hints.as_slice(), &mut self.starts);
    }
}

/// The hints of a source's group, and the one before them.
fn run_of(hints: &[Hint], starts: &Vec<u32>, width: u32, src: u32) -> HintRun
    requires some { 1 ≤ length hints.now }
    requires width { 1 ≤ width }
    ensures { IsRun (length hints.now) result }
{
    let group = ((src / width) as usize).min(GROUPS - 1);
    // The leaf that has the key may begin in an earlier group, as the last leaf there.
    let before = start_of(starts, group).saturating_sub(1);
    let end = start_of(starts, group + 1).min(hints.len()).max(1);
    let first = before.min(end - 1);
    HintRun {
        first,
        count: end - first,
    }
}

/// How many hints are of sources before a group.
fn start_of(starts: &Vec<u32>, group: usize) -> usize {
    match starts.get(group) {
        Some(start) => *start as usize,
        None => 0,
    }
}

/// The leaf of the hint at a place, or leaf 0 where there is none.
fn leaf_of(hints: &[Hint], place: usize) -> u32 {
    match hints.get(place) {
        Some(hint) => hint.leaf,
        None => 0,
    }
}

/// Divides the sources of hints into groups, and answers how many sources a group has.
fn divide(hints: &[Hint], starts: &mut Vec<u32>) -> u32
    ensures { 1 ≤ result }
{
    // So many sources to a group that the last hint falls into the last group or one before it.
    let width = match hints.last() {
        Some(last) => (last.src / GROUPS as u32).saturating_add(1),
        None => 1,
    };
    let mut place = 0;
    'groups: for group in 0..starts.len() {
        'hints: while place < hints.len() && ((hints[place].src / width) as usize) < group {
            place += 1;
        }
        starts[group] = place.min(u32::MAX as usize) as u32;
    }
    width
}

/// The last 32 bits of a number.
fn last_bits(number: u64) -> u32 {
    (number % 4294967296) as u32
}

/// The sum of what lies in different lines of memory of a leaf's slot.
fn sum_of(slots: &Vec<IndexSlot>, leaf: u32) -> u64 {
    match slots.get(leaf as usize) {
        Some(slot) => slot.cuts[0]
            .src
            .wrapping_add(slot.cuts[4].src)
            .wrapping_add(slot.high.src),
        None => 0,
    }
}
