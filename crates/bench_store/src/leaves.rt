//! Parts over the trie of leaves.
//!
//! 1. Leaves begin twenty sources apart, as those do that have 160 rows of vertices with seven arcs each.
//! 2. A search is made for a key that is drawn anew each time, from the range of some leaf.

ghost use Rattle.std.specs.Prelude.{◌≡◌, ◌*◌};
ghost use Rattle.bench_store.specs.Marked.{AreMarked};

use crate::best::{Best, CALLS, ROUNDS};
use crate::random::{Random, drawn_order};
use anyhow::Result;
use graph_model::{Key, NoMemory};
use leaf_trie::{LeafStart, LeafTrie};
use std::alloc::Global;
use std::collections::BTreeMap;
use std::rt::Clock;
use std::time::Instant;

/// How many leaves there are.
const LEAVES: u32 = 131072;

/// How many leaves are put in between two looks at the clock.
const SOME: usize = 4096;

/// How many sources the leaves begin apart.
const APART: u64 = 20;

/// How many keys in a row are from the range of one leaf, where the last answer is kept.
const STAY: u64 = 50;

/// Times each part, and prints a line for each.
pub fn time<R: Clock + Print>(rt: &R, alloc: Global, random: &mut Random) -> Result<()> {
    let trie = time_inserts(rt, alloc, random)?;
    let map = map_of(alloc)?;
    time_calls(rt, "leaf-draw", random, |key| key.src)?;
    time_calls(rt, "leaf-search", random, |key| search(&trie, key))?;
    time_kept(rt, &trie, random)?;
    time_calls(rt, "leaf-search-map", random, |key| search_map(&map, key))
}

/// Where a leaf begins.
fn start_of(leaf: u32) -> LeafStart
    ensures low { result.low.src ≡ leaf * 20 }
    ensures leaf { result.leaf ≡ leaf }
{
    LeafStart {
        low: Key {
            src: u64::from(leaf) * APART,
            second: 0,
        },
        leaf,
    }
}

/// Puts all leaves in, in an order that is drawn.
fn time_inserts<R: Clock + Print>(rt: &R, alloc: Global, random: &mut Random) -> Result<LeafTrie> {
    let mut best = Best::new();
    let mut trie = LeafTrie::new(alloc, start_of(0))?;
    let mut marks = unset_marks(alloc)?;
    let order = drawn_order(alloc, u64::from(LEAVES), random)?;
    'rounds: for some in order.as_slice().chunks(SOME) {
        let begun = Instant::now(rt)?;
        'leaves: for leaf in some {
            put(
                alloc,
                &mut trie,
                &mut marks,
                (*leaf % u64::from(LEAVES)) as u32,
            )?;
        }
        best.add(begun.elapsed(rt)?, some.len() as u64, some.len() as u64);
    }
    best.say(rt, "leaf-insert")?;
    Ok(trie)
}

/// A mark for each leaf, none of them set.
fn unset_marks(alloc: Global) -> Result<Vec<bool>, NoMemory> {
    let mut marks = Vec::new(alloc);
    for _leaf in 0..LEAVES {
        marks.push(false)?;
    }
    Ok(marks)
}

/// Puts a leaf in, unless it has its mark. Leaf 0 is always there.
fn put(alloc: Global, trie: &mut LeafTrie, marks: &mut Vec<bool>, leaf: u32) -> Result<(), NoMemory>
    requires { AreMarked marks.old.items trie.old }
    ensures { AreMarked marks.new.items trie.new }
{
    let place = leaf as usize;
    if leaf > 0 && place < marks.len() && !marks[place] {
        trie.insert(alloc, start_of(leaf))?;
        marks[place] = true;
    }
    Ok(())
}

/// The same leaves in an ordered map of the library.
fn map_of(alloc: Global) -> Result<BTreeMap<Key, u32>, NoMemory> {
    let mut map = BTreeMap::new(alloc);
    for leaf in 0..LEAVES {
        map.insert(start_of(leaf).low, leaf)?;
    }
    Ok(map)
}

/// Makes a call again and again, with a key that is drawn.
fn time_calls<R: Clock + Print, F: Fn(Key) -> u64>(
    rt: &R,
    name: &str,
    random: &mut Random,
    call: F,
) -> Result<()>
    requires { F.IsAlwaysCallable call }
{
    let mut best = Best::new();
    for _round in 0..ROUNDS {
        let mut sum: u64 = 0;
        let begun = Instant::now(rt)?;
        for _call in 0..CALLS {
            let src = random.below(u64::from(LEAVES).wrapping_mul(APART));
            sum = sum.wrapping_add(call(Key {
                src,
                second: src % 8,
            }));
        }
        best.add(begun.elapsed(rt)?, CALLS, sum);
    }
    best.say(rt, name)
}

/// A leaf with its range, as whoever searched last keeps it.
#[derive(Clone, Copy)]
struct KeptLeaf {
    leaf: u64,
    low: Key,
    high: Key,
}

impl KeptLeaf {
    /// A leaf whose range goes to where the next one begins.
    fn new(leaf: u64) -> KeptLeaf {
        KeptLeaf {
            leaf,
            low: Key {
                src: leaf.wrapping_mul(APART),
                second: 0,
            },
            high: Key {
                src: leaf.wrapping_add(1).wrapping_mul(APART),
                second: 0,
            },
        }
    }

    fn holds(&self, key: Key) -> bool {
        !key.is_below(self.low) && key.is_below(self.high)
    }
}

/// Searches again and again, but only where the leaf that was found last doesn't hold the key.
fn time_kept<R: Clock + Print>(rt: &R, trie: &LeafTrie, random: &mut Random) -> Result<()> {
    let mut best = Best::new();
    let mut kept = KeptLeaf::new(0);
    for _round in 0..ROUNDS {
        let mut sum: u64 = 0;
        let begun = Instant::now(rt)?;
        for _stay in 0..CALLS / STAY {
            let first = random.below(u64::from(LEAVES)).wrapping_mul(APART);
            for _call in 0..STAY {
                let src = first.wrapping_add(random.below(APART));
                let key = Key {
                    src,
                    second: src % 8,
                };
                if !kept.holds(key) {
                    kept = KeptLeaf::new(search(trie, key));
                }
                sum = sum.wrapping_add(kept.leaf);
            }
        }
        best.add(begun.elapsed(rt)?, CALLS, sum);
    }
    best.say(rt, "leaf-search-kept")
}

/// The last leaf that begins up to the key, by the trie.
fn search(trie: &LeafTrie, key: Key) -> u64 {
    let found = trie.search(key);
    if let Some(leaf) = found.at {
        if !key.is_below(start_of(leaf).low) {
            return u64::from(leaf);
        }
    }
    match found.before {
        Some(leaf) => u64::from(leaf),
        None => 0,
    }
}

/// The same by the map.
fn search_map(map: &BTreeMap<Key, u32>, key: Key) -> u64 {
    match map.range(..=key).next_back() {
        Some((_, leaf)) => u64::from(*leaf),
        None => 0,
    }
}
