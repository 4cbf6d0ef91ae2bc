//! Sets of places, as bits.
//!
//! 1. A set of a million places has 125 kB, which stay in a core's cache while all arcs are looked at; a list of
//!    numbers would not, and would have to be searched.
//! 2. It is made once for a search and set anew for each round that needs it.
//! 3. A word is made from the distances of its 64 places, so threads share out the words.

ghost use Rattle.std.specs.Prelude.{◌≡◌, ℕ, ◌+◌, ◌*◌, ◌<◌, ◌≤◌, ◌^◌, length, slice_index, IfOk};
ghost use Rattle.kernel_bfs.specs.PlaceSets.{has_bit, HasPlaces, IsWordOf};

use graph_image::NoMemory;
use rayon::prelude::*;
use std::alloc::Global;
use std::marker::Model;
use std::thread::Threads;

/// So few places aren't worth a thread.
pub const SMALL: usize = 16384;

/// How many places a word has.
const WORD: usize = 64;

/// A set of places: bit p mod 64 of word p div 64 is set where p is in the set.
#[derive(Drop)]
pub struct PlaceSet {
    /// So many that each place has a bit.
    words: Vec<u64>,
}

impl Model for PlaceSet {
    ghost use Rattle.std.specs.Prelude.{List, ℕ};

    ghost Value = { List ℕ };

    ghost view = { λ s. s.words.items };
}

impl PlaceSet {
    /// A set with room for so many places.
    pub fn new(alloc: Global, count: usize) -> Result<PlaceSet, NoMemory>
        requires { count < 2 ^ 32 }
        ensures { IfOk result (HasPlaces count) }
    {
        let words = vec![in alloc; 0u64; count / WORD + 1]?;
        Ok(PlaceSet { words })
    }

    /// Has just the places at the level from now on.
    pub fn set_to_level<R: Threads + Sync>(&mut self, rt: &R, level: u32, distances: &[u32])
        ensures room { length self.new ≡ length self.old }
        ensures level { (i : ℕ) → i < length self.new → IsWordOf level distances.now (i * 64) (slice_index self.new i) }
    {
        if distances.len() < SMALL {
            self.set_alone(level, distances);
        } else {
            self.set_together(rt, level, distances);
        }
    }

    /// The same on one thread.
    fn set_alone(&mut self, level: u32, distances: &[u32])
        ensures room { length self.new ≡ length self.old }
        ensures level { (i : ℕ) → i < length self.new → IsWordOf level distances.now (i * 64) (slice_index self.new i) }
    {
        'words: for i in 0..self.words.len() {
            self.words[i] = word_of(level, distances, i);
        }
    }

    /// The same on several threads.
    fn set_together<R: Threads + Sync>(&mut self, rt: &R, level: u32, distances: &[u32])
        ensures room { length self.new ≡ length self.old }
        ensures level { (i : ℕ) → i < length self.new → IsWordOf level distances.now (i * 64) (slice_index self.new i) }
    {
        par_for_each_mut(
            rt,
            self.words.as_mut_slice(),
            |i: usize, word: &mut u64|
                ensures { IsWordOf level distances.entry.now (i * 64) word.new }
            {
                *word = word_of(level, distances, i);
            },
        );
    }

    /// Whether a place is in the set.
    pub fn contains(&self, place: u32) -> bool
        requires { HasPlaces (place + 1) self.now }
        ensures { result ≡ has_bit self.now place }
    {
        self.words[place as usize / WORD] >> (place as usize % WORD) & 1 == 1
    }
}

/// The word whose bits are set for the places at the level.
fn word_of(level: u32, distances: &[u32], i: usize) -> u64
    ensures { IsWordOf level distances.now (i * 64) result }
{
    let is_within = i <= distances.len() / WORD;
    if is_within {
        word_from(level, distances, i * WORD)
    } else {
        0
    }
}

/// The word whose first place is this one.
fn word_from(level: u32, distances: &[u32], first: usize) -> u64
    requires { first ≤ length distances.now }
    ensures { IsWordOf level distances.now first result }
{
    let count = (distances.len() - first).min(WORD);
    let mut word = 0;
    'bits: for k in 0..count {
        let is_there = distances[first + k] == level;
        if is_there {
            word |= 1u64 << k;
        }
    }
    word
}
