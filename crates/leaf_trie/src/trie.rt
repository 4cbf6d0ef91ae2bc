//! All leaves of a store.
//!
//! 1. A key has sixteen bytes, the most significant first, so that the order of bytes is that of keys.
//! 2. There is always one leaf at least, so the trie has a root and a search has an answer.

ghost use Rattle.std.specs.Prelude.{◌≡◌, ◌*◌, ◌-◌, ◌≤◌, [], ◌∷◌, IfOk, OnOk, OnErr, length};
ghost use Rattle.leaf_trie.specs.Leaves.{AreKeys, Finds, Inserts, NoneBegins, OneBegins, Removes};

use crate::branch::{Branch, whole};
use crate::start::{Candidates, LeafStart};
use graph_model::{Key, NoMemory};
use std::alloc::Global;
use std::marker::Model;

/// Leaves by their least keys, of which no two are equal. There is always one leaf.
#[derive(Drop)]
pub struct LeafTrie {
    /// The subtree of all keys.
    root: Branch,
}

impl Model for LeafTrie {
    ghost use Rattle.std.specs.Prelude.{◌≡◌, List};
    ghost use Rattle.leaf_trie.specs.declared.start.LeafStart.{LeafStart};

    ghost Value = { List LeafStart };

    ghost use Rattle.leaf_trie.specs.Leaves.{AreKeys};

    ghost view = { λ t. t.root.starts };

    ghost invariant = { λ t. (t.root.level ≡ 16) × AreKeys t.root.starts };
}

impl LeafTrie {
    /// One leaf alone.
    pub fn new(alloc: Global, start: LeafStart) -> Result<LeafTrie, NoMemory>
        ensures { IfOk result (λ t. t ≡ start ∷ []) }
    {
        LeafTrie::first_at(alloc, start.low.src, start.low.second, start.leaf)
    }

    fn first_at(alloc: Global, src: u64, second: u64, leaf: u32) -> Result<LeafTrie, NoMemory>
        ensures { IfOk result (λ t. t ≡ record { low = record { src = src; second = second }; leaf = leaf } ∷ []) }
    {
        let low = Key { src, second };
        let root = whole(alloc, LeafStart { low, leaf })?;
        Ok(LeafTrie { root })
    }

    /// The leaves whose ranges may hold the key.
    pub fn search(&self, key: Key) -> Candidates
        ensures { Finds key self.now result }
    {
        self.search_at(key.src, key.second)
    }

    fn search_at(&self, src: u64, second: u64) -> Candidates
        ensures { Finds (record { src = src; second = second }) self.now result }
    {
        self.root.search(Key { src, second })
    }

    /// Puts a leaf at its place.
    pub fn insert(&mut self, alloc: Global, start: LeafStart) -> Result<(), NoMemory>
        requires { NoneBegins start.low self.old }
        ensures ok { OnOk result (Inserts start self.old self.new) }
        ensures err { OnErr result (self.new ≡ self.old) }
    {
        self.insert_at(alloc, start.low.src, start.low.second, start.leaf)
    }

    fn insert_at(&mut self, alloc: Global, src: u64, second: u64, leaf: u32) -> Result<(), NoMemory>
        requires { NoneBegins (record { src = src; second = second }) self.old }
        ensures ok { OnOk result (Inserts (record { low = record { src = src; second = second }; leaf = leaf })
            self.old self.new) }
        ensures err { OnErr result (self.new ≡ self.old) }
    {
        let low = Key { src, second };
        self.root.insert(alloc, LeafStart { low, leaf })?;
        Ok(())
    }

    /// Takes away the leaf that begins at the key. Another one is left.
    pub fn remove(&mut self, low: Key)
        requires there { OneBegins low self.old }
        requires more { 2 ≤ length self.old }
        ensures { Removes low self.old self.new }
    {
        self.remove_at(low.src, low.second);
    }

    fn remove_at(&mut self, src: u64, second: u64)
        requires there { OneBegins (record { src = src; second = second }) self.old }
        requires more { 2 ≤ length self.old }
        ensures { Removes (record { src = src; second = second }) self.old self.new }
    {
        if self.root.remove(Key { src, second }) {
            unreachable!();
        }
    }
}
