//! Lists of leaves whose links stand in one table, by the numbers of leaves.
//!
//! While a leaf stands in one chain at most, and there once, one table does for all of them.

ghost use Rattle.std.specs.Prelude.{◌≡◌, ◌+◌, ◌<◌, ◌≤◌, ◌++◌, ℕ, List, [], ◌∷◌, length, reverse};
ghost use Rattle.graph_model.specs.declared.limits.TheConstants.{MAX_LEAVES};
ghost use Rattle.leaf_index.specs.Idle.{AreApart, AreOnceBelow, PutsLast, leaves_of, times_in};

/// A list of leaves: its last one, and how many there are. The table has by each leaf the one before it. Where there
/// are none, `last` says nothing.
#[derive(Clone, Copy)]
pub struct Chain {
    /// The leaf that stands last.
    pub last: u32,
    /// How many leaves there are.
    pub count: u32,
}

impl Chain {
    /// No leaves.
    pub fn empty() -> Chain
        ensures leaves { (links : List ℕ) → leaves_of links result ≡ [] }
        ensures count { result.count ≡ 0 }
    {
        Chain { last: 0, count: 0 }
    }

    /// The chain with one more leaf, which it lacked. Other chains that lack it stay as they are.
    pub fn with_last(self, links: &mut Vec<u32>, leaf: u32) -> Chain
        requires few { length links.old.items ≤ MAX_LEAVES }
        requires fewer { self.count < length links.old.items }
        requires exists { leaf < length links.old.items }
        requires lacks { times_in leaf (leaves_of links.old.items self) ≡ 0 }
        ensures { PutsLast leaf links.old.items self links.new.items result }
    {
        links[leaf as usize] = self.last;
        Chain {
            last: leaf,
            count: self.count + 1,
        }
    }

    /// The chain without its last leaf.
    pub fn without_last(self, links: &Vec<u32>) -> Chain
        requires some { 0 < self.count }
        requires exists { self.last < length links.now.items }
        ensures leaves { leaves_of links.now.items self ≡ leaves_of links.now.items result ++ self.last ∷ [] }
        ensures count { self.count ≡ result.count + 1 }
    {
        Chain {
            last: links[self.last as usize],
            count: self.count - 1,
        }
    }

    /// The same leaves, from the last to the first.
    pub fn turned(self, links: &mut Vec<u32>) -> Chain
        requires few { length links.old.items ≤ MAX_LEAVES }
        requires once { AreOnceBelow (length links.old.items) (leaves_of links.old.items self) }
        ensures leaves { reverse (leaves_of links.new.items result) ≡ leaves_of links.old.items self }
        ensures count { result.count ≡ self.count }
        ensures others { (other : Chain) → AreApart (leaves_of links.old.items self) (leaves_of links.old.items other)
            → leaves_of links.new.items other ≡ leaves_of links.old.items other }
        ensures same_length { length links.new.items ≡ length links.old.items }
    {
        let mut from = self;
        let mut turned = Chain::empty();
        'leaves: for _leaf in 0..self.count {
            let leaf = from.last;
            // A list can be walked from its last leaf alone, so it is turned where the first one has to come first.
            from = from.without_last(links);
            turned = turned.with_last(links, leaf);
        }
        turned
    }
}
