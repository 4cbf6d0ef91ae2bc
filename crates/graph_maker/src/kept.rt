//! The pairs that are kept, and whether one stood before.
//!
//! 1. A set of the ends, lesser first, tells a repeat in either direction; the list keeps the order in which they were
//!    drawn.

ghost use Rattle.std.specs.Prelude.{◌≡◌, [], length, OnOk, OnErr};
ghost use Rattle.graph_maker.specs.Draws.{kept_behind};

use crate::pair::VertexPair;
use items::NoMemory;
use std::alloc::Global;
use std::collections::HashSet;
use std::marker::Model;

/// Pairs in the order in which they were drawn, with the set of their ends.
#[derive(Drop)]
pub struct DrawnPairs {
    /// In the order in which they were drawn.
    pairs: Vec<VertexPair>,
    /// The lesser end first.
    ends: HashSet<VertexPair>,
}

impl Model for DrawnPairs {
    ghost use Rattle.std.specs.Prelude.{List};
    ghost use Rattle.std.specs.HashSet.{contains};
    ghost use Rattle.graph_maker.specs.declared.pair.VertexPair.{VertexPair};
    ghost use Rattle.graph_maker.specs.Kept.{same_pair, HasEndsOf};

    ghost Value = { List VertexPair };

    ghost view = { λ k. k.pairs.items };

    ghost invariant = { λ k. HasEndsOf (contains same_pair k.ends) k.pairs.items };
}

impl DrawnPairs {
    /// None. Takes no memory.
    pub fn new(alloc: Global) -> DrawnPairs
        ensures { result ≡ [] }
    {
        DrawnPairs {
            pairs: Vec::new(alloc),
            ends: HashSet::new(alloc),
        }
    }

    /// How many there are.
    pub fn len(&self) -> usize
        ensures { result ≡ length self.now }
    {
        self.pairs.len()
    }

    /// Lends the pairs in their order.
    pub fn as_slice(&self) -> &[VertexPair]
        ensures { result.now ≡ self.now }
    {
        self.pairs.as_slice()
    }

    /// Keeps a pair, unless it is passed over.
    pub fn offer(&mut self, pair: VertexPair) -> Result<(), NoMemory>
        ensures ok { OnOk result (self.new ≡ kept_behind self.old pair) }
        ensures err { OnErr result (self.new ≡ self.old) }
    {
        if pair.is_loop() {
            return Ok(());
        }
        self.pairs.reserve(1)?;
        if self.ends.insert(pair.in_order())? {
            self.pairs.push_reserved(pair);
        }
        Ok(())
    }
}
