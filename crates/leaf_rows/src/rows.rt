//! Rows in leaves.
//!
//! 1. Contracts see each key with its versions, and not where they lie.
//! 2. No record has a stamp here: the manager of one owner tells the stamp of any name.

ghost use Rattle.std.specs.Prelude.{◌≡◌, ◌≤◌, ◌-◌, IfOk, length};
ghost use Rattle.graph_model.specs.declared.limits.TheConstants.{MAX_LEAVES};
ghost use Rattle.leaf_rows.specs.Loaded.{AreNone};
ghost use Rattle.leaf_rows.specs.Readers.{AreUnstamped};

use graph_model::NoMemory;
use leaf_store::LeafStore;
use std::alloc::Global;
use std::marker::Model;

/// The rows of a graph under transactions of one owner.
#[derive(Drop)]
pub struct LeafRows {
    /// The leaves that they lie in.
    pub(crate) store: LeafStore,
}

impl Model for LeafRows {
    ghost use Rattle.leaf_store.specs.Leaves.{Leaves};
    ghost use Rattle.leaf_rows.specs.Readers.{AreUnstamped};

    ghost Value = { Leaves };

    ghost view = { λ r. r.store };

    ghost invariant = { λ r. AreUnstamped r.store };
}

/// How many vertices and arcs a graph has.
#[derive(Clone, Copy, Debug, PartialEq, Eq)]
pub struct SeenCounts {
    /// Rows of vertices that have a value.
    pub vertices: usize,
    /// Rows of arcs that have one.
    pub arcs: usize,
}

impl LeafRows {
    /// No rows, in a store of so many leaves.
    pub fn new(alloc: Global, leaves: u32) -> Result<LeafRows, NoMemory>
        requires some { 1 ≤ leaves }
        requires few { leaves ≤ MAX_LEAVES }
        ensures { IfOk result (λ rows. AreNone leaves rows) }
    {
        Ok(LeafRows {
            store: LeafStore::new(alloc, leaves)?,
        })
    }

    /// No record in the rows has a stamp.
    pub(crate) fn is_unstamped(&self)
        ensures { AreUnstamped self.now }
    {
        self.store.is_sound();
    }

    /// How many leaves are neither free nor retired.
    pub fn leaves_in_use(&self) -> u32
        ensures { result ≡ (self.now.limit - length self.now.free) - length self.now.retired }
    {
        self.store.leaves_in_use()
    }
}
