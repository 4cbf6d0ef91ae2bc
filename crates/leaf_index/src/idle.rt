//! Leaves that are free or retired.
//!
//! 1. Both lists have their links in one table, which has room for each leaf once.
//! 2. The stamps of retired leaves stand by their numbers.

ghost use Rattle.std.specs.Prelude.{◌≡◌, ◌-◌, ◌≤◌, ◌++◌, [], ◌∷◌, IfNone, IfOk, length, option_to_list, take};
ghost use Rattle.std.specs.List.{range_with_len};
ghost use Rattle.graph_model.specs.declared.limits.TheConstants.{MAX_LEAVES};
ghost use Rattle.leaf_index.specs.Idle.{Idle, IsOutside};
ghost use Rattle.leaf_index.specs.Calls.{freed_idle, freed_of};

use crate::chain::Chain;
use crate::release::release;
use graph_model::NoMemory;
use std::alloc::Global;
use std::marker::Model;

/// The lists of leaves that are free and that are retired.
#[derive(Drop)]
pub struct IdleLeaves {
    /// By the number of a leaf, the one before it in its list.
    links: Vec<u32>,
    /// By the number of a leaf, the stamp under which it was retired.
    stamps: Vec<u64>,
    /// Those that may be taken.
    free: Chain,
    /// Those that some readers may still reach.
    retired: Chain,
}

impl Model for IdleLeaves {
    ghost use Rattle.leaf_index.specs.Idle.{Idle, AreLinked, idle_of};

    ghost Value = { Idle };

    ghost view = { λ i. idle_of i.links.items i.stamps.items i.free i.retired };

    ghost invariant = { λ i. AreLinked i.links.items i.stamps.items i.free i.retired };
}

impl IdleLeaves {
    /// All leaves but the first are free. Takes all the memory that the lists need.
    pub fn new(alloc: Global, leaves: u32) -> Result<IdleLeaves, NoMemory>
        requires some { 1 ≤ leaves }
        requires few { leaves ≤ MAX_LEAVES }
        ensures { IfOk result (λ i. i
            ≡ record { leaves = leaves; free = range_with_len 1 (leaves - 1); retired = [] }) }
    {
        let mut links = vec![in alloc; 0; leaves as usize]?;
        let stamps = vec![in alloc; 0; leaves as usize]?;
        // The last one stands in front, so leaves are taken from the end of the table on.
        let mut free = Chain::empty();
        'fill: for leaf in 1..leaves {
            free = free.with_last(&mut links, leaf);
        }
        Ok(IdleLeaves {
            links,
            stamps,
            free,
            retired: Chain::empty(),
        })
    }

    /// Takes the last free leaf, if there is one.
    pub fn take_free(&mut self) -> Option<u32>
        ensures leaf { self.old ≡ record self.new { free = self.new.free ++ option_to_list result } }
        ensures none { IfNone result (self.new.free ≡ []) }
    {
        if self.free.count == 0 {
            return None;
        }
        let leaf = self.free.last;
        self.free = self.free.without_last(&self.links);
        Some(leaf)
    }

    /// Puts a leaf that is in neither list last among those that are free.
    pub fn give_back(&mut self, leaf: u32)
        requires { IsOutside self.old leaf }
        ensures { self.new ≡ record self.old { free = self.old.free ++ leaf ∷ [] } }
    {
        self.free = self.free.with_last(&mut self.links, leaf);
    }

    /// Puts a leaf that is in neither list last among those that are retired.
    pub fn retire(&mut self, leaf: u32, stamp: u64)
        requires { IsOutside self.old leaf }
        ensures { self.new
            ≡ record self.old { retired = self.old.retired ++ record { leaf = leaf; stamp = stamp } ∷ [] } }
    {
        self.stamps[leaf as usize] = stamp;
        self.retired = self.retired.with_last(&mut self.links, leaf);
    }

    /// How many leaves are free.
    pub fn free_count(&self) -> u32
        ensures { result ≡ length self.now.free }
    {
        self.free.count
    }

    /// How many leaves are retired.
    pub fn retired_count(&self) -> u32
        ensures { result ≡ length self.now.retired }
    {
        self.retired.count
    }

    /// Frees those among the first retired leaves whose stamps are below the given one, and answers how many.
    pub fn free_retired(&mut self, until: u64, upto: usize) -> u32
        ensures freed { self.new ≡ freed_idle until upto self.old }
        ensures count { result ≡ length (freed_of until (take upto self.old.retired)) }
    {
        let released = release(
            &mut self.links,
            &self.stamps,
            self.free,
            self.retired,
            until,
            upto,
        );
        self.free = released.free;
        self.retired = released.retired;
        released.count
    }
}
