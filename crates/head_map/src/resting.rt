//! Heads and records of a segment at rest, in one box.
//!
//! 1. One pointer, so that a slot of the latch table stays small: most segments at rest have no record.
//! 2. The box is made when a segment first gets a record, so laying it to rest takes no memory.

ghost use Rattle.std.specs.Prelude.{◌≡◌, ◌⊎◌, ◌<◌, ◌≤◌, ℕ, true, [], map, IfSome};
ghost use Rattle.std.specs.List.{list_any};
ghost use Rattle.undo_chain.specs.Chains.{list_at, ChangesOneList, IsHeadOf};
ghost use Rattle.undo_chain.specs.Records.{outlasts, stamped_by, value_of};
ghost use Rattle.undo_chain.specs.States.{AreNamed, Grows};
ghost use Rattle.head_map.specs.Heads.{heads_placed, place_behind, settled_heads};

use crate::heads::{HeadMap, Heads, Inside};
use graph_model::TxnName;
use std::alloc::Global;
use std::marker::Model;
use std::mem::replace;
use undo_chain::{Chains, Snapshot, States};

/// What is kept of the rows: their number alone, or a box.
#[derive(Drop)]
enum Kept {
    /// No row has a record.
    Settled { alloc: Global, count: usize },
    /// Some rows have records.
    Changed { alloc: Global, inside: Box<Inside> },
}

/// Heads and records of so many rows, in 16 bytes. Where all rows are settled nothing is kept but their number.
#[derive(Drop)]
pub struct RestingHeads {
    kept: Kept,
}

const _: () = prove!(size_of::<RestingHeads>() == 16);

impl Model for RestingHeads {
    ghost use Rattle.head_map.specs.Resting.{RestingTable, table_in};

    ghost Value = { RestingTable };

    ghost view = { λ r. table_in r.kept };
}

impl RestingHeads {
    /// So many settled rows.
    pub fn settled(alloc: Global, count: usize) -> RestingHeads
        ensures entries { result.heads.entries ≡ [] }
        ensures count { result.count ≡ count }
    {
        RestingHeads {
            kept: Kept::Settled { alloc, count },
        }
    }

    /// How many rows there are.
    pub fn count(&self) -> usize
        ensures { result ≡ self.now.count }
    {
        match &self.kept {
            Kept::Settled { alloc: _, count } => *count,
            Kept::Changed { alloc: _, inside } => inside.count,
        }
    }

    /// Whether nothing is kept but the number of the rows.
    pub fn is_settled(&self) -> bool
        ensures { result ≡ true → self.now.heads.entries ≡ [] }
    {
        match &self.kept {
            Kept::Settled { alloc: _, count: _ } => true,
            Kept::Changed {
                alloc: _,
                inside: _,
            } => false,
        }
    }

    /// The heads of the row at a place.
    pub fn get(&self, place: usize) -> Heads
        ensures { result ≡ heads_placed self.now.heads.entries place }
    {
        match &self.kept {
            Kept::Settled { alloc: _, count: _ } => Heads::settled(),
            Kept::Changed { alloc: _, inside } => inside.list.get(place),
        }
    }

    /// The last place before this one whose row is changed.
    pub fn last_before(&self, place: usize) -> Option<usize>
        ensures below { IfSome result (λ p. p < place) }
        ensures between { (p : ℕ) → place_behind result ≤ p → p < place
            → heads_placed self.now.heads.entries p ≡ settled_heads }
    {
        match &self.kept {
            Kept::Settled { alloc: _, count: _ } => None,
            Kept::Changed { alloc: _, inside } => inside.list.last_before(place),
        }
    }

    /// Whether a list of records has one that a prune at the horizon leaves, once this writer's have a stamp up to it.
    pub fn has_outlasting(&self, head: Option<usize>, by: TxnName, horizon: u64) -> bool
        requires { IsHeadOf self.now.chains head }
        ensures { result ≡ list_any (outlasts by horizon) (list_at self.now.chains head) }
    {
        match &self.kept {
            Kept::Settled { alloc: _, count: _ } => false,
            Kept::Changed { alloc: _, inside } => inside.chains.has_outlasting(head, by, horizon),
        }
    }

    /// The value of a row for a snapshot. Its newest value is `base`.
    pub fn value_at<S: States>(
        &self,
        head: Option<usize>,
        base: Option<u64>,
        snapshot: &Snapshot,
        states: &mut S,
    ) -> Option<u64>
        requires head { IsHeadOf self.now.chains head }
        requires known { snapshot.now.start ≤ (S.knowledge states.old).known }
        requires named { AreNamed (S.knowledge states.old).names (list_at self.now.chains head) }
        ensures value { result
            ≡ value_of (S.knowledge states.old).stamps snapshot.now base (list_at self.now.chains head) }
        ensures grows { Grows (S.knowledge states.old) (S.knowledge states.new) }
    {
        match &self.kept {
            Kept::Settled { alloc: _, count: _ } => base,
            Kept::Changed { alloc: _, inside } => {
                inside.chains.value_at(head, base, snapshot, states)
            }
        }
    }

    /// Gives the records of a writer in one list their commit stamp, where they have none.
    pub fn stamp(&mut self, head: Option<usize>, by: TxnName, stamp: u64)
        requires { IsHeadOf self.old.chains head }
        ensures list { list_at self.new.chains head ≡ map (stamped_by by stamp) (list_at self.old.chains head) }
        ensures others { ChangesOneList self.old.chains self.new.chains head head }
        ensures spare { self.new.chains.spare ≡ self.old.chains.spare }
        ensures heads { self.new.heads ≡ self.old.heads }
        ensures count { self.new.count ≡ self.old.count }
    {
        match &mut self.kept {
            Kept::Settled { alloc: _, count: _ } => {}
            Kept::Changed { alloc: _, inside } => inside.chains.stamp(head, by, stamp),
        }
    }

    /// What is kept of as many settled rows. The memory of their records is given back.
    pub fn settle(self) -> RestingHeads
        ensures entries { result.heads.entries ≡ [] }
        ensures count { result.count ≡ self.count }
    {
        match self.kept {
            Kept::Settled { alloc, count } => RestingHeads::settled(alloc, count),
            Kept::Changed { alloc, inside } => {
                let count = inside.count;
                RestingHeads::settled(alloc, count)
            }
        }
    }

    /// Heads, records and number of the rows. Takes no memory.
    pub fn wake(self) -> (HeadMap, Chains, usize)
        ensures heads { result.0 ≡ self.heads }
        ensures records { result.1 ≡ self.chains }
        ensures count { result.2 ≡ self.count }
    {
        match self.kept {
            Kept::Settled { alloc, count } => {
                let heads = HeadMap {
                    alloc,
                    inside: None,
                };
                (heads, Chains::new(alloc), count)
            }
            Kept::Changed { alloc, inside } => {
                let mut inside = inside;
                let chains = replace(&mut inside.chains, Chains::new(alloc));
                let count = inside.count;
                let heads = HeadMap {
                    alloc,
                    inside: Some(inside),
                };
                (heads, chains, count)
            }
        }
    }
}

impl HeadMap {
    /// Puts the records of so many rows beside their heads. Where no row is changed all memory is given back. Takes no
    /// memory.
    pub fn rest(self, chains: Chains, count: usize) -> RestingHeads
        ensures entries { result.heads.entries ≡ self.entries }
        ensures records { (self.entries ≡ []) ⊎ (result.chains ≡ chains) }
        ensures count { result.count ≡ count }
    {
        let HeadMap { alloc, inside } = self;
        let Some(inside) = inside else {
            return RestingHeads::settled(alloc, count);
        };
        // The memory goes, though the next write there takes it anew: most cells stay settled for long.
        if inside.list.is_empty() {
            return RestingHeads::settled(alloc, count);
        }
        let mut inside = inside;
        inside.chains = chains;
        inside.count = count;
        RestingHeads {
            kept: Kept::Changed { alloc, inside },
        }
    }
}
