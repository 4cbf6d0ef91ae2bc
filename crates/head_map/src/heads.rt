//! Where the records of changed rows begin.
//!
//! 1. Where no row was ever changed there is no box. It is made by `reserve`, with room for the rows.
//! 2. The box has a place for the records of a segment at rest, which is empty while the segment is awake.

ghost use Rattle.std.specs.Prelude.{◌≡◌, ◌==◌, ◌⊎◌, ◌+◌, ◌<◌, ◌≤◌, ℕ, true, [], length, cond, nat_eq, IfSome, OnOk, IsOk, IfOk};
ghost use Rattle.head_map.specs.Heads.{heads_placed, place_behind, settled_heads, is_settled, opened, closed, raised};

use crate::list::HeadList;
use crate::packed::PackedHeads;
use graph_model::NoMemory;
use std::alloc::Global;
use std::marker::Model;
use undo_chain::Chains;

/// Where the records of one row begin, and its touches. Where a row has no value its weight isn't read.
#[derive(Clone, Copy)]
pub struct Heads {
    /// Whether the row has a value now, or only records of those that it had.
    pub has_value: bool,
    /// The newest record of a value before, if there is one.
    pub undos: Option<usize>,
    /// The newest record of a touch, if there is one.
    pub touches: Option<usize>,
}

impl Heads {
    /// Those of a settled row.
    pub fn settled() -> Heads
        ensures { result ≡ settled_heads }
    {
        Heads {
            has_value: true,
            undos: None,
            touches: None,
        }
    }

    /// Whether they are those of a settled row.
    pub fn is_settled(self) -> bool
        ensures { result ≡ is_settled self }
    {
        self.has_value && self.undos.is_none() && self.touches.is_none()
    }
}

/// What a box of heads holds.
#[derive(Drop)]
pub(crate) struct Inside {
    /// The entries of the changed rows.
    pub(crate) list: HeadList,
    /// The records, while the segment is at rest. Else there are none, and they have no memory.
    pub(crate) chains: Chains,
    /// How many rows it has, while it is at rest.
    pub(crate) count: usize,
}

/// The changed rows of a segment, in the order of their places.
#[derive(Drop)]
pub struct HeadMap {
    pub(crate) alloc: Global,
    /// None where no row has changed.
    pub(crate) inside: Option<Box<Inside>>,
}

const _: () = prove!(size_of::<HeadMap>() == 16);

impl Model for HeadMap {
    ghost use Rattle.head_map.specs.Heads.{PlaceTable};
    ghost use Rattle.head_map.specs.Resting.{heads_in};

    ghost Value = { PlaceTable };

    ghost view = { λ m. heads_in m.inside };
}

impl HeadMap {
    /// No row is changed. Takes no memory.
    pub fn new(alloc: Global) -> HeadMap
        ensures { result.entries ≡ [] }
    {
        HeadMap {
            alloc,
            inside: None,
        }
    }

    /// Whether all rows are settled.
    pub fn is_empty(&self) -> bool
        ensures { result ≡ (length self.now.entries == 0) }
    {
        match &self.inside {
            Some(inside) => inside.list.is_empty(),
            None => true,
        }
    }

    /// How many more rows there is room for.
    pub fn spare(&self) -> usize
        ensures { result ≡ self.now.spare }
    {
        match &self.inside {
            Some(inside) => inside.list.spare(),
            None => 0,
        }
    }

    /// Makes room for so many more rows. Takes no memory where there is room already.
    pub fn reserve(&mut self, rows: usize) -> Result<(), NoMemory>
        ensures ok { OnOk result (rows ≤ self.new.spare) }
        ensures room { rows ≤ self.old.spare → IsOk result }
        ensures kept { self.new.entries ≡ self.old.entries }
        ensures spare { self.old.spare ≤ self.new.spare }
    {
        if let Some(inside) = &mut self.inside {
            return inside.list.reserve(rows);
        }
        if rows > 0 {
            self.inside = Some(with_room(self.alloc, rows)?);
        }
        Ok(())
    }

    /// The sum of the places of the first changed row, of one in the middle and of the last.
    pub fn sum_ahead(&self) -> usize {
        match &self.inside {
            Some(inside) => inside.list.sum_ahead(),
            None => 0,
        }
    }

    /// The heads of the row at a place.
    pub fn get(&self, place: usize) -> Heads
        ensures { result ≡ heads_placed self.now.entries place }
    {
        match &self.inside {
            Some(inside) => inside.list.get(place),
            None => Heads::settled(),
        }
    }

    /// Gives the row at a place these heads. Needs room where the row was settled and isn't any more.
    pub fn put(&mut self, place: usize, heads: PackedHeads)
        requires byte { place < 256 }
        requires room { (0 < self.old.spare)
            ⊎ (heads_placed self.old.entries place ≡ settled_heads → heads ≡ settled_heads) }
        ensures heads { (p : ℕ) → heads_placed self.new.entries p
            ≡ cond (nat_eq p place) heads (heads_placed self.old.entries p) }
        ensures spare { self.old.spare ≤ self.new.spare + 1 }
        ensures kept { (heads_placed self.old.entries place ≡ settled_heads → heads ≡ settled_heads)
            → self.old.spare ≤ self.new.spare }
    {
        if let Some(inside) = &mut self.inside {
            inside.list.put(place, heads);
        }
    }

    /// Makes way for a row at a place: those from there on stand one place further on.
    pub fn open(&mut self, place: usize)
        requires { (p : ℕ) → 255 ≤ p → heads_placed self.old.entries p ≡ settled_heads }
        ensures heads { (p : ℕ) → heads_placed self.new.entries p ≡ opened place (heads_placed self.old.entries) p }
        ensures spare { self.new.spare ≡ self.old.spare }
    {
        if let Some(inside) = &mut self.inside {
            inside.list.open(place);
        }
    }

    /// Takes the row at a place away: those after it stand one place further down.
    pub fn close(&mut self, place: usize)
        ensures heads { (p : ℕ) → heads_placed self.new.entries p ≡ closed place (heads_placed self.old.entries) p }
        ensures spare { self.old.spare ≤ self.new.spare }
    {
        if let Some(inside) = &mut self.inside {
            inside.list.close(place);
        }
    }

    /// Moves all rows so many places up.
    pub fn raise(&mut self, by: usize)
        requires few { by ≤ 128 }
        requires low { (p : ℕ) → 128 ≤ p → heads_placed self.old.entries p ≡ settled_heads }
        ensures heads { (p : ℕ) → heads_placed self.new.entries p ≡ raised by (heads_placed self.old.entries) p }
        ensures spare { self.new.spare ≡ self.old.spare }
    {
        if let Some(inside) = &mut self.inside {
            inside.list.raise(by);
        }
    }

    /// Moves all rows so many places down.
    pub fn lower(&mut self, by: usize)
        requires { (p : ℕ) → p < by → heads_placed self.old.entries p ≡ settled_heads }
        ensures heads { (p : ℕ) → heads_placed self.new.entries p ≡ heads_placed self.old.entries (by + p) }
        ensures spare { self.new.spare ≡ self.old.spare }
    {
        if let Some(inside) = &mut self.inside {
            inside.list.lower(by);
        }
    }

    /// The last place before this one whose row is changed.
    pub fn last_before(&self, place: usize) -> Option<usize>
        ensures below { IfSome result (λ p. p < place) }
        ensures between { (p : ℕ) → place_behind result ≤ p → p < place
            → heads_placed self.now.entries p ≡ settled_heads }
    {
        match &self.inside {
            Some(inside) => inside.list.last_before(place),
            None => None,
        }
    }

    /// Whether all rows between two places are settled.
    pub fn are_settled(&self, first: usize, end: usize) -> bool
        ensures { result ≡ true → (p : ℕ) → first ≤ p → p < end → heads_placed self.now.entries p ≡ settled_heads }
    {
        match &self.inside {
            Some(inside) => inside.list.are_settled(first, end),
            None => true,
        }
    }
}

/// A box with room for so many rows.
fn with_room(alloc: Global, rows: usize) -> Result<Box<Inside>, NoMemory>
    ensures entries { IfOk result (λ inside. inside.value.list.entries ≡ []) }
    ensures room { IfOk result (λ inside. rows ≤ inside.value.list.spare) }
{
    let mut list = HeadList::new(alloc);
    list.reserve(rows)?;
    let inside = Inside {
        list,
        chains: Chains::new(alloc),
        count: 0,
    };
    Ok(Box::new(alloc, inside)?)
}
