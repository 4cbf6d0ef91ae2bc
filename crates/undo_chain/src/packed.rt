//! Undo records as they lie in memory.
//!
//! 1. A slot has 32 bytes, two to a line of the cache, whether it has a record or names the next vacant slot.
//! 2. What a slot has no use for keeps old bytes; `content` says which parts mean something.

ghost use Rattle.std.specs.Prelude.{◌≡◌, ◌≤◌, false, None, Some, IsSome, IsSomeAnd};
ghost use Rattle.undo_chain.specs.declared.link.TheConstants.{MOST_RECORDS};
ghost use Rattle.undo_chain.specs.declared.packed.UndoSlot.TheVariants.{Vacant, Occupied};
ghost use Rattle.undo_chain.specs.Packed.{IsNameable, record_in};
ghost use Rattle.undo_chain.specs.Walks.{marked, with_stamp};

use crate::link::Link;
use crate::undo::Undo;
use graph_model::TxnName;
use std::marker::Model;

/// What stands in a slot: the place of the next vacant one, or a record.
pub enum UndoSlot {
    /// It has no record.
    Vacant(usize),
    /// It has this one.
    Occupied(Undo),
}

/// Whether a slot has a record, and whether that has a stamp, or all from it on.
#[derive(Clone, Copy)]
pub enum SlotContent {
    /// It is vacant.
    Nothing,
    /// The writer's word is asked.
    Unstamped,
    /// The stamp stands here.
    Stamped,
    /// Here and in all that follow.
    AllStamped,
}

/// A slot of 32 bytes, whether it has a record or not. What has no meaning in it isn't read.
#[derive(Drop)]
pub(crate) struct PackedSlot {
    /// The writer.
    by: TxnName,
    /// Its stamp, where `content` says that there is one.
    stamp: u64,
    /// The value before, where `has_older` says that there was one.
    older: u64,
    /// The next record of the list, or the next vacant slot.
    link: Link,
    /// What the others mean.
    content: SlotContent,
    /// Whether the row had a value before.
    has_older: bool,
}

impl Model for PackedSlot {
    ghost use Rattle.undo_chain.specs.declared.packed.UndoSlot.{UndoSlot};
    ghost use Rattle.undo_chain.specs.Packed.{part, slot_of};

    ghost Value = { UndoSlot };

    ghost view = { λ p. slot_of p.content p.by p.stamp (part p.has_older p.older) p.link };
}

impl PackedSlot {
    /// A slot with a record.
    pub(crate) fn occupied(undo: Undo) -> PackedSlot
        requires link { IsNameable undo.next }
        requires fresh { undo.all_stamped ≡ false }
        ensures { result ≡ Occupied undo }
    {
        PackedSlot {
            by: undo.by,
            stamp: undo.stamp.unwrap_or(0),
            // Whether it means something is told by `has_older`: an `Option` would take eight bytes more.
            older: undo.older.unwrap_or(0),
            link: Link::new(undo.next),
            content: match undo.stamp {
                Some(_) => SlotContent::Stamped,
                None => SlotContent::Unstamped,
            },
            has_older: undo.older.is_some(),
        }
    }

    /// A slot without one, which names the next such slot.
    pub(crate) fn vacant(next: usize) -> PackedSlot
        requires { next ≤ MOST_RECORDS }
        ensures { result ≡ Vacant next }
    {
        PackedSlot {
            by: TxnName { job: 0, number: 0 },
            stamp: 0,
            older: 0,
            link: Link::new(Some(next)),
            content: SlotContent::Nothing,
            has_older: false,
        }
    }

    /// The record.
    pub(crate) fn undo(&self) -> Undo
        requires { IsSome (record_in self.now) }
        ensures { record_in self.now ≡ Some result }
    {
        Undo {
            by: self.by,
            stamp: match self.content {
                SlotContent::Stamped | SlotContent::AllStamped => Some(self.stamp),
                _ => None,
            },
            older: self.has_older.then_some(self.older),
            next: self.link.key(),
            all_stamped: matches!(self.content, SlotContent::AllStamped),
        }
    }

    /// A number of the slot's, whatever stands in it, for whoever only has to read it.
    pub(crate) fn any_number(&self) -> u64 {
        self.stamp
    }

    /// What a slot without a record names.
    pub(crate) fn next_vacant(&self) -> usize
        requires { record_in self.now ≡ None }
        ensures { self.now ≡ Vacant result }
    {
        self.link.key().unwrap_or(0)
    }

    /// Gives the record this stamp.
    pub(crate) fn set_stamp(&mut self, stamp: u64)
        requires { IsSome (record_in self.old) }
        ensures { IsSomeAnd (record_in self.old) (λ undo. self.new ≡ Occupied (with_stamp stamp undo)) }
    {
        self.stamp = stamp;
        self.content = SlotContent::Stamped;
    }

    /// Says of the record that from it on all have stamps.
    pub(crate) fn set_all_stamped(&mut self)
        requires { IsSomeAnd (record_in self.old) (λ undo. IsSome undo.stamp) }
        ensures { IsSomeAnd (record_in self.old) (λ undo. self.new ≡ Occupied (marked undo)) }
    {
        self.content = SlotContent::AllStamped;
    }
}
