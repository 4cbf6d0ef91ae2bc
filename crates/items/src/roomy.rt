//! A list that knows how much room it has.
//!
//! 1. Room is made while nothing has changed yet; a push within it takes none, so a commit can't fail half way.

ghost use Rattle.std.specs.Prelude.{◌≡◌, ◌==◌, ◌+◌, ◌^◌, ◌<◌, ◌≤◌, [], ◌∷◌, ◌++◌, length, IsSome, IfSome, IfNone, OnOk, OnErr, ◌↔◌};

use crate::list::Items;
use crate::memory::NoMemory;
use std::alloc::Global;
use std::marker::Model;

/// Items in order, with the number of those that may still be put at the end with no memory taken.
#[derive(Drop)]
pub struct RoomyItems<T> {
    items: Vec<T>,
}

impl<T> Model for RoomyItems<T> {
    ghost use Rattle.std.specs.Prelude.{◌-◌};
    ghost use Rattle.std.specs.Vec.{vec_capacity, vec_len};
    ghost use Rattle.items.specs.Room.{WithRoom};

    ghost Value = { WithRoom T };

    ghost view = { λ list. record { items = list.items.items; spare = vec_capacity list.items - vec_len list.items } };
}

impl<T> RoomyItems<T> {
    /// No items. Takes no memory.
    pub fn new(alloc: Global) -> RoomyItems<T>
        ensures { result.items ≡ [] }
    {
        RoomyItems {
            items: Vec::new(alloc),
        }
    }

    /// The items of a list, with the room that it has. Takes no memory.
    pub fn from_items(list: Items<T>) -> RoomyItems<T>
        ensures { result.items ≡ list }
    {
        RoomyItems {
            items: list.into_vec(),
        }
    }

    /// The items as a list that only grows with memory. Takes no memory.
    pub fn into_items(self) -> Items<T>
        ensures { result ≡ self.items }
    {
        Items::from_vec(self.items)
    }

    pub fn len(&self) -> usize
        ensures len { result ≡ length self.now.items }
        ensures small { result < 2 ^ 63 }
    {
        self.items.len()
    }

    pub fn is_empty(&self) -> bool
        ensures { result ≡ (length self.now.items == 0) }
    {
        self.items.is_empty()
    }

    /// Lends the items.
    pub fn as_slice(&self) -> &[T]
        ensures { result.now ≡ self.now.items }
    {
        self.items.as_slice()
    }

    /// Makes room for so many more items: at first for no more than those, so that a list of one item takes the memory
    /// of one, and later for some ahead.
    pub fn reserve(&mut self, room: usize) -> Result<(), NoMemory>
        ensures kept { self.new.items ≡ self.old.items }
        ensures ok { OnOk result (room ≤ self.new.spare) }
        ensures spare { self.old.spare ≤ self.new.spare }
        ensures err { OnErr result (self.new ≡ self.old) }
    {
        if self.items.is_empty() {
            self.items.reserve_exact(room)?;
        } else {
            self.items.reserve(room)?;
        }
        Ok(())
    }

    /// Takes the last item away. Takes no memory, and the room for it is left.
    pub fn pop(&mut self) -> Option<T>
        ensures last { IfSome result (λ item. self.old.items ≡ self.new.items ++ item ∷ []) }
        ensures none { IfNone result ((self.old.items ≡ []) × (self.new.items ≡ [])) }
        ensures spare { self.old.spare ≤ self.new.spare }
    {
        self.items.pop()
    }
}

impl<T: Drop> RoomyItems<T> {
    /// Puts an item at the end, where there is room for it. Takes no memory.
    pub fn push_within(&mut self, item: T)
        requires { 0 < self.old.spare }
        ensures put { self.new.items ≡ self.old.items ++ item ∷ [] }
        ensures spare { self.old.spare ≤ self.new.spare + 1 }
    {
        match self.items.push(item) {
            Ok(()) => {}
            Err(_) => unreachable!(),
        }
    }
}

#[cfg(test)]
mod tests {
    use super::*;
    use std::test::Fail;

    #[test]
    fn lists_grow_with_ample_memory(rt: HostRuntime) -> Result<(), Fail> {
        let alloc = rt.alloc();
        let mut plain = Items::new(alloc);
        plain.push(7)?;
        plain.push(8)?;
        assert_eq!(rt;
            plain.as_slice(),
            &[7, 8][..],
            "a list that grows as it can"
        );
        let mut roomy = RoomyItems::new(alloc);
        roomy.reserve(2)?;
        roomy.push_within(7);
        roomy.push_within(8);
        assert_eq!(rt; roomy.as_slice(), &[7, 8][..], "a list that has its room");
        Ok(())
    }
}
