//! Readers of all parts are split off a pass.
//!
//! 1. Each part begins where the one before ends, the first at the least key, and the last one ends at the end of all
//!    keys: each row is in one part.

ghost use Rattle.std.specs.Prelude.{◌≡◌, ◌≤◌, ◌+◌, [], false, length, map};
ghost use Rattle.std.specs.List.{AllByRecursion};
ghost use Rattle.std.specs.Vec.{vec_capacity};
ghost use Rattle.graph_model.specs.Rows.{end_key, first_key, is_below};
ghost use Rattle.shared_readers.specs.Readers.{IsLending, Lends, own_account};
ghost use Rattle.shared_readers.specs.SharedStore.Passes.{IsIdle, IsOpen, account_of, view_in};
ghost use Rattle.reader_parts.specs.Cuts.{AreEnds};
ghost use Rattle.reader_parts.specs.Parts.{AreLent, AreUnread, IsUnread, accounts_in};

use crate::part::ReaderPart;
use graph_model::Key;
use shared_readers::below::{Pass, Store};
use shared_readers::split_reader;
use std::alloc::Global;

/// Makes a reader of each pass, with the part that ends at the key of its place. Takes no memory, and waits for nobody.
pub(crate) fn split_all(
    alloc: Global,
    store: &Store,
    pass: &mut Pass,
    idle: &mut Vec<Pass>,
    mut ends: Vec<Key>,
    parts: &mut Vec<ReaderPart>,
)
    requires opened { IsOpen store.now pass.old }
    requires idle { AllByRecursion (IsIdle store.now) idle.old.items }
    requires count { length ends.items ≡ length idle.old.items }
    requires ends { AreEnds first_key end_key ends.items }
    requires room { (parts.old.items ≡ []) × (length idle.old.items ≤ vec_capacity parts.old) }
    ensures lent { AreLent store.now pass.old pass.new parts.new.items }
    ensures unread { AreUnread store.now pass.old parts.new.items }
    ensures count { length parts.new.items ≡ length idle.old.items }
    ensures own { accounts_in store.now parts.new.items ≡ map (account_of store.now) idle.old.items }
    ensures idle { (idle.new.items ≡ []) × (vec_capacity idle.new ≡ vec_capacity idle.old) }
{
    let mut from = Key::of_vertex(0);
    'parts: while !idle.is_empty() {
        let to = idle.remove(0);
        let until = ends.remove(0);
        parts.push_reserved(split_one(alloc, store, pass, to, from, until));
        from = until;
    }
}

/// A reader made of a pass without a transaction, with its part.
fn split_one(
    alloc: Global,
    store: &Store,
    pass: &mut Pass,
    to: Pass,
    from: Key,
    until: Key,
) -> ReaderPart
    requires lending { IsLending store.now pass.old }
    requires idle { IsIdle store.now to }
    requires ordered { is_below until from ≡ false }
    ensures lends { Lends store.now pass.old pass.new }
    ensures unread { IsUnread store.now pass.old.seats.number (view_in store.now pass.old) result }
    ensures own { own_account store.now result.reader ≡ account_of store.now to }
    ensures from { result.from ≡ from }
    ensures until { result.until ≡ until }
{
    ReaderPart {
        reader: split_reader(store, pass, to),
        from,
        until,
        rows: Vec::new(alloc),
        ran_out: false,
    }
}
