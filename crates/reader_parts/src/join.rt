//! Readers of all parts join their pass, which has its transaction as before.
//!
//! 1. All of them join, also where memory ran out in one: a pass with a reader out couldn't end its transaction.
//! 2. Both lists have their room from before the first split, so nothing fails here.

ghost use Rattle.std.specs.Prelude.{◌≡◌, ◌≤◌, ◌+◌, [], false, length, map};
ghost use Rattle.std.specs.List.{AllByRecursion};
ghost use Rattle.std.specs.Vec.{vec_capacity};
ghost use Rattle.graph_model.specs.Rows.{all_rows};
ghost use Rattle.part_scan.specs.Parts.{rows_in};
ghost use Rattle.shared_readers.specs.SharedStore.Passes.{IsIdle, IsOpen, KeepsOpen, account_of, view_in};
ghost use Rattle.reader_parts.specs.Parts.{AreLent, AreRead, accounts_in};

use crate::part::ReaderPart;
use part_scan::RowList;
use shared_readers::below::{Pass, Store};
use shared_readers::join_reader;

/// Joins each reader, and has its pass and its rows in the lists. Answers whether memory ran out in some thread. Takes
/// no memory, and waits for nobody.
pub(crate) fn join_all(
    store: &Store,
    pass: &mut Pass,
    mut parts: Vec<ReaderPart>,
    idle: &mut Vec<Pass>,
    lists: &mut Vec<RowList>,
) -> bool
    requires lent { AreLent store.now pass.old pass.old parts.items }
    requires read { AreRead store.now pass.old parts.items }
    requires idle { (idle.old.items ≡ []) × (length parts.items ≤ vec_capacity idle.old) }
    requires lists { (lists.old.items ≡ []) × (length parts.items ≤ vec_capacity lists.old) }
    ensures kept { KeepsOpen store.now pass.old pass.new }
    ensures idle { AllByRecursion (IsIdle store.now) idle.new.items }
    ensures room { vec_capacity idle.new ≡ vec_capacity idle.old }
    ensures own { map (account_of store.now) idle.new.items ≡ accounts_in store.now parts.items }
    ensures count { length lists.new.items ≡ length parts.items }
    ensures rows { result ≡ false → rows_in lists.new.items ≡ all_rows (view_in store.now pass.old) }
{
    let mut ran_out = false;
    'parts: while !parts.is_empty() {
        let ReaderPart {
            reader,
            from: _,
            until: _,
            rows,
            ran_out: gave_up,
        } = parts.remove(0);
        // In the order in which they were split off, so that each pass is where the caller had it.
        idle.push_reserved(join_reader(store, pass, reader));
        lists.push_reserved(RowList::from_vec(rows));
        ran_out = ran_out | gave_up;
    }
    parts.destroy_empty();
    ran_out
}
