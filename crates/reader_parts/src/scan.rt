//! The view of an open transaction, read in parts.
//!
//! 1. Memory is taken, readers are split off, all parts are read and all readers join, in this order. So whichever step
//!    is refused memory, no reader stays out.

ghost use Rattle.std.specs.Prelude.{◌≡◌, ◌<◌, IfOk, length, map};
ghost use Rattle.std.specs.List.{AllByRecursion};
ghost use Rattle.std.specs.Vec.{vec_capacity};
ghost use Rattle.graph_model.specs.Rows.{all_rows};
ghost use Rattle.part_scan.specs.Parts.{rows_in};
ghost use Rattle.shared_readers.specs.SharedStore.Passes.{IsIdle, IsOpen, KeepsOpen, account_of, view_in};

use crate::cut::cut_keys;
use crate::join::join_all;
use crate::read::read_all;
use crate::split::split_all;
use graph_model::NoMemory;
use part_scan::RowLists;
use shared_readers::below::{Pass, Store};
use std::sync::Wait;
use std::thread::Threads;

/// Scans the whole view of the open transaction by readers that are made of these passes without a transaction, each in
/// a thread of its own. All passes come back, in their order and as they were. May wait.
pub fn scan_parts<R: Threads + Wait + Sync>(
    rt: &R,
    store: &Store,
    pass: &mut Pass,
    idle: &mut Vec<Pass>,
) -> Result<RowLists, NoMemory>
    requires opened { IsOpen store.now pass.old }
    requires idle { AllByRecursion (IsIdle store.now) idle.old.items }
    requires some { 0 < length idle.old.items }
    ensures kept { KeepsOpen store.now pass.old pass.new }
    ensures idle { AllByRecursion (IsIdle store.now) idle.new.items }
    ensures room { vec_capacity idle.new ≡ vec_capacity idle.old }
    ensures own { map (account_of store.now) idle.new.items ≡ map (account_of store.now) idle.old.items }
    ensures count { IfOk result (λ lists. length lists ≡ length idle.old.items) }
    ensures rows { IfOk result (λ lists. rows_in lists ≡ all_rows (view_in store.now pass.old)) }
{
    // All memory but that of the rows is taken before the first reader is split off.
    let alloc = pass.alloc;
    let ends = cut_keys(alloc, store, idle.len())?;
    let mut lists = Vec::with_capacity(alloc, idle.len())?;
    let mut parts = Vec::with_capacity(alloc, idle.len())?;
    survey(store, pass);
    split_all(alloc, store, pass, idle, ends, &mut parts);
    read_all(rt, store, &pass.cells.hints, &mut parts);
    if join_all(store, pass, parts, idle, &mut lists) {
        return Err(NoMemory);
    }
    Ok(RowLists::from_vec(lists))
}

/// Has the pass note where leaves are, so that its readers need to look for none.
fn survey(store: &Store, pass: &mut Pass)
    requires opened { IsOpen store.now pass.old }
    ensures kept { KeepsOpen store.now pass.old pass.new }
{
    pass.cells.hints.survey(store);
}
