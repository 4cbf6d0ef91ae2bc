//! The worker as an engine whose view is scanned by several readers at once.
//!
//! 1. With readers the lists are those of the readers, and without them all rows are in the first one. There are as many
//!    as were asked for: the others are empty.

ghost use Rattle.std.specs.Prelude.{◌≡◌, ◌<◌, ◌≤◌, ℕ, Some, IsSome, IfOk, length};
ghost use Rattle.graph_model.specs.AccountSteps.{ReadsBy, view_of};
ghost use Rattle.graph_model.specs.Rows.{all_rows};
ghost use Rattle.part_scan.specs.Parts.{rows_in};
ghost use Rattle.worker_calls.specs.SharedStore.Passes.{IsOpen, KeepsOpen, account_of, view_in};
ghost use Rattle.worker_calls.specs.Ready.{HasSeenLegal, IsReady};

use crate::readers::Readers;
use crate::worker::{Home, Worker};
use graph_model::NoMemory;
use part_scan::{PartScan, RowLists};
use std::sync::Wait;
use std::thread::Threads;
use worker_calls::below::{Pass, Store};
use worker_calls::{filled_up, read_alone};

impl<'a, R: Threads + Wait + Sync, H: Home> PartScan for Worker<'a, R, H> {
    fn scan_parts(&mut self, parts: u32) -> Result<RowLists, NoMemory> {
        match &self.readers {
            Some(readers) => scan_by(readers, self.store, &mut self.pass, parts),
            None => scan_alone(self.rt, self.store, &mut self.pass, parts),
        }
    }
}

/// Scans by readers.
fn scan_by<R: Threads + Wait + Sync, H: Home>(
    readers: &Readers<'_, R, H>,
    store: &Store,
    pass: &mut Pass,
    parts: u32,
) -> Result<RowLists, NoMemory>
    requires home { ∥ H.home ≡ Some store.now ∥₁ }
    requires ready { ∥ IsReady store.now pass.old ∥₁ }
    requires current { IsSome (account_of store.now pass.old).start }
    requires parts { 0 < parts }
    ensures ready { ∥ IsReady store.now pass.new ∥₁ }
    ensures legal { HasSeenLegal (account_of store.now pass.new) }
    ensures reads { ReadsBy (account_of store.now pass.old) (account_of store.now pass.new) }
    ensures count { IfOk result (λ lists. length lists ≡ parts) }
    ensures rows { IfOk result (λ lists. (start : ℕ) → (account_of store.now pass.old).start ≡ Some start
        → rows_in lists ≡ all_rows (view_of (account_of store.now pass.old) start)) }
{
    lists_by(readers, store, pass, parts)
}

/// So many lists, of which the readers give some.
fn lists_by<R: Threads + Wait + Sync, H: Home>(
    readers: &Readers<'_, R, H>,
    store: &Store,
    pass: &mut Pass,
    parts: u32,
) -> Result<RowLists, NoMemory>
    requires home { H.home ≡ Some store.now }
    requires opened { IsOpen store.now pass.old }
    requires some { 0 < parts }
    ensures kept { KeepsOpen store.now pass.old pass.new }
    ensures count { IfOk result (λ lists. length lists ≡ parts) }
    ensures rows { IfOk result (λ lists. rows_in lists ≡ all_rows (view_in store.now pass.old)) }
{
    let alloc = pass.alloc;
    let lists = readers.read(store, pass, parts)?;
    filled_up(alloc, lists, parts)
}

/// Scans by the pass alone.
fn scan_alone(
    rt: &impl Wait,
    store: &Store,
    pass: &mut Pass,
    parts: u32,
) -> Result<RowLists, NoMemory>
    requires ready { ∥ IsReady store.now pass.old ∥₁ }
    requires current { IsSome (account_of store.now pass.old).start }
    requires parts { 0 < parts }
    ensures ready { ∥ IsReady store.now pass.new ∥₁ }
    ensures legal { HasSeenLegal (account_of store.now pass.new) }
    ensures reads { ReadsBy (account_of store.now pass.old) (account_of store.now pass.new) }
    ensures count { IfOk result (λ lists. length lists ≡ parts) }
    ensures rows { IfOk result (λ lists. (start : ℕ) → (account_of store.now pass.old).start ≡ Some start
        → rows_in lists ≡ all_rows (view_of (account_of store.now pass.old) start)) }
{
    lists_alone(rt, store, pass, parts)
}

/// So many lists, of which the first one has all rows.
fn lists_alone(
    rt: &impl Wait,
    store: &Store,
    pass: &mut Pass,
    parts: u32,
) -> Result<RowLists, NoMemory>
    requires opened { IsOpen store.now pass.old }
    requires some { 0 < parts }
    ensures kept { KeepsOpen store.now pass.old pass.new }
    ensures count { IfOk result (λ lists. length lists ≡ parts) }
    ensures rows { IfOk result (λ lists. rows_in lists ≡ all_rows (view_in store.now pass.old)) }
{
    let alloc = pass.alloc;
    let lists = read_alone(rt, store, pass)?;
    filled_up(alloc, lists, parts)
}
