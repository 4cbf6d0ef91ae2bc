//! What a worker reads by that has readers.
//!
//! 1. The readers work in threads, which share the worker's handle. A method of a trait has no evidence of the bounds of
//!    its impl, so that threads may share the handle is kept as a fact beside it.

ghost use Rattle.std.specs.Prelude.{◌≡◌, ◌<◌, ◌≤◌, Some, IfOk, length};
ghost use Rattle.graph_model.specs.Rows.{all_rows};
ghost use Rattle.part_scan.specs.Parts.{rows_in};
ghost use Rattle.worker_calls.specs.SharedStore.Passes.{IsOpen, KeepsOpen, view_in};

use crate::idle_passes::IdlePasses;
use crate::worker::Home;
use graph_model::NoMemory;
use part_scan::RowLists;
use std::sync::{Mutex, Wait};
use std::thread::Threads;
use worker_calls::below::{Pass, Store};

/// A type of which a value can keep the fact that threads may share it. Each type is one.
pub trait SharedHandle {
    /// That threads may share it.
    ghost is_shared: { Type 0 };
}

impl<R> SharedHandle for R {
    // By what it shows to each thread, and not by `IsSync`: that would name the whole type, and two names of one type
    // wouldn't be found equal.
    ghost use denote.Param.Send.{SyncAt};

    ghost is_shared = { (handle : R) → SyncAt R.row handle };
}

/// The passes that the workers of a store share, with a handle that threads may share.
#[derive(Drop)]
pub struct Readers<'a, R: Wait + SharedHandle, H: Home> {
    rt: &'a R,
    /// What lies under the lock is seen by no clause of an engine. It says so itself: its passes are of the store, have
    /// no transaction and have made nothing. It costs a scan one lock, and others wait meanwhile who scan by parts too.
    pool: &'a Mutex<IdlePasses<H>>,
    ghost shared: { ∥ R.is_shared ∥₁ },
}

impl<'a, R: Threads + Wait + Sync, H: Home> Readers<'a, R, H> {
    pub(crate) fn new(rt: &'a R, pool: &'a Mutex<IdlePasses<H>>) -> Readers<'a, R, H> {
        Readers { rt, pool }
    }

    /// Reads all rows that the open transaction of a pass sees, into so many lists at most. May wait.
    pub(crate) fn read(
        &self,
        store: &Store,
        pass: &mut Pass,
        most: u32,
    ) -> Result<RowLists, NoMemory>
        requires home { H.home ≡ Some store.now }
        requires opened { IsOpen store.now pass.old }
        requires some { 0 < most }
        ensures kept { KeepsOpen store.now pass.old pass.new }
        ensures few { IfOk result (λ lists. length lists ≤ most) }
        ensures rows { IfOk result (λ lists. rows_in lists ≡ all_rows (view_in store.now pass.old)) }
    {
        self.pool.lock(self.rt).read(self.rt, store, pass, most)
    }
}
