//! Passes without a transaction, which the workers of a store share.
//!
//! 1. They are made readers of an open transaction for as long as one scan takes, and have no transaction between two
//!    scans. So they never make a commit, and come back with the accounts with which they came.

ghost use Rattle.std.specs.Prelude.{◌≡◌, ◌<◌, ◌≤◌, true, Some, IfOk, length};
ghost use Rattle.graph_model.specs.Rows.{all_rows};
ghost use Rattle.part_scan.specs.Parts.{rows_in};
ghost use Rattle.worker_calls.specs.SharedStore.Passes.{IsOpen, KeepsOpen, view_in};
ghost use Rattle.rebalance_service.specs.Spare.{AreSpare, AreSpareOf};

use crate::worker::Home;
use graph_model::NoMemory;
use part_scan::RowLists;
use std::marker::PhantomData;
use std::sync::Wait;
use std::thread::Threads;
use worker_calls::below::{Pass, Store, scan_parts};
use worker_calls::read_alone;

/// Passes of the store of `H`, none of which has a transaction.
pub struct IdlePasses<H: Home> {
    passes: Vec<Pass>,
    of: PhantomData<H>,
    pub ghost spare: { ∥ AreSpareOf H.home H.spare passes.items ∥₁ },
}

impl<H: Home> IdlePasses<H> {
    /// Has these passes lent to whoever scans. Takes no memory.
    pub fn new(store: &Store, passes: Vec<Pass>) -> IdlePasses<H>
        requires home { H.home ≡ Some store.now }
        requires spare { AreSpare store.now H.spare passes.items }
    {
        IdlePasses {
            passes,
            of: PhantomData,
        }
    }

    /// All of them, in their order and as they were. Takes no memory.
    pub fn into_passes(self, store: &Store) -> Vec<Pass>
        requires home { H.home ≡ Some store.now }
        ensures spare { AreSpare store.now H.spare result.items }
    {
        let IdlePasses { passes, of: _ } = self;
        passes
    }

    /// Reads all rows that the open transaction of a pass sees, by as many readers as there are passes, into a list
    /// each. Where there are none, or more than lists are asked for, the pass reads alone. May wait.
    pub(crate) fn read<R: Threads + Wait + Sync>(
        &mut self,
        rt: &R,
        store: &Store,
        pass: &mut Pass,
        most: u32,
    ) -> Result<RowLists, NoMemory>
        requires home { H.home ≡ Some store.now }
        requires opened { IsOpen store.now pass.old }
        requires some { 0 < most }
        ensures kept { KeepsOpen store.now pass.old pass.new }
        ensures few { IfOk result (λ lists. length lists ≤ most) }
        ensures rows { IfOk result (λ lists. rows_in lists ≡ all_rows (view_in store.now pass.old)) }
    {
        if !self.serve(most) {
            return read_alone(rt, store, pass);
        }
        scan_parts(rt, store, pass, &mut self.passes)
    }

    /// Whether there are some, and no more than this.
    fn serve(&self, most: u32) -> bool
        ensures { result ≡ true → (0 < length self.now.passes.items) × (length self.now.passes.items ≤ most) }
    {
        !self.passes.is_empty() && self.passes.len() <= most as usize
    }
}
