//! A load: all writes of a graph at once, as the first transaction.
//!
//! 1. Rows are sorted and leaves filled with them, where write by write each would cost two searches in memory that no
//!    cache has.

ghost use Rattle.std.specs.Prelude.{◌≡◌, [], IsSome, IfOk, IfErr, OnOk, OnErr};
ghost use Rattle.graph_model.specs.Graph.{apply_all, empty_graph};
ghost use Rattle.graph_model.specs.Inserted.{inserted};
ghost use Rattle.graph_model.specs.Loading.{IsNew, IsLoad, IsLoadRefusal, loaded};
ghost use Rattle.graph_model.specs.OwnerCalls.{Core as OwnerCore};
ghost use Rattle.txn_manager.specs.Manager.{ended, open_start};
ghost use Rattle.leaf_rows.specs.Loaded.{AreLoaded, IsLegalLoad};
ghost use Rattle.teseo_core.specs.Loads.{HasBegunLoad, IsTooMuch, journal_behind, loading};

use crate::store::{Core, name_of};
use graph_model::{BeginRefusal, Kind, LoadRefusal, TxnName, Write, Writes};
use leaf_rows::LeafRows;
use load_order::{sorted_halves, sorted_rows};
use std::alloc::Global;
use std::thread::Threads;
use txn_manager::{RoomRefusal, TxnManager};

impl Core {
    /// Makes the writes of a load as the engine's first transaction, and commits it: what `load` of `LoadEngine` does.
    pub(crate) fn load_here(&mut self, load: Writes) -> Result<(), LoadRefusal>
        requires new { IsNew self.old.core }
        requires load { IsLoad self.old.core load }
        ensures loaded { OnOk result (self.new.core ≡ loaded self.old.core load) }
        ensures refused { IfErr result (IsLoadRefusal self.old.core load) }
        ensures err { OnErr result (self.new.core ≡ self.old.core) }
    {
        let rows = load_rows(self.alloc, self.leaves, self.kind, load.as_slice())?;
        self.load_filled(load, rows)
    }

    /// The same with rows that several threads sort, and lay in leaves.
    pub fn load_by_threads<R: Threads + Sync>(
        &mut self,
        rt: &R,
        load: Writes,
    ) -> Result<(), LoadRefusal>
        requires new { IsNew self.old.core }
        requires load { IsLoad self.old.core load }
        ensures loaded { OnOk result (self.new.core ≡ loaded self.old.core load) }
        ensures refused { IfErr result (IsLoadRefusal self.old.core load) }
        ensures err { OnErr result (self.new.core ≡ self.old.core) }
    {
        let rows = rows_by_threads(rt, self.alloc, self.leaves, self.kind, load.as_slice())?;
        self.load_filled(load, rows)
    }

    /// The same by the rows that the writes leave. A transaction that has begun can't fail.
    fn load_filled(&mut self, load: Writes, rows: LeafRows) -> Result<(), LoadRefusal>
        requires new { IsNew self.old.core }
        requires load { IsLoad self.old.core load }
        requires rows { AreLoaded self.old.core.leaves (apply_all self.old.core.kind empty_graph load)
            (inserted self.old.core.kind load) rows }
        ensures loaded { OnOk result (self.new.core ≡ loaded self.old.core load) }
        ensures refused { IfErr result (IsLoadRefusal self.old.core load) }
        ensures err { OnErr result (self.new.core ≡ self.old.core) }
    {
        match self.begin_here() {
            Ok(_) => {}
            Err(BeginRefusal::TxnsUsed) => unreachable!(),
            Err(BeginRefusal::NoMemory) => return Err(LoadRefusal::NoMemory),
        }
        self.take_load(rows, load);
        Ok(())
    }

    /// Takes the rows of a load for its own, whose transaction is open and has made no write, and commits it. Takes no
    /// memory.
    fn take_load(&mut self, rows: LeafRows, load: Writes)
        requires begun { HasBegunLoad load self.old.core }
        requires rows { AreLoaded self.old.core.leaves (apply_all self.old.core.kind empty_graph load)
            (inserted self.old.core.kind load) rows }
        ensures { (core : OwnerCore) → IsNew core → self.old.core ≡ loading core [] → self.new.core ≡ loaded core load }
    {
        let by = name_of(&self.passes[self.selected as usize], self.selected);
        self.passes[self.selected as usize].note_load(&load);
        end_load(&mut self.manager, by, load);
        self.rows = rows;
    }
}

/// Ends the transaction of a load: with a commit, where it wrote something. Takes no memory.
fn end_load(manager: &mut TxnManager, by: TxnName, load: Writes)
    requires { IsSome (open_start manager.old by) }
    ensures passes { manager.new.passes ≡ (ended manager.old by).passes }
    ensures allowed { manager.new.allowed ≡ manager.old.allowed }
    ensures journal { manager.new.journal ≡ journal_behind manager.old by load }
{
    if load.is_empty() {
        manager.end_txn(by);
    } else {
        manager.push_commit(by, load);
    }
}

/// The rows that the writes of a load leave.
fn load_rows(
    alloc: Global,
    leaves: u32,
    kind: Kind,
    load: &[Write],
) -> Result<LeafRows, LoadRefusal>
    requires { IsLegalLoad leaves kind load.now }
    ensures ok { IfOk result (λ rows.
        AreLoaded leaves (apply_all kind empty_graph load.now) (inserted kind load.now) rows) }
    ensures refused { IfErr result (λ refusal. IsTooMuch leaves (inserted kind load.now) refusal) }
{
    let sorted = sorted_rows(alloc, kind, load)?;
    match LeafRows::filled(alloc, leaves, kind, load, sorted.as_slice()) {
        Ok(rows) => Ok(rows),
        Err(RoomRefusal::Full { leaves }) => Err(LoadRefusal::Full { leaves }),
        Err(RoomRefusal::NoMemory) => Err(LoadRefusal::NoMemory),
    }
}

/// The same by several threads. The rows that the writes insert are let go of as they are laid.
fn rows_by_threads<R: Threads + Sync>(
    rt: &R,
    alloc: Global,
    leaves: u32,
    kind: Kind,
    load: &[Write],
) -> Result<LeafRows, LoadRefusal>
    requires legal { IsLegalLoad leaves kind load.now }
    ensures ok { IfOk result (λ rows.
        AreLoaded leaves (apply_all kind empty_graph load.now) (inserted kind load.now) rows) }
    ensures refused { IfErr result (λ refusal. IsTooMuch leaves (inserted kind load.now) refusal) }
{
    let (front, back) = sorted_halves(rt, alloc, kind, load)?;
    match LeafRows::filled_by_threads(rt, alloc, leaves, kind, load, front, back) {
        Ok(rows) => Ok(rows),
        Err(RoomRefusal::Full { leaves }) => Err(LoadRefusal::Full { leaves }),
        Err(RoomRefusal::NoMemory) => Err(LoadRefusal::NoMemory),
    }
}
