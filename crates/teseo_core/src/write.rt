//! Writes of the open transaction.
//!
//! 1. The rows of a write are found first, and once; all later steps go from there.
//! 2. It is checked before room is made, so a write that is refused moves no row. Room is made before records are
//!    reserved, since rows that move take their records along. Memory comes last before the change, so that where it is
//!    refused nothing has changed.

ghost use Rattle.std.specs.Prelude.{◌≡◌, ℕ, ◌<◌, ◌≤◌, true, IsSome, IfErr, OnOk, OnErr};
ghost use Rattle.graph_model.specs.OwnerCalls.{current};
ghost use Rattle.graph_model.specs.OwnerLaws.{DidWrite};
ghost use Rattle.graph_model.specs.Refused.{IsWithinLimits};
ghost use Rattle.graph_model.specs.Rows.{is_below, end_key};
ghost use Rattle.leaf_rows.specs.LeafStore.Leaves.{room_at};
ghost use Rattle.leaf_rows.specs.Laying.{HasTouchedNone, HaveRoom, HaveRows, KeepsContents, Stays};
ghost use Rattle.leaf_rows.specs.RowWrites.Written.{AreRows, rows_of, touched_keys, written_keys};
ghost use Rattle.undo_chain.specs.declared.touched.Touched.TheVariants.{Never};
ghost use Rattle.leaf_rows.specs.Placing.{MakesRoomOrFrees};
ghost use Rattle.teseo_core.specs.Freeing.{IsFreeBound, RefusesRoom};
ghost use Rattle.teseo_core.specs.Placed.{FullIsExact, PlacesWrite};
ghost use Rattle.teseo_core.specs.Keeping.{KeepsService};
ghost use Rattle.teseo_core.specs.Passes.{Laid, Puts};

use crate::free::free_bound;
use crate::pass::OwnerPass;
use crate::store::{Core, reader_of};
use graph_model::{Key, NoMemory, Refusal, TxnName, Write};
use leaf_rows::{FoundInLeaves, LeafRows};
use txn_manager::RoomRefusal;
use undo_chain::Touched;

impl Core {
    /// Makes room for so many rows in a key's cell, which has too little: spreads the smallest window round it that has
    /// room for them, else splits its leaf, for which a retired one is freed where none is free. A write does so on its
    /// own.
    pub fn make_room(&mut self, key: Key, need: u8) -> Result<(), RoomRefusal>
        requires within { is_below key end_key ≡ true }
        requires some { 1 ≤ need }
        requires few { need ≤ 2 }
        requires short { room_at self.old.rows key < need }
        ensures core { self.new.core ≡ self.old.core }
        ensures service { KeepsService self.old self.new }
        ensures contents { KeepsContents self.old.rows self.new.rows }
        ensures ok { OnOk result (need ≤ room_at self.new.rows key) }
        ensures made { OnOk result ((until : ℕ) × IsFreeBound self.old.core until
            × MakesRoomOrFrees until self.old.rows self.new.rows key need) }
        ensures refused { IfErr result (λ refusal. RefusesRoom self.old key need refusal self.new) }
    {
        self.manager.is_managed();
        let until = free_bound(&self.manager);
        self.rows.make_cell_room_or_free(key, need, until)
    }

    /// Makes a write of the open transaction, or says why it isn't made. Its rows are found first, and once.
    pub(crate) fn make_write(&mut self, write: Write) -> Result<(), Refusal>
        requires current { IsSome (current self.old.core).start }
        requires within { IsWithinLimits write }
        ensures did { DidWrite self.old.core write result self.new.core }
        ensures service { KeepsService self.old self.new }
        ensures places { FullIsExact self.old write result self.new }
    {
        let found = self.find(write);
        self.write_here(write, &found)
    }

    /// Finds the rows of a write for the calls to come.
    fn find(&mut self, write: Write) -> FoundInLeaves
        requires { IsWithinLimits write }
        ensures rows { result.rows ≡ rows_of self.old.core.kind write }
        ensures kept { self.new ≡ self.old }
    {
        self.rows.find(self.kind, write)
    }

    /// Makes a write whose rows are found, or says why it isn't made.
    fn write_here(&mut self, write: Write, found: &FoundInLeaves) -> Result<(), Refusal>
        requires current { IsSome (current self.old.core).start }
        requires within { IsWithinLimits write }
        requires rows { found.now.rows ≡ rows_of self.old.core.kind write }
        ensures did { DidWrite self.old.core write result self.new.core }
        ensures service { KeepsService self.old self.new }
        ensures places { FullIsExact self.old write result self.new }
    {
        self.manager.is_managed();
        let pass = self.selected as usize;
        let reader = reader_of(&self.manager, &self.passes[pass], self.selected);
        let start = reader.start;
        let by = reader.by;
        // Before room is made: a write that is refused moves no row, so it can't slow down others.
        match self.rows.check(self.kind, &reader, write, &found.near) {
            Ok(()) => {}
            Err(refusal) => {
                self.passes[pass].note_refusal(start, write, &refusal);
                return Err(refusal);
            }
        }
        // Below it no open transaction has begun, so leaves that were retired before may be taken again, if this write
        // needs one.
        let until = free_bound(&self.manager);
        let earlier = self.passes[pass].earlier_touches();
        put(
            &mut self.rows,
            &mut self.passes[pass],
            by,
            write,
            found,
            until,
            earlier,
        )
    }
}

/// Makes room for the rows of a write that may be made, and makes it.
fn put(
    rows: &mut LeafRows,
    pass: &mut OwnerPass,
    by: TxnName,
    write: Write,
    found: &FoundInLeaves,
    until: u64,
    earlier: Touched,
) -> Result<(), Refusal>
    requires current { IsSome pass.old.state.start }
    requires rows { AreRows found.now.rows }
    requires ends { HaveRows rows.old (touched_keys found.now.rows) }
    requires never { earlier ≡ Never → HasTouchedNone rows.old by }
    ensures puts { Puts found.now.rows by write until rows.old rows.new pass.old.state pass.new.state result }
    ensures places { PlacesWrite until found.now.rows rows.old rows.new result }
{
    // Before records are reserved: rows that move take their records to other cells, and room in the old ones would be
    // of no use.
    match rows.make_room_or_free(found, until) {
        Ok(()) => {}
        Err(RoomRefusal::Full { leaves }) => {
            // It is kept that the pass was answered `full`: a run has to show why.
            pass.fill();
            return Err(Refusal::Full { leaves });
        }
        Err(RoomRefusal::NoMemory) => return Err(Refusal::NoMemory),
    }
    match lay(rows, pass, by, write, found, earlier) {
        Ok(()) => Ok(()),
        Err(NoMemory) => Err(Refusal::NoMemory),
    }
}

/// Puts a write into its rows and notes it in its pass.
fn lay(
    rows: &mut LeafRows,
    pass: &mut OwnerPass,
    by: TxnName,
    write: Write,
    found: &FoundInLeaves,
    earlier: Touched,
) -> Result<(), NoMemory>
    requires current { IsSome pass.old.state.start }
    requires rows { AreRows found.now.rows }
    requires ends { HaveRows rows.old (touched_keys found.now.rows) }
    requires never { earlier ≡ Never → HasTouchedNone rows.old by }
    requires room { HaveRoom rows.old (written_keys found.now.rows) }
    ensures ok { OnOk result
        (Laid found.now.rows by write rows.old rows.new pass.old.state pass.new.state) }
    ensures err { OnErr result (Stays rows.old rows.new × (pass.new.state ≡ pass.old.state)) }
{
    pass.reserve_write()?;
    rows.lay(by, found, earlier)?;
    pass.note(write);
    Ok(())
}
