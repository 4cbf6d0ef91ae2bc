//! What a write puts into its rows.
//!
//! 1. Memory for the records of all its rows is taken first, so nothing that was put is taken back for lack of it.
//! 2. Each cell that a write changes then has room for four records, and a write uses one a row.

ghost use Rattle.std.specs.Prelude.{◌≡◌, OnOk, OnErr};
ghost use Rattle.undo_chain.specs.declared.touched.Touched.TheVariants.{Never};
ghost use Rattle.row_writes.specs.Held.{AreHeld, HasTouchedNone, HaveRoom, HaveRows, HaveSpare, Reserves};
ghost use Rattle.row_writes.specs.Laying.{Lays, PutsWritten, TouchesEnds};
ghost use Rattle.row_writes.specs.Written.{AreRows, all_keys, touched_keys, written_keys};

use crate::cells::HeldCells;
use crate::written::FoundRows;
use graph_model::{NoMemory, TxnName};
use undo_chain::Touched;
use version_segment::RowChange;

/// Makes room for the records of the rows that are written.
fn reserve_written<C: HeldCells>(
    cells: &mut C,
    found: &FoundRows<C::Finger>,
) -> Result<(), NoMemory>
    requires { AreHeld (C.rows cells.old) (written_keys found.now.rows) }
    ensures ok { OnOk result (HaveSpare 4 (C.rows cells.new) (written_keys found.now.rows)) }
    ensures reserves { Reserves (C.rows cells.old) (C.rows cells.new) }
    ensures keeps { C.keeps cells.old cells.new }
{
    cells.reserve(found.rows.row, found.near.row)?;
    match found.rows.back {
        Some(back) => cells.reserve(back, found.near.back),
        None => Ok(()),
    }
}

/// Makes room for the records of the rows that are touched.
fn reserve_touched<C: HeldCells>(
    cells: &mut C,
    found: &FoundRows<C::Finger>,
) -> Result<(), NoMemory>
    requires { AreHeld (C.rows cells.old) (touched_keys found.now.rows) }
    ensures ok { OnOk result (HaveSpare 4 (C.rows cells.new) (touched_keys found.now.rows)) }
    ensures reserves { Reserves (C.rows cells.old) (C.rows cells.new) }
    ensures keeps { C.keeps cells.old cells.new }
{
    match found.rows.ends {
        // Only an added edge touches its ends: so that a removal of a vertex is told of it.
        Some(ends) if found.rows.touches => {
            cells.reserve(ends.source, found.near.source)?;
            cells.reserve(ends.target, found.near.target)
        }
        _ => Ok(()),
    }
}

/// Puts a pair in front of each row that is written.
fn put_written<C: HeldCells>(cells: &mut C, by: TxnName, found: &FoundRows<C::Finger>)
    requires rows { AreRows found.now.rows }
    requires held { AreHeld (C.rows cells.old) (written_keys found.now.rows) }
    requires spare { HaveSpare 2 (C.rows cells.old) (written_keys found.now.rows) }
    requires room { HaveRoom (C.rows cells.old) (written_keys found.now.rows) }
    ensures puts { PutsWritten by found.now.rows (C.rows cells.old) (C.rows cells.new) }
    ensures keeps { C.keeps cells.old cells.new }
{
    cells.keys_lie_in_cells();
    let change = RowChange::Write {
        value: found.rows.value,
    };
    cells.change(found.rows.row, found.near.row, by, change);
    if let Some(back) = found.rows.back {
        cells.change(back, found.near.back, by, change);
    }
}

/// Notes at the ends of an edge that is added who adds it.
fn touch_ends<C: HeldCells>(
    cells: &mut C,
    by: TxnName,
    found: &FoundRows<C::Finger>,
    earlier: Touched,
)
    requires rows { AreRows found.now.rows }
    requires held { AreHeld (C.rows cells.old) (touched_keys found.now.rows) }
    requires ends { HaveRows (C.rows cells.old) (touched_keys found.now.rows) }
    requires never { earlier ≡ Never → HasTouchedNone (C.rows cells.old) by }
    requires spare { HaveSpare 4 (C.rows cells.old) (touched_keys found.now.rows) }
    ensures touches { TouchesEnds by found.now.rows (C.rows cells.old) (C.rows cells.new) }
    ensures keeps { C.keeps cells.old cells.new }
{
    match found.rows.ends {
        Some(ends) if found.rows.touches => {
            let change = RowChange::Touch { earlier };
            cells.change(ends.source, found.near.source, by, change);
            cells.change(ends.target, found.near.target, by, change);
        }
        _ => {}
    }
}

/// Puts a write into its rows, for which there is room.
pub fn lay<C: HeldCells>(
    cells: &mut C,
    by: TxnName,
    found: &FoundRows<C::Finger>,
    earlier: Touched,
) -> Result<(), NoMemory>
    requires rows { AreRows found.now.rows }
    requires held { AreHeld (C.rows cells.old) (all_keys found.now.rows) }
    requires ends { HaveRows (C.rows cells.old) (touched_keys found.now.rows) }
    requires never { earlier ≡ Never → HasTouchedNone (C.rows cells.old) by }
    requires room { HaveRoom (C.rows cells.old) (written_keys found.now.rows) }
    ensures ok { OnOk result (Lays by found.now.rows (C.rows cells.old) (C.rows cells.new)) }
    ensures err { OnErr result (Reserves (C.rows cells.old) (C.rows cells.new)) }
    ensures keeps { C.keeps cells.old cells.new }
{
    reserve_written(cells, found)?;
    reserve_touched(cells, found)?;
    touch_ends(cells, by, found, earlier);
    put_written(cells, by, found);
    Ok(())
}
