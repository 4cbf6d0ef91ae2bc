//! Where a worker's scan has come to, from one step to the next.
//!
//! A scan that has met records in some cells settles these after its step, where nobody needs the records any more: the
//! next scan finds their rows settled, and takes no latch.

ghost use Rattle.graph_model.specs.AccountSteps.{ReadsBy};
ghost use Rattle.reader_parts.specs.SharedStore.Passes.{account_of};
ghost use Rattle.worker_calls.specs.Ready.{HasSeenLegal, IsReady};

use pass_scans::settle_swept;
use reader_parts::below::{Pass, Store};
use std::sync::Wait;

/// After a step none of whose cells could be settled so many are left out: another transaction is likely to hold them
/// all back.
const LEFT_OUT: u32 = 64;

/// So many cells are settled after a step. The 64 rows of a step come from two or three.
const MOST_MET: usize = 4;

/// Cells in which one step of a scan has met records that a sweep may take.
#[derive(Clone, Copy, Debug, PartialEq, Eq)]
struct MetCells {
    /// The first ones, as many as were met.
    cells: [u32; MOST_MET],
    count: u32,
}

impl MetCells {
    fn none() -> MetCells {
        MetCells {
            cells: [0; MOST_MET],
            count: 0,
        }
    }

    fn as_slice(&self) -> &[u32] {
        let (met, _) = self.cells.split_at((self.count as usize).min(MOST_MET));
        met
    }

    /// Notes one more, if there is room. A portion that is read again meets the same cells again.
    fn note(&mut self, cell: u32) {
        let place = self.count as usize;
        if place < MOST_MET && !self.as_slice().contains(&cell) {
            self.cells[place] = cell;
            self.count += 1;
        }
    }
}

/// Where a worker's last scan has come to. Kept: the cell in which its last step ended, which is likely to have the
/// next key; cells in which that step has met records that nobody may need any more; and how many of those are left out.
/// All of it may be wrong, since rows move, and the next scan may begin elsewhere. That is harmless: a cell's fence keys
/// tell whether it is the key's, a hint is asked where it isn't, and a cell that settles changes no view. It costs 32
/// bytes, and a look at another cell's fence keys where a scan begins elsewhere. It spares each step of a scan the search
/// among the hints.
#[derive(Clone, Copy, Debug, PartialEq, Eq)]
pub struct ScanPlace {
    /// In which its last step has ended.
    pub(crate) cell: u32,
    /// In which that step has met records.
    met: MetCells,
    /// How many such cells are still left out.
    left_out: u32,
}

impl ScanPlace {
    /// No cell has this number, and none was met.
    pub fn nowhere() -> ScanPlace {
        ScanPlace {
            cell: u32::MAX,
            met: MetCells::none(),
            left_out: 0,
        }
    }

    /// The cell with the next number.
    pub(crate) fn go_on(&mut self) {
        self.cell = self.cell.saturating_add(1);
    }

    /// Records were met in this cell.
    pub(crate) fn note_met(&mut self, cell: u32, may_settle: bool) {
        if may_settle {
            self.met.note(cell);
        }
    }

    /// The cells that are to be settled. What the last step has met is used up, whatever comes of it.
    fn take_met(&mut self) -> Option<MetCells> {
        let met = self.met;
        if met.count == 0 {
            return None;
        }
        self.met = MetCells::none();
        if self.left_out > 0 {
            // After cells that kept their records somebody else is likely to hold back those of the next ones.
            self.left_out = self.left_out.saturating_sub(met.count);
            return None;
        }
        Some(met)
    }

    /// Whether one of them has settled.
    fn note_end(&mut self, settled: bool) {
        if !settled {
            self.left_out = LEFT_OUT;
        }
    }
}

/// Settles the cells in which the last step of a scan has met records.
pub(crate) fn settle_met(rt: &impl Wait, store: &Store, pass: &mut Pass, place: &mut ScanPlace)
    requires ready { ∥ IsReady store.now pass.old ∥₁ }
    ensures ready { ∥ IsReady store.now pass.new ∥₁ }
    ensures legal { HasSeenLegal (account_of store.now pass.new) }
    ensures reads { ReadsBy (account_of store.now pass.old) (account_of store.now pass.new) }
{
    let Some(met) = place.take_met() else {
        return;
    };
    let settled = settle_cells(rt, store, pass, met.as_slice());
    place.note_end(settled);
}

/// Settles those of these cells of which nobody needs a record, and answers whether there was one.
fn settle_cells(rt: &impl Wait, store: &Store, pass: &mut Pass, cells: &[u32]) -> bool
    requires ready { ∥ IsReady store.now pass.old ∥₁ }
    ensures ready { ∥ IsReady store.now pass.new ∥₁ }
    ensures legal { HasSeenLegal (account_of store.now pass.new) }
    ensures reads { ReadsBy (account_of store.now pass.old) (account_of store.now pass.new) }
{
    settle_swept(rt, store, &mut pass.seats, cells)
}
