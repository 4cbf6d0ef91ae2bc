//! Cells that commits of a pass have stamped and left with records.
//!
//! 1. No contract says what is noted. Whoever settles such a cell holds it, and asks what is kept of its rows.
//! 2. Stamps of a pass rise from commit to commit, so the cell that was noted first is the first to be reached.

use graph_model::NoMemory;
use std::alloc::Global;
use std::marker::Model;

/// One of so many cells of a store is noted at most: others are changed while a transaction reads for long.
const CELLS_A_NOTE: u32 = 4;

/// And no more than so many.
const MOST_NOTED: u32 = 65536;

/// One commit settles so many of them at most, so that no commit is long.
const MOST_AT_ONCE: usize = 8;

/// A cell with the stamp of the commit that left it.
#[derive(Clone, Copy, Debug, PartialEq, Eq)]
struct UnsettledCell {
    cell: u32,
    stamp: u64,
}

/// Stands where nothing is noted.
const NOTHING: UnsettledCell = UnsettledCell {
    cell: u32::MAX,
    stamp: u64::MAX,
};

/// What a pass remembers of cells that its commits could not settle. Kept: the numbers of the last ones, each with the
/// stamp of its records, in a ring. It may be wrong, since others write in these cells, settle them, and move their
/// rows. That is harmless: whoever settles a cell asks what is kept of its rows, and a cell that is forgotten is left to
/// the sweeps. It costs 16 bytes for each fourth cell of the store, a mebibyte at most, and a commit beside others the
/// latch of each such cell once more. It spares the next write of the cell the records, a scan a latch, and a sweep the
/// leaf.
#[derive(Drop)]
pub struct UnsettledCells {
    /// As long as it ever will be.
    ring: Vec<UnsettledCell>,
    /// Where the one stands that was noted first.
    first: usize,
    /// So many follow each other from there on, round the end.
    count: usize,
}

impl Model for UnsettledCells {
    ghost Value = { Unit {0} };

    ghost view = { λ _. tt };
}

/// The cells that one commit settles for those before it.
#[derive(Drop)]
pub(crate) struct ReachedCells {
    list: [u32; MOST_AT_ONCE],
    count: usize,
}

impl ReachedCells {
    pub(crate) fn as_slice(&self) -> &[u32] {
        let (front, _) = self.list.split_at(self.count.min(MOST_AT_ONCE));
        front
    }

    /// Puts a cell to the others, where there is room.
    fn put(&mut self, cell: u32) {
        if self.count < MOST_AT_ONCE {
            self.list[self.count] = cell;
            self.count += 1;
        }
    }
}

impl UnsettledCells {
    /// Nothing is noted, in a store of so many cells. Takes all memory that it ever has.
    pub fn new(alloc: Global, cells: u32) -> Result<UnsettledCells, NoMemory> {
        let room = (cells / CELLS_A_NOTE).min(MOST_NOTED).max(1);
        Ok(UnsettledCells {
            ring: vec![in alloc; NOTHING; room as usize]?,
            first: 0,
            count: 0,
        })
    }

    /// Notes that a commit with this stamp has left records in a cell. Where there is no room the one that was noted
    /// first is forgotten.
    pub fn note(&mut self, cell: u32, stamp: u64) {
        let noted = UnsettledCell { cell, stamp };
        // Two keys of a commit often stand in one cell.
        if self.count > 0 && self.at(self.count - 1) == noted {
            return;
        }
        let place = self.place_of(self.count);
        if let Some(last) = self.ring.get_mut(place) {
            *last = noted;
        }
        if self.count < self.ring.len() {
            self.count += 1;
        } else {
            self.first = self.place_of(1);
        }
    }

    /// Forgets some cells whose stamp a horizon has reached, those that were noted first, and answers which.
    pub(crate) fn take_reached(&mut self, horizon: u64) -> ReachedCells {
        let mut reached = ReachedCells {
            list: [0; MOST_AT_ONCE],
            count: 0,
        };
        // Mostly nothing is noted where a pass is alone, and nothing reached while somebody reads for long.
        'cells: for _cell in 0..MOST_AT_ONCE.min(self.count) {
            let UnsettledCell { cell, stamp } = self.at(0);
            if stamp > horizon {
                break;
            }
            reached.put(cell);
            self.first = self.place_of(1);
            self.count = self.count.saturating_sub(1);
        }
        reached
    }

    /// The one that so many were noted before.
    fn at(&self, before: usize) -> UnsettledCell {
        match self.ring.get(self.place_of(before)) {
            Some(noted) => *noted,
            None => NOTHING,
        }
    }

    /// Where that stands.
    fn place_of(&self, before: usize) -> usize {
        self.first.saturating_add(before) % self.ring.len().max(1)
    }
}

#[cfg(test)]
mod tests {
    use super::*;
    use std::test::Fail;

    #[test]
    fn cells_are_taken_once_when_their_stamp_is_reached(rt: HostRuntime) -> Result<(), Fail> {
        let mut unsettled = UnsettledCells::new(rt.alloc(), 40)?;
        for (cell, stamp) in [(1, 10), (2, 11), (2, 11), (1, 12), (3, 13)] {
            unsettled.note(cell, stamp);
        }
        assert_eq!(rt; unsettled.take_reached(9).as_slice().len(), 0);
        assert_eq!(rt; unsettled.take_reached(12).as_slice(), &[1, 2, 1][..]);
        assert_eq!(rt; unsettled.take_reached(12).as_slice().len(), 0);
        assert_eq!(rt; unsettled.take_reached(20).as_slice(), &[3][..]);
        Ok(())
    }

    /// Of twenty cells the first eight have given their places to the last ones.
    #[test]
    fn the_last_cells_are_kept_and_few_are_taken_at_once(rt: HostRuntime) -> Result<(), Fail> {
        let mut unsettled = UnsettledCells::new(rt.alloc(), 48)?;
        for cell in 1..21u32 {
            unsettled.note(cell, u64::from(cell));
        }
        assert_eq!(rt; unsettled.take_reached(8).as_slice().len(), 0);
        assert_eq!(rt;
            unsettled.take_reached(20).as_slice(),
            &[9, 10, 11, 12, 13, 14, 15, 16][..]
        );
        assert_eq!(rt;
            unsettled.take_reached(20).as_slice(),
            &[17, 18, 19, 20][..]
        );
        Ok(())
    }
}
