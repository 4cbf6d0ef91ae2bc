//! What a pass keeps for cells from one call to the next.
//!
//! 1. All room is taken when the pass is made, so no later call of a transaction fails for lack of it.

ghost use Rattle.std.specs.Prelude.{◌≡◌, ◌≤◌, [], IfOk};
ghost use Rattle.std.specs.Vec.{vec_capacity};

use crate::hints::CellHints;
use crate::taken::TakenCells;
use graph_model::NoMemory;
use latch_table::{Held, Laid};
use std::alloc::Global;
use store_rule::StoreSlot;

/// A pass holds at most so many cells: those of a row, of the same edge's row the other way, and of its ends.
pub const MOST_CELLS: usize = 4;

/// The cells that a pass has in hand, none between two calls, and its hints of all others. Its lists have their room
/// from the start, so no call but `new` takes memory for them.
pub struct PassCells {
    /// Those in hand.
    pub taken: TakenCells,
    /// A guess at the cell of a key.
    pub hints: CellHints,
    /// Cells that are packed and not yet put back, and those that aren't yet released: work space.
    pub(crate) packed: Vec<Held<StoreSlot>>,
    /// Those whose values are back, and which are still to be released.
    pub(crate) laid: Vec<Laid>,
    ghost room: { (4 ≤ vec_capacity taken.list) × (4 ≤ vec_capacity packed) × (4 ≤ vec_capacity laid) },
    ghost spaces: { (packed.items ≡ []) × (laid.items ≡ []) },
}

impl PassCells {
    /// No cell, and no hint of any, in a store of so many cells.
    pub fn new(alloc: Global, cells: u32) -> Result<PassCells, NoMemory>
        ensures { IfOk result (λ own. own.taken.list.items ≡ []) }
    {
        let hints = CellHints::new(alloc, cells)?;
        let list = Vec::with_capacity(alloc, MOST_CELLS)?;
        match work_space(alloc) {
            Ok((packed, laid)) => Ok(PassCells {
                taken: TakenCells { list },
                hints,
                packed,
                laid,
            }),
            Err(refused) => {
                list.destroy_empty();
                Err(refused)
            }
        }
    }

    /// Gives the memory back, where no cell is in hand.
    pub fn close(self)
        requires { self.taken.list.items ≡ [] }
    {
        let PassCells {
            taken,
            hints,
            packed,
            laid,
        } = self;
        let TakenCells { list } = taken;
        list.destroy_empty();
        packed.destroy_empty();
        laid.destroy_empty();
        drop(hints);
    }
}

/// Empty lists with room for all cells that a pass may hold.
fn work_space(alloc: Global) -> Result<(Vec<Held<StoreSlot>>, Vec<Laid>), NoMemory>
    ensures empty { IfOk result (λ lists. (lists.0.items ≡ []) × (lists.1.items ≡ [])) }
    ensures room { IfOk result (λ lists. (4 ≤ vec_capacity lists.0) × (4 ≤ vec_capacity lists.1)) }
{
    let packed = Vec::with_capacity(alloc, MOST_CELLS)?;
    match Vec::with_capacity(alloc, MOST_CELLS) {
        Ok(laid) => Ok((packed, laid)),
        Err(_) => {
            // Lists of cells can't be dropped, since a cell that is held has to be given back; an empty one is taken
            // apart by name.
            packed.destroy_empty();
            Err(NoMemory)
        }
    }
}
