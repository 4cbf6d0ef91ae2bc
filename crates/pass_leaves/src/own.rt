//! What a pass keeps for leaves from one call to the next.
//!
//! 1. It is made when a row first finds no place, and holds nothing between two calls.

ghost use Rattle.std.specs.Prelude.{◌≡◌, ◌≤◌, [], IfOk};
ghost use Rattle.std.specs.Vec.{vec_capacity};

use graph_model::NoMemory;
use latch_table::{Held, Laid};
use pass_cells::TakenCell;
use pass_cells::below::StoreSlot;
use std::alloc::Global;

/// A pass holds the cells of at most two leaves: those of a leaf that is split and of the free one, or of two that
/// become one.
pub const MOST_LEAF_CELLS: usize = 16;

/// These cells and the index.
const MOST_PLACES: usize = 17;

/// The cells of leaves that a pass has in hand, none between two calls. The lists have their room from the start, so no
/// call but `new` takes memory for them.
pub struct PassLeaves {
    /// One leaf after the other, each in the order of its fence keys.
    pub cells: Vec<TakenCell>,
    /// Places that are taken and not yet unpacked, or packed and not yet put back, and those that aren't yet released:
    /// work space.
    pub(crate) packed: Vec<Held<StoreSlot>>,
    /// Those whose values are back, and which are still to be released.
    pub(crate) laid: Vec<Laid>,
    ghost room: { (16 ≤ vec_capacity cells) × (17 ≤ vec_capacity packed) × (17 ≤ vec_capacity laid) },
    ghost spaces: { (packed.items ≡ []) × (laid.items ≡ []) },
}

impl PassLeaves {
    /// No cell is in hand.
    pub fn new(alloc: Global) -> Result<PassLeaves, NoMemory>
        ensures { IfOk result (λ own. own.cells.items ≡ []) }
    {
        let cells = match Vec::with_capacity(alloc, MOST_LEAF_CELLS) {
            Ok(cells) => cells,
            Err(_) => return Err(NoMemory),
        };
        match work_space(alloc) {
            Ok((packed, laid)) => Ok(PassLeaves {
                cells,
                packed,
                laid,
            }),
            Err(refused) => {
                cells.destroy_empty();
                Err(refused)
            }
        }
    }

    /// Gives the memory back, where no cell is in hand.
    pub fn close(self)
        requires { self.cells.items ≡ [] }
    {
        let PassLeaves {
            cells,
            packed,
            laid,
        } = self;
        cells.destroy_empty();
        packed.destroy_empty();
        laid.destroy_empty();
    }
}

/// Empty lists with room for all places that a pass may hold.
fn work_space(alloc: Global) -> Result<(Vec<Held<StoreSlot>>, Vec<Laid>), NoMemory>
    ensures empty { IfOk result (λ lists. (lists.0.items ≡ []) × (lists.1.items ≡ [])) }
    ensures room { IfOk result (λ lists. (17 ≤ vec_capacity lists.0) × (17 ≤ vec_capacity lists.1)) }
{
    let packed = Vec::with_capacity(alloc, MOST_PLACES)?;
    match Vec::with_capacity(alloc, MOST_PLACES) {
        Ok(laid) => Ok((packed, laid)),
        Err(_) => {
            packed.destroy_empty();
            Err(NoMemory)
        }
    }
}
