//! What a pass keeps for room from one call to the next.
//!
//! 1. The leaf in which rows move is made once, so that a spread takes memory for records alone.

ghost use Rattle.std.specs.Prelude.{◌≡◌, []};

use graph_model::{Key, NoMemory};
use pass_splits::below::PassLeaves;
use pass_writes::below::Leaf;
use std::alloc::Global;

/// Leaves in hand, none between two calls, and a leaf in which rows move.
pub struct PassRoom {
    /// Those in hand.
    pub leaves: PassLeaves,
    /// Its segments take the rows of cells while they move, and have none between two calls.
    pub space: Leaf,
    ghost none: { leaves.cells.items ≡ [] },
}

impl PassRoom {
    /// No leaf is in hand.
    pub fn new(alloc: Global) -> Result<PassRoom, NoMemory> {
        let space = Leaf::new(alloc, Key::END, Key::END)?;
        let leaves = PassLeaves::new(alloc)?;
        Ok(PassRoom { leaves, space })
    }

    /// Gives the memory back.
    pub fn close(self) {
        let PassRoom { leaves, space: _ } = self;
        leaves.close();
    }
}
