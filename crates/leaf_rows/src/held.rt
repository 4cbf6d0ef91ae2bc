//! The owner of a store holds all of its cells.
//!
//! 1. No record that is put has a stamp: its writer's is asked of the manager.
//! 2. What holds of each store is the law `is_sound`, which is told of it before a change and after it.

ghost use Rattle.std.proofs.Common.{refl, ◌∙◌};
ghost use Rattle.leaf_rows.specs.Held.{KeepsLeaves, rows_in};

use crate::rows::LeafRows;
use graph_model::{Key, NoMemory, TxnName};
use leaf_store::Finger;
use row_writes::HeldCells;
use row_writes::below::{RowChange, RowView};

/// Where the rows of a write were found in leaves.
pub type LeafFingers = row_writes::Fingers<Finger>;

/// The rows of a write, and where they were found in leaves.
pub type FoundInLeaves = row_writes::FoundRows<Finger>;

impl HeldCells for LeafRows {
    type Finger = Finger;

    ghost rows = { rows_in };

    ghost keeps = { KeepsLeaves };

    fn keys_lie_in_cells(&self) {
        self.store.is_sound();
    }

    fn row(&self, key: Key, near: Finger) -> RowView<'_> {
        self.store.segment(key, near).row(key, near.row)
    }

    fn reserve(&mut self, key: Key, near: Finger) -> Result<(), NoMemory> {
        self.store.reserve(key, near)
    }

    fn change(&mut self, key: Key, near: Finger, by: TxnName, change: RowChange) {
        self.store.is_sound();
        self.store.change(key, near, by, change);
        self.store.is_sound();
    }

    ghost keeps_self = { λ s. record { limit = refl; retired = refl } };

    ghost keeps_chain = { λ s t u one two. record {
      limit = two.limit ∙ one.limit;
      retired = two.retired ∙ one.retired;
    } };
}
