//! Where the cell of a key stands.
//!
//! 1. A cell that was found before is tried first, where there is one. If it isn't the key's the index is asked.

ghost use Rattle.leaf_store.specs.Table.{IsPlace};

use graph_model::Key;
use leaf_index::LeafIndex;
use leaf_table::Place;

/// Where the cell of the key stands.
pub(crate) fn place_of(index: &LeafIndex, key: Key) -> Place
    ensures { IsPlace key index.now.entries result }
{
    Place::of_cell(index.route(key).cell)
}

/// The same, where the key was found in a cell before.
pub(crate) fn place_near(index: &LeafIndex, key: Key, near: u32) -> Place
    ensures { IsPlace key index.now.entries result }
{
    Place::of_cell(index.cell_near(key, near))
}
