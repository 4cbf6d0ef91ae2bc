//! The memory of leaves, by their numbers.
//!
//! 1. A live leaf has memory, in a box of its own: the table has 8 bytes for each leaf, and one that stays is never
//!    moved.

ghost use Rattle.std.specs.Prelude.{◌≡◌, ◌<◌, length, replicate, slice_set, IfOk, None, Some};

use graph_model::NoMemory;
use leaf_array::Leaf;
use std::alloc::Global;

/// No leaf has memory yet.
pub fn empty_table(alloc: Global, leaves: u32) -> Result<Vec<Option<Box<Leaf>>>, NoMemory>
    ensures { IfOk result (λ table. table.items ≡ replicate leaves None) }
{
    let mut table = Vec::with_capacity(alloc, leaves as usize)?;
    'fill: for _leaf in 0..leaves {
        table.push(None)?;
    }
    Ok(table)
}

/// The leaf with this number has this memory now.
pub fn put_leaf(table: &mut Vec<Option<Box<Leaf>>>, leaf: usize, memory: Box<Leaf>)
    requires { leaf < length table.old.items }
    ensures { table.new.items ≡ slice_set table.old.items leaf (Some memory) }
{
    table[leaf] = Some(memory);
}
