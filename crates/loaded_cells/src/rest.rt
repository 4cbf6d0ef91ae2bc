//! What is kept of the cells of a load beside their words.
//!
//! 1. Rows of a load are settled, so it is their number alone.
//! 2. The numbers are told before the rows are let go of, and what is kept is made of them once the words stand in
//!    their table: a number is one byte, and what is kept takes a slot's memory.

ghost use Rattle.std.specs.Prelude.{◌≡◌, ◌≤◌, ◌++◌, map, IfOk, OnOk};
ghost use Rattle.std.specs.List.{AllByRecursion};
ghost use Rattle.loaded_cells.specs.Numbered.{resting_rows, row_counts};
ghost use Rattle.loaded_cells.specs.Ranges.{leaf_segments, loaded_segments};
ghost use Rattle.rule_model.specs.VersionSegment.Resting.{settled_rest};

use crate::fill::{FULL_SEGMENT, LoadedRange};
use graph_model::{LEAF_SEGMENTS, NoMemory};
use rule_model::below::Resting;
use std::alloc::Global;

/// How many rows each cell of these leaves has, by the cells' numbers.
pub fn count_rows(alloc: Global, leaves: &[LoadedRange]) -> Result<Vec<u8>, NoMemory>
    ensures { IfOk result (λ counts. counts.items ≡ row_counts (loaded_segments leaves.now)) }
{
    let mut counts = Vec::with_capacity(alloc, LEAF_SEGMENTS * leaves.len())?;
    'leaves: for number in 0..leaves.len() {
        count_leaf(leaves[number], &mut counts)?;
    }
    Ok(counts)
}

/// The same of one leaf, after the numbers of others.
fn count_leaf(leaf: LoadedRange, counts: &mut Vec<u8>) -> Result<(), NoMemory>
    ensures { OnOk result (counts.new.items ≡ counts.old.items ++ row_counts (leaf_segments leaf.entry)) }
{
    let mut rest = leaf;
    'segments: for _segment in 0..LEAF_SEGMENTS {
        let (segment, behind) = rest.split(FULL_SEGMENT);
        counts.push(segment.rows.len() as u8)?;
        rest = behind;
    }
    Ok(())
}

/// What is kept of cells with so many settled rows each.
pub fn rest_cells(alloc: Global, counts: &[u8]) -> Result<Vec<Resting>, NoMemory>
    requires few { AllByRecursion (λ count. count ≤ 32) counts.now }
    ensures { IfOk result (λ resting. resting_rows resting.items ≡ map settled_rest counts.now) }
{
    let mut resting = Vec::with_capacity(alloc, counts.len())?;
    'cells: for cell in 0..counts.len() {
        resting.push(Resting::settled(alloc, counts[cell] as usize))?;
    }
    Ok(resting)
}
