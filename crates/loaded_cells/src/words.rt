//! The words of cells, as the rows of a load fill them.
//!
//! 1. They are made before the table that has them, by one owner, so no step on the table is needed.
//! 2. All version words are even: no cell is unpacked.

ghost use Rattle.std.specs.Prelude.{◌≡◌, ◌<◌, ◌≤◌, ◌*◌, ◌++◌, ◌∷◌, [], false, length, slice_set, IfOk, OnOk};
ghost use Rattle.rule_model.specs.CellsModel.Words.{flat};
ghost use Rattle.rule_model.specs.EndSteps.{zeros};
ghost use Rattle.loaded_cells.specs.Numbered.{blocks_of, first_block, loaded_head, loaded_words};
ghost use Rattle.loaded_cells.specs.Ranges.{leaf_segments, loaded_segments};
ghost use Rattle.txn_manager.specs.Config.{too_large};

use crate::fill::{FULL_SEGMENT, LoadedRange};
use graph_model::{Key, LEAF_SEGMENTS, NoMemory, Row};
use std::alloc::Global;
use txn_manager::Config;

/// The words of a pass whose commit is the journal's first.
const FIRST_COMMIT: u64 = 3;

/// The words of a store whose leaves have these rows, by their numbers.
pub fn lay_words(
    alloc: Global,
    config: &Config,
    leaves: &[LoadedRange],
) -> Result<Vec<u64>, NoMemory>
    requires sized { too_large config.now ≡ false }
    ensures { IfOk result (λ words. words.items ≡ loaded_words config.now (loaded_segments leaves.now)) }
{
    let cells = 8 * config.leaves as usize;
    let mut words = head_of(alloc, config.passes as usize, cells)?;
    'leaves: for number in 0..leaves.len() {
        lay_leaf(leaves[number], &mut words)?;
    }
    Ok(words)
}

/// The words before all blocks, with room for the blocks of so many cells.
fn head_of(alloc: Global, passes: usize, cells: usize) -> Result<Vec<u64>, NoMemory>
    requires some { 0 < passes }
    requires few { (passes ≤ 64) × (cells ≤ 1048576) }
    ensures { IfOk result (λ words. words.items ≡ loaded_head passes) }
{
    let count = 16 + 16 * passes;
    let mut words = Vec::with_capacity(alloc, count + 102 * cells)?;
    push_zeros(&mut words, count)?;
    set_word(&mut words, 8, 1);
    set_word(&mut words, 16, FIRST_COMMIT);
    Ok(words)
}

fn set_word(words: &mut Vec<u64>, place: usize, word: u64)
    requires { place < length words.old.items }
    ensures { words.new.items ≡ slice_set words.old.items place word }
{
    words[place] = word;
}

/// Lays the segments of a leaf, one by one.
fn lay_leaf(leaf: LoadedRange, words: &mut Vec<u64>) -> Result<(), NoMemory>
    ensures { OnOk result (words.new.items ≡ words.old.items ++ blocks_of (leaf_segments leaf.entry)) }
{
    let mut rest = leaf;
    'segments: for _segment in 0..LEAF_SEGMENTS {
        let (LoadedRange { low, high, rows }, behind) = rest.split(FULL_SEGMENT);
        push_block(words, low, high, rows)?;
        rest = behind;
    }
    Ok(())
}

/// The words of a cell with these fence keys and rows.
fn push_block(words: &mut Vec<u64>, low: Key, high: Key, rows: &[Row]) -> Result<(), NoMemory>
    requires { length rows.now ≤ 32 }
    ensures { OnOk result (words.new.items ≡ words.old.items ++ first_block low high rows.now) }
{
    push_head(words, low, high, rows.len())?;
    push_rows(words, rows)?;
    push_tail(words, 96 - 3 * rows.len())?;
    Ok(())
}

/// The words before the rows: version word, number of rows and fence keys.
fn push_head(words: &mut Vec<u64>, low: Key, high: Key, rows: usize) -> Result<(), NoMemory>
    ensures { OnOk result (words.new.items ≡ words.old.items
        ++ 0 ∷ rows ∷ low.src ∷ low.second ∷ high.src ∷ high.second ∷ []) }
{
    words.extend_from_slice(&[0, rows as u64, low.src, low.second, high.src, high.second])?;
    Ok(())
}

/// Three words a row.
fn push_rows(words: &mut Vec<u64>, rows: &[Row]) -> Result<(), NoMemory>
    ensures { OnOk result (words.new.items ≡ words.old.items ++ flat rows.now) }
{
    'rows: for place in 0..rows.len() {
        push_row(words, rows[place])?;
    }
    Ok(())
}

fn push_row(words: &mut Vec<u64>, row: Row) -> Result<(), NoMemory>
    ensures { OnOk result (words.new.items ≡ words.old.items ++ flat (row ∷ [])) }
{
    words.extend_from_slice(&[row.key.src, row.key.second, row.weight])?;
    Ok(())
}

fn push_zeros(words: &mut Vec<u64>, count: usize) -> Result<(), NoMemory>
    ensures { OnOk result (words.new.items ≡ words.old.items ++ zeros count) }
{
    'zeros: for _word in 0..count {
        words.push(0)?;
    }
    Ok(())
}

/// The zeros after the rows of a block, all at once.
fn push_tail(words: &mut Vec<u64>, count: usize) -> Result<(), NoMemory>
    requires { count ≤ 96 }
    ensures { OnOk result (words.new.items ≡ words.old.items ++ zeros count) }
{
    let tail = [0u64; 96];
    words.extend_from_slice(&tail[..count])?;
    Ok(())
}
