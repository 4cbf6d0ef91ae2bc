//! Cells of a store of many threads, over plain data: blocks of words and reads without a latch, cells under their
//! index, leaves that passes have noted.
//!
//! 1. No law speaks of a table, a seat or a view: words and contents are functions of numbers.
//! 2. Where a word lies in memory is for who stores it to say.
//! 3. Cells and their leaves are those of the store of one owner, by number: each law on moves is one of its laws.
#![tactic(auto)]

pub mod below;
mod laws;

pub use laws::{
    blocks_tell_rows, cells_are_indexed, cells_change_in_place, examples_hold,
    full_stores_are_counted, holders_keep_blocks, moves_keep_versions, noted_leaves_stay,
    reads_need_no_latch, sweeps_keep_noted_leaves,
};
