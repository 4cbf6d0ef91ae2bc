//! The one rule of a store of many threads, over plain data.
//!
//! 1. Words, wherever they lie, and what all seats know say one thing: transactions over rows, cells under their index,
//!    blocks of words, pins and noted leaves.
//! 2. Each pass, pin and cell, the index and the journal are known to one seat. Several may know commits, readers and
//!    reads.
//! 3. A step of a seat loads or stores one word, and is of a kind. Each kind has a law; there is nothing to run.
#![tactic(auto)]

pub mod below;
mod laws;

pub use laws::{
    blocks_keep_the_rule, conflicts_are_noted, examples_hold, journals_are_seen,
    moves_keep_the_rule, passes_learn, passes_stay_pinned, reads_need_no_latch,
    records_keep_the_rule, stores_begin_and_close, sweeps_keep_the_rule,
    transactions_keep_the_rule, views_keep_the_rule, words_have_places, writes_keep_the_rule,
};
