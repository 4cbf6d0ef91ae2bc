//! Graphs, writes, commits and journals as plain data, with the definitions that every layer is
//! proved against.
//!
//! 1. The code holds values and does nothing else. What is true of them stands in `specs/`, and no
//!    definition there knows how a store keeps a graph.
//! 2. What shows that a definition means what it says is the contract of a function in `laws`.
#![tactic(auto)]

mod engine;
mod ids;
mod journal;
mod laws;
mod limits;
mod load;
mod owner;
mod refusal;
mod row;
mod state;
mod table;
mod transactions;
mod write;

pub use engine::{Engine, StepEngine, VertexEngine};
pub use ids::Ids;
pub use items::NoMemory;
pub use journal::{Begun, Commit, Journal, RoomyJournal, TxnName};
pub use laws::{
    apart_writes_commute, calls_keep_accounts_valid, commits_are_serial,
    components_are_least_vertices, conflicts_have_causes, examples_hold, journal_examples_hold,
    journals_grow_by_commits, kernel_examples_hold, labels_follow_neighbours,
    least_walks_are_distances, limits_are_as_written, prefixes_are_legal, rows_are_of_the_graph,
    scans_end_with_the_last_row, tables_are_determined, views_are_sound, walks_have_their_forms,
    writes_are_by_key, writes_keep_graphs_sound,
};
pub use limits::{
    LEAF_SEGMENTS, MAX_BEGINS, MAX_ID, MAX_LEAVES, MAX_LOAD_ROWS, MAX_PASSES, MAX_ROUNDS,
    MAX_SCRIPTS, MAX_SOURCE_BYTES, MAX_THREADS, MAX_TXNS_PER_PASS, MAX_WEIGHT, NO_WALK, SCAN_ROWS,
    SEGMENT_ROWS, SPLIT_ROWS,
};
pub use load::{LoadEngine, LoadRefusal};
pub use owner::{
    begin_and_abort, loads_leave_valid_accounts, one_owner_meets_the_account, owner_examples_hold,
};
pub use refusal::{BeginRefusal, Cause, Refusal};
pub use row::{Cursor, Key, Row, Rows64};
pub use state::State;
pub use table::{Entry, KernelRefusal, Table, Value};
pub use transactions::{
    names_have_their_stamps, passes_have_one_transaction, transactions_stay_apart,
};
pub use write::{Kind, RoomyWrites, Write, Writes};
