//! What the cases of the top call share: a graph with runs on it, and how a run ends, on a desk in memory.
//!
//! A case is one comparison, of two texts: the end that was found, and the end that is wanted.
#![tactic(auto)]

pub mod below;
mod ends;
mod path_graph;

pub use ends::{
    End, File, Run, call_difference, desk_with, difference_by, difference_on, difference_with,
    run_difference,
};
pub use path_graph::{E, JOURNAL, JOURNAL_TEXT, PATH, REPORT, RESULT, SEARCH, SUMMARY, V, WHOLE};
