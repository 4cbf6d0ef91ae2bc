//! The top call: from the words to the written files, with a journal file where one is asked for.
//!
//! 1. The words are read first. They ask for a run, for a graph that is made, or for a journal file to be read back.
//! 2. A run whose commits are kept makes its journal file once its sources are accepted, and before the graph is
//!    loaded.
//! 3. No output is created before all commits of the run are on the disk.
#![tactic(auto)]

pub mod below;
mod laws;
mod outcome;
mod prepare;
mod program;
mod recovery;
mod say;

pub use laws::{
    accepted_calls_end_well, files_are_recovered, refused_calls_are_told, stops_are_read_back,
};
pub use outcome::KeptOutcome;
pub use program::teseo_kept;
