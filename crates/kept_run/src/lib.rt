//! The run of the scripts on the loaded graph, with its commits kept in a journal file.
//!
//! 1. The file is made before the graph is loaded, so that a file that can't be made is known of first.
//! 2. All else is as in a run without a journal file.
#![tactic(auto)]

pub mod below;
mod refusal;
mod run;

pub use refusal::KeptRefusal;
pub use run::run_scripts_kept;
