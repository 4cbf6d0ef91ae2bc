//! A run, or a graph that is made: from what the words ask for to the written files.
//!
//! 1. All sources of a run are read before any of them is parsed, and all are parsed before the first script runs.
//! 2. All texts are made before the first output is created.
//! 3. What is said is said last, piece by piece, so that saying it takes no memory.
#![tactic(auto)]

pub mod below;
mod laws;
mod left;
mod make;
mod outcome;
mod outputs;
mod prepare;
mod program;
mod say;

pub use laws::{
    accepted_runs_end_well, graphs_are_made, limits_are_as_written, refused_sources_are_named,
    stores_without_stated_leaves_have_room,
};
pub use left::Left;
pub use outcome::Outcome;
pub use outputs::{is_full, output_of, outputs_of, summary_of};
pub use prepare::{Prepared, read_input};
pub use program::{blamed_source, end_with, hand_out, make_files, run, write_and_say};
pub use say::{say_line, say_outcome};
pub use source_run::{ParseStop, SourceFault};
