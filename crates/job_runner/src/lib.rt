//! Scripts under way, one turn after the other, on an engine of one owner.
//!
//! 1. What a turn does to jobs and engine is a turn of the run as `run_model` defines it.
//! 2. A job and its pass fit each other after each turn: a transaction is open in both or in neither, and the
//!    pass has made what the answered lines wrote, transaction by transaction.
//! 3. Where memory runs out, no transaction stays open.
//! 4. An image that a job keeps is that of the graph which its open transaction sees.
#![tactic(auto)]

mod job;
mod jobs;
mod run;
mod turn;

pub use job::Job;
pub use jobs::Jobs;
pub use line_runner::NamedTable;
pub use run::{run_stepped, take_turn};
pub use turn::JobTurn;
