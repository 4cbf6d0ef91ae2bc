//! Scripts that run side by side: what each line does to the account of its pass, and that what all of them leave is a
//! run.
//!
//! There is no code: everything is said in `specs/`, over the accounts of `graph_model` and the runs of `run_model`.
#![tactic(auto)]

mod laws;

pub use laws::{scripts_side_by_side_are_runs, worked_side_runs_hold};
