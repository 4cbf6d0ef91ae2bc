//! What a serialisable run of scripts is: which rows a line depends on, when a commit is refused, and that the journal
//! is then a serial order.
//!
//! There is no code: everything is said in `specs/`, over the runs of `run_model`.
#![tactic(auto)]

mod laws;

pub use laws::{
    answers_depend_on_footprints, serial_stepped_runs_are_serial_runs, worked_refusals_hold,
};
