//! What crates above name of crates that they don't list.

pub use kept_run::below::{Left, Names, Outcome, end_with, read_schedule, read_script};
