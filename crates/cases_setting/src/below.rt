//! What crates above name of crates that they don't list.

pub use kept_program::below::{Names, read_schedule, read_script};
