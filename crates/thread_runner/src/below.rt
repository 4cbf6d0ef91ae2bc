//! What crates above name of crates that they don't list.

pub use job_runner::{Job, Jobs};
