//! What crates above name of crates that they don't list.

pub use journal_file::{DiskFault, RecoverRefusal};
