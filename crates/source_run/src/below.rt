//! What crates above name of crates that they don't list.

pub use graph_files::{files_are_loadable, load_is_legal};
pub use script_lang::{Names, read_schedule, read_script};
pub use serial_runner::below::{CoreJournal, NamedTable};
pub use threaded_run::below::Closed;
