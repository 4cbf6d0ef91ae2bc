//! What crates above name of crates that they don't list.

pub use source_run::below::{Names, files_are_loadable, load_is_legal, read_schedule, read_script};
pub use source_run::{
    Input, Ran, RunResult, config_of, jobs_of, kind_of, leaves_of, let_go, load_graph, new_engine,
};
