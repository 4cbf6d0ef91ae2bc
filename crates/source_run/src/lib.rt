//! What the sources of a run stand for, and the run of it on an engine.
//!
//! 1. Sources are parsed in the order in which they were read, so the first one with a fault is the one that is named.
//! 2. The graph is loaded as the first transaction of a new engine, with a pass for each script and one for the load.
//! 3. A store without stated leaves has as many as the rows of the graph and of the scripts' lines can fill.
#![tactic(auto)]

pub mod below;
mod fault;
mod input;
mod leaves;
mod ran;
mod request;
mod run;
mod threads;

pub use fault::{ParseStop, SourceFault};
pub use input::{Input, parse_sources};
pub use leaves::{MOST_ROWS, leaves_of};
pub use ran::{Manner, Ran, RunResult, run_scripts};
pub use request::{kind_of, script_at, source_at, sources_of};
pub use run::{SteppedRun, config_of, jobs_of, let_go, load_graph, new_engine, run_by_turns};
pub use threads::run_by_threads;
