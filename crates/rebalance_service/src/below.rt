//! What crates above name of crates that they don't list.

pub use worker_calls::below::{
    CellRoute, Closed, LoadedRefusal, Pass, Passes, Store, SweepKey, Tried, TriedRun,
    VersionSegment, close, let_go, loaded, loaded_by_threads, meet, new, route, sweep_step,
    try_has_vertex, try_run,
};
