//! What crates above name of crates that they don't list.

pub use rebalance_service::below::{
    CellRoute, Pass, Store, SweepKey, Tried, TriedRun, VersionSegment, close, loaded, route,
    sweep_step, try_has_vertex, try_run,
};
pub use rebalance_service::{Home, Worker};
