//! What crates above name of crates that they don't list.

pub use pass_room::PassRoom;
pub use pass_room::below::{CellHints, LeafSwept, SweepKey, SweepTurn, sweep_step};
pub use reader_parts::below::{
    CellRoute, Closed, LoadedRefusal, MERGE_ROWS, Pass, Passes, Store, Tried, TriedRun,
    VersionSegment, close, let_go, loaded, loaded_by_threads, meet, new, route, try_has_vertex,
    try_run,
};
pub use reader_parts::scan_parts;
