//! What crates above name of crates that they don't list.

pub use shared_readers::below::{
    CellRoute, Closed, LoadedRefusal, MERGE_ROWS, Pass, Passes, RoomNeed, Store, Tried, TriedRun,
    VersionSegment, Written, abort, begin, close, commit, has_vertex, let_go, loaded,
    loaded_by_threads, meet, new, route, scan_step, try_has_vertex, try_key, try_run, weight,
    write,
};
