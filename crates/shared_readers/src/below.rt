//! What crates above name of crates that they don't list.

pub use optimistic_read::{CellRoute, Tried, TriedRun, route, try_has_vertex, try_key, try_run};
pub use pass_readers::below::CellHints;
pub use shared_store::below::{MERGE_ROWS, VersionSegment};
pub use shared_store::{
    Closed, LoadedRefusal, Pass, Passes, RoomNeed, Store, Written, abort, begin, close, commit,
    has_vertex, let_go, loaded, loaded_by_threads, meet, new, scan_step, weight, write,
};
