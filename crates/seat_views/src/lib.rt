//! What seats of a table know of numbered things: passes, cells, an index. Each thing has one content, and the
//! one view that keeps it has that content.
#![tactic(auto)]

mod laws;

pub use laws::views_keep_things;
