//! Leaves with few rows that a pass brings together, beside running transactions.
//!
//! 1. A turn looks at the leaf whose range holds its key, and only where that leaf has few rows at the next one too.
//! 2. A window is spread before two leaves become one. All rows and the entries of the index change first; one load of
//!    the clock makes the pass's view know them, and with that clock the right leaf is retired.
//! 3. Memory is taken before anything moves. Where memory runs out only room for records has changed.
#![tactic(auto)]

mod hand;
mod pair;
mod retiring;
mod sparse;
mod step;
mod turn;
mod work;

pub use pair::{LeafPair, merge_pair};
pub use step::{MergeKey, merge_step};
pub use turn::{LeavesMerged, MergeTurn, WindowSpread};
