//! Reads and writes of a pass in cells that it takes for them, and puts back before the call ends.
//!
//! 1. Between two calls a pass has no cell in hand. While a call waits for the journal it has none either.
//! 2. A write checks, changes and makes known in all its cells before it puts the first of them back. An undo and the
//!    stamping of rows take the cells of one write after those of another.
//! 3. What a write is answered is noted by the pass, so that it holds when the store is closed.
#![tactic(auto)]

pub mod below;
mod checks;
mod ending;
mod hand;
mod keys;
mod making;
mod reads;
mod scans;

pub use checks::check;
pub use ending::{stamp_all, undo_all};
pub use making::{Written, write};
pub use reads::value;
pub use scans::scan;
