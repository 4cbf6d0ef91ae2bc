//! Which segments of a leaf are spread together, and how their rows are divided among them.
//!
//! 1. A window is 1, 2, 4 or 8 segments in a row, and begins at a multiple of that number.
//! 2. A wider window is to be less dense, and not as sparse. Limits are whole numbers of rows.
//! 3. No call takes memory.
#![tactic(auto)]

mod division;
mod laws;
mod window;

pub use division::{Counts, spread_counts};
pub use laws::limits_are_as_written;
pub use window::{LOWER_LIMITS, UPPER_LIMITS, Window, window_for_insert, window_for_sparse};
