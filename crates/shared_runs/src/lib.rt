//! Scripts that ran on the passes of a shared store, which was closed after them: that what they leave is a run.
//!
//! There is no code: the law is over what `close` shows of the passes, and over the accounts that scripts ran by.
#![tactic(auto)]

mod laws;

pub use laws::closed_stores_leave_runs;
