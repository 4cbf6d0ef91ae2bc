//! Scripts on several threads: each on an engine of its own, with the service beside them.
//!
//! 1. The scripts are cut, in their order, into as many blocks as there are workers.
//! 2. What a script's turns do is said by the account of its pass. So it holds of whatever engine has such an account,
//!    and of scripts that run side by side in whatever order.
//! 3. Where a script wants memory its transaction is taken back, and the others go on.
#![tactic(auto)]

pub mod below;
mod driver;
mod laws;
mod over;

pub use driver::run_threads;
pub use laws::{new_scripts_run, parts_are_cut_alike, turns_by_account_run_scripts};
pub use over::JobsOver;
