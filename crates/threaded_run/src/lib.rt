//! A run of scripts by threads on a shared store: it is made with the load, each script has a pass of its own, and it
//! is closed after them.
//!
//! 1. Pass 0 has the load, and takes the turns of the service. The pass of each script has seen the load before its
//!    first turn.
//! 2. the passes after those of the scripts are there for kernels to read by. They make nothing.
//! 3. However the scripts end, all passes come back without a transaction. After scripts that have all run the store
//!    is closed with them; where one ran out of memory it is let go as it is.
#![tactic(auto)]

pub mod below;
mod run;
mod seats;
mod workers;

pub use run::{ThreadedRun, run_on_threads};
