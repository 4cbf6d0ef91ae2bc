//! The view of an open transaction of a shared store, read in parts by several readers at once.
//!
//! 1. The view is cut at keys, each part of about as many leaves as the others. No clause says where the keys lie.
//! 2. The pass lends its account to as many passes without a transaction as there are parts, and each reads its part in
//!    a thread. All of them have joined it before the call ends.
#![tactic(auto)]

pub mod below;
mod cut;
mod join;
mod part;
mod read;
mod scan;
mod split;

pub use scan::scan_parts;
