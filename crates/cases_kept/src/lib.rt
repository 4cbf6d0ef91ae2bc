//! Worked cases of runs whose commits are kept, and of journal files that are read back, on a desk and a disk in
//! memory.
//!
//! The expected texts and sizes were worked out by hand, and never taken from a run.
#![tactic(auto)]

#[cfg(test)]
mod cut_files;
#[cfg(test)]
mod stops;
