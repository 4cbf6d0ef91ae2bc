//! Worked cases of the kernels: their tables on small graphs.
//!
//! 1. The expected tables were worked out by hand, and never taken from a run.
//! 2. Where two kernels ask for the same table, one case is a case of both.
#![tactic(auto)]

#[cfg(test)]
mod checks;
#[cfg(test)]
mod graphs;
#[cfg(test)]
mod images;
#[cfg(test)]
mod labels;
#[cfg(test)]
mod made;
#[cfg(test)]
mod paths;
#[cfg(test)]
mod searches;
