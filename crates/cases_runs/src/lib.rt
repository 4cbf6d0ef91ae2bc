//! Worked cases of the top call: runs, from the words to the written files, on a desk in memory.
//!
//! The expected texts were worked out by hand, and never taken from a run.
#![tactic(auto)]

#[cfg(test)]
mod faster_kernels;
#[cfg(test)]
mod full_stores;
#[cfg(test)]
mod long_scripts;
#[cfg(test)]
mod serialisable_runs;
#[cfg(test)]
mod several_scripts;
#[cfg(test)]
mod texts;
#[cfg(test)]
mod whole_runs;
