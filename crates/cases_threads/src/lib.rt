//! Worked cases of the top call where scripts run on threads, on a desk in memory.
//!
//! The expected texts were worked out by hand, and never taken from a run.
#![tactic(auto)]

#[cfg(test)]
mod four_scripts;
#[cfg(test)]
mod full_script;
#[cfg(test)]
mod many_scripts;
mod second_first;
#[cfg(test)]
mod side_by_side;

pub use second_first::SecondFirst;
