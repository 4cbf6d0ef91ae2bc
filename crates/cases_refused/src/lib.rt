//! Cases of the top call that are refused or fail, from the words to what is left on a desk in memory; graphs that are
//! made; and what scripts and schedules are read as, or the fault that is said of each.
//!
//! The expected texts were worked out by hand, and never taken from a run.
#![tactic(auto)]

#[cfg(test)]
mod calls_that_fail;
#[cfg(test)]
mod faulty_words;
#[cfg(test)]
mod inputs_that_are_refused;
#[cfg(test)]
mod made_graphs;
#[cfg(test)]
mod numbers_of_all_lengths;
#[cfg(test)]
mod outputs_that_are_there;
#[cfg(test)]
mod scripts_and_schedules;
