//! Worked cases of texts: words of the command line, files of graphs, reports, journals and tables.
//!
//! 1. The expected texts were worked out by hand or by another program, and never taken from a run.
//! 2. A case is a row of a table with one comparison.
#![tactic(auto)]

#[cfg(test)]
mod desks;
#[cfg(test)]
mod graphs;
#[cfg(test)]
mod lines;
#[cfg(test)]
mod made_graphs;
#[cfg(test)]
mod reports;
#[cfg(test)]
mod words;
