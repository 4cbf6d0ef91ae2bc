//! Communities by label propagation over the image of a graph (LDBC Graphalytics, CDLP).
//!
//! 1. Inside, a label is the place of a vertex; since ids rise with places, the least label has the
//!    least place.
//! 2. A round reads the labels of the round before alone, so its parts may run side by side.
//! 3. A place whose met labels didn't change in the round before keeps its label. Once few labels change, only
//!    the places that meet them are looked at.
//! 4. The parts of the places follow each other and hold the same places in each round, with room for
//!    the labels that one place meets: a round takes no memory.
#![tactic(auto)]

mod awake;
mod frequency;
mod kernel;
mod part;
mod rounds;

pub use kernel::run;
