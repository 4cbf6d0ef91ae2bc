//! Breadth-first search over the image of a graph (LDBC Graphalytics, BFS), which finds each level in the cheaper of two
//! ways (Beamer, Asanović and Patterson, 2012).
//!
//! 1. Rounds go level by level: the frontier has just the places whose distance is the level.
//! 2. A small frontier is a list, and the arcs out of it are followed. A large one is a set, a bit for each place,
//!    and each place without a distance looks along the arcs into it for one that is in the set.
//! 3. While places look, on several threads, the set doesn't change, and each thread writes the distances of its
//!    own places alone.
//! 4. Each round but the last reaches a place, so the level stays below the number of places.
#![tactic(auto)]

mod arcs_into;
mod arcs_out;
mod distances;
mod frontier;
mod kernel;
mod levels;
mod place_set;

pub use kernel::run;
