//! Least weights of walks from a root over the image of a graph (LDBC Graphalytics, SSSP), by delta-stepping (Meyer and
//! Sanders, 2003).
//!
//! 1. Reached places stand in buckets by their distance, each as wide as suits the graph, or as the caller says; only
//!    buckets in use are kept, in an ordered map.
//! 2. One bucket at a time is settled: the arcs out of each place of it are followed, which may put places
//!    into it again.
//! 3. The arcs out of each place below the bucket at hand lead nowhere at a lesser distance than what is known.
//! 4. With three threads or more workers find distances together first, each those of its own places. No clause says
//!    what they find: it is taken where a look along all arcs shows that it is the least.
#![tactic(auto)]

mod ahead;
mod buckets;
mod certain;
mod distances;
mod kernel;
mod search;
mod team;
mod width;
mod worker;

pub use kernel::{run, run_by_width};
