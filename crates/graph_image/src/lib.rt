//! The image of a graph: its vertices by their places, and the arcs out of and into each, in arrays.
//!
//! 1. A vertex is known by its place among all vertices, in rising order of id.
//! 2. The arcs out of a place lie behind each other, in rising order of the place they lead to, and so
//!    do the arcs into it.
//! 3. Where each arc goes the other way as well, one array serves both.
#![tactic(auto)]

mod adjacency;
mod builder;
mod edge;
mod image;
mod part;
mod part_builder;
mod parted;
mod parts;
mod place;
mod placed_row;
mod table;

pub use builder::Builder;
pub use edge::Arc;
pub use graph_model::{Entry, KernelRefusal, NoMemory, Table, Value};
pub use image::Image;
pub use part_builder::PartBuilder;
pub use table::table_of;
