//! Reads of an open transaction that take no latch, wait for nobody and take no memory.
//!
//! 1. A read loads a cell's version word, then the words of its block that a look-up of the key needs, then the version
//!    word again. Where that is the even word that was found first, all that was loaded is of one block, and that block
//!    spells contents in which the transaction sees its view. Only then is anything decoded.
//! 2. What is loaded before may be half of a change: it decides how many words are loaded and which ones, and nothing
//!    else.
//! 3. A run of rows is read in the same way, up to the first row whose word is marked: those before it are the view's.
//! 4. A cell's fence keys tell whether it is the key's. So any cell may be read for any key, by the index or by a hint.
#![tactic(auto)]

pub mod below;
mod block;
mod decode;
mod read;
mod reader_run;
mod routing;
mod run;
mod scan;
mod tried;

pub use read::{try_has_vertex, try_key, try_weight};
pub use reader_run::try_reader_run;
pub use routing::route;
pub use scan::try_run;
pub use tried::{CellRoute, Tried, TriedRun};
