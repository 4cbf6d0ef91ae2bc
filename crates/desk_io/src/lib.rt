//! The outside of the program: files that are read and written in pieces, standard output, gates.
//!
//! 1. A call that fails is counted, apart for reads and for creates and writes, and the desk keeps
//!    the name that it was of.
//! 2. A failed call leaves what is known of all contents as it was.
//! 3. Sources and outputs are worked off in order: after a failure no later one is touched.
#![tactic(auto)]

mod desk;
mod faults;
mod gate;
mod memory_desk;
mod open_files;
mod outputs;
mod sink;
mod source;
mod sources;
mod std_desk;

pub use desk::{Desk, Failed};
pub use gate::{Gate, OpenGate};
pub use memory_desk::MemoryDesk;
pub use outputs::{Output, WriteStop, write_all};
pub use sink::{WriteFault, write_sink};
pub use source::{Bytes, PIECE, SourceRefusal, read_source};
pub use sources::{ReadStop, Sources, read_all};
pub use std_desk::StdDesk;
