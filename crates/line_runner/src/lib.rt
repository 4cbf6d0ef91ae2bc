//! One line of a script, turn by turn, on an engine of one owner.
//!
//! 1. What a line's turn does to the core of the engine, and what the line is answered, is what the run as `run_model`
//!    defines it says.
//! 2. A call that fails for want of memory leaves the engine as it was.
//! 3. A kernel runs on the image of what its transaction sees: a new one, or one that was kept. The rows of a new one
//!    are read turn by turn, or at once by several readers.
#![tactic(auto)]

mod answering;
mod kept;
mod kernel_line;
mod line;
mod phase;
mod reading;
mod scan;
mod table;

pub use answering::{LineAnswer, LineTurn};
pub use kept::KeptImage;
pub use kernel_line::run_at_once;
pub use line::{answer_call, is_call, take_line};
pub use phase::Phase;
pub use reading::LineReading;
pub use scan::{Scan, ScanResult};
pub use table::{NamedTable, Tables};
