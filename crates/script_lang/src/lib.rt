//! The texts that tell a run what to do: scripts and schedules are read.
//!
//! 1. What a text stands for, and what its first fault is, is defined apart from the loops that read it.
//! 2. A call that is refused, for a fault or where memory runs out, leaves the names as they were.
//!
//! A command is added by one variant of `Word` and one row in each table: `WORDS`, `text`, `kinds`, `command_of`,
//! the same three in `specs/`, and the laws by cases on a word.
#![tactic(auto)]

mod arguments;
mod command;
mod early;
mod laws;
mod names;
mod reading;
mod refusal;
mod schedule;
mod script;
mod word;

pub use early::read_early;
pub use laws::limits_are_as_written;
pub use names::Names;
pub use refusal::{ScheduleRefusal, ScheduleWhat, ScriptRefusal, ScriptWhat};
pub use schedule::{Schedule, read_schedule};
pub use script::read_script;
pub use word::words_are_read;
