//! The words of the command line, read with clap.
//!
//! 1. The command is plain data in clap's words, and clap's definitions say which words it takes and what they give.
//! 2. A word that clap doesn't take, and a value that fails a check, are refused alike.
#![tactic(auto)]

mod app;
mod command;
mod laws;
mod names;
mod number;
mod refusal;
mod words;

pub use command::{MakeWords, ProgramWords, RecoverWords, RunWords};
pub use laws::words_ask_for_one_request;
pub use names::TakenName;
pub use refusal::WordsRefusal;
pub use words::read_words;
