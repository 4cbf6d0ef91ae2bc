//! What a journal file says, as texts: the journal, and how large its graph is.
//!
//! 1. Nothing is written here. Both texts are made before the first output is created.
#![tactic(auto)]

pub mod below;
mod texts;

pub use texts::{RecoveredTexts, recover_texts};
