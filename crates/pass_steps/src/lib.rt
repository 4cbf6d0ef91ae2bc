//! What a pass of a shared store does at the words of its table, but for its cells: it begins, commits and aborts, sees
//! the journal, learns of the rows that it holds and of their writers, and notes whom its writes meet.
//!
//! 1. Between two calls a pass has no transaction (`IsIdlePass`), an open one (`IsOpenPass`), or one that has ended and
//!    whose rows are still to be stamped (`IsEndedPass`). It holds nothing then.
//! 2. Whoever begins or commits holds the journal's latch meanwhile, and waits for it.
//! 3. Each step on a word is one of the kinds that the rule of the account table allows.
#![tactic(auto)]

mod beginning;
pub mod below;
mod committing;
mod ending;
mod journal;
mod laws;
mod learning;
mod notes;
mod pins;
mod seen;
mod states;

pub use beginning::begin;
pub use committing::commit;
pub use ending::{end, stop};
pub use laws::{conflicts_are_met, passes_are_stepped, passes_come_and_go};
pub use learning::learn;
pub use notes::{name_holder, note_later, see_later};
pub use pins::unpin;
pub use seen::{meet, refresh};
pub use states::{Asker, PassStates, read};
