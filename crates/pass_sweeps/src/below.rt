//! What crates above name of crates that they don't list.

pub use pass_steps::below::{Account, Accounts, Change, Pass, Resting, Store, value_in_word};
pub use pass_steps::{
    Asker, PassStates, begin, commit, end, learn, meet, name_holder, note_later, see_later, stop,
    unpin,
};
