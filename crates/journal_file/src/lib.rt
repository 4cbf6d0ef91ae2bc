//! A journal in a file that survives a stop.
//!
//! 1. The file has a header, and then for each commit a gate and a body. A body counts where its gate is open and all
//!    before it counts. A gate that is closed stands last.
//! 2. A body is on the disk, with a closed gate after it, before its own gate is opened. So a crash leaves a front of
//!    the commits at any moment.
//! 3. A commit is acknowledged once its gate is on the disk. From then on each crash leaves it.
//! 4. What is read are the commits up to the first gate that isn't open, or the first body that breaks a rule: a file
//!    that anyone wrote is read to its end and no further.
#![tactic(auto)]

mod bytes;
mod file;
mod laws;
mod reading;
mod record;
mod recovery;
mod refusal;

pub use file::JournalFile;
pub use laws::files_stand_for_their_commits;
pub use reading::CommitHead;
pub use record::Record;
pub use recovery::{Recovered, recover};
pub use refusal::{DiskFault, RecoverRefusal};
