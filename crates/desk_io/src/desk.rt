//! The trait of a desk: the files and the output that a program reaches.
//!
//! What is known of a desk is its ghost member `files`. A desk may tell the contents of its files,
//! as one in memory does, or tell none of them, as one over real files.
ghost use Rattle.std.specs.Prelude.{◌≡◌, ◌<◌, ◌≤◌, [], ◌++◌, length, take, IsNone, IfSome, IfNone, IfOk, OnOk, OnErr};
ghost use Rattle.desk_io.specs.Files.{Files, Gives, IsThere, ReadFails, WriteFails, NoWriteFails, ChangesOnly, IsWritten, with_piece};

use std::alloc::AllocError;
use thiserror::Error;

/// The answer of a call that failed. The desk counts it, and keeps the name.
#[derive(Clone, Copy, Debug, PartialEq, Eq, Error)]
#[error("the file cannot be reached")]
pub struct Failed;

impl From<AllocError> for Failed {
    fn from(_: AllocError) -> Failed {
        Failed
    }
}

/// Files by name, and an output that texts are said on.
pub trait Desk {
    ghost files: { Self → Files };

    /// Reads the file from the byte `at` on, and answers how many bytes it gave. A name with no
    /// file is a failure.
    fn read(&mut self, name: &str, at: u64, buffer: &mut [u8]) -> Result<usize, Failed>
        ensures bound { IfOk result (λ count. count ≤ length buffer.old) }
        ensures bytes { IfOk result (λ count. IfSome ((files self.old).holds name.now) (λ source.
            Gives source at buffer.new count)) }
        ensures found { OnOk result (IsThere (files self.old) name.now) }
        ensures ok { OnOk result (files self.new ≡ files self.old) }
        ensures err { OnErr result (ReadFails name.now (files self.old) (files self.new)) };

    /// Makes an empty file, in place of one that was there.
    fn create(&mut self, name: &str) -> Result<(), Failed>
        ensures empty { OnOk result (IsWritten (files self.new) name.now []) }
        ensures ok { OnOk result (NoWriteFails (files self.old) (files self.new)) }
        ensures others { ChangesOnly name.now (files self.old) (files self.new) }
        ensures err { OnErr result (WriteFails name.now (files self.old) (files self.new)) };

    /// Writes the first of the bytes at the end of the file, and answers how many it took.
    fn write(&mut self, name: &str, bytes: &[u8]) -> Result<usize, Failed>
        ensures bound { IfOk result (λ count. count ≤ length bytes.now) }
        ensures some { IfOk result (λ count. 0 < length bytes.now → 0 < count) }
        ensures appended { IfOk result (λ count. (files self.new).written name.now
            ≡ with_piece ((files self.old).written name.now) (take count bytes.now)) }
        ensures ok { OnOk result (NoWriteFails (files self.old) (files self.new)) }
        ensures others { ChangesOnly name.now (files self.old) (files self.new) }
        ensures err { OnErr result (WriteFails name.now (files self.old) (files self.new)) };

    /// Says the text at the end of the output. There is no answer: where it cannot be said, what
    /// was said is no longer told.
    fn say(&mut self, text: &[u8])
        ensures said { IfSome (files self.new).said (λ all. IfSome (files self.old).said (λ before.
            all ≡ before ++ text.now)) }
        ensures untold { IfNone (files self.old).said (IsNone (files self.new).said) }
        ensures rest { files self.new ≡ record (files self.old) { said = (files self.new).said } };
}
