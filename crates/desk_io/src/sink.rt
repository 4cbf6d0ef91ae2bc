//! A text that is written whole, in pieces.
//!
//! 1. A call of the desk may write fewer bytes than it was given. What is left is given again, until all are written or
//!    none was.
ghost use Rattle.std.specs.Prelude.{◌≡◌, OnOk, OnErr};
ghost use Rattle.desk_io.specs.Files.{NoWriteFails, ChangesOnly, IsWritten, SinkFails};

use crate::desk::{Desk, Failed};
use thiserror::Error;

/// A text was not written whole.
#[derive(Clone, Copy, Debug, PartialEq, Eq, Error)]
#[error("the file cannot be written")]
pub struct WriteFault;

impl From<Failed> for WriteFault {
    fn from(_: Failed) -> WriteFault {
        WriteFault
    }
}

/// Creates the file and writes the bytes to it. No memory is taken. An empty text is created, with
/// no call that writes.
pub fn write_sink<D: Desk>(desk: &mut D, name: &str, bytes: &[u8]) -> Result<(), WriteFault>
    ensures written { OnOk result (IsWritten (D.files desk.new) name.now bytes.now) }
    ensures ok { OnOk result (NoWriteFails (D.files desk.old) (D.files desk.new)) }
    ensures others { ChangesOnly name.now (D.files desk.old) (D.files desk.new) }
    ensures err { OnErr result
        (SinkFails name.now bytes.now (D.files desk.old) (D.files desk.new)) }
{
    desk.create(name)?;
    let mut taken = 0;
    'pieces: while taken < bytes.len() {
        taken += desk.write(name, &bytes[taken..])?;
    }
    Ok(())
}
