//! A source that is read whole, in pieces, up to a limit.
//!
//! 1. A source that grows while it is read ends all the same: no more than one byte beyond the limit is asked for.
//! 2. The buffer of a piece serves all of them.
ghost use Rattle.std.specs.Prelude.{◌≡◌, ◌+◌, ◌<◌, ◌≤◌, length, min, vec_len, IfOk, IfErr, OnOk};
ghost use Rattle.desk_io.specs.Files.{IsSource, IsFront};
ghost use Rattle.desk_io.specs.Refusals.{IsRefused, Reads};

use crate::desk::{Desk, Failed};
use items::Items;
use std::alloc::{AllocError, Global};
use thiserror::Error;

/// A list of bytes, as a source that was read whole.
pub type Bytes = Items<u8>;

/// How many bytes one call of the desk reads at most: enough that the calls cost little, and little
/// enough that the buffer fits the processor's cache.
pub const PIECE: usize = 65_536;

/// Why a source was not read.
#[derive(Clone, Copy, Debug, PartialEq, Eq, Error)]
pub enum SourceRefusal {
    /// A call of the desk failed.
    #[error("the file cannot be read")]
    ReadFault,
    /// It has more bytes than a source may have.
    #[error("the file is too long")]
    TooLong,
    /// Memory for its bytes was refused.
    #[error("out of memory")]
    NoMemory,
}

impl From<Failed> for SourceRefusal {
    ghost use Rattle.desk_io.specs.declared.source.SourceRefusal.TheVariants as refusals;

    ghost from_gives = { λ _ e. e ≡ refusals.ReadFault };

    fn from(_: Failed) -> SourceRefusal {
        SourceRefusal::ReadFault
    }
}

impl From<AllocError> for SourceRefusal {
    ghost use Rattle.desk_io.specs.declared.source.SourceRefusal.TheVariants as refusals;

    ghost from_gives = { λ _ e. e ≡ refusals.NoMemory };

    fn from(_: AllocError) -> SourceRefusal {
        SourceRefusal::NoMemory
    }
}

/// What one turn of the reading found.
enum Piece {
    /// Some bytes came.
    Taken,
    /// There are no more.
    End,
}

/// Reads a source whole, unless it has more bytes than the limit. No more than one byte beyond the
/// limit is asked for.
pub fn read_source<D: Desk>(
    alloc: Global,
    desk: &mut D,
    name: &str,
    limit: u64,
) -> Result<Bytes, SourceRefusal>
    ensures whole { IfOk result (λ bytes. IsSource (D.files desk.old) name.now bytes) }
    ensures short { IfOk result (λ bytes. length bytes ≤ limit) }
    ensures ok { OnOk result (D.files desk.new ≡ D.files desk.old) }
    ensures refused { IfErr result
        (IsRefused name.now limit (D.files desk.old) (D.files desk.new)) }
{
    let mut buffer = buffer_of(alloc, PIECE)?;
    let mut bytes = Vec::new(alloc);
    'pieces: loop {
        match read_piece(desk, name, limit, buffer.as_mut_slice(), &mut bytes)? {
            Piece::Taken => {}
            Piece::End => return Ok(Items::from_vec(bytes)),
        }
    }
}

/// A buffer of this many bytes.
fn buffer_of(alloc: Global, len: usize) -> Result<Vec<u8>, AllocError>
    ensures { IfOk result (λ buffer. vec_len buffer ≡ len) }
{
    vec![in alloc; 0u8; len]
}

/// Reads the next piece and puts it after the bytes.
fn read_piece<D: Desk>(
    desk: &mut D,
    name: &str,
    limit: u64,
    buffer: &mut [u8],
    bytes: &mut Vec<u8>,
) -> Result<Piece, SourceRefusal>
    requires room { 0 < length buffer.old }
    requires short { vec_len bytes.old ≤ limit }
    requires front { IsFront (D.files desk.old) name.now bytes.old.items }
    ensures piece { IfOk result
        (Reads name.now limit (D.files desk.old) bytes.old.items bytes.new.items) }
    ensures ok { OnOk result (D.files desk.new ≡ D.files desk.old) }
    ensures refused { IfErr result
        (IsRefused name.now limit (D.files desk.old) (D.files desk.new)) }
{
    let at = bytes.len() as u64;
    let room = limit - at;
    let most = piece_len(buffer.len(), room);
    let count = desk.read(name, at, &mut buffer[..most])?;
    if count == 0 {
        return Ok(Piece::End);
    }
    if count as u64 > room {
        return Err(SourceRefusal::TooLong);
    }
    bytes.extend_from_slice(&buffer[..count])?;
    Ok(Piece::Taken)
}

/// How many bytes the next call asks for: one beyond the limit shows that a source is too long.
fn piece_len(most: usize, room: u64) -> usize
    ensures { result ≡ min most (room + 1) }
{
    if room < most as u64 {
        room as usize + 1
    } else {
        most
    }
}
