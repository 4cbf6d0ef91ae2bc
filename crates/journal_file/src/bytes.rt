//! Numbers and writes as bytes, and back.
//!
//! 1. A number has its least byte first, and each write 25 bytes: a tag and three numbers, those that it doesn't have
//!    as 0.
//! 2. Only bytes that keep the rules are read as a write, so each write has one form.
ghost use Rattle.std.specs.Prelude.{◌≡◌, ◌+◌, ◌≤◌, ◌++◌, length, OnOk};
ghost use Rattle.journal_file.specs.Format.{word, half, tagged, write_bytes};
ghost use Rattle.journal_file.specs.Reading.{word_at, half_at, on_vertex, on_edge, on_ends, of_tag, write_of};

use graph_model::{MAX_ID, MAX_WEIGHT, Write};
use items::NoMemory;

/// How many bytes a write has.
pub(crate) const WRITE_LEN: usize = 25;

/// Puts the eight bytes of a number at the end.
pub(crate) fn push_word(bytes: &mut Vec<u8>, number: u64) -> Result<(), NoMemory>
    ensures { OnOk result (bytes.new.items ≡ bytes.old.items ++ word number) }
{
    bytes.extend_from_slice(&number.to_le_bytes())?;
    Ok(())
}

/// Puts the four bytes of a number at the end.
pub(crate) fn push_half(bytes: &mut Vec<u8>, number: u32) -> Result<(), NoMemory>
    ensures { OnOk result (bytes.new.items ≡ bytes.old.items ++ half number) }
{
    bytes.extend_from_slice(&number.to_le_bytes())?;
    Ok(())
}

/// Puts the bytes of a write at the end.
pub(crate) fn push_write(bytes: &mut Vec<u8>, write: Write) -> Result<(), NoMemory>
    ensures { OnOk result (bytes.new.items ≡ bytes.old.items ++ write_bytes write) }
{
    match write {
        Write::AddVertex { v } => push_tagged(bytes, 0, v, 0, 0),
        Write::AddEdge { u, v, weight } => push_tagged(bytes, 1, u, v, weight),
        Write::SetEdge { u, v, weight } => push_tagged(bytes, 2, u, v, weight),
        Write::DropEdge { u, v } => push_tagged(bytes, 3, u, v, 0),
        Write::DropVertex { v } => push_tagged(bytes, 4, v, 0, 0),
    }
}

fn push_tagged(bytes: &mut Vec<u8>, tag: u8, u: u64, v: u64, weight: u64) -> Result<(), NoMemory>
    ensures { OnOk result (bytes.new.items ≡ bytes.old.items ++ tagged tag u v weight) }
{
    bytes.push(tag)?;
    push_word(bytes, u)?;
    push_word(bytes, v)?;
    push_word(bytes, weight)
}

/// The number of the eight bytes from a place on.
pub(crate) fn word_at(bytes: &[u8], at: usize) -> u64
    requires { at + 8 ≤ length bytes.now }
    ensures { result ≡ word_at bytes.now at }
{
    let mut word = [0; 8];
    word.copy_from_slice(&bytes[at..at + 8]);
    u64::from_le_bytes(word)
}

/// The number of the four bytes from a place on.
pub(crate) fn half_at(bytes: &[u8], at: usize) -> u32
    requires { at + 4 ≤ length bytes.now }
    ensures { result ≡ half_at bytes.now at }
{
    let mut half = [0; 4];
    half.copy_from_slice(&bytes[at..at + 4]);
    u32::from_le_bytes(half)
}

/// The write of 25 bytes, if they keep the rules.
pub(crate) fn write_of(bytes: &[u8]) -> Option<Write>
    requires { length bytes.now ≡ 25 }
    ensures { result ≡ write_of bytes.now }
{
    // The tag comes first, so the numbers stand at odd places; the bytes are copied, and no place has to be even.
    let (u, v, weight) = (word_at(bytes, 1), word_at(bytes, 9), word_at(bytes, 17));
    of_tag(bytes[0], u, v, weight)
}

/// The write of a kind with these ids and this weight.
fn of_tag(tag: u8, u: u64, v: u64, weight: u64) -> Option<Write>
    ensures { result ≡ of_tag tag u v weight }
{
    match tag {
        0 => on_vertex(Write::AddVertex { v: u }, u, v, weight),
        1 => on_edge(Write::AddEdge { u, v, weight }, u, v, weight),
        2 => on_edge(Write::SetEdge { u, v, weight }, u, v, weight),
        3 => on_ends(Write::DropEdge { u, v }, u, v, weight),
        4 => on_vertex(Write::DropVertex { v: u }, u, v, weight),
        _ => None,
    }
}

/// The write of a vertex, which has one id alone.
fn on_vertex(write: Write, u: u64, v: u64, weight: u64) -> Option<Write>
    ensures { result ≡ on_vertex write u v weight }
{
    // Numbers that a write doesn't have are 0 and nothing else, so that no two forms stand for one write.
    if u <= MAX_ID && (v == 0 && weight == 0) {
        Some(write)
    } else {
        None
    }
}

/// The write of an edge with its weight.
fn on_edge(write: Write, u: u64, v: u64, weight: u64) -> Option<Write>
    ensures { result ≡ on_edge write u v weight }
{
    if u <= MAX_ID && (v <= MAX_ID && weight <= MAX_WEIGHT) {
        Some(write)
    } else {
        None
    }
}

/// The write of an edge that has no weight.
fn on_ends(write: Write, u: u64, v: u64, weight: u64) -> Option<Write>
    ensures { result ≡ on_ends write u v weight }
{
    if u <= MAX_ID && (v <= MAX_ID && weight == 0) {
        Some(write)
    } else {
        None
    }
}
