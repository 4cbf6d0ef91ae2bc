//! The edges of a text, read by several threads.
//!
//! 1. A text is cut in two after a line feed, so that no line is cut, and each half again.
//! 2. The list of the first lines has room for the edges of all, so that those of later ones are copied and these aren't.
//! 3. Where a line has a fault by itself, nothing is said of the text. It is then read from its begin by one thread, so
//!    the first fault is the first.

ghost use Rattle.std.specs.Prelude.{◌≡◌, ◌<◌, ◌++◌, ℕ, List, IfOk, IfSome};
ghost use Rattle.std.specs.Thread.{IsSync};
ghost use Rattle.graph_files.specs.Weights.{AreReadable};
ghost use Rattle.graph_files.specs.Halves.{IsCut, IsReadAs};

use crate::faultless::read_lines;
use crate::room::lines_of;
use crate::weights::Weights;
use graphalytics_io::Edges;
use items::NoMemory;
use memchr::memchr;
use std::alloc::Global;
use std::thread::{Threads, join};

/// A shorter text isn't worth a thread.
const LEAST_BYTES: usize = 65536;

/// The edges of a text, by themselves, if no line has a fault by itself, in a list with room for so many.
#[cycle(halves)]
pub(crate) fn read_halves<R: Threads + Sync>(
    rt: &R,
    alloc: Global,
    text: &[u8],
    weights: Weights,
    cuts: u32,
    room: usize,
) -> Result<Option<Edges>, NoMemory>
    requires { AreReadable weights }
    ensures { IfOk result (IsReadAs weights text.now) }
{
    if cuts == 0 || text.len() < LEAST_BYTES {
        return read_alone(alloc, text, weights, room);
    }
    match cut(text) {
        Some((front, behind)) => read_both(rt, alloc, front, behind, weights, cuts, room),
        None => read_alone(alloc, text, weights, room),
    }
}

/// The same for two halves of a text.
#[cycle(halves)]
fn read_both<R: Threads + Sync>(
    rt: &R,
    alloc: Global,
    front: &[u8],
    behind: &[u8],
    weights: Weights,
    cuts: u32,
    room: usize,
) -> Result<Option<Edges>, NoMemory>
    requires readable { AreReadable weights }
    requires cuts { 0 < cuts }
    ensures { IfOk result (λ found. (text : List ℕ) → IsCut text front.now behind.now → IsReadAs weights text found) }
{
    let (first, second) = join(
        rt,
        || -> Result<Option<Edges>, NoMemory>
            requires { IsSync R.row × (0 < cuts) × AreReadable weights }
            ensures { IfOk result (IsReadAs weights front.entry.now) }
        { read_halves(rt, alloc, front, weights, cuts - 1, room) },
        || -> Result<Option<Edges>, NoMemory>
            requires { IsSync R.row × (0 < cuts) × AreReadable weights }
            ensures { IfOk result (IsReadAs weights behind.entry.now) }
        { read_halves(rt, alloc, behind, weights, cuts - 1, lines_of(behind)) },
    );
    let (first, second) = (first?, second?);
    match (first, second) {
        (Some(first), Some(second)) => Ok(Some(joined(first, &second)?)),
        _ => Ok(None),
    }
}

/// Edges, and others after them.
fn joined(first: Edges, second: &Edges) -> Result<Edges, NoMemory>
    ensures { IfOk result (λ edges. edges ≡ first ++ second.now) }
{
    let mut edges = first.into_vec();
    edges.extend_from_slice(second.as_slice())?;
    Ok(Edges::from_vec(edges))
}

/// The edges of a text, read by one thread.
fn read_alone(
    alloc: Global,
    text: &[u8],
    weights: Weights,
    room: usize,
) -> Result<Option<Edges>, NoMemory>
    requires { AreReadable weights }
    ensures { IfOk result (IsReadAs weights text.now) }
{
    let front = read_lines(alloc, text, weights, room)?;
    if front.is_whole {
        Ok(Some(front.edges))
    } else {
        Ok(None)
    }
}

/// Cuts a text after the first line feed of its second half, if it has one.
fn cut(text: &[u8]) -> Option<(&[u8], &[u8])>
    ensures { IfSome result (λ parts. IsCut text.now parts.0.now parts.1.now) }
{
    let middle = text.len() / 2;
    let (_, behind) = text.split_at(middle);
    let at = memchr(b'\n', behind)?;
    Some(text.split_at(middle + at + 1))
}
