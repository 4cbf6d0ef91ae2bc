//! Keys that cut a store into parts of about as many leaves.
//!
//! 1. What is loaded here is told of by no clause: it decides which part has how many rows, and nothing else.

ghost use Rattle.std.specs.Prelude.{◌≡◌, ◌<◌, true, false, IfOk, length};
ghost use Rattle.graph_model.specs.Rows.{end_key, first_key, is_below};
ghost use Rattle.reader_parts.specs.Cuts.{AreEnds};

use graph_model::{Key, LEAF_SEGMENTS, NoMemory};
use shared_readers::below::Store;
use std::alloc::Global;

/// So many leaves are looked at for each part: then the parts differ by some hundredths.
const LOOKS: usize = 64;

/// The keys at which so many parts end. The low keys of some leaves are loaded without a latch, each so many numbers
/// behind the last one, and put in order. They may be wrong, since rows move meanwhile: the parts are of other sizes
/// then.
pub(crate) fn cut_keys(alloc: Global, store: &Store, parts: usize) -> Result<Vec<Key>, NoMemory>
    requires { 0 < parts }
    ensures count { IfOk result (λ keys. length keys.items ≡ parts) }
    ensures ends { IfOk result (λ keys. AreEnds first_key end_key keys.items) }
{
    let lows = low_keys(alloc, store, parts.saturating_mul(LOOKS))?;
    let mut keys = Vec::with_capacity(alloc, parts)?;
    let mut last = Key::of_vertex(0);
    'parts: for part in 1..parts {
        // Never below the key before: a part may be empty then, and no row is in two of them.
        last = later_key(
            last,
            lows.as_slice(),
            lows.len().saturating_mul(part) / parts,
        );
        keys.push(last)?;
    }
    keys.push(Key::end())?;
    Ok(keys)
}

/// The key at a place where it is behind the last one and there may be rows behind it, and the last one elsewhere.
fn later_key(last: Key, lows: &[Key], place: usize) -> Key
    requires { is_below end_key last ≡ false }
    ensures onward { is_below result last ≡ false }
    ensures inside { is_below end_key result ≡ false }
{
    match lows.get(place) {
        Some(key) if is_between(last, *key) => *key,
        _ => last,
    }
}

/// Whether a key is behind another one and before the last one.
fn is_between(last: Key, key: Key) -> bool
    ensures onward { result ≡ true → is_below key last ≡ false }
    ensures inside { result ≡ true → is_below end_key key ≡ false }
{
    last.is_below(key) && key.is_below(Key::end())
}

/// The low keys of about so many leaves, in order.
fn low_keys(alloc: Global, store: &Store, wanted: usize) -> Result<Vec<Key>, NoMemory> {
    let cells = store.index_place();
    let step = step_of(cells as usize / LEAF_SEGMENTS, wanted);
    let mut lows = Vec::new(alloc);
    'leaves: for cell in (0..cells).step_by(step) {
        if let Some(low) = store.accounts.likely_low(cell) {
            lows.push(low)?;
        }
    }
    // The numbers of leaves aren't in the order of their keys.
    lows.sort_unstable();
    Ok(lows)
}

/// How many cells lie between two leaves that are looked at, where there are so many leaves.
fn step_of(leaves: usize, wanted: usize) -> usize
    ensures { 0 < result }
{
    (leaves / wanted.max(1))
        .max(1)
        .saturating_mul(LEAF_SEGMENTS)
}
