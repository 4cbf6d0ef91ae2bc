//! Room for what the lines of a text are read as.
//!
//! 1. A list that grows is copied, each time into memory that nobody has touched yet. One that has room for all lines
//!    stays where it is.
//! 2. How many lines a text has is guessed from a part of it. On the guess rests nothing but time.

ghost use Rattle.std.specs.Prelude.{◌≡◌, []};

use items::Items;
use std::alloc::Global;

/// So many bytes of a text are looked at.
const LOOKED_AT: usize = 65536;

/// About how many lines a text has, by those in its middle; rather too many than too few, since room that isn't used
/// isn't touched.
pub(crate) fn lines_of(text: &[u8]) -> usize {
    let (_, behind) = text.split_at(text.len() / 2);
    let (part, _) = behind.split_at(behind.len().min(LOOKED_AT));
    let mut lines = 0usize;
    'bytes: for byte in part {
        if *byte == b'\n' {
            lines = lines.saturating_add(1);
        }
    }
    let each = part.len() / lines.max(1);
    let count = text.len() / each.max(1);
    count.saturating_add(count / 16)
}

/// An empty list with room for so many items; or with none, where there is no memory for all of them at once.
pub(crate) fn with_room<T>(alloc: Global, count: usize) -> Items<T>
    ensures { result ≡ [] }
{
    match Vec::with_capacity(alloc, count) {
        Ok(items) => Items::from_vec(items),
        Err(_) => Items::new(alloc),
    }
}
