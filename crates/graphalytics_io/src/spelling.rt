//! Lists at the end of a text, an item after the other.
//!
//! 1. A spelling is a type without values, so that one loop serves all lists, and is proved once.

ghost use Rattle.std.specs.Prelude.{◌≡◌, ◌++◌, ℕ, List, OnOk, OnErr};
ghost use Rattle.std.specs.List.{flat_map};
ghost use Rattle.graphalytics_io.specs.Appends.{Extends};

use crate::text::Text;
use items::NoMemory;

/// How an item is spelled. A type that implements this stands for a spelling and has no values.
pub trait Spelling<T> {
    ghost text_of: { T → List ℕ };

    /// Writes an item at the end of a text. Without memory the text may have a part of it.
    fn write(item: &T, text: &mut Text) -> Result<(), NoMemory>
        ensures ok { OnOk result (text.new ≡ text.old ++ text_of item.now) }
        ensures err { OnErr result (Extends text.old text.new) };
}

/// Writes items at the end of a text. Without memory the text may have some of them.
pub fn write_each<T, S: Spelling<T>>(items: &[T], text: &mut Text) -> Result<(), NoMemory>
    ensures ok { OnOk result (text.new ≡ text.old ++ flat_map S.text_of items.now) }
    ensures err { OnErr result (Extends text.old text.new) }
{
    'items: for item in items {
        S::write(item, text)?;
    }
    Ok(())
}

/// Writes items at the end of a text. Without memory nothing is written.
pub fn append_each<T, S: Spelling<T>>(items: &[T], text: &mut Text) -> Result<(), NoMemory>
    ensures ok { OnOk result (text.new ≡ text.old ++ flat_map S.text_of items.now) }
    ensures err { OnErr result (text.new ≡ text.old) }
{
    let before = text.len();
    let written = write_each::<T, S>(items, text);
    if written.is_err() {
        text.truncate(before);
    }
    written
}
