//! Words that are numbers.
//!
//! 1. Digits alone are taken: no sign, no blank, no digit of another script.
//! 2. At most 20 of them, leading zeros counted, so a number is read with no memory and never overflows unseen.

ghost use Rattle.std.specs.Prelude.{◌≡◌, ℕ, IfSome, IfNone, IsTrue, ◌↔◌, Some, slice_get};
ghost use Rattle.command_words.specs.Numbers.{IsNumber};

/// How many digits a number may have.
const MAX_DIGITS: usize = 20;

/// The number that the text is: 1 to 20 ASCII digits with a value in the range. Takes no memory.
pub(crate) fn read_number(text: &str, least: u64, most: u64) -> Option<u64>
    ensures number { IfSome result (IsNumber least most text.now) }
    ensures none { IfNone result ((number : ℕ) → IsNumber least most text.now number → ⊥) }
{
    // Before it is parsed: so many leading zeros would be taken else, however long the word is.
    if text.len() > MAX_DIGITS {
        return None;
    }
    // The library's parser takes a plus, and a number here has digits alone.
    if has_plus(text) {
        return None;
    }
    let number = text.parse::<u64>().ok()?;
    if number < least || number > most {
        return None;
    }
    Some(number)
}

/// Whether a plus stands first.
fn has_plus(text: &str) -> bool
    ensures { IsTrue result ↔ (slice_get text.now 0 ≡ Some 43) }
{
    text.as_bytes().first() == Some(&b'+')
}
