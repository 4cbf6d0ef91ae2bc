//! One word for the newest value of a row, which also tells whether the row has undo records.
//!
//! | word | the row |
//! |---|---|
//! | below 2^63 | has this weight, and no undo records |
//! | 2^63 and a weight | has this newest weight, and undo records |
//! | 2^64 - 1 | has no value now, and may have undo records |

ghost use Rattle.std.specs.Prelude.{◌≡◌, ◌≤◌, Some};
ghost use Rattle.graph_model.specs.declared.limits.TheConstants.{MAX_WEIGHT};
ghost use Rattle.row_table.specs.Parts.{value_in};
ghost use Rattle.version_segment.specs.Resting.{is_marked, value_in_word, weight_in_word};
ghost use Rattle.version_segment.specs.RestingParts.{head_word};

use row_table::below::Heads;

/// Is added to the newest weight of a row that has undo records: weights are far below it.
const MARK: u64 = 9223372036854775808;

/// Stands for no newest value: no marked weight is as great.
const NO_VALUE: u64 = 18446744073709551615;

/// The word of a row with these heads.
pub(crate) fn value_word(heads: Heads, weight: u64) -> u64
    requires { value_in heads weight ≡ Some weight → weight ≤ MAX_WEIGHT }
    ensures { result ≡ head_word heads weight }
{
    if !heads.has_value {
        return NO_VALUE;
    }
    match heads.undos {
        Some(_) => MARK + weight,
        None => weight,
    }
}

/// The weight that a word tells. Where there is no value it isn't read.
pub(crate) fn weight_in_word(word: u64) -> u64
    ensures { result ≡ weight_in_word word }
{
    if is_marked(word) { word - MARK } else { word }
}

/// The newest value that a word tells.
pub fn value_in_word(word: u64) -> Option<u64>
    ensures { result ≡ value_in_word word }
{
    if word == NO_VALUE {
        None
    } else {
        Some(weight_in_word(word))
    }
}

/// Whether the row may have older values than the one that its word tells.
pub fn is_marked(word: u64) -> bool
    ensures { result ≡ is_marked word }
{
    word >= MARK
}
