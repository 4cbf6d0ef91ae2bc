//! Why words aren't taken.
//!
//! 1. All that is wrong with words is one cause: what clap refuses, and what is checked after it. Only running out of
//!    memory is told apart.

use items::NoMemory;
use std::alloc::AllocError;
use thiserror::Error;

/// Why words weren't read.
#[derive(Clone, Copy, Debug, PartialEq, Eq, Error)]
pub enum WordsRefusal {
    /// The words are none of the command's, or a value fails a check.
    #[error("bad words")]
    BadWords,
    /// Memory for the words was refused.
    #[error("no memory")]
    NoMemory,
}

impl From<AllocError> for WordsRefusal {
    ghost use Rattle.std.specs.Prelude.{◌≡◌};
    ghost use Rattle.command_words.specs.declared.refusal.WordsRefusal.TheVariants as refusals;

    ghost from_gives = { λ _ refusal. refusal ≡ refusals.NoMemory };

    fn from(_: AllocError) -> WordsRefusal {
        WordsRefusal::NoMemory
    }
}

impl From<clap::Error> for WordsRefusal {
    ghost use Rattle.command_words.specs.Views.{RefusesAs};

    ghost from_gives = { RefusesAs };

    fn from(error: clap::Error) -> WordsRefusal {
        if error.kind() == clap::error::ErrorKind::OutOfMemory {
            WordsRefusal::NoMemory
        } else {
            WordsRefusal::BadWords
        }
    }
}
