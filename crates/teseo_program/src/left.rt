//! What a call leaves of the store that ran.
//!
//! 1. Only an engine, or a store that was closed, makes such a value: so it tells that one ran.

use source_run::Ran;
use source_run::below::{Closed, CoreJournal};

/// What is left of the store that ran.
#[derive(Drop)]
pub enum Left {
    /// No run has been written whole.
    Nothing,
    /// The journal of a run by turns, with what each of its passes did. Nothing but an engine makes one.
    Stepped { ran: CoreJournal },
    /// The journal and the counts of a run on threads. Nothing but the end of a store makes one.
    Shared { ran: Closed },
}

impl From<Ran> for Left {
    ghost use Rattle.std.specs.Prelude.{◌≡◌};
    ghost use Rattle.teseo_program.specs.Outcomes.{left_of};

    ghost from_gives = { λ ran left. left ≡ left_of ran };

    fn from(ran: Ran) -> Left {
        match ran {
            Ran::Stepped(ran) => Left::Stepped { ran },
            Ran::Shared(ran) => Left::Shared { ran },
        }
    }
}
