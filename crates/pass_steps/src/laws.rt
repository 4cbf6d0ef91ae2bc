//! What holds of passes between the steps of calls. Each law is the contract of a function.

ghost use Rattle.pass_steps.specs.Laws.{HolderIsMet, IdlePassIsBack, LaterIsMet, NewPassIsIdle, PassHasLooked, PassIsStepped};

/// A pass of a new store has no transaction, and one that has none may be taken back.
pub fn passes_come_and_go()
    ensures new { NewPassIsIdle }
    ensures back { IdlePassIsBack }
{}

/// A step of its account alone leaves a pass one of its store.
pub fn passes_are_stepped()
    ensures step { PassIsStepped }
    ensures look { PassHasLooked }
{}

/// Whom a check of held records names may be noted as one that the write has met.
pub fn conflicts_are_met()
    ensures later { LaterIsMet }
    ensures holder { HolderIsMet }
{}
