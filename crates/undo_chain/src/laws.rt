//! Lists of records are versions.
//!
//! 1. Callers cite this law and not the form of a record: what a record holds may change here without a change above.

ghost use Rattle.undo_chain.specs.Laws.{PushIsWrite, PopIsUndo, FrontIsPruned, StampIsStamp};

/// What the calls do to a list is what the definitions do to a row's versions.
pub fn lists_are_versions()
    ensures write { PushIsWrite }
    ensures undo { PopIsUndo }
    ensures prune { FrontIsPruned }
    ensures stamp { StampIsStamp }
{}
