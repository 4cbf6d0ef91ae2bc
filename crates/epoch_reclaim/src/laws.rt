//! What pins hold back. Each law is a clause of a function, and the rule of a table cites it for the step of that name.

ghost use Rattle.epoch_reclaim.specs.PinLaws.{PassAnnounces, PassBegins, PassPins, PassEnds, PassUnpins, SweepBegins, SweepLooks, HorizonIsSafe};

/// Each step of a pass keeps what the pins say.
pub fn passes_stay_pinned()
    ensures announces { PassAnnounces }
    ensures begins { PassBegins }
    ensures pins { PassPins }
    ensures ends { PassEnds }
    ensures unpins { PassUnpins }
{}

/// So does each step of a sweep, and at its end nobody needs what lies below its horizon.
pub fn sweeps_are_safe()
    ensures begins { SweepBegins }
    ensures looks { SweepLooks }
    ensures horizon { HorizonIsSafe }
{}
