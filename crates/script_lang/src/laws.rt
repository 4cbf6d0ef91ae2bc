//! A law of the limits, as the contract of a function.

ghost use Rattle.script_lang.specs.LimitLaws.{LimitsAre};

/// Each limit is the number that it is meant to be.
pub fn limits_are_as_written()
    ensures { LimitsAre }
{}
