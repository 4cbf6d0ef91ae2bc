//! Worked examples of touches, as the contract of a function.
//!
//! 1. Values that were reckoned by hand, beside wrong ones: a changed definition is refused here.

ghost use Rattle.store_model.specs.TouchExamples.{TouchExamples};

/// A name stands among a row's touches once, and a stamp goes to touches as to pairs.
pub fn touch_examples_hold()
    ensures { TouchExamples }
{}
