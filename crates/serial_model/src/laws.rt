//! Laws of serialisable runs. Each is a function whose contract is the law.

ghost use Rattle.serial_model.specs.Laws.{AnswersDependOnFootprints, OtherCommitsLeaveAnswers, SerialSteppedRunsAreSerialRuns};
ghost use Rattle.serial_model.specs.Examples.{RefusalExamples, SkewExamples};

/// A line has one answer on graphs that agree on its footprint, so it is left by commits that write in no row of it.
pub fn answers_depend_on_footprints()
    ensures graphs { AnswersDependOnFootprints }
    ensures commits { OtherCommitsLeaveAnswers }
{}

/// What scripts give by turns that refuse commits is a serialisable run.
pub fn serial_stepped_runs_are_serial_runs()
    ensures { SerialSteppedRunsAreSerialRuns }
{}

/// Two scripts each of which looks at the edge that the other one sets: which commits stand against the second, and
/// that only a refused one leaves a serial order.
pub fn worked_refusals_hold()
    ensures refusals { RefusalExamples }
    ensures skew { SkewExamples }
{}
