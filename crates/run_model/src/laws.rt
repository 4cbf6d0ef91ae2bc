//! Laws of runs and of their texts. Each is a function whose contract is the law.

ghost use Rattle.run_model.specs.Laws.{TextIsOfOneJournal, TextIsOfOneReport, RunsAreShort, TextsTellRuns, FirstIsUnderWay, TurnIsUnderWay, ReachedIsUnderWay, LinesMayStand, SteppedRunsAreRuns, FullSettlesRuns};
ghost use Rattle.run_model.specs.Examples.{ConflictExamples, AnswerExamples, WrongAnswers, WrongParts, TextExamples, OrderExamples, TurnExamples, CountExamples, PlaceExamples};
ghost use Rattle.run_model.specs.LineExamples.{ReadExamples, WriteExamples, KernelExamples, LineTurnExamples};

/// Two journals with the same text are equal, where no number has more than 64 digits.
pub fn journal_text_is_of_one_journal()
    ensures { TextIsOfOneJournal }
{}

/// Two reports with the same text are equal, where no number has more than 64 digits.
pub fn report_text_is_of_one_report()
    ensures { TextIsOfOneReport }
{}

/// No number of a run's journal or reports has more than 64 digits.
pub fn runs_have_short_numbers()
    ensures { RunsAreShort }
{}

/// Two runs that wrote the same text of a journal or of a report have the same journal or report.
pub fn texts_tell_runs()
    ensures { TextsTellRuns }
{}

/// Each state that turns lead to from the inputs is that of a run under way, and the line at hand of each
/// script may stand there.
pub fn turns_keep_runs_under_way()
    ensures first { FirstIsUnderWay }
    ensures turn { TurnIsUnderWay }
    ensures reached { ReachedIsUnderWay }
    ensures lines { LinesMayStand }
{}

/// What scripts give that take their turns by a schedule and then by rotation is a run.
pub fn stepped_runs_are_runs()
    ensures { SteppedRunsAreRuns }
{}

/// Two runs by the same turns that find no place for the same writes give the same, in as many turns.
pub fn full_lines_settle_runs()
    ensures { FullSettlesRuns }
{}

/// The texts of a small journal, and of one answer of each kind.
pub fn worked_texts_hold()
    ensures { TextExamples }
{}

/// Runs that were worked by hand are runs, and outputs with one answer or one part wrong are not.
pub fn worked_runs_hold()
    ensures conflicts { ConflictExamples }
    ensures answers { AnswerExamples }
    ensures wrong_answers { WrongAnswers }
    ensures wrong_parts { WrongParts }
{}

/// Lines of each kind on graphs with weighted edges, with right answers and wrong ones, and the turns that they
/// take.
pub fn worked_lines_hold()
    ensures reads { ReadExamples }
    ensures writes { WriteExamples }
    ensures kernels { KernelExamples }
    ensures turns { LineTurnExamples }
{}

/// Runs by turns that were worked by hand, by rotation and by a schedule, with the turns that they take.
pub fn worked_turns_hold()
    ensures order { OrderExamples }
    ensures conflicts { TurnExamples }
    ensures counts { CountExamples }
    ensures places { PlaceExamples }
{}
