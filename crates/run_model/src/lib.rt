//! What a run of scripts is: command lines, answers, reports and the journal, related by one definition.
//!
//! 1. The types hold values and do nothing; what they mean is said in `specs/` alone.
//! 2. A report has one answer for each line of its script, in the same order.
#![tactic(auto)]

mod answer;
mod command;
mod laws;

pub use answer::{Answer, Answers};
pub use command::{Command, Kernel, Name, Query, Script};
pub use laws::{
    full_lines_settle_runs, journal_text_is_of_one_journal, report_text_is_of_one_report,
    runs_have_short_numbers, stepped_runs_are_runs, texts_tell_runs, turns_keep_runs_under_way,
    worked_lines_hold, worked_runs_hold, worked_texts_hold, worked_turns_hold,
};
