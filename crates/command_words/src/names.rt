//! Names that are compared byte by byte, with no memory taken.
//!
//! 1. A report's name is that of its script with `.report` after it. It is compared in two parts and never put
//!    together.

ghost use Rattle.std.specs.Prelude.{◌≡◌, ◌↔◌, IsTrue};
ghost use Rattle.command_words.specs.Words.{report_name};
ghost use Rattle.command_words.specs.Views.{taken_name};

/// A name that is taken from the start: one that the words give, or that of a script's report.
#[derive(Clone, Copy)]
pub enum TakenName<'a> {
    /// One that the words give.
    Given(&'a str),
    /// The name of this script's report.
    ReportOf(&'a str),
}

impl TakenName<'_> {
    /// Whether the two are one name.
    pub fn is(self, other: TakenName<'_>) -> bool
        ensures { IsTrue result ↔ (taken_name self.entry ≡ taken_name other.entry) }
    {
        match (self, other) {
            (TakenName::Given(a), TakenName::Given(b)) => are_one(a, b),
            (TakenName::Given(a), TakenName::ReportOf(b)) => is_report_of(a, b),
            (TakenName::ReportOf(a), TakenName::Given(b)) => is_report_of(b, a),
            (TakenName::ReportOf(a), TakenName::ReportOf(b)) => are_one(a, b),
        }
    }
}

/// Whether the names have the same bytes.
fn are_one(a: &str, b: &str) -> bool
    ensures { IsTrue result ↔ (a.now ≡ b.now) }
{
    a == b
}

/// Whether the name is that of the script's report.
fn is_report_of(name: &str, script: &str) -> bool
    ensures { IsTrue result ↔ (name.now ≡ report_name script.now) }
{
    match name.as_bytes().strip_suffix(b".report".as_slice()) {
        Some(front) => front == script.as_bytes(),
        None => false,
    }
}
