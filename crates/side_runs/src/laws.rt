//! Laws of scripts that run side by side. Each is a function whose contract is the law.

ghost use Rattle.side_runs.specs.SideBySide.{RunsSideBySideAreRuns, RunsSideBySideAreMade};
ghost use Rattle.side_runs.specs.Examples.{SideExample};

/// What scripts give that ran side by side, each by the account of its pass, is a run; and each pass has made what the
/// lines of its script were answered.
pub fn scripts_side_by_side_are_runs()
    ensures runs { RunsSideBySideAreRuns }
    ensures made { RunsSideBySideAreMade }
{}

/// Two scripts side by side that set the weight of one edge, the second of which has not seen the commit of the first,
/// run by their accounts.
pub fn worked_side_runs_hold()
    ensures { SideExample }
{}
