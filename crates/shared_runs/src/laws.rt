//! The law, as the contract of a function.

ghost use Rattle.shared_runs.specs.Closing.{ClosedStoresLeaveRuns};

/// What scripts leave that ran on the passes of a shared store is a run, once the store is closed; and the accounts of
/// the passes show it.
pub fn closed_stores_leave_runs()
    ensures { ClosedStoresLeaveRuns }
{}
