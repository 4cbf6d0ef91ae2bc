//! Laws of jobs on several threads. Each is a function whose contract is the law.

ghost use Rattle.thread_runner.specs.ByAccount.{TurnsKeepWhatRan, JobsRunTheirScripts, NewScriptsAreReady, NewScriptsRun};
ghost use Rattle.thread_runner.specs.Driving.{PartsAreCutAlike};

/// What turns by the account of a pass come to: the script's lines, one after the other.
pub fn turns_by_account_run_scripts()
    ensures turns { TurnsKeepWhatRan }
    ensures over { JobsRunTheirScripts }
{}

/// A script's turns from its first line on, by the account of a pass that had begun nothing.
pub fn new_scripts_run()
    ensures ready { NewScriptsAreReady }
    ensures run { NewScriptsRun }
{}

/// The parts of a cut are cut as the whole is.
pub fn parts_are_cut_alike()
    ensures { PartsAreCutAlike }
{}
