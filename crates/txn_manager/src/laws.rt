//! Laws of a manager's calls. Each is a function whose contract is the law, and an engine of one owner
//! rests on them.

ghost use Rattle.txn_manager.specs.ManagerLaws.{NoneIsOpenAtFirst, OpenedIsOpen, WrittenIsOpen, EndedIsGone};
ghost use Rattle.txn_manager.specs.ManagerLaws.{OpenIsRunning, CheckedCommitIsLegal};
ghost use Rattle.txn_manager.specs.ManagerLaws.{HorizonIsBelow, HorizonIsWithin, HorizonIsGreatest};

/// Open transactions with their writes stay the manager's open ones while they begin, write and end.
pub fn calls_follow_transactions()
    ensures first { NoneIsOpenAtFirst }
    ensures begin { OpenedIsOpen }
    ensures write { WrittenIsOpen }
    ensures end { EndedIsGone }
    ensures running { OpenIsRunning }
{}

/// The journal stays legal where each write was checked before its commit was pushed.
pub fn checked_commits_are_legal()
    ensures { CheckedCommitIsLegal }
{}

/// Below the horizon no open transaction reads, and it is as late as that allows.
pub fn horizon_is_safe()
    ensures below { HorizonIsBelow }
    ensures within { HorizonIsWithin }
    ensures greatest { HorizonIsGreatest }
{}
