//! Steps of a sweep that the rule of the account table allows, beside those that it has for pins. Each law is the
//! contract of a function.

ghost use Rattle.pass_steps.specs.RuleModel.Steps.{OfEachSeat};
ghost use Rattle.pass_sweeps.specs.GoingOn.{AccountGoesOn, IdleGoesOn, OpenGoesOn};
ghost use Rattle.pass_sweeps.specs.SweepLaws.{LeavesAreKnown, OtherSweepIsBehind, PublishedIsSeen, RowsArePrunedAsSeen, SweeperIsBehind, SweeperYields, WritersAreKnown};

/// A sweep begins no earlier than what its pass has seen; all that is published is seen by a load of the clock alone;
/// rows are pruned by the journal that was seen; and the sweeper gives the index back before its sweep ends.
pub fn sweeps_keep_the_rule()
    ensures sweeper_begins { OfEachSeat SweeperIsBehind }
    ensures other_begins { OfEachSeat OtherSweepIsBehind }
    ensures see { OfEachSeat PublishedIsSeen }
    ensures learn { OfEachSeat WritersAreKnown }
    ensures leaves { OfEachSeat LeavesAreKnown }
    ensures prune { OfEachSeat RowsArePrunedAsSeen }
    ensures yields { OfEachSeat SweeperYields }
{}

/// What a sweep leaves of a pass is the pass as it was, but that it has seen no less: it has no transaction, or its
/// open one, and its account goes on.
pub fn swept_passes_go_on()
    ensures account { AccountGoesOn }
    ensures idle { IdleGoesOn }
    ensures opened { OpenGoesOn }
{}
