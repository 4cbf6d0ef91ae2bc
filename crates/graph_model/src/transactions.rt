//! Laws of a journal and its open transactions. Each is a function whose contract is the law, and an
//! engine of any kind rests on them.

ghost use Rattle.graph_model.specs.TransactionLaws.{NoneAtFirst, BeginKeeps, WriteKeeps, CommitKeeps, EndKeeps, HorizonKeeps, CommitHasItsStamp, OpenHasNoStamp, StampStays, LatestChanges, NextBegins, OpenAreListed, ListIsRevised};

/// The journal stays legal and the writes of open transactions stay apart while transactions begin,
/// write, commit and end, under whatever horizon.
pub fn transactions_stay_apart()
    ensures at_first { NoneAtFirst }
    ensures begin { BeginKeeps }
    ensures write { WriteKeeps }
    ensures commit { CommitKeeps }
    ensures end { EndKeeps }
    ensures horizon { HorizonKeeps }
{}

/// A name has its commit's stamp for good, from the commit on.
pub fn names_have_their_stamps()
    ensures commit { CommitHasItsStamp }
    ensures none { OpenHasNoStamp }
    ensures stays { StampStays }
{}

/// Where each pass has at most one open transaction, that of its latest number, a step of one pass
/// changes one transaction: `S` is the state of a pass.
pub fn passes_have_one_transaction<S>()
    ensures latest { LatestChanges S }
    ensures next { NextBegins S }
    ensures listed { OpenAreListed S }
    ensures revised { ListIsRevised S }
{}
