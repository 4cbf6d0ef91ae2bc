//! What a store keeps through each kind of change, and what reads and checks get out of it. Each law is a
//! function whose contract is the law. A store of any kind cites them, and no store proves them again.

ghost use Rattle.store_model.specs.Examples.{LayerExamples, ReadExamples, PruneExamples, CheckExamples, StampExamples, CellExamples, StoreExample};
ghost use Rattle.store_model.specs.Laws.{ValueAtStamp, ValueOfView, ValueAtEnd, StoreNew, StoreBegun, OwnerBegun, StoreStopped, StoreWritten, OwnerWritten, OwnerLoaded, StoreCommitted, OwnerCommitted, StoreUndone, OwnerAborted, StorePruned, RowSettled, StoreSame, OwnerMoved, WriterOfPair, WriterOfTouch, LookedOpen, LookedCommitted, LookedLate, LookedLaid, LookedInRow, DroppedVertex, StampIsPlace, StampsNeverRise, CheckIsConflict, CheckAllows, CheckByParts, SeenAllows, SeenByRow, ContentsRouted, CellChanged};
ghost use Rattle.store_model.specs.RowLaws.{OwnWriteIsSeen, OtherWriteIsNotSeen, UndoTakesBack, TouchIsNotRead, PruneKeepsValues, ReadForgetsStamps, PruneForgetsStamps, StampKeepsVersions, StampsStayRight, ToldReadsAgree, ToldPrunesAgree, AgreedIsTold};

/// What reads, writes and prunes do to one row.
pub fn rows_keep_values()
    ensures own { OwnWriteIsSeen }
    ensures other { OtherWriteIsNotSeen }
    ensures undo { UndoTakesBack }
    ensures touch { TouchIsNotRead }
    ensures prune { PruneKeepsValues }
{}

/// Where records carry the stamps of their writers, a row says the same.
pub fn stamps_change_no_value()
    ensures read { ReadForgetsStamps }
    ensures prune { PruneForgetsStamps }
    ensures stamp { StampKeepsVersions }
    ensures grow { StampsStayRight }
{}

/// Whoever is told the same of the writers of records without a stamp reads and prunes the same.
pub fn tellers_agree()
    ensures read { ToldReadsAgree }
    ensures prune { ToldPrunesAgree }
    ensures all { AgreedIsTold }
{}

/// Rows give an open transaction its view, each stamp from the horizon on its graph, and at the end the
/// newest graph.
pub fn rows_give_views()
    ensures stamp { ValueAtStamp }
    ensures view { ValueOfView }
    ensures end { ValueAtEnd }
{}

/// A new store, a begin, and a transaction that can't commit any more.
pub fn begins_keep_stores()
    ensures new { StoreNew }
    ensures begun { StoreBegun }
    ensures owner { OwnerBegun }
    ensures stopped { StoreStopped }
{}

/// A write that its view allows and that meets nobody; and all writes of a load.
pub fn writes_keep_stores()
    ensures written { StoreWritten }
    ensures owner { OwnerWritten }
    ensures loaded { OwnerLoaded }
{}

/// A commit changes no row.
pub fn commits_keep_stores()
    ensures committed { StoreCommitted }
    ensures owner { OwnerCommitted }
{}

/// The newest write goes first.
pub fn undos_keep_stores()
    ensures undone { StoreUndone }
    ensures owner { OwnerAborted }
{}

/// What no open transaction can see may go, in any of the rows.
pub fn prunes_keep_stores()
    ensures pruned { StorePruned }
    ensures settled { RowSettled }
{}

/// A move changes nothing.
pub fn moves_keep_stores()
    ensures same { StoreSame }
    ensures owner { OwnerMoved }
{}

/// The names in a row say who clashes.
pub fn rows_name_their_writers()
    ensures pairs { WriterOfPair }
    ensures touches { WriterOfTouch }
    ensures open { LookedOpen }
    ensures committed { LookedCommitted }
    ensures late { LookedLate }
    ensures laid { LookedLaid }
    ensures by_row { LookedInRow }
    ensures dropped { DroppedVertex }
{}

/// A stamp is the place of a commit; open writers stand on top of a row, and below them stamps never rise.
pub fn stamps_follow_the_journal()
    ensures place { StampIsPlace }
    ensures fall { StampsNeverRise }
{}

/// A check of the names at which a write looks answers exactly what snapshot isolation answers.
pub fn checks_are_exact()
    ensures conflict { CheckIsConflict }
    ensures allows { CheckAllows }
    ensures parts { CheckByParts }
    ensures seen { SeenAllows }
    ensures by_row { SeenByRow }
{}

/// Rows may lie in cells, under fence keys.
pub fn cells_hold_contents()
    ensures routed { ContentsRouted }
    ensures changed { CellChanged }
{}

/// Worked examples of the definitions, with values reckoned by hand, and a store that holds.
pub fn examples_hold()
    ensures layers { LayerExamples }
    ensures reads { ReadExamples }
    ensures prunes { PruneExamples }
    ensures checks { CheckExamples }
    ensures stamps { StampExamples }
    ensures cells { CellExamples }
    ensures store { StoreExample }
{}
