//! What the rule of the account table allows: each kind of step of a seat, and what it leaves and tells. Each law is a
//! function whose contract is the law.

ghost use Rattle.rule_model.specs.Steps.{OfEachSeat};
ghost use Rattle.rule_model.specs.Places.{BlockWordIsStored, ClockIsStored, LinesKeepApart, PassIsStored, PinIsStored};
ghost use Rattle.rule_model.specs.TxnSteps.{AbortBegins, ClockIsLoaded, CommitIsPublished, JournalIsSeen, PassesMeet, RoomIsMade, StampIsStored, TransactionBegins, TransactionEnds, WriteIsFull};
ghost use Rattle.rule_model.specs.NoteSteps.{HolderIsAnswered, HolderIsFound, LookIsKept, LookIsMet, PassLearns, ReaderLearns, ReaderLooks, StampIsMet, WordIsLooked};
ghost use Rattle.rule_model.specs.RowSteps.{RowsArePruned, RowsAreStamped, WriteGrowsByRows, WriteIsMade, WriteIsUndone};
ghost use Rattle.rule_model.specs.BlockSteps.{CellIsPacked, CellIsUnpacked, HolderLoads, ReadBegins, ReadEnds, ReaderReadEnds, WordIsRead, WordIsStored};
ghost use Rattle.rule_model.specs.PinSteps.{LeafIsNoted, LeavesAreFreed, OtherSweepBegins, OtherSweepEnds, PassAnnounces, PassPins, PassUnpins, SweepLooksOn, SweeperBegins, SweeperEnds};
ghost use Rattle.rule_model.specs.MoveSteps.{MergeIsMove, RowsAreMoved, SplitIsMove, SpreadIsMove};
ghost use Rattle.rule_model.specs.ViewSteps.{HeapIsOfNoAccount, OfEachView, ReaderIsJoined, ReaderIsSplit, SeatSplits, SeatsJoin};
ghost use Rattle.rule_model.specs.EndSteps.{LinesAreNew, LoadedTable, NewTable, TableBegins, TableCloses};
ghost use Rattle.rule_model.specs.LastSteps.{StoreCloses};
ghost use Rattle.rule_model.specs.Examples.{PlaceExamples, WrongRules};

/// Words lie apart: a store changes one word of one sort. So it is in a layout of lines.
pub fn words_have_places()
    ensures clock { ClockIsStored }
    ensures pass { PassIsStored }
    ensures pin { PinIsStored }
    ensures block { BlockWordIsStored }
    ensures lines { LinesKeepApart }
{}

/// Begin, commit and abort, but for their rows.
pub fn transactions_keep_the_rule()
    ensures clock { OfEachSeat ClockIsLoaded }
    ensures room { OfEachSeat RoomIsMade }
    ensures begin { OfEachSeat TransactionBegins }
    ensures stamp { OfEachSeat StampIsStored }
    ensures publish { OfEachSeat CommitIsPublished }
    ensures stop { OfEachSeat AbortBegins }
    ensures end { OfEachSeat TransactionEnds }
{}

/// A pass sees the journal, or what another has told it.
pub fn journals_are_seen()
    ensures refresh { OfEachSeat JournalIsSeen }
    ensures meet { OfEachSeat PassesMeet }
{}

/// What loads tell of held rows, and of the writers of their records.
pub fn passes_learn()
    ensures learn { OfEachSeat PassLearns }
    ensures reader_learns { OfEachSeat ReaderLearns }
    ensures look { OfEachSeat WordIsLooked }
    ensures kept_look { OfEachSeat LookIsKept }
    ensures reader_looks { OfEachSeat ReaderLooks }
{}

/// Whom a write meets is noted, and answered.
pub fn conflicts_are_noted()
    ensures holder { OfEachSeat HolderIsFound }
    ensures answer { OfEachSeat HolderIsAnswered }
    ensures stamp { OfEachSeat StampIsMet }
    ensures look { OfEachSeat LookIsMet }
{}

/// A write of any of the five kinds over any number of held cells, its undo, and one that finds no place.
pub fn writes_keep_the_rule()
    ensures write { OfEachSeat WriteIsMade }
    ensures grows { OfEachSeat WriteGrowsByRows }
    ensures undo { OfEachSeat WriteIsUndone }
    ensures full { OfEachSeat WriteIsFull }
{}

/// Records get their stamps, and go once nobody can see what they took back.
pub fn records_keep_the_rule()
    ensures stamp { OfEachSeat RowsAreStamped }
    ensures prune { OfEachSeat RowsArePruned }
{}

/// A holder unpacks a cell, stores its words and packs it.
pub fn blocks_keep_the_rule()
    ensures load { OfEachSeat HolderLoads }
    ensures unpack { OfEachSeat CellIsUnpacked }
    ensures word { OfEachSeat WordIsStored }
    ensures pack { OfEachSeat CellIsPacked }
{}

/// A read without a latch, by a pass or a reader.
pub fn reads_need_no_latch()
    ensures first { OfEachSeat ReadBegins }
    ensures word { OfEachSeat WordIsRead }
    ensures second { OfEachSeat ReadEnds }
    ensures reader { OfEachSeat ReaderReadEnds }
{}

/// A pass announces, pins and unpins itself, and notes leaves.
pub fn passes_stay_pinned()
    ensures announce { OfEachSeat PassAnnounces }
    ensures pin { OfEachSeat PassPins }
    ensures unpin { OfEachSeat PassUnpins }
    ensures note { OfEachSeat LeafIsNoted }
{}

/// A sweep over the pins, with the index or without it, and what it frees.
pub fn sweeps_keep_the_rule()
    ensures begin { OfEachSeat SweeperBegins }
    ensures other_begins { OfEachSeat OtherSweepBegins }
    ensures look { OfEachSeat SweepLooksOn }
    ensures free { OfEachSeat LeavesAreFreed }
    ensures end { OfEachSeat SweeperEnds }
    ensures other_ends { OfEachSeat OtherSweepEnds }
{}

/// Rows move between held cells: a spread, a split and a merge are such moves.
pub fn moves_keep_the_rule()
    ensures step { OfEachSeat RowsAreMoved }
    ensures spread { SpreadIsMove }
    ensures split { SplitIsMove }
    ensures merge { MergeIsMove }
{}

/// Views are cut in two and joined, with a reader or without one.
pub fn views_keep_the_rule()
    ensures split { OfEachView SeatSplits }
    ensures join { OfEachView SeatsJoin }
    ensures reader_splits { OfEachView ReaderIsSplit }
    ensures reader_joins { OfEachView ReaderIsJoined }
    ensures heap { HeapIsOfNoAccount }
{}

/// A new table, and what one shows who has all of it at the end.
pub fn stores_begin_and_close()
    ensures words { LinesAreNew }
    ensures new { NewTable }
    ensures begin { TableBegins }
    ensures load { LoadedTable }
    ensures close { TableCloses }
    ensures rows { StoreCloses }
{}

/// Worked places, and wrong rules that are refused.
pub fn examples_hold()
    ensures places { PlaceExamples }
    ensures wrong { WrongRules }
{}
