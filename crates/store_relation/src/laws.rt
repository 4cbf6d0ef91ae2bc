//! What a store that many passes share keeps through each step of a transaction, and what each step tells the
//! pass that makes it. Each law is a function whose contract is the law.

ghost use Rattle.store_relation.specs.AccountLaws.{OfEachPass, AccountBegins, AccountWrites, AccountCommits, AccountCommitsNone, AccountAborts, AccountSees, AccountSights};
ghost use Rattle.store_relation.specs.CheckLaws.{CheckedIsFree, FreeMayBeWritten, CauseIsFound, LaterIsStamped, HolderIsOther};
ghost use Rattle.store_relation.specs.Examples.{RightSteps, StepResults, WrongSteps, WrongReads};
ghost use Rattle.store_relation.specs.ReadLaws.{ReadIsOfView, ReaderReadsView, PassLearns, ReaderLearns, WordTells, StampIsPlace, LooksTell, LooksTellRow, LookedHasMade, DropperHasRemoved, WordIsMet, StampIsMet, LookIsMet, HolderIsSighted, MetIsLater, ClockIsBounded, AccountIsValid, StoreCloses};
ghost use Rattle.store_relation.specs.RowLaws.{RowAfterIsWrite, RowBeforeIsUndo, RowKeepsStamps, OtherRowsStay, KeysAreAll, ChangedKeysCover, OthersAreLeft, NoneIsDone, OneMoreIsDone, AllAreDone, RowsGrowByOne, RowsAreKept, TouchedIsSomething};
ghost use Rattle.store_relation.specs.Loads.{LoadedStore};
ghost use Rattle.store_relation.specs.StepLaws.{InEachStore, NewStore, RoomIsMade, TransactionBegins, WriteIsMade, WriteIsFull, StampIsStored, CommitIsPublished, RowsAreStamped, AbortBegins, WriteIsUndone, TransactionEnds, NotesAreKept, JournalIsSeen, PassesMeet, RowsArePruned, ReaderIsSplit, ReaderIsJoined, ReadersStay, OnlyOpenLends};

/// A new store, room in its journal, and the begin of a transaction.
pub fn begins_keep_the_rule()
    ensures new { NewStore }
    ensures load { LoadedStore }
    ensures room { InEachStore RoomIsMade }
    ensures begin { InEachStore TransactionBegins }
{}

/// A write of any of the five kinds, and one that finds no place.
pub fn writes_keep_the_rule()
    ensures write { InEachStore WriteIsMade }
    ensures full { InEachStore WriteIsFull }
{}

/// A commit in its three steps: its stamp, the clock, and its rows.
pub fn commits_keep_the_rule()
    ensures stamp { InEachStore StampIsStored }
    ensures publish { InEachStore CommitIsPublished }
    ensures rows { InEachStore RowsAreStamped }
{}

/// An abort, which takes back its writes one by one; and the end of a transaction without a commit.
pub fn aborts_keep_the_rule()
    ensures stop { InEachStore AbortBegins }
    ensures undo { InEachStore WriteIsUndone }
    ensures end { InEachStore TransactionEnds }
{}

/// What a pass takes note of: other writers, the journal, and what another pass tells of it.
pub fn notes_keep_the_rule()
    ensures notes { InEachStore NotesAreKept }
    ensures refresh { InEachStore JournalIsSeen }
    ensures meet { InEachStore PassesMeet }
{}

/// Rows are pruned below the start of each transaction that may still commit.
pub fn prunes_keep_the_rule()
    ensures { InEachStore RowsArePruned }
{}

/// Readers are split off and joined, and no other step of their pass changes what they read.
pub fn readers_keep_the_rule()
    ensures split { InEachStore ReaderIsSplit }
    ensures join { InEachStore ReaderIsJoined }
    ensures others { InEachStore ReadersStay }
    ensures none { InEachStore OnlyOpenLends }
{}

/// An open transaction and its readers read their view, and what one load of the clock tells.
pub fn reads_are_of_the_view()
    ensures read { InEachStore ReadIsOfView }
    ensures reader { InEachStore ReaderReadsView }
    ensures learn { InEachStore PassLearns }
    ensures reader_learns { InEachStore ReaderLearns }
{}

/// What the word of a pass tells of the writer of a record, and what may be kept of it.
pub fn words_tell_of_writers()
    ensures word { InEachStore WordTells }
    ensures stamp { InEachStore StampIsPlace }
    ensures looks { InEachStore LooksTell }
    ensures row { InEachStore LooksTellRow }
{}

/// Whom a write meets: commits by their words, stamps and looks, and open transactions.
pub fn conflicts_are_noted()
    ensures made { InEachStore LookedHasMade }
    ensures dropped { InEachStore DropperHasRemoved }
    ensures word { InEachStore WordIsMet }
    ensures stamp { InEachStore StampIsMet }
    ensures look { InEachStore LookIsMet }
    ensures holder { InEachStore HolderIsSighted }
    ensures later { InEachStore MetIsLater }
{}

/// What the checks of a segment say of a write.
pub fn checks_allow_writes()
    ensures free { CheckedIsFree }
    ensures may_write { FreeMayBeWritten }
    ensures cause { CauseIsFound }
    ensures later { LaterIsStamped }
    ensures holder { HolderIsOther }
{}

/// What a write, or its undo, does to rows, and to which.
pub fn rows_change_by_writes()
    ensures write { RowAfterIsWrite }
    ensures undo { RowBeforeIsUndo }
    ensures stamps { RowKeepsStamps }
    ensures others { OtherRowsStay }
    ensures keys { KeysAreAll }
    ensures changed { ChangedKeysCover }
    ensures left { OthersAreLeft }
{}

/// The rows of a segment are changed key after key.
pub fn segments_change_by_key()
    ensures none { NoneIsDone }
    ensures more { OneMoreIsDone }
    ensures all { AllAreDone }
    ensures grow { RowsGrowByOne }
    ensures stay { RowsAreKept }
    ensures touched { TouchedIsSomething }
{}

/// What the steps of a call do to the account of its pass.
pub fn accounts_follow_steps()
    ensures begin { OfEachPass AccountBegins }
    ensures write { OfEachPass AccountWrites }
    ensures commit { OfEachPass AccountCommits }
    ensures commit_none { OfEachPass AccountCommitsNone }
    ensures abort { OfEachPass AccountAborts }
    ensures see { OfEachPass AccountSees }
    ensures sight { OfEachPass AccountSights }
{}

/// The clock is bounded, between calls each account is valid, and what is shown at the end.
pub fn stores_close()
    ensures clock { InEachStore ClockIsBounded }
    ensures account { InEachStore AccountIsValid }
    ensures close { InEachStore StoreCloses }
{}

/// Two passes on one store, step by step; and rules that would be wrong, each by the state to which it leads.
pub fn examples_hold()
    ensures right { RightSteps }
    ensures results { StepResults }
    ensures wrong { WrongSteps }
    ensures reads { WrongReads }
{}
