//! What a segment's calls do is what the definitions of a store say.

ghost use Rattle.version_segment.specs.Laws.{WrittenIsWrite, UndoneIsUndo, TouchedIsTouch, UntouchedIsUntouch, StampsStayRight, KeyChanged, KeysPruned, RowsShared, ContentsOfSegment, BlockedIsCheck};
ghost use Rattle.version_segment.specs.Settling.{SegmentIsStamped, SegmentSettles};
ghost use Rattle.version_segment.specs.Resting.{RestedCanWake, RestsWoken, ValueWordsAre, WakesRested, WordsTell};

/// What the calls make of a key's versions, apart from the stamps.
pub fn changes_are_of_versions()
    ensures write { WrittenIsWrite }
    ensures undo { UndoneIsUndo }
    ensures touch { TouchedIsTouch }
    ensures untouch { UntouchedIsUntouch }
    ensures stamps { StampsStayRight }
{}

/// A change of a list of rows, key by key.
pub fn changes_are_by_key()
    ensures changed { KeyChanged }
    ensures pruned { KeysPruned }
    ensures shared { RowsShared }
{}

/// A segment is a cell of a store.
pub fn segments_are_cells()
    ensures { ContentsOfSegment }
{}

/// Where all transactions are known, a check answers what the check over names answers.
pub fn checks_are_by_names()
    ensures { BlockedIsCheck }
{}

/// A segment that is laid to rest may wake with its own fence keys and rows, and is as it was. One that is woken rests
/// as before.
pub fn segments_rest_and_wake()
    ensures wakes { WakesRested }
    ensures can { RestedCanWake }
    ensures rests { RestsWoken }
{}

/// Where all rows settle, a stamp and a prune leave the newest value of each.
pub fn segments_settle()
    ensures stamped { SegmentIsStamped }
    ensures settled { SegmentSettles }
{}

/// The value words of settled rows, of changed ones and of no value, each written out once more; and what they tell.
pub fn value_words_tell_values()
    ensures numbers { ValueWordsAre }
    ensures tell { WordsTell }
{}
