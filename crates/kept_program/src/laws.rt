//! Laws of how calls end, each the contract of a function.

ghost use Rattle.kept_program.specs.Laws.{AcceptedCallsEndWell, CallsWithRoomEndWell, CallsMakeGraphs, FaultySourcesAreTold, LongSourcesAreTold, BadWordsAreTold, FilesAreRecovered, StopsAreReadBack};

use journal_disk::Disk;

/// A run whose words and sources are accepted, and whose calls of the desk and of the disk all succeed, ends with
/// status 0, with 6 where a row found no place, or with 3 where memory runs out. With 0 or 3 alone where no leaves are
/// stated, and the rows that the graph and the lines of the scripts may insert are fewer than 103 for each of the
/// leaves that there may be. A graph that is made ends so as well.
pub fn accepted_calls_end_well<K: Disk>()
    ensures ends { AcceptedCallsEndWell K.moment K.may_leave K.left_since }
    ensures room { CallsWithRoomEndWell K.moment K.may_leave K.left_since }
    ensures graphs { CallsMakeGraphs K.moment K.may_leave K.left_since }
{}

/// A run whose words are taken, and whose calls of the desk and of the disk all succeed, names the first source that
/// isn't accepted, with its first fault, or the first that is too long. Words that aren't taken are bad words, and no
/// others are. Each may end with status 3, where memory runs out.
pub fn refused_calls_are_told<K: Disk>()
    ensures faulty { FaultySourcesAreTold K.moment K.may_leave K.left_since }
    ensures long { LongSourcesAreTold K.moment K.may_leave K.left_since }
    ensures words { BadWordsAreTold K.moment K.may_leave K.left_since }
{}

/// Reading a journal file back ends with status 0, with 1 where it is none, or with 3 where memory runs out, if all
/// calls of the desk and of the disk succeed.
pub fn files_are_recovered<K: Disk>()
    ensures { FilesAreRecovered K.moment K.may_leave K.left_since }
{}

/// What is read back of what a crash has left of a run's journal file is a front of the run's journal, with all commits
/// that were acknowledged by then.
pub fn stops_are_read_back()
    ensures { StopsAreReadBack }
{}
