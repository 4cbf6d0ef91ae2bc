//! A law of journal files, the contract of a function.

ghost use Rattle.journal_file.specs.Laws.{FilesStandForTheirCommits};

/// A file stands for its commits, whatever comes after a gate that isn't open.
pub fn files_stand_for_their_commits()
    ensures { FilesStandForTheirCommits }
{}
