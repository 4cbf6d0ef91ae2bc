//! Laws that show that what the readers accept is a legal transaction.

ghost use Rattle.graph_files.specs.Laws.{LoadIsAllowed, LoadIsWithinLimits, LoadIsLegal, LoadIsItsGraph, FilesAreLoadable, FilesAreWithinLimits};

/// No write of the load is refused, its ids and weights are within their limits, and it may stand alone in a journal.
pub fn load_is_legal()
    ensures allowed { LoadIsAllowed }
    ensures within { LoadIsWithinLimits }
    ensures legal { LoadIsLegal }
{}

/// The journal of the load has the load's graph at its last stamp.
pub fn load_is_its_graph()
    ensures { LoadIsItsGraph }
{}

/// What the readers of graph files accept can be loaded, and has at most so many rows as they were allowed.
pub fn files_are_loadable()
    ensures loadable { FilesAreLoadable }
    ensures within { FilesAreWithinLimits }
{}
