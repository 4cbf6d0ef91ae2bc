//! Laws of how calls end, each the contract of a function.

ghost use Rattle.teseo_program.specs.Laws.{AcceptedRunsEndWell, RunsWithRoomEndWell, GraphsAreMade, FaultySourcesAreNamed, LongSourcesAreNamed, LoadsFindRoom, RunsFindRoom, LimitsAre};

/// A run whose words and sources are accepted, and whose calls of the desk all succeed, ends with status 0, with 6
/// where a write found no place, or with 3 where memory runs out. With 0 or 3 alone where no leaves are stated, and the
/// rows that the graph and the lines of the scripts may insert are fewer than 103 for each of the leaves that there
/// may be.
pub fn accepted_runs_end_well()
    ensures ends { AcceptedRunsEndWell }
    ensures room { RunsWithRoomEndWell }
{}

/// A run names the first source that isn't accepted, with its first fault, or the first that is too long where those
/// before it are read whole, if no read fails; or it ends with 3 where memory runs out.
pub fn refused_sources_are_named()
    ensures faulty { FaultySourcesAreNamed }
    ensures long { LongSourcesAreNamed }
{}

/// A graph that is asked for is made and written with status 0, or ends with 3 where memory runs out, if all calls of
/// the desk succeed.
pub fn graphs_are_made()
    ensures { GraphsAreMade }
{}

/// Rows are counted up to as many as fill the greatest number of leaves.
pub fn limits_are_as_written()
    ensures { LimitsAre }
{}

/// Without stated leaves a store has room for all rows that the graph and the lines of the scripts may insert, if these
/// are fewer than 103 for each of the leaves that there may be: the graph is loaded, and no line is answered `full`.
pub fn stores_without_stated_leaves_have_room()
    ensures loads { LoadsFindRoom }
    ensures runs { RunsFindRoom }
{}
