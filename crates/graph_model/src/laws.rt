//! Laws that show that the definitions mean what they say.
//!
//! Each is a function whose contract is the law: it takes nothing, does nothing, and is proved. The
//! name in a clause is a definition in `specs/`, in the file that its `ghost use` line names.

ghost use Rattle.graph_model.specs.Examples.{ClashExamples, RefusalExamples, AllowedExamples, LimitExamples, EffectExamples, TouchExamples, SoundExamples, CountExamples, RowExamples, ScanExamples};
ghost use Rattle.graph_model.specs.JournalExamples.{LegalExamples, IllegalExamples, ViewExamples, ConflictExamples, AccountExamples, StepExamples, BeginExamples, WriteExamples, CommitExamples};
ghost use Rattle.graph_model.specs.KernelExamples.{SearchExamples, PathExamples, ComponentExamples, LabelExamples, TextExamples};
ghost use Rattle.graph_model.specs.WriteLaws.{KeepsBothEnds, KeepsSymmetric, WritesCommute, StaysAllowed, ClashIsSymmetric, ListsCommute, ListsStayAllowed, WriteByKey, WritesByKey, TouchesAreOfVertices, ClashIsByRow};
ghost use Rattle.graph_model.specs.JournalLaws.{PrefixIsLegal, LegalHasBothEnds, PrefixHasItsGraphs, NoCommitIsLegal, OneCommitMore, CommitsAreSerial, EndsFollow, StartIsEnough, ViewIsSymmetric, ViewIsBounded, ViewHasNoLoops, ViewHasBothEnds};
ghost use Rattle.graph_model.specs.ConflictLaws.{NoConflict, NamesLeastJob, NamesNewest};
ghost use Rattle.graph_model.specs.AccountLaws.{BeginKeepsValid, WriteKeepsValid, ReadKeepsValid, EndKeepsValid, DoneScanIsWhole, PortionsAreTheRows, ScanTakesItsTurns, NextIsBehind};
ghost use Rattle.graph_model.specs.LimitLaws.{LimitsAre};
ghost use Rattle.graph_model.specs.RowLaws.{RowsRise, RowsAreOfTheGraph, RowsAreComplete, RangesAdjoin};
ghost use Rattle.graph_model.specs.KernelLaws.{RootIsNearest, OneDistance, OneLeastWeight, ArcAddsOne, ArcAddsItsWeight, NoWalkIsNone, WalksReach, ReachesIsWalk, ReachesByIsWalk, ReachesWithinIsWalk, ComponentIsNotAbove, OneComponent, ArcJoinsComponents, LeastIsItsComponent, FirstLabelIsTheVertex, LonelyKeepsItsLabel, TwiceIsOnce, OneTable};

/// A write that isn't refused keeps both ends of each arc vertices, and an undirected graph symmetric.
pub fn writes_keep_graphs_sound()
    ensures ends { KeepsBothEnds }
    ensures symmetric { KeepsSymmetric }
{}

/// Two writes that don't clash and that neither is refused commute, and neither makes the other
/// refused; so do two lists of writes. This is why one writer an item is enough.
pub fn apart_writes_commute()
    ensures commute { WritesCommute }
    ensures allowed { StaysAllowed }
    ensures symmetric { ClashIsSymmetric }
    ensures lists { ListsCommute }
    ensures all_allowed { ListsStayAllowed }
{}

/// What writes do to a graph, row by row, which rows they touch, and what a clash is by rows. A
/// store that looks at rows alone goes by these.
pub fn writes_are_by_key()
    ensures write { WriteByKey }
    ensures writes { WritesByKey }
    ensures touches { TouchesAreOfVertices }
    ensures clash { ClashIsByRow }
{}

/// A prefix of a legal journal is legal, and has the same graphs, each with both ends of its arcs.
pub fn prefixes_are_legal()
    ensures legal { PrefixIsLegal }
    ensures ends { LegalHasBothEnds }
    ensures graphs { PrefixHasItsGraphs }
{}

/// A journal is legal exactly where it grew from no commit, by commits that may follow each other.
pub fn journals_grow_by_commits()
    ensures none { NoCommitIsLegal }
    ensures more { OneCommitMore }
{}

/// Each commit is allowed on the graph of all commits before it, and not on its own snapshot alone:
/// a legal journal is a serial one as far as its graphs go.
pub fn commits_are_serial()
    ensures serial { CommitsAreSerial }
    ensures ends { EndsFollow }
    ensures later { StartIsEnough }
{}

/// What a transaction sees is a graph without loops, within the limits, with both ends of each arc,
/// and symmetric where edges have no direction.
pub fn views_are_sound()
    ensures symmetric { ViewIsSymmetric }
    ensures bounded { ViewIsBounded }
    ensures no_loops { ViewHasNoLoops }
    ensures ends { ViewHasBothEnds }
{}

/// A conflict names an open transaction that clashes, the one with the least job, or else the newest
/// later commit that does; and there is one wherever there is something to name.
pub fn conflicts_have_causes()
    ensures none { NoConflict }
    ensures holder { NamesLeastJob }
    ensures later { NamesNewest }
{}

/// What a call may do to an account keeps it valid, so long as what is seen of the journal is legal.
pub fn calls_keep_accounts_valid()
    ensures begin { BeginKeepsValid }
    ensures write { WriteKeepsValid }
    ensures read { ReadKeepsValid }
    ensures end { EndKeepsValid }
{}

/// Rows rise by key, and are exactly what the graph has in the range; ranges adjoin.
pub fn rows_are_of_the_graph()
    ensures rise { RowsRise }
    ensures sound { RowsAreOfTheGraph }
    ensures complete { RowsAreComplete }
    ensures adjoin { RangesAdjoin }
{}

/// A scan that is done has given all rows that were left, and from its beginning each row once, in so many
/// turns; one that goes on does so after what it has given.
pub fn scans_end_with_the_last_row()
    ensures done { DoneScanIsWhole }
    ensures portions { PortionsAreTheRows }
    ensures turns { ScanTakesItsTurns }
    ensures next { NextIsBehind }
{}

/// The root has 0, a vertex has one least length and one least weight, an arc adds at most one or
/// its weight, and within the limit of ids the number that stands for no walk means that there is none.
pub fn least_walks_are_distances()
    ensures root { RootIsNearest }
    ensures one_length { OneDistance }
    ensures one_weight { OneLeastWeight }
    ensures arc { ArcAddsOne }
    ensures weight { ArcAddsItsWeight }
    ensures none { NoWalkIsNone }
{}

/// The forms of walks that proofs use are the walks of the definition.
pub fn walks_have_their_forms()
    ensures forms { WalksReach }
    ensures reaches { ReachesIsWalk }
    ensures weighs { ReachesByIsWalk }
    ensures within { ReachesWithinIsWalk }
{}

/// A component is never above its vertex, the same at both ends of an arc, and its own component.
pub fn components_are_least_vertices()
    ensures below { ComponentIsNotAbove }
    ensures one { OneComponent }
    ensures arc { ArcJoinsComponents }
    ensures least { LeastIsItsComponent }
{}

/// The first label is the vertex, a vertex without neighbours keeps its label, and in an undirected
/// graph each neighbour may count once or twice.
pub fn labels_follow_neighbours()
    ensures first { FirstLabelIsTheVertex }
    ensures lonely { LonelyKeepsItsLabel }
    ensures twice { TwiceIsOnce }
{}

/// The definitions determine the tables.
pub fn tables_are_determined()
    ensures { OneTable }
{}

/// Each limit is the number that it is meant to be.
pub fn limits_are_as_written()
    ensures { LimitsAre }
{}

/// Worked examples of writes and of rows, with values reckoned by hand.
pub fn examples_hold()
    ensures clashes { ClashExamples }
    ensures refusals { RefusalExamples }
    ensures allowed { AllowedExamples }
    ensures limits { LimitExamples }
    ensures effects { EffectExamples }
    ensures touches { TouchExamples }
    ensures sound { SoundExamples }
    ensures counts { CountExamples }
    ensures rows { RowExamples }
    ensures scans { ScanExamples }
{}

/// Worked examples of journals, of what transactions see and meet, and of what an account allows.
pub fn journal_examples_hold()
    ensures legal { LegalExamples }
    ensures illegal { IllegalExamples }
    ensures views { ViewExamples }
    ensures conflicts { ConflictExamples }
    ensures accounts { AccountExamples }
    ensures steps { StepExamples }
    ensures begins { BeginExamples }
    ensures writes { WriteExamples }
    ensures commits { CommitExamples }
{}

/// Worked examples of the kernels' tables on small graphs.
pub fn kernel_examples_hold()
    ensures searches { SearchExamples }
    ensures paths { PathExamples }
    ensures components { ComponentExamples }
    ensures labels { LabelExamples }
    ensures text { TextExamples }
{}
