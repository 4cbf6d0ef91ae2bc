//! What the edges of a generated graph are.

ghost use Rattle.graph_maker.specs.Laws.{PairsAreEdges};

/// The pairs of a graph are edges between its vertices, none twice, and at most as many as are asked for.
pub fn pairs_are_edges()
    ensures { PairsAreEdges }
{}
