//! Pairs of vertices.
//!
//! 1. A pair is written as it was drawn, and compared with its lesser end first: 1 2 and 2 1 are one edge.

ghost use Rattle.std.specs.Prelude.{◌≡◌, ◌==◌, cond, nat_le};

/// Two vertices in the order in which they were drawn: a line of the edge file.
#[derive(Clone, Copy, Debug, PartialEq, Eq, Hash)]
pub struct VertexPair {
    /// The source, where the graph is directed.
    pub first: u64,
    /// The target there.
    pub second: u64,
}

impl VertexPair {
    ghost use Rattle.graph_maker.specs.Kept.{in_order};

    /// Whether it leads from a vertex to itself.
    pub(crate) fn is_loop(self) -> bool
        ensures { result ≡ (self.first == self.second) }
    {
        self.first == self.second
    }

    /// The same ends with the lesser one first.
    pub(crate) fn in_order(self) -> VertexPair
        ensures { result ≡ in_order self }
    {
        if self.first <= self.second {
            self
        } else {
            VertexPair {
                first: self.second,
                second: self.first,
            }
        }
    }
}
