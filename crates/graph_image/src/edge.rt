//! Arcs between places.
//!
//! 1. A place and a weight have 32 bits each, so a line of the cache has eight arcs.
//! 2. An arc is listed at both of its ends, each time with the place of the other one.

ghost use Rattle.std.specs.Prelude.{◌≡◌};
ghost use Rattle.graph_image.specs.Edges.{key_of, arc_of};

/// An arc, as it stands at the place of one of its ends: the place of the other end, and its weight.
#[derive(Clone, Copy, Debug, PartialEq, Eq)]
pub struct Arc {
    pub other: u32,
    pub weight: u32,
}

/// An arc between the vertices at two places.
#[derive(Clone, Copy, Debug, PartialEq, Eq)]
pub struct PlacedArc {
    pub from: u32,
    pub to: u32,
    pub weight: u32,
}

/// At which of its ends an arc is listed.
#[derive(Clone, Copy, Debug, PartialEq, Eq)]
pub enum Side {
    Out,
    Into,
}

impl PlacedArc {
    /// The place that lists it.
    pub fn key(self, side: Side) -> u32
        ensures { result ≡ key_of side self }
    {
        match side {
            Side::Out => self.from,
            Side::Into => self.to,
        }
    }

    /// How it is listed there.
    pub fn arc(self, side: Side) -> Arc
        ensures { result ≡ arc_of side self }
    {
        let other = match side {
            Side::Out => self.to,
            Side::Into => self.from,
        };
        Arc {
            other,
            weight: self.weight,
        }
    }
}
