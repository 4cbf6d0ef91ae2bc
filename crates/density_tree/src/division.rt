//! The even division of rows among segments.
//!
//! 1. Any two counts differ by one at most, and greater ones stand first, so the division of so many rows is one list
//!    and code can't choose.

ghost use Rattle.std.specs.Prelude.{◌≡◌, ◌≤◌, sum};
ghost use Rattle.density_tree.specs.Division.{evenly};

use std::marker::Model;

/// At most eight numbers, one for each segment.
#[derive(Drop)]
pub struct Counts {
    /// Those from `len` on mean nothing.
    counts: [u32; 8],
    /// How many of them count, at most eight.
    len: usize,
}

impl Model for Counts {
    ghost use Rattle.std.specs.Prelude.{◌≡◌, ◌≤◌, List, ℕ, length, take};

    ghost Value = { List ℕ };

    ghost view = { λ c. take c.len c.counts };

    ghost invariant = { λ c. (c.len ≤ 8) × (length c.counts ≡ 8) };
}

impl Counts {
    pub fn as_slice(&self) -> &[u32]
        ensures { result.now ≡ self.now }
    {
        &self.counts[..self.len]
    }
}

/// Divides rows among segments: each gets as many, and the first ones one more where they don't divide evenly.
pub fn spread_counts(rows: u32, segs: u32) -> Counts
    requires some { 1 ≤ segs }
    requires few { segs ≤ 8 }
    ensures even { result ≡ evenly rows segs }
    ensures all { sum result ≡ rows }
{
    let (share, more) = (rows / segs, rows % segs);
    let mut counts = [0; 8];
    'segments: for seg in 0..segs {
        counts[seg as usize] = if seg < more { share + 1 } else { share };
    }
    Counts {
        counts,
        len: segs as usize,
    }
}
