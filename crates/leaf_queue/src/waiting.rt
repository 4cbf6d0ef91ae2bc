//! A leaf that waits, and which of two comes first.
//!
//! 1. Which comes first is an order by stage, then by key: the definition asks for the first window of all leaves.

ghost use Rattle.std.specs.Prelude.{◌≡◌, true, IfSome};
ghost use Rattle.leaf_queue.specs.Queue.{comes_before, first_of, next_of};

use graph_model::Key;

/// For what a leaf waits. All windows are looked at before any neighbours are.
#[derive(Clone, Copy, Debug, PartialEq, Eq)]
pub enum WaitStage {
    /// That its windows are looked at, and then its neighbours.
    Windows,
    /// That its neighbours are looked at.
    Neighbours,
}

/// A leaf that waits: for what, and by its least key and its number.
#[derive(Clone, Copy, Debug, PartialEq, Eq)]
pub struct Waiting {
    /// What it waits for: all windows come before all neighbours.
    pub stage: WaitStage,
    /// Its least key when it was put into the queue, by which those of one stage are in order.
    pub low: Key,
    /// Its number.
    pub leaf: usize,
}

impl Waiting {
    /// Whether it comes before the other.
    fn is_before(self, other: Waiting) -> bool
        ensures { result ≡ comes_before self other }
    {
        match (self.stage, other.stage) {
            (WaitStage::Windows, WaitStage::Neighbours) => true,
            (WaitStage::Neighbours, WaitStage::Windows) => false,
            (WaitStage::Windows, WaitStage::Windows) => self.low.is_below(other.low),
            (WaitStage::Neighbours, WaitStage::Neighbours) => self.low.is_below(other.low),
        }
    }

    /// For what it waits next, if it was looked at and nothing is to be done.
    pub(crate) fn next(self) -> Option<Waiting>
        ensures next { result ≡ next_of self }
        ensures same { IfSome result (λ w. w.leaf ≡ self.leaf) }
    {
        match self.stage {
            WaitStage::Windows => Some(Waiting {
                stage: WaitStage::Neighbours,
                ..self
            }),
            WaitStage::Neighbours => None,
        }
    }

    /// Whether both are the same: the same leaf, and neither comes before the other.
    pub(crate) fn is_same(self, other: Waiting) -> bool
        ensures { result ≡ true → self ≡ other }
    {
        self.leaf == other.leaf && !self.is_before(other) && !other.is_before(self)
    }
}

/// The one of two that comes first, the left one where neither does.
pub(crate) fn first_of(left: Option<Waiting>, right: Option<Waiting>) -> Option<Waiting>
    ensures { result ≡ first_of left right }
{
    match (left, right) {
        (Some(a), Some(b)) => { if b.is_before(a) { right } else { left } }
        (Some(_), None) => left,
        (None, _) => right,
    }
}
