//! The queue, as a tournament.
//!
//! 1. The places of the leaves are the last nodes of a tree. Each node above has the first of its two children, so the
//!    root has the first of all.
//! 2. Where a place changes, the nodes from there to the root are set anew: 17 of them with 131072 leaves.

ghost use Rattle.std.specs.Prelude.{◌≡◌, ◌<◌, ◌≤◌, None, Some, IfOk, IfSome, drop, length, replicate, slice_set};
ghost use Rattle.leaf_queue.specs.declared.waiting.Waiting.{Waiting};
ghost use Rattle.leaf_queue.specs.Queue.{IsFirst, Waits, next_of};
ghost use Rattle.leaf_queue.specs.Tree.{IsTree};

use crate::waiting::{Waiting, first_of};
use graph_model::NoMemory;
use std::alloc::Global;
use std::marker::Model;

/// By the numbers of leaves, which of them wait. The root is node 1, and the children of a node stand at twice its
/// place and after that.
#[derive(Drop)]
pub struct LeafQueue {
    /// In each node the first that waits below it.
    nodes: Vec<Option<Waiting>>,
    /// How many leaves there are, each with one place.
    leaves: usize,
}

impl Model for LeafQueue {
    ghost use Rattle.std.specs.Prelude.{List, Option, drop};
    ghost use Rattle.leaf_queue.specs.declared.waiting.Waiting.{Waiting};
    ghost use Rattle.leaf_queue.specs.Tree.{IsTree};

    ghost Value = { List (Option Waiting) };

    ghost view = { λ q. drop q.leaves q.nodes.items };

    ghost invariant = { λ q. IsTree q.leaves q.nodes.items };
}

impl LeafQueue {
    /// No leaf waits.
    pub fn new(alloc: Global, leaves: u32) -> Result<LeafQueue, NoMemory>
        requires { 1 ≤ leaves }
        ensures { IfOk result (λ q. q ≡ replicate leaves None) }
    {
        let leaves = leaves as usize;
        let nodes = empty_nodes(alloc, 2 * leaves)?;
        Ok(LeafQueue { nodes, leaves })
    }

    /// The leaf waits so from now on. Where it did already, nothing is written.
    pub fn add(&mut self, waiting: Waiting)
        requires { waiting.leaf < length self.old }
        ensures { self.new ≡ slice_set self.old waiting.leaf (Some waiting) }
    {
        if let Some(there) = self.nodes[self.leaves + waiting.leaf] {
            if there.is_same(waiting) {
                return;
            }
        }
        set_place(&mut self.nodes, self.leaves, waiting.leaf, Some(waiting));
    }

    /// A leaf was looked at, and nothing is to be done. It waits for the next stage, or after the last one not any
    /// more.
    pub fn pass(&mut self, waiting: Waiting)
        requires { Waits self.old waiting }
        ensures { self.new ≡ slice_set self.old waiting.leaf (next_of waiting) }
    {
        set_place(&mut self.nodes, self.leaves, waiting.leaf, waiting.next());
    }

    /// The first of those that wait.
    pub fn first(&self) -> Option<Waiting>
        ensures some { IfSome result (IsFirst self.now) }
        ensures none { result ≡ None → (waiting : Waiting) → Waits self.now waiting → ⊥ }
    {
        self.nodes[1]
    }
}

/// So many nodes, at none of which a leaf waits.
fn empty_nodes(alloc: Global, count: usize) -> Result<Vec<Option<Waiting>>, NoMemory>
    ensures { IfOk result (λ nodes. nodes.items ≡ replicate count None) }
{
    let mut nodes = Vec::with_capacity(alloc, count)?;
    'fill: for _node in 0..count {
        nodes.push(None)?;
    }
    Ok(nodes)
}

/// Sets a leaf's place, and the nodes above it.
fn set_place(nodes: &mut Vec<Option<Waiting>>, leaves: usize, leaf: usize, waiting: Option<Waiting>)
    requires tree { IsTree leaves nodes.old.items }
    requires within { leaf < leaves }
    requires number { IfSome waiting (λ w. w.leaf ≡ leaf) }
    ensures tree { IsTree leaves nodes.new.items }
    ensures places { drop leaves nodes.new.items ≡ slice_set (drop leaves nodes.old.items) leaf waiting }
{
    let mut at = leaves + leaf;
    nodes[at] = waiting;
    'above: while at > 1 {
        at /= 2;
        nodes[at] = first_of(nodes[2 * at], nodes[2 * at + 1]);
    }
}

#[cfg(test)]
mod tests {
    use super::*;
    use crate::waiting::WaitStage;
    use graph_model::Key;
    use std::test::Fail;

    /// A leaf whose windows are to be looked at.
    fn waiting(leaf: usize, src: u64) -> Waiting
        ensures { result.leaf ≡ leaf }
    {
        Waiting {
            stage: WaitStage::Windows,
            low: Key { src, second: 0 },
            leaf,
        }
    }

    #[test]
    fn the_first_in_key_order_comes_first_in_each_stage(rt: HostRuntime) -> Result<(), Fail> {
        let mut queue = LeafQueue::new(rt.alloc(), 3)?;
        assert!(rt; queue.first().is_none(), "in an empty queue");
        queue.add(waiting(0, 30));
        queue.add(waiting(1, 20));
        queue.add(waiting(2, 10));
        for want in [
            (2, WaitStage::Windows),
            (1, WaitStage::Windows),
            (0, WaitStage::Windows),
            (2, WaitStage::Neighbours),
            (1, WaitStage::Neighbours),
            (0, WaitStage::Neighbours),
        ] {
            let first = queue.first();
            assert_eq!(rt; first.map(|w| (w.leaf, w.stage)), Some(want), "the next");
            if let Some(waiting) = first {
                queue.pass(waiting);
            }
        }
        assert!(rt; queue.first().is_none(), "behind the last stage");
        Ok(())
    }
}
