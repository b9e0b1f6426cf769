//! The pairs that a search may follow, the nearest first.
ghost use Rattle.std.specs.Prelude.{◌≡◌, ◌+◌, ◌≤◌, ◌∷◌, [], OnOk, IfSome, MatchOption};
ghost use Rattle.std.specs.BinaryHeap.{heap_items, heap_len, IsHeap};
ghost use Rattle.std.specs.List.{All};
ghost use Rattle.std.specs.List.Sorted.{IsPermutation};
ghost use Rattle.std.proofs.Props.{props};
ghost use Rattle.assignment.specs.Order.{edge_order};

use std::alloc::{AllocError, Global};
use std::cmp::Reverse;
use std::collections::BinaryHeap;

/// A level, a position of the tree and a number. Of the edges of one level those of the name that
/// was reached first come first, so that a search goes no deeper into the tree than it has to.
pub type Edge = (Reverse<u64>, Reverse<usize>, u32);

#[derive(Drop)]
pub struct Queue {
    pub heap: BinaryHeap<Edge>,
    ghost ordered: { IsHeap edge_order (heap_items heap) } by { Prim.hlevel props },
}

impl Queue {
    pub fn new(alloc: Global) -> Self
        ensures { heap_items result.heap ≡ [] }
    {
        Queue {
            heap: BinaryHeap::new(alloc),
        }
    }

    pub fn clear(&mut self)
        ensures { heap_items self.new.heap ≡ [] }
    {
        self.heap.clear();
    }

    pub fn push(&mut self, edge: Edge) -> Result<(), AllocError>
        ensures { OnOk result
            (IsPermutation (edge ∷ heap_items self.old.heap) (heap_items self.new.heap)) }
    {
        self.heap.push(edge)?;
        Ok(())
    }

    /// Takes out an edge of the least level.
    pub fn pop(&mut self) -> Option<Edge>
        ensures taken { MatchOption result (heap_items self.old.heap ≡ [])
            (λ e. IsPermutation (heap_items self.old.heap) (e ∷ heap_items self.new.heap)) }
        ensures least { IfSome result (λ e. All (λ x. e.0.0 ≤ x.0.0) (heap_items self.new.heap)) }
        ensures len { MatchOption result (heap_len self.new.heap ≡ 0)
            (λ _. heap_len self.new.heap + 1 ≡ heap_len self.old.heap) }
    {
        self.heap.pop()
    }
}
