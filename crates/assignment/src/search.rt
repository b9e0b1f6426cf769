//! One search: from a waiting name to a number that nobody has, or to a name that leaves.
ghost use Rattle.std.specs.Prelude.{◌≡◌, ℕ, ◌+◌, ◌-◌, ◌<◌, ◌≤◌, length, IfOk, OnOk, IfSome, ◌⊎◌};
ghost use Rattle.std.specs.Prelude.{slice_index, slice_index_or, Some, None};
ghost use Rattle.std.specs.BTreeMap as btree;
ghost use Rattle.std.specs.Ordering.{nat_cmp};
ghost use Rattle.std.specs.BinaryHeap.{heap_items};
ghost use Rattle.assignment.specs.Solutions.{row_weight};
ghost use Rattle.assignment.specs.Standing.{IsSlack, IsMet};
ghost use Rattle.assignment.specs.Solving.{IsServing, IsSearching, IsFlipping, root_of};
ghost use Rattle.assignment.specs.Lazy.{level_of, lowered_to, IsLazy, IsExit, IsFollowed, HasEdges};
ghost use Rattle.assignment.specs.Lazy.{HasOtherEdges};

use crate::queue::{Edge, Queue};
use crate::solver::Solver;
use crate::tree::Tree;
use std::alloc::AllocError;
use std::cmp::Reverse;

/// The level at which a pair of the name at a position is tight, or else at which the name leaves.
#[derive(Clone, Copy, Debug)]
pub struct Nearest {
    pub level: u64,
    pub at: usize,
    pub number: Option<u32>,
}

impl Nearest {
    /// The nearer of the two.
    fn or(self, other: Nearest) -> Nearest
        ensures one { (result ≡ self) ⊎ (result ≡ other) }
        ensures first { result.level ≤ self.level }
        ensures second { result.level ≤ other.level }
    {
        if other.level < self.level {
            other
        } else {
            self
        }
    }
}

impl Solver<'_, '_, '_> {
    /// Follows an edge, and tells the exit that is left: the edge's, if it is nearer and nobody has
    /// its number. If somebody has it, who is not in the tree yet, the edge waits in the queue.
    fn follow(
        &self,
        tree: &Tree,
        queue: &mut Queue,
        edge: Edge,
        exit: Nearest,
    ) -> Result<Nearest, AllocError>
        requires { (n : ℕ) → btree.get nat_cmp self.now.pairs.owner edge.2 ≡ Some n
            → n < length tree.now.position.items }
        ensures { IfOk result
            (λ after. IsFollowed self.now tree.now (heap_items queue.old.heap)
            (heap_items queue.new.heap) edge exit after) }
    {
        let (Reverse(level), Reverse(at), number) = edge;
        if level >= exit.level {
            return Ok(exit);
        }
        let Some(owner) = self.pairs.owner_of(number) else {
            return Ok(Nearest {
                level,
                at,
                number: Some(number),
            });
        };
        if !tree.has(owner) {
            queue.push(edge)?;
        }
        Ok(exit)
    }

    /// Follows the edges of the tree's name at a position, and tells the exit that is left.
    fn reach(
        &self,
        tree: &Tree,
        queue: &mut Queue,
        at: usize,
        now: u64,
        mut exit: Nearest,
    ) -> Result<Nearest, AllocError>
        requires searching { IsLazy self.now tree.now now }
        requires at { at + 1 ≡ length tree.now.names.items }
        requires level { level_of tree.now at ≡ now }
        requires exit { IsExit self.now tree.now exit }
        requires later { now ≤ exit.level }
        requires edges { HasEdges self.now tree.now now exit.level (heap_items queue.old.heap) at }
        ensures exit { IfOk result (λ e. IsExit self.now tree.now e) }
        ensures later { IfOk result (λ e. now ≤ e.level) }
        ensures edges { IfOk result
            (λ e. HasEdges self.now tree.now now e.level (heap_items queue.new.heap)
            (length tree.now.names.items)) }
    {
        let name = tree.names[at];
        let high = self.duals.y[name as usize];
        let row = self.rows.row(name);
        for candidate in row {
            // as no potential is below 0, the edge is no nearer than this
            let least = now.saturating_add(high.saturating_sub(candidate.weight));
            if least >= exit.level {
                continue;
            }
            let slack = high + self.duals.value(candidate.number) - candidate.weight;
            let level = now.saturating_add(slack);
            let edge = (Reverse(level), Reverse(at), candidate.number);
            exit = self.follow(tree, queue, edge, exit)?;
        }
        Ok(exit)
    }

    /// The nearest edge of the queue to a number that the tree does not hold, or the exit, if that
    /// is no farther.
    fn next(&self, tree: &Tree, queue: &mut Queue, now: u64, exit: Nearest) -> Nearest
        requires searching { IsLazy self.now tree.now now }
        requires exit { IsExit self.now tree.now exit }
        requires later { now ≤ exit.level }
        requires edges { HasEdges self.now tree.now now exit.level (heap_items queue.old.heap)
            (length tree.now.names.items) }
        ensures later { now ≤ result.level }
        ensures below { result.level ≤ exit.level }
        ensures slack { IsSlack (row_weight self.now.rows.now)
            (lowered_to self.now.duals self.now.pairs tree.now now) tree.now.position.items
            tree.now.names.items (result.level - now) }
        ensures within { result.at < length tree.now.names.items }
        ensures met { IsMet (row_weight self.now.rows.now)
            (lowered_to self.now.duals self.now.pairs tree.now now) tree.now.position.items
            tree.now.names.items (result.level - now) result.at result.number }
        ensures rest { IfSome result.number
            (λ v. (n : ℕ) → btree.get nat_cmp self.now.pairs.owner v ≡ Some n
            → HasOtherEdges self.now tree.now result.level exit.level (heap_items queue.new.heap)
            v) }
    {
        while let Some((Reverse(level), Reverse(at), number)) = queue.pop() {
            if exit.level <= level {
                return exit;
            }
            if !self.pairs.holds(tree, number) {
                return Nearest {
                    level,
                    at,
                    number: Some(number),
                };
            }
        }
        exit
    }

    /// Gives the number to the name at a position of the tree, its number to the one before it, and
    /// so on to the first.
    fn flip(&mut self, tree: &Tree, mut at: usize, mut number: u32) -> Result<(), AllocError>
        requires { IsFlipping self.old tree.now at number }
        ensures rows { self.new.rows.now ≡ self.old.rows.now }
        ensures served { OnOk result (IsServing self.new (root_of tree.now + 1)) }
    {
        'path: loop {
            let name = tree.names[at];
            let Some(held) = self.pairs.give(name, number)? else {
                return Ok(());
            };
            number = held;
            at = tree.parents[at];
        }
    }

    /// The name at a position of the tree leaves, since its y is 0, and its number goes to the name
    /// before it.
    fn leave(&mut self, tree: &Tree, at: usize) -> Result<(), AllocError>
        requires searching { IsSearching self.old tree.now }
        requires at { at < length tree.now.names.items }
        requires zero { slice_index self.old.duals.y.items (slice_index tree.now.names.items at)
            ≡ 0 }
        ensures rows { self.new.rows.now ≡ self.old.rows.now }
        ensures served { OnOk result (IsServing self.new (root_of tree.now + 1)) }
    {
        let name = tree.names[at];
        let Some(number) = self.pairs.take(name) else {
            return Ok(());
        };
        let parent = tree.parents[at];
        self.flip(tree, parent, number)
    }

    /// Serves the next name: it has a number afterwards, or its y is 0. Others may have another
    /// number, or leave.
    pub fn search(
        &mut self,
        tree: &mut Tree,
        queue: &mut Queue,
        root: u32,
    ) -> Result<(), AllocError>
        requires serving { IsServing self.old root }
        requires root { root < length self.old.rows.now.rows }
        requires bare { slice_index_or self.old.pairs.given.items root None ≡ None }
        requires position { length tree.old.position.items ≡ length self.old.rows.now.rows }
        ensures rows { self.new.rows.now ≡ self.old.rows.now }
        ensures position { length tree.new.position.items ≡ length tree.old.position.items }
        ensures served { OnOk result (IsServing self.new (root + 1)) }
    {
        queue.clear();
        tree.start(root)?;
        let mut now = 0;
        let leaves = Nearest {
            level: self.duals.y[root as usize],
            at: 0,
            number: None,
        };
        let mut exit = self.reach(tree, queue, 0, now, leaves)?;
        'turns: loop {
            let best = self.next(tree, queue, now, exit);
            let Some(number) = best.number else {
                self.duals.settle(&self.pairs, tree, best.level)?;
                return self.leave(tree, best.at);
            };
            let Some(name) = self.pairs.owner_of(number) else {
                self.duals.settle(&self.pairs, tree, best.level)?;
                return self.flip(tree, best.at, number);
            };
            let at = tree.names.len();
            tree.push(name, best.at, best.level)?;
            now = best.level;
            let leaves = exit.or(Nearest {
                level: now + self.duals.y[name as usize],
                at,
                number: None,
            });
            exit = self.reach(tree, queue, at, now, leaves)?;
        }
    }
}
