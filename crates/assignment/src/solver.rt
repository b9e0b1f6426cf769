//! The solver: it serves the names one by one.
ghost use Rattle.std.specs.Prelude.{◌≡◌, ◌+◌, ◌<◌, length, IfOk, OnOk};
ghost use Rattle.assignment.specs.Solving.{IsServing};

use crate::duals::Duals;
use crate::pairs::Pairs;
use crate::queue::Queue;
use crate::tree::Tree;
use candidates::Rows;
use std::alloc::{AllocError, Global};

/// What was given so far, with the potentials.
#[derive(Drop)]
pub struct Solver<'r, 'n, 'a> {
    pub rows: &'r Rows<'n, 'a>,
    pub duals: Duals,
    pub pairs: Pairs,
}

impl<'r, 'n, 'a> Solver<'r, 'n, 'a> {
    /// Serves the next name, by a search where it has no number and its y is not 0.
    fn serve(&mut self, tree: &mut Tree, queue: &mut Queue, root: u32) -> Result<(), AllocError>
        requires serving { IsServing self.old root }
        requires root { root < length self.old.rows.now.rows }
        requires position { length tree.old.position.items ≡ length self.old.rows.now.rows }
        ensures rows { self.new.rows.now ≡ self.old.rows.now }
        ensures position { length tree.new.position.items ≡ length tree.old.position.items }
        ensures served { OnOk result (IsServing self.new (root + 1)) }
    {
        if self.pairs.number_of(root).is_some() {
            return Ok(());
        }
        if self.duals.y[root as usize] == 0 {
            return Ok(());
        }
        self.search(tree, queue, root)
    }

    /// Everybody is served.
    pub fn solved(alloc: Global, rows: &'r Rows<'n, 'a>) -> Result<Self, AllocError>
        ensures rows { IfOk result (λ s. s.rows.now ≡ rows.now) }
        ensures served { IfOk result (λ s. IsServing s (length rows.now.rows)) }
    {
        let mut solver = Solver::begun(alloc, rows)?;
        let mut tree = Tree::new(alloc, rows.len() as usize)?;
        let mut queue = Queue::new(alloc);
        for root in 0..rows.len() {
            solver.serve(&mut tree, &mut queue, root)?;
        }
        Ok(solver)
    }
}

impl Solver<'_, '_, '_> {
    /// The potentials of the names.
    pub fn into_y(self) -> Vec<u64>
        ensures { result ≡ self.entry.duals.y }
    {
        let Solver {
            rows: _,
            duals: Duals { y, z: _ },
            pairs: _,
        } = self;
        y
    }
}
