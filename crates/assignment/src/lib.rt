//! The least re-owning as an assignment problem: which number each name keeps so that the weights
//! add up to the most, with potentials that certify it. Successive shortest augmenting paths with
//! dual potentials (Kuhn 1955, Munkres 1957; the search with reduced weights is that of Edmonds and
//! Karp 1972 and of Tomizawa 1971) over sparse rows. They begin with a guess, which is checked
//! (certifying algorithms: McConnell, Mehlhorn, Naeher and Schweitzer 2011).
#![tactic(auto)]

ghost use Rattle.std.specs.Prelude.{IfOk, List};
ghost use Rattle.ownership.specs.Costs.{IsOptimal};
ghost use Rattle.ownership.specs.Files.{File};
ghost use Rattle.ownership.specs.Mappings.{IsAdmissible};
ghost use Rattle.ownership.specs.Potentials.{AreCertifying};
ghost use Rattle.ownership.specs.Weights.{IsFilled, IsFresh};
ghost use Rattle.candidates.specs.Rows.{AreRowsOf};
ghost use Rattle.assignment.specs.Solutions.{Proves, IsFreshIn, WeakDuality};

mod duals;
mod forest;
mod graph;
mod guess;
mod pairs;
mod queue;
mod search;
mod solver;
mod start;
mod tree;

use crate::duals::listed;
use crate::solver::Solver;
use candidates::Rows;
use ownership::Mapping;
use std::alloc::{AllocError, Global};

/// A mapping of the greatest weight, and potentials that certify it. Potentials are in the unit of
/// the rows' weights.
#[derive(Drop)]
pub struct Solution {
    /// The number of each name.
    pub mapping: Mapping,
    /// The potential of each name, by the name's index.
    pub y: Vec<u64>,
    /// The numbers whose potential is not 0, ascending, each with its potential.
    pub z: Vec<(u32, u64)>,
}

/// The mapping that leaves the most weight as it is, with potentials that certify it. Names that
/// keep no candidate have, in byte order, the smallest numbers of their pools that no name had
/// before. It fails for want of memory alone.
///
/// It begins with a guess, made in flat lists: each name grows a tree of the names that stand in
/// its way, for a few steps alone, and then all that are left at once, until a tree is out and
/// others may take up its names. What of the guess is seen to be right is kept, or none of it where
/// a number with a potential would then be nobody's, and names that are left are served one by one,
/// each by a search for a shortest augmenting path, which ends once nothing is nearer than the
/// nearest way out that it saw: a number that nobody has, or a name that leaves.
///
/// A search that reaches names with E candidates takes E log E steps. So does a tree mostly, and at
/// worst E times the candidates of one name, since it reads a name anew for up to each of its
/// candidates. The trees share the names that they reach, so where k names wait a tree has a k-th
/// of these on the average; a search reaches a further name only over a number that this name was
/// given, and no table of the site's size is cleared or read for it. So the time is near linear
/// where few names want one number, and mostly where many do; at worst it is all names times all
/// candidates, times the candidates of one name or a logarithm.
///
/// Of memory the guess takes up to 40 bytes a candidate, some 110 a name, 60 a number, and half a
/// megabyte in which numbers below 65,536 are looked up, beside what its lists have to spare; then
/// a name takes 24 bytes and a number that was given some 80, beside one search's names and
/// candidates and the memory of the fill.
pub fn solve(alloc: Global, rows: &Rows<'_, '_>) -> Result<Solution, AllocError>
    ensures admissible { IfOk result (λ s. IsAdmissible rows.now.accounts s.mapping) }
    ensures proves { IfOk result (λ s. Proves rows.now s.mapping s.y.items s.z.items) }
    ensures filled { IfOk result
        (λ s. IsFilled rows.now.accounts (IsFreshIn rows.now s.mapping) s.mapping) }
    ensures certifies { IfOk result
        (λ s. (files : List File) → AreRowsOf rows.now files
        → AreCertifying rows.now.accounts files s.mapping s.y.items s.z.items) }
    ensures optimal { IfOk result
        (λ s. (files : List File) → AreRowsOf rows.now files
        → IsOptimal rows.now.accounts files s.mapping) }
    ensures fresh { IfOk result
        (λ s. (files : List File) → AreRowsOf rows.now files
        → IsFilled rows.now.accounts (IsFresh rows.now.accounts files s.mapping) s.mapping) }
{
    let solver = Solver::solved(alloc, rows)?;
    let mapping = rows.fill_fresh(alloc, solver.pairs.given.as_slice())?;
    let z = listed(alloc, &solver.duals.z)?;
    Ok(Solution {
        mapping,
        y: solver.into_y(),
        z,
    })
}

/// Weak duality over rows: potentials that cover, and that together are what a mapping weighs,
/// prove that no admissible mapping weighs more.
pub fn weak_duality()
    ensures { WeakDuality }
{}
