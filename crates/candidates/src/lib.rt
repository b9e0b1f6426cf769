//! Candidates: the numbers that a free name may keep, with their weights; and the fill, which gives
//! fresh numbers to the names that keep none.
#![tactic(auto)]

ghost use Rattle.std.specs.Prelude.{◌≡◌, ℕ, ◌<◌, ◌≤◌, ◌↔◌, ◌+◌, length, List, IfOk, Some};
ghost use Rattle.hosts_join.specs.Accounts.{lines};
ghost use Rattle.hosts_join.specs.Rules.{account};
ghost use Rattle.ownership.specs.Counts.{AreMadeFor, AreWithin, CountFiles};
ghost use Rattle.ownership.specs.Files.{File};
ghost use Rattle.ownership.specs.Mappings.{number_at, IsAdmissible};
ghost use Rattle.ownership.specs.Weights.{IsFilled};
ghost use Rattle.candidates.specs.Fill.{gift, Waits, IsPartial};
ghost use Rattle.candidates.specs.Rows.{AreRows, AreRowsOf, IsCandidate, row_at, weight_in};
ghost use Rattle.candidates.specs.Told.{IsToldRow};

mod fill;
mod filling;

use crate::fill::{fill, settle, waiting};
use crate::filling::Filling;
use hosts_join::Names;
use ownership::{KindCounts, Mapping};
use smallvec::SmallVec;
use std::alloc::{AllocError, Global};
use std::marker::Model;

/// A number that a name may keep, with its weight: `B * kept + lines`, where B is one more than all
/// account rows of the kind, `kept` counts the files of the name on the hosts where it has the
/// number, and `lines` those hosts.
#[derive(Clone, Copy, Debug, Default, PartialEq, Eq)]
pub struct Candidate {
    pub number: u32,
    pub weight: u64,
}

/// The candidates of each name, by the name's index. A contract sees the accounts of the names, and
/// the rows.
#[derive(Drop)]
pub struct Rows<'n, 'a> {
    names: &'n Names<'a>,
    rows: Vec<SmallVec<Candidate, 4>>,
}

impl<'n, 'a> Model for Rows<'n, 'a> {
    ghost use Rattle.candidates.specs.Rows.{Choices, AreRows};
    ghost use Rattle.candidates.specs.RowsInside.{choices_of};

    ghost Value = { Choices };

    ghost view = { choices_of };

    ghost invariant = { λ r. AreRows (choices_of r) };
}

/// On how many hosts the name at an index has a number: on one, and at most a few more.
fn lines_of(names: &Names<'_>, index: u32, number: u32, most_more: u64) -> u64
    requires within { index < length names.now.names }
    requires some { 1 ≤ lines (account names.now index) number }
    requires few { lines (account names.now index) number ≤ most_more + 1 }
    ensures { result ≡ lines (account names.now index) number }
{
    if most_more == 0 {
        1
    } else {
        names.lines(index, number)
    }
}

/// The candidates of the name at an index.
fn candidates_of(
    alloc: Global,
    names: &Names<'_>,
    counts: &KindCounts,
    index: u32,
) -> Result<SmallVec<Candidate, 4>, AllocError>
    requires within { index < length names.now.names }
    requires made { AreMadeFor names.now.names counts.now }
    requires few { AreWithin counts.now 2147483648 }
    ensures { IfOk result (λ row. IsToldRow names.now counts.now index row.items) }
{
    let file_weight = names.all_lines() + 1;
    let pool = names.pool(names.class(index));
    let cells = counts.cells(index);
    // At most on how many more hosts the name has the numbers that are left than on one each.
    let mut more = names.spots(index).len() as u64 - cells.len() as u64;
    let mut row = SmallVec::with_capacity(alloc, cells.len())?;
    for cell in cells {
        if pool.has(cell.number) {
            let lines = lines_of(names, index, cell.number, more);
            more -= lines - 1;
            row.push(Candidate {
                number: cell.number,
                weight: file_weight * u64::from(cell.files) + lines,
            })?;
        }
    }
    Ok(row)
}

impl<'n, 'a> Rows<'n, 'a> {
    /// The candidates of each name, weighed by the files that were counted. Requires that the
    /// counters were made for these names, and that none is above 2147483648, as those that
    /// `Counts::users` and `Counts::groups` lend.
    ///
    /// One pass over the counters of each name, at most 64: each number is sought in the pool by a
    /// binary search, and among the name's spots by a scan as long as more spots than numbers are
    /// left. A name takes 80 bytes, and with more than four numbers 16 more for each; so an account
    /// row takes at most 80 bytes, and 64 hosts of 65,536 rows some 336 MB. `AllocError` where
    /// memory is refused.
    pub fn build(
        alloc: Global,
        names: &'n Names<'a>,
        counts: &KindCounts,
    ) -> Result<Self, AllocError>
        requires made { AreMadeFor names.now.names counts.now }
        requires few { AreWithin counts.now 2147483648 }
        ensures accounts { IfOk result (λ r. r.accounts ≡ names.now) }
        ensures rows { IfOk result
            (λ r. (files : List File) → CountFiles names.now.names counts.now files
            → AreRowsOf r files) }
        ensures candidates { IfOk result
            (λ r. (files : List File) → CountFiles names.now.names counts.now files → (i v : ℕ)
            → i < length names.now.names → IsCandidate names.now files i v
            ↔ (1 ≤ weight_in (row_at r.rows i) v)) }
    {
        let mut rows = Vec::with_capacity(alloc, names.len() as usize)?;
        for index in 0..names.len() {
            rows.push(candidates_of(alloc, names, counts, index)?)?;
        }
        Ok(Rows { names, rows })
    }

    /// How many names there are, and what holds of their rows. No cost.
    pub fn len(&self) -> u32
        ensures len { result ≡ length self.now.rows }
        ensures lawful { AreRows self.now }
    {
        self.names.len()
    }

    /// The candidates of the name at an index, ascending by number; none for a pinned name. No
    /// cost.
    pub fn row(&self, index: u32) -> &[Candidate]
        requires { index < length self.now.rows }
        ensures { result.now ≡ row_at self.now.rows index }
    {
        self.rows[index as usize].as_slice()
    }

    /// The mapping in which pinned names have their pins, the given numbers stay, and every other
    /// name, in byte order, has the smallest number of its pool that no name had before. Requires
    /// one item for each name, in which a number is a candidate of the name, and no number twice.
    ///
    /// Near linear in the names: each class has a cursor that walks its pool once, by a binary
    /// search and a look-up by hash for each number. It takes some 40 to 60 bytes a name while it
    /// runs, and leaves the mapping. `AllocError` where memory is refused.
    pub fn fill_fresh(&self, alloc: Global, given: &[Option<u32>]) -> Result<Mapping, AllocError>
        requires { IsPartial self.now given.now }
        ensures admissible { IfOk result (IsAdmissible self.now.accounts) }
        ensures given_stay { IfOk result
            (λ m. (i v : ℕ) → gift given.now i ≡ Some v → number_at m i ≡ v) }
        ensures filled { IfOk result
            (IsFilled self.now.accounts (Waits self.now.accounts given.now)) }
    {
        let settled = settle(alloc, self.names, given)?;
        let waiting = waiting(alloc, self.names, settled.as_slice())?;
        let mut filling = Filling::of(alloc, settled)?;
        fill(self.names, &mut filling, waiting.as_slice())?;
        Ok(Mapping::new(filling.finish(alloc)?))
    }
}
