//! The start: of a guess, what is seen to be right.
ghost use Rattle.std.specs.Prelude.{◌≡◌, ◌+◌, ◌<◌, true, length, IfOk, OnOk};
ghost use Rattle.std.specs.List.{All};
ghost use Rattle.candidates.specs.Rows.{weight_in, IsAscending};
ghost use Rattle.assignment.specs.Solving.{IsServing};
ghost use Rattle.assignment.specs.Starting.{IsStarted, IsOwned};

use crate::duals::{Duals, first_y};
use crate::guess::Guessed;
use crate::pairs::Pairs;
use crate::solver::Solver;
use candidates::{Candidate, Rows};
use std::alloc::{AllocError, Global};
use std::collections::BTreeMap;

/// Whether the row has the number with the weight.
fn has_weight(row: &[Candidate], number: u32, weight: u64) -> bool
    requires { IsAscending row.now }
    ensures { result ≡ true → weight_in row.now number ≡ weight }
{
    for candidate in row {
        if candidate.number == number {
            return candidate.weight == weight;
        }
    }
    false
}

impl<'r, 'n, 'a> Solver<'r, 'n, 'a> {
    /// With these potentials of the numbers, and the least of the names that cover all with them.
    /// Nobody has a number yet.
    fn new(alloc: Global, rows: &'r Rows<'n, 'a>, z: BTreeMap<u32, u64>) -> Result<Self, AllocError>
        ensures rows { IfOk result (λ s. s.rows.now ≡ rows.now) }
        ensures z { IfOk result (λ s. s.duals.z ≡ z) }
        ensures started { IfOk result (λ s. IsStarted s 0) }
    {
        let y = first_y(alloc, rows, &z)?;
        Ok(Solver {
            rows,
            duals: Duals { y, z },
            pairs: Pairs {
                given: vec![in alloc; None; rows.len() as usize]?,
                owner: BTreeMap::new(alloc),
            },
        })
    }

    /// The start: what the guess has right, or else nothing.
    pub fn begun(alloc: Global, rows: &'r Rows<'n, 'a>) -> Result<Self, AllocError>
        ensures rows { IfOk result (λ s. s.rows.now ≡ rows.now) }
        ensures served { IfOk result (λ s. IsServing s 0) }
    {
        let Guessed { z, given } = Guessed::of(alloc, rows)?;
        let mut guessed = Solver::new(alloc, rows, z)?;
        guessed.give_all(given.as_slice())?;
        if guessed.has_owners() {
            return Ok(guessed);
        }
        let none = BTreeMap::new(alloc);
        let empty = Solver::new(alloc, rows, none)?;
        Ok(empty)
    }
}

impl Solver<'_, '_, '_> {
    /// Gives the next name a number, if nobody has it and the pair is tight.
    #[tactic(auto, using(crate::proofs::Starting::start_skips))]
    fn give_tight(&mut self, name: u32, number: u32) -> Result<(), AllocError>
        requires started { IsStarted self.old name }
        requires name { name < length self.old.rows.now.rows }
        ensures rows { self.new.rows.now ≡ self.old.rows.now }
        ensures started { OnOk result (IsStarted self.new (name + 1)) }
    {
        let high = self.duals.y[name as usize];
        let weight = high.saturating_add(self.duals.value(number));
        if weight == 0 {
            return Ok(());
        }
        if !has_weight(self.rows.row(name), number, weight) {
            return Ok(());
        }
        if self.pairs.owner_of(number).is_some() {
            return Ok(());
        }
        self.pairs.give(name, number)?;
        Ok(())
    }

    /// Gives each name the number that it is to have, as far as that is right.
    #[tactic(auto, using(crate::proofs::Starting::start_skips))]
    fn give_all(&mut self, wanted: &[Option<u32>]) -> Result<(), AllocError>
        requires { IsStarted self.old 0 }
        ensures rows { self.new.rows.now ≡ self.old.rows.now }
        ensures started { OnOk result (IsStarted self.new (length self.new.rows.now.rows)) }
    {
        for name in 0..self.rows.len() {
            if let Some(Some(number)) = wanted.get(name as usize) {
                self.give_tight(name, *number)?;
            }
        }
        Ok(())
    }

    /// Whether each number that has a potential has a name, and no potential is 0.
    fn has_owners(&self) -> bool
        ensures { result ≡ true → All (IsOwned self.now.pairs) self.now.duals.z.entries }
    {
        for (number, value) in &self.duals.z {
            if *value == 0 || self.pairs.owner_of(*number).is_none() {
                return false;
            }
        }
        true
    }
}
