//! The potentials of names and of numbers.
ghost use Rattle.std.specs.Prelude.{◌≡◌, ◌≢◌, ℕ, ◌+◌, ◌-◌, ◌<◌, ◌≤◌, ◌^◌, length, IfOk, OnOk};
ghost use Rattle.std.specs.Prelude.{unwrap_or, slice_index, slice_index_or, Some};
ghost use Rattle.std.specs.BTreeMap as btree;
ghost use Rattle.std.specs.Ordering.{nat_cmp};
ghost use Rattle.std.specs.List.{All};
ghost use Rattle.candidates.specs.Rows.{weight_in, IsWeighed};
ghost use Rattle.assignment.specs.Solutions.{row_weight};
ghost use Rattle.assignment.specs.Solving.{HasNoZero};
ghost use Rattle.assignment.specs.Lazy.{y_in, z_in, IsSettled, CanSettle};

use crate::pairs::{Pairs, put};
use crate::tree::Tree;
use candidates::{Candidate, Rows};
use std::alloc::{AllocError, Global};
use std::collections::BTreeMap;

/// The potentials of the names and of the numbers.
#[derive(Drop)]
pub struct Duals {
    pub y: Vec<u64>,
    pub z: BTreeMap<u32, u64>,
}

/// The potential of a number: 0, if none is there.
fn value_in(z: &BTreeMap<u32, u64>, number: u32) -> u64
    ensures { result ≡ unwrap_or (btree.get nat_cmp z.now number) 0 }
{
    z.get(&number).copied().unwrap_or(0)
}

/// The least y with which a row is covered. The potential of a number is looked up only where the
/// weight is above all that is covered so far.
fn least_y(row: &[Candidate], z: &BTreeMap<u32, u64>) -> u64
    requires { All IsWeighed row.now }
    ensures covers { (v : ℕ) → weight_in row.now v
        ≤ result + unwrap_or (btree.get nat_cmp z.now v) 0 }
    ensures small { result < 2 ^ 63 }
{
    let mut least = 0;
    for candidate in row {
        if candidate.weight <= least {
            continue;
        }
        let high = candidate
            .weight
            .saturating_sub(value_in(z, candidate.number));
        if least < high {
            least = high;
        }
    }
    least
}

/// Each name's y at first: the least with which its row is covered.
pub fn first_y(
    alloc: Global,
    rows: &Rows<'_, '_>,
    z: &BTreeMap<u32, u64>,
) -> Result<Vec<u64>, AllocError>
    ensures long { IfOk result (λ y. length y.items ≡ length rows.now.rows) }
    ensures covers { IfOk result
        (λ y. (n v : ℕ) → row_weight rows.now n v
        ≤ slice_index y.items n + unwrap_or (btree.get nat_cmp z.now v) 0) }
    ensures small { IfOk result (λ y. (n : ℕ) → slice_index y.items n < 2 ^ 63) }
{
    let mut y = Vec::new(alloc);
    for name in 0..rows.len() {
        y.push(least_y(rows.row(name), z))?;
    }
    Ok(y)
}

/// The entries of z, in order.
pub fn listed(alloc: Global, z: &BTreeMap<u32, u64>) -> Result<Vec<(u32, u64)>, AllocError>
    ensures items { IfOk result (λ list. list.items ≡ z.now.entries) }
    ensures ordered { IfOk result (λ _. btree.IsOrdered nat_cmp z.now) }
{
    let mut list = Vec::new(alloc);
    for (number, value) in z {
        list.push((*number, *value))?;
    }
    Ok(list)
}

impl Duals {
    pub fn value(&self, number: u32) -> u64
        ensures { result ≡ unwrap_or (btree.get nat_cmp self.now.z number) 0 }
    {
        value_in(&self.z, number)
    }

    /// Lowers a name, and raises its number if it has one.
    fn lower_one(&mut self, pairs: &Pairs, name: u32, by: u64) -> Result<(), AllocError>
        requires has_y { name < length self.old.y.items }
        requires has_given { name < length pairs.now.given.items }
        requires room { by ≤ y_in self.old name }
        requires fits { (v : ℕ) → slice_index_or pairs.now.given.items name None ≡ Some v
            → z_in self.old v + by < 2 ^ 64 }
        ensures here { y_in self.new name ≡ y_in self.old name - by }
        ensures others { (n : ℕ) → n ≢ name → y_in self.new n ≡ y_in self.old n }
        ensures long { length self.new.y.items ≡ length self.old.y.items }
        ensures held { OnOk result
            ((v : ℕ) → slice_index_or pairs.now.given.items name None ≡ Some v
            → z_in self.new v ≡ z_in self.old v + by) }
        ensures rest { OnOk result
            ((v : ℕ) → (slice_index_or pairs.now.given.items name None ≡ Some v → ⊥)
            → z_in self.new v ≡ z_in self.old v) }
        ensures positive { OnOk result (HasNoZero self.old → HasNoZero self.new) }
    {
        if by == 0 {
            return Ok(());
        }
        self.y[name as usize] -= by;
        match pairs.given[name as usize] {
            None => Ok(()),
            Some(number) => {
                let raised = self.value(number) + by;
                put(&mut self.z, number, raised)
            }
        }
    }

    /// Lowers the tree's names to a level, and raises the numbers that they hold.
    pub fn settle(&mut self, pairs: &Pairs, tree: &Tree, now: u64) -> Result<(), AllocError>
        requires can { CanSettle self.old pairs.now tree.now now }
        requires positive { HasNoZero self.old }
        ensures settled { OnOk result
            (IsSettled self.old self.new pairs.now tree.now now (length tree.now.names.items)) }
        ensures long { length self.new.y.items ≡ length self.old.y.items }
        ensures positive { OnOk result (HasNoZero self.new) }
    {
        for at in 0..tree.names.len() {
            let name = tree.names[at];
            let level = tree.levels[at];
            self.lower_one(pairs, name, now - level)?;
        }
        Ok(())
    }
}
