//! Who has which number on one host.
ghost use Rattle.std.specs.Prelude.{◌≡◌, ℕ, if◌then◌else◌, ◌==◌, Some, None, OnOk, IfOk};
ghost use Rattle.hosts_join.specs.HostOwners.{place_in};

use std::alloc::{AllocError, Global};
use std::collections::HashMap;
use std::marker::Model;

/// A number, and the place of the name that has it.
#[derive(Clone, Copy, Debug)]
struct Owned {
    number: u32,
    place: u32,
}

/// The places of names by their numbers on a host, by hash, and beside it in the order in which
/// they came, so that who goes through the rows of the host again finds each without a look-up. A
/// contract sees the numbers with their places.
#[derive(Drop)]
pub(crate) struct HostOwners {
    places: HashMap<u32, u32>,
    rows: Vec<Owned>,
}

impl Model for HostOwners {
    ghost use Rattle.std.specs.Prelude.{ℕ, List};
    ghost use Rattle.hosts_join.specs.HostOwners.{AreOwned, places_of};

    ghost Value = { List (ℕ × ℕ) };

    ghost view = { places_of };

    ghost invariant = { AreOwned };
}

impl HostOwners {
    /// Nobody has a number. There is room for so many rows.
    pub(crate) fn with_capacity(alloc: Global, rows: usize) -> Result<Self, AllocError>
        ensures { IfOk result (λ owners. (v : ℕ) → place_in owners v ≡ None) }
    {
        Ok(HostOwners {
            places: HashMap::with_capacity(alloc, rows)?,
            rows: Vec::with_capacity(alloc, rows)?,
        })
    }

    /// Gives a number, which nobody has, to the name at a place.
    pub(crate) fn insert(&mut self, number: u32, place: u32) -> Result<(), AllocError>
        requires { place_in self.old number ≡ None }
        ensures { OnOk result
            ((v : ℕ) → place_in self.new v
            ≡ (if number == v then Some place else place_in self.old v)) }
    {
        self.places.insert(number, place)?;
        self.rows.push(Owned { number, place })?;
        Ok(())
    }

    /// The place of the name that has a number.
    pub(crate) fn get(&self, number: u32) -> Option<u32>
        ensures { result ≡ place_in self.now number }
    {
        self.places.get(&number).copied()
    }

    /// The same, without a look-up by hash where it is the number of the row at this place.
    pub(crate) fn get_near(&self, number: u32, row: usize) -> Option<u32>
        ensures { result ≡ place_in self.now number }
    {
        match self.rows.get(row) {
            Some(owned) if owned.number == number => Some(owned.place),
            _ => self.get(number),
        }
    }
}
