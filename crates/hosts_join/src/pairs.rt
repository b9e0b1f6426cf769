//! Names with their numbers, in the order of their lines.
ghost use Rattle.std.specs.Prelude.{◌≡◌, ◌<◌, [], length, slice_get, Some, IfOk, OnErr, ◌++◌, ◌∷◌};
ghost use Rattle.std.specs.Prelude.{if◌then◌else◌, is_some, not};

use crate::Pair;
use indexmap::IndexMap;
use std::alloc::{AllocError, Global};
use std::marker::Model;

/// Names of one kind, each once, with their numbers, in the order of their lines.
pub struct PairTable<'a> {
    pairs: IndexMap<&'a [u8], u32>,
}

// Written out, so that the proof of a function that lets a table go has one call there.
impl Drop for PairTable<'_> {
    fn drop(self) {
        let PairTable { pairs } = self;
        drop(pairs);
    }
}

impl<'a> Model for PairTable<'a> {
    ghost use Rattle.std.specs.Prelude.{List};
    ghost use Rattle.hosts_join.specs.Accounts.{Pair};

    ghost Value = { List Pair };

    ghost use Rattle.hosts_join.specs.PairTable.{pairs_in};

    ghost view = { pairs_in };
}

impl<'a> PairTable<'a> {
    ghost use Rattle.hosts_join.specs.Pairs.{number_of};
    ghost use Rattle.hosts_join.specs.Views.{pair_of};

    /// No names. It takes no memory.
    pub fn new(alloc: Global) -> Self
        ensures { result ≡ [] }
    {
        PairTable {
            pairs: IndexMap::new(alloc),
        }
    }

    /// Adds a name with its number, and answers whether the name is new. A name that is there keeps
    /// its number. Two look-ups by hash and one entry for a new name, else one look-up.
    /// `AllocError` where a growth was refused; the names then stay.
    pub fn add(&mut self, name: &'a [u8], number: u32) -> Result<bool, AllocError>
        ensures err { OnErr result (self.new ≡ self.old) }
        ensures new { IfOk result (λ new. new ≡ not (is_some (number_of self.old name.now))) }
        ensures ok { IfOk result (λ new. self.new
            ≡ (if new then self.old ++ record { name = name.now; number = number } ∷ []
            else self.old)) }
    {
        if self.number(name).is_some() {
            return Ok(false);
        }
        self.pairs.insert(name, number)?;
        Ok(true)
    }

    /// How many names there are. No cost.
    pub fn len(&self) -> usize
        ensures { result ≡ length self.now }
    {
        self.pairs.len()
    }

    /// The name at an index, with its number. No cost.
    pub fn at(&self, index: usize) -> Pair<'a>
        requires { index < length self.now }
        ensures { slice_get self.now index ≡ Some (pair_of result) }
    {
        match self.pairs.get_index(index) {
            Some((name, number)) => Pair {
                name: *name,
                number: *number,
            },
            None => unreachable!(),
        }
    }

    /// The number of a name, by hash.
    pub fn number(&self, name: &[u8]) -> Option<u32>
        ensures { result ≡ number_of self.now name.now }
    {
        self.pairs.get(name).copied()
    }
}
