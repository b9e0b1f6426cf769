//! Numbers, each once, in order.

ghost use Rattle.std.specs.Prelude.{◌≡◌, ◌++◌, ◌∷◌, ℕ, List, [], nat_eq, if◌then◌else◌, OnOk};
ghost use Rattle.std.specs.List.{list_any};
ghost use Rattle.survey.specs.Surveying.{HasNumbers};

use std::alloc::{AllocError, Global};
use std::collections::BTreeSet;

/// Numbers, each once, in the order in which they were added. They are found in a tree: whoever
/// writes an inventory can choose its numbers, and so have them in one place of a table of hashes.
pub struct NumberSet {
    numbers: Vec<u32>,
    found: BTreeSet<u32>,
}

// Written out, so that the proof of a function that lets a set go has one call there.
impl Drop for NumberSet {
    fn drop(self) {
        let NumberSet { numbers, found } = self;
        drop(numbers);
        drop(found);
    }
}

impl NumberSet {
    /// No numbers. Takes no memory.
    pub fn new(alloc: Global) -> Self
        ensures { HasNumbers [] result }
    {
        NumberSet {
            numbers: Vec::new(alloc),
            found: BTreeSet::new(alloc),
        }
    }

    /// Adds a number after the others, unless it is among them, with the logarithm of how many
    /// there are. `AllocError` where a growth was refused; the set is then of no use.
    pub fn add(&mut self, number: u32) -> Result<(), AllocError>
        ensures { OnOk result ((numbers : List ℕ) → HasNumbers numbers self.old
            → HasNumbers (if list_any (nat_eq number) numbers then numbers
            else numbers ++ number ∷ []) self.new) }
    {
        if self.found.insert(number)? {
            self.numbers.push(number)?;
        }
        Ok(())
    }

    /// The numbers. Takes constant time and no memory.
    pub fn numbers(&self) -> &[u32]
        ensures { result.now ≡ self.now.numbers.items }
    {
        self.numbers.as_slice()
    }
}
