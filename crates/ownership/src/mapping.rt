//! Mappings: a number for each name.
ghost use Rattle.std.specs.Prelude.{◌≡◌, ◌<◌, length};
ghost use Rattle.ownership.specs.Mapping.{IsMapping, number_at};

use std::marker::Model;

/// A number for each name, by the name's index: numbers of at most 4294967294, no two of them the
/// same. Four bytes a name. A contract sees the list of the numbers. No call takes memory.
#[derive(Drop)]
pub struct Mapping {
    numbers: Vec<u32>,
}

impl Model for Mapping {
    ghost use Rattle.std.specs.Prelude.{ℕ, List};
    ghost use Rattle.ownership.specs.Mapping.{IsMapping};

    ghost Value = { List ℕ };

    ghost view = { λ m. m.numbers.items };

    ghost invariant = { λ m. IsMapping m.numbers.items };
}

impl Mapping {
    /// The mapping with these numbers. No cost.
    pub fn new(numbers: Vec<u32>) -> Self
        requires { IsMapping numbers.items }
        ensures { result ≡ numbers.items }
    {
        Mapping { numbers }
    }

    /// How many names have a number, and what holds of the numbers. No cost.
    pub fn len(&self) -> usize
        ensures len { result ≡ length self.now }
        ensures lawful { IsMapping self.now }
    {
        self.numbers.len()
    }

    /// The number of the name at an index. No cost.
    pub fn number(&self, index: u32) -> u32
        requires { index < length self.now }
        ensures { result ≡ number_at self.now index }
    {
        self.numbers[index as usize]
    }

    /// The numbers, by index. No cost.
    pub fn numbers(&self) -> &[u32]
        ensures { result.now ≡ self.now }
    {
        self.numbers.as_slice()
    }
}

/// The numbers of the names of both kinds: a mapping of a site's users, and one of its groups.
#[derive(Drop)]
pub struct Mappings {
    /// The numbers of the users.
    pub users: Mapping,
    /// The numbers of the groups.
    pub groups: Mapping,
}
