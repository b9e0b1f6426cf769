//! Names, each once, in order.

ghost use Rattle.std.specs.Prelude.{◌≡◌, ◌++◌, ◌∷◌, [], length, not, bytes_eq, if◌then◌else◌};
ghost use Rattle.std.specs.Prelude.{IfOk, OnErr};
ghost use Rattle.std.specs.List.{list_any};

use indexmap::IndexSet;
use std::alloc::{AllocError, Global};
use std::marker::Model;

/// Names, each once, in the order in which they were added. They are slices of the text that they
/// were read from.
pub struct NameSet<'a> {
    names: IndexSet<&'a [u8]>,
}

// Written out, so that the proof of a function that lets a set go has one call there.
impl Drop for NameSet<'_> {
    fn drop(self) {
        let NameSet { names } = self;
        drop(names);
    }
}

impl<'a> Model for NameSet<'a> {
    ghost use Rattle.std.specs.Prelude.{ℕ, List};

    ghost Value = { List (List ℕ) };

    ghost use Rattle.keep_text.specs.NameSets.{names_inside};

    ghost view = { names_inside };
}

impl<'a> NameSet<'a> {
    /// No names. Takes no memory.
    pub fn new(alloc: Global) -> Self
        ensures { result ≡ [] }
    {
        NameSet {
            names: IndexSet::new(alloc),
        }
    }

    /// Adds a name after the others, and answers whether it is new; else nothing changes. Two
    /// look-ups by hash, and one entry. `AllocError` where a growth was refused; the names then
    /// stay.
    pub fn add(&mut self, name: &'a [u8]) -> Result<bool, AllocError>
        ensures err { OnErr result (self.new ≡ self.old) }
        ensures new { IfOk result (λ new. new ≡ not (list_any (bytes_eq name.now) self.old)) }
        ensures ok { IfOk result
            (λ new. self.new ≡ (if new then self.old ++ name.now ∷ [] else self.old)) }
    {
        if self.has(name) {
            return Ok(false);
        }
        self.names.insert_full(name)?;
        Ok(true)
    }

    /// How many names there are. No cost.
    pub fn len(&self) -> usize
        ensures { result ≡ length self.now }
    {
        self.names.len()
    }

    /// Whether the name is there, by hash.
    pub fn has(&self, name: &[u8]) -> bool
        ensures { result ≡ list_any (bytes_eq name.now) self.now }
    {
        self.names.contains(name)
    }
}
