//! Which number each name was given, and which name each number.
ghost use Rattle.std.specs.Prelude.{◌≡◌, ◌≢◌, ℕ, ◌<◌, length, IfOk, OnOk, cond, nat_eq};
ghost use Rattle.std.specs.Prelude.{slice_index_or, Some, None};
ghost use Rattle.std.specs.BTreeMap as btree;
ghost use Rattle.std.specs.Ordering.{nat_cmp};
ghost use Rattle.assignment.specs.Standing.{holds};

use crate::tree::Tree;
use std::alloc::AllocError;
use std::collections::BTreeMap;

/// Each name's number, and each number's name.
#[derive(Drop)]
pub struct Pairs {
    pub given: Vec<Option<u32>>,
    pub owner: BTreeMap<u32, u32>,
}

pub fn put<V: Drop>(map: &mut BTreeMap<u32, V>, number: u32, value: V) -> Result<(), AllocError>
    ensures { OnOk result
        ((v : ℕ) → btree.get nat_cmp map.new v
        ≡ cond (nat_eq number v) (Some value) (btree.get nat_cmp map.old v)) }
{
    map.insert(number, value)?;
    Ok(())
}

impl Pairs {
    pub fn owner_of(&self, number: u32) -> Option<u32>
        ensures { result ≡ btree.get nat_cmp self.now.owner number }
    {
        self.owner.get(&number).copied()
    }

    /// The number of a name.
    pub fn number_of(&self, name: u32) -> Option<u32>
        requires { name < length self.now.given.items }
        ensures { result ≡ slice_index_or self.now.given.items name None }
    {
        self.given[name as usize]
    }

    /// Whether the number's owner is in the tree.
    pub fn holds(&self, tree: &Tree, number: u32) -> bool
        requires { (n : ℕ) → btree.get nat_cmp self.now.owner number ≡ Some n
            → n < length tree.now.position.items }
        ensures { result ≡ holds tree.now.position.items tree.now.names.items
            (length tree.now.names.items) (btree.get nat_cmp self.now.owner number) }
    {
        match self.owner_of(number) {
            None => false,
            Some(name) => tree.has(name),
        }
    }

    /// Gives a name a number, and tells which one it had.
    pub fn give(&mut self, name: u32, number: u32) -> Result<Option<u32>, AllocError>
        requires { name < length self.old.given.items }
        ensures held { IfOk result (λ held. held ≡ slice_index_or self.old.given.items name None) }
        ensures there { slice_index_or self.new.given.items name None ≡ Some number }
        ensures others { (n : ℕ) → n ≢ name
            → slice_index_or self.new.given.items n None
            ≡ slice_index_or self.old.given.items n None }
        ensures long { length self.new.given.items ≡ length self.old.given.items }
        ensures owns { OnOk result (btree.get nat_cmp self.new.owner number ≡ Some name) }
        ensures other_owners { OnOk result
            ((v : ℕ) → v ≢ number → btree.get nat_cmp self.new.owner v
            ≡ btree.get nat_cmp self.old.owner v) }
    {
        let held = self.given[name as usize];
        self.given[name as usize] = Some(number);
        put(&mut self.owner, number, name)?;
        Ok(held)
    }

    /// Takes a name's number away, and tells which one it was. Its owner stays to be written over.
    pub fn take(&mut self, name: u32) -> Option<u32>
        requires { name < length self.old.given.items }
        ensures held { result ≡ slice_index_or self.old.given.items name None }
        ensures gone { slice_index_or self.new.given.items name None ≡ None }
        ensures others { (n : ℕ) → n ≢ name
            → slice_index_or self.new.given.items n None
            ≡ slice_index_or self.old.given.items n None }
        ensures long { length self.new.given.items ≡ length self.old.given.items }
        ensures owner { self.new.owner ≡ self.old.owner }
    {
        let held = self.given[name as usize];
        self.given[name as usize] = None;
        held
    }
}
