//! The names that one search has reached.
ghost use Rattle.std.specs.Prelude.{◌≡◌, ◌<◌, length, IfOk, OnOk, slice_set, ◌∷◌, ◌++◌, []};
ghost use Rattle.assignment.specs.Standing.{among};

use std::alloc::{AllocError, Global};

/// The names that a search has reached, in the order in which it did: each with the index in this
/// tree of the one that it was reached from, and the level at which it was. A name is in the tree
/// where its `position` is an index that has the name; so nothing needs to be cleared for the next
/// search.
#[derive(Drop)]
pub struct Tree {
    pub position: Vec<usize>,
    pub names: Vec<u32>,
    pub parents: Vec<usize>,
    pub levels: Vec<u64>,
}

impl Tree {
    /// An empty tree for so many names.
    pub fn new(alloc: Global, size: usize) -> Result<Self, AllocError>
        ensures { IfOk result (λ t. length t.position.items ≡ size) }
    {
        Ok(Tree {
            position: vec![in alloc; 0; size]?,
            names: Vec::new(alloc),
            parents: Vec::new(alloc),
            levels: Vec::new(alloc),
        })
    }

    /// Whether a name is in the tree.
    pub fn has(&self, name: u32) -> bool
        requires { name < length self.now.position.items }
        ensures { result ≡ among self.now.position.items self.now.names.items
            (length self.now.names.items) name }
    {
        let at = self.position[name as usize];
        at < self.names.len() && self.names[at] == name
    }

    /// Begins with the root alone.
    pub fn start(&mut self, root: u32) -> Result<(), AllocError>
        requires { root < length self.old.position.items }
        ensures long { length self.new.position.items ≡ length self.old.position.items }
        ensures position { OnOk result
            (self.new.position.items ≡ slice_set self.old.position.items root 0) }
        ensures names { OnOk result (self.new.names.items ≡ root ∷ []) }
        ensures parents { OnOk result (self.new.parents.items ≡ 0 ∷ []) }
        ensures levels { OnOk result (self.new.levels.items ≡ 0 ∷ []) }
    {
        self.names.clear();
        self.parents.clear();
        self.position[root as usize] = 0;
        self.names.push(root)?;
        self.parents.push(0)?;
        self.levels.clear();
        self.levels.push(0)?;
        Ok(())
    }

    /// Adds a name, reached at a level from the one at a position of the tree.
    pub fn push(&mut self, name: u32, parent: usize, level: u64) -> Result<(), AllocError>
        requires { name < length self.old.position.items }
        ensures long { length self.new.position.items ≡ length self.old.position.items }
        ensures position { OnOk result
            (self.new.position.items
            ≡ slice_set self.old.position.items name (length self.old.names.items)) }
        ensures names { OnOk result (self.new.names.items ≡ self.old.names.items ++ name ∷ []) }
        ensures parents { OnOk result
            (self.new.parents.items ≡ self.old.parents.items ++ parent ∷ []) }
        ensures levels { OnOk result (self.new.levels.items ≡ self.old.levels.items ++ level ∷ []) }
    {
        self.position[name as usize] = self.names.len();
        self.names.push(name)?;
        self.parents.push(parent)?;
        self.levels.push(level)?;
        Ok(())
    }
}
