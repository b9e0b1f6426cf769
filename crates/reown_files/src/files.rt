//! What the system was asked of the files below a directory, and the names of those that have
//! several.
ghost use Rattle.std.specs.Prelude.{◌≡◌, ◌≢◌, ◌⊎◌, [], ◌∷◌, true, IfErr, OnOk, OnErr};
ghost use Rattle.reown_files.specs.declared.answers.Trouble.TheVariants.{Memory, LinkedOtherwise};
ghost use Rattle.reown_files.specs.declared.answers.Trouble.TheVariants.{LinkedElsewhere};
ghost use Rattle.reown_files.specs.Asked.{Told, Counted, Awaited, Given, ModeGiven, Synced};
ghost use Rattle.reown_files.specs.Asked.{names_of, is_counted, HasAllNames, waits, IsOtherwise};
ghost use Rattle.reown_files.specs.Asked.{HasOneOwner};
ghost use Rattle.reown_files.specs.Looks.{id_of as id_in};

use crate::Trouble;
use crate::asked::{Ask, AskedLog};
use crate::names::{Names, add_name, has_several_names};
use crate::walk::Found;
use reown_plan::Owner;
use std::alloc::Global;
use std::collections::{BTreeMap, BTreeSet};
use std::marker::Model;

/// What the system was asked of files. Whoever makes a file chooses its path, so what is kept of
/// those with several names stands in search trees.
#[derive(Drop)]
pub struct Files {
    // The names of the files that have several, by device and inode.
    names: BTreeMap<(u64, u64), Names>,
    // The paths of these files.
    paths: BTreeSet<Vec<u8>>,
    log: AskedLog,
}

impl Model for Files {
    ghost use Rattle.std.specs.Prelude.{◌≡◌, ℕ, List, true};
    ghost use Rattle.reown_files.specs.Asked.{Asked, names_of, is_counted};
    ghost use Rattle.reown_files.specs.Trees.{names_at, has_path};
    ghost use Rattle.reown_files.specs.Looks.{FileId};

    ghost Value = { List Asked };

    ghost view = { λ f. f.log.asked };

    ghost invariant = { λ f. ((id : FileId) → names_at f.names id ≡ names_of id f.log.asked)
        × ((path : List ℕ) → is_counted path f.log.asked ≡ true → has_path f.paths path ≡ true) };
}

// The device and the inode of a file.
fn id_of(found: &Found) -> (u64, u64)
    ensures { result ≡ id_in found.now }
{
    (found.device, found.inode)
}

impl Files {
    /// Nothing was asked as yet.
    pub fn new(alloc: Global) -> Files
        ensures { result ≡ [] }
    {
        Files {
            names: BTreeMap::new(alloc),
            paths: BTreeSet::new(alloc),
            log: AskedLog::new(),
        }
    }

    /// Notes what a look told of a file.
    pub fn tell(&mut self, path: &[u8], found: &Found)
        ensures { self.new ≡ Told path.now found.now ∷ self.old }
    {
        self.log.note(&Ask::Told(path, *found));
    }

    /// Notes that a file was given an owner.
    pub fn give(&mut self, path: &[u8], after: Owner)
        ensures { self.new ≡ Given path.now after ∷ self.old }
    {
        self.log.note(&Ask::Given(path, after));
    }

    /// Notes that a file was given a mode.
    pub fn give_mode(&mut self, path: &[u8], mode: u32)
        ensures { self.new ≡ ModeGiven path.now mode ∷ self.old }
    {
        self.log.note(&Ask::ModeGiven(path, mode));
    }

    /// Notes that a file was synced.
    pub fn sync(&mut self, path: &[u8])
        ensures { self.new ≡ Synced path.now ∷ self.old }
    {
        self.log.note(&Ask::Synced(path));
    }

    /// Counts a name of a file, where it has several. They are to have one new owner.
    pub fn count_name(
        &mut self,
        alloc: Global,
        path: &[u8],
        found: &Found,
        after: Owner,
    ) -> Result<(), Trouble>
        ensures counted { OnOk result (self.new ≡ Counted path.now found.now after ∷ self.old) }
        ensures one { OnOk result (HasOneOwner after found.now self.old) }
        ensures same { OnErr result (self.new ≡ self.old) }
        ensures refused { IfErr result (λ trouble. (trouble ≡ Memory)
            ⊎ ((trouble ≡ LinkedOtherwise)
            × IsOtherwise after (names_of (id_in found.now) self.old))) }
    {
        if has_several_names(found) {
            let id = id_of(found);
            let names = add_name(self.names.get(&id).copied(), after)?;
            self.paths.insert(Vec::from_slice(alloc, path)?)?;
            self.names.insert(id, names)?;
        }
        self.log.note(&Ask::Counted(path, *found, after));
        Ok(())
    }

    /// Whether a path may be a name of a file that has several.
    pub fn has_counted(&self, path: &[u8]) -> bool
        ensures { is_counted path.now self.now ≡ true → result ≡ true }
    {
        self.paths.contains(path)
    }

    /// Sees that all names of a file were counted, where it has several.
    pub fn check_names(&self, found: &Found) -> Result<(), Trouble>
        ensures all { OnOk result (HasAllNames found.now self.now) }
        ensures refused { IfErr result
            (λ trouble. (trouble ≡ LinkedElsewhere) × (HasAllNames found.now self.now → ⊥)) }
    {
        if !has_several_names(found) {
            return Ok(());
        }
        let met = self.names.get(&id_of(found)).map_or(0, |names| names.met);
        if met == found.links {
            Ok(())
        } else {
            Err(Trouble::LinkedElsewhere)
        }
    }

    /// Whether a file with several names waits for others of them, now that this one is to have its
    /// new owner: it is given it once, with the last of them.
    pub fn waits(&mut self, found: &Found) -> bool
        ensures told { result ≡ waits found.now self.old }
        ensures noted { self.new ≡ Awaited found.now ∷ self.old }
    {
        let mut waits = false;
        if has_several_names(found) {
            if let Some(names) = self.names.get_mut(&id_of(found)) {
                waits = names.left > 1;
                names.left = names.left.saturating_sub(1);
            }
        }
        self.log.note(&Ask::Awaited(*found));
        waits
    }
}
