//! The files below a directory, as they are found and changed.
ghost use Rattle.std.specs.Prelude.{◌≡◌, [], ◌∷◌, false, IfOk, IfErr, OnOk, OnErr};
ghost use Rattle.reown_files.specs.declared.walk.Found.{Found as FoundData};
ghost use Rattle.reown_files.specs.Asked.{Told, Given, ModeGiven, with_sync, met, HasNamesMet};
ghost use Rattle.reown_files.specs.Asked.{LacksNames, IsGiven, IsModeSet, IsKept, HasOneOwner};
ghost use Rattle.reown_files.specs.Asked.{IsToldAtMost, IsMetAtMost, IsGivenAtMost};
ghost use Rattle.reown_files.specs.Looks.{seen_of};

use crate::files::Files;
use crate::modes_file::has_set_id;
use crate::names::has_several_names;
use crate::walk::{Directory, Found, Kind, find, give_by_name, open};
use crate::way::Way;
use crate::{Modes, Seen, Trouble};
use reown_plan::Owner;

/// The files below a directory.
#[derive(Drop)]
pub struct Below<'w> {
    rt: &'w HostRuntime,
    way: Way<'w>,
    /// Whether a sync of the root keeps all that was changed before.
    pub has_one_journal: bool,
    pub files: Files,
}

// What is told of a file.
fn seen_in(found: &Found) -> Seen
    ensures { result ≡ seen_of found.now }
{
    Seen {
        owner: found.owner,
        has_set_id: has_set_id(found),
        has_several_names: has_several_names(found),
    }
}

impl<'w> Below<'w> {
    /// The files below a directory, each of which is synced by itself.
    pub fn of(rt: &'w HostRuntime, root: Directory) -> Result<Below<'w>, Trouble>
        ensures files { IfOk result (λ below. below.files ≡ []) }
        ensures journals { IfOk result (λ below. below.has_one_journal ≡ false) }
    {
        Ok(Below {
            rt,
            way: Way::from(rt, root)?,
            has_one_journal: false,
            files: Files::new(rt.alloc()),
        })
    }

    /// The directory.
    pub fn root(&self) -> &Directory {
        self.way.root()
    }

    // What a name in the working directory stands for, on the root's file system, by its path.
    fn find(&mut self, path: &[u8], name: &[u8]) -> Result<Found, Trouble>
        ensures told { IfOk result
            (λ found. self.new.files ≡ Told path.now found ∷ self.old.files) }
        ensures untold { OnErr result (self.new.files ≡ self.old.files) }
        ensures journal { self.new.has_one_journal ≡ self.old.has_one_journal }
    {
        let found = find(self.rt, name)?;
        if found.device != self.way.root().found().device {
            return Err(Trouble::OtherMount);
        }
        self.files.tell(path, &found);
        Ok(found)
    }

    // What a name stands for, as `find` tells it, where it has this owner.
    fn expect(&mut self, path: &[u8], name: &[u8], owner: Owner) -> Result<Found, Trouble>
        ensures told { IfOk result
            (λ found. self.new.files ≡ Told path.now found ∷ self.old.files) }
        ensures owner { IfOk result (λ found. found.owner ≡ owner) }
        ensures at_most { OnErr result (IsToldAtMost path.now self.old.files self.new.files) }
        ensures journal { self.new.has_one_journal ≡ self.old.has_one_journal }
    {
        let found = self.find(path, name)?;
        if found.owner != owner {
            return Err(Trouble::Foreign(found.owner));
        }
        Ok(found)
    }

    // Waits until what a name stands for has reached its device. Links and the like wait for
    // `settle`, and all files where there is one journal.
    fn sync(&mut self, path: &[u8], name: &[u8], found: &Found) -> Result<(), Trouble>
        ensures synced { OnOk result (self.new.files
            ≡ with_sync self.old.has_one_journal path.now found.now self.old.files) }
        ensures same { OnErr result (self.new.files ≡ self.old.files) }
        ensures journal { self.new.has_one_journal ≡ self.old.has_one_journal }
    {
        if self.has_one_journal || found.kind == Kind::Other {
            return Ok(());
        }
        open(self.rt, name, found)?.sync()?;
        self.files.sync(path);
        Ok(())
    }

    // Gives what a name stands for another owner. A regular file or a directory is looked at again
    // when it is open.
    fn give_found(
        &mut self,
        path: &[u8],
        name: &[u8],
        found: &Found,
        after: Owner,
    ) -> Result<(), Trouble>
        ensures given { OnOk result (self.new.files ≡ Given path.now after ∷ self.old.files) }
        ensures same { OnErr result (self.new.files ≡ self.old.files) }
        ensures journal { self.new.has_one_journal ≡ self.old.has_one_journal }
    {
        if found.kind == Kind::Other {
            give_by_name(self.rt, name, after)?;
        } else {
            open(self.rt, name, found)?.give(after)?;
        }
        self.files.give(path, after);
        Ok(())
    }

    // Sets the mode of what a name stands for, which is opened.
    fn set_mode_of(
        &mut self,
        path: &[u8],
        name: &[u8],
        found: &Found,
        mode: u32,
    ) -> Result<(), Trouble>
        ensures set { OnOk result (self.new.files ≡ ModeGiven path.now mode ∷ self.old.files) }
        ensures same { OnErr result (self.new.files ≡ self.old.files) }
        ensures journal { self.new.has_one_journal ≡ self.old.has_one_journal }
    {
        let file = open(self.rt, name, found)?;
        file.set_mode(mode)?;
        if file.itself()?.mode != mode {
            return Err(Trouble::NotDone);
        }
        self.files.give_mode(path, mode);
        Ok(())
    }
}

// The calls of a disk.
impl<'w> Below<'w> {
    /// What is at a path.
    pub fn look(&mut self, path: &[u8]) -> Result<Found, Trouble>
        ensures told { IfOk result
            (λ found. self.new.files ≡ Told path.now found ∷ self.old.files) }
        ensures untold { OnErr result (self.new.files ≡ self.old.files) }
        ensures journal { self.new.has_one_journal ≡ self.old.has_one_journal }
    {
        let name = self.way.enter(path)?;
        self.find(path, name)
    }

    /// What is told of the file at a path.
    pub fn see(&mut self, path: &[u8]) -> Result<Seen, Trouble>
        ensures told { IfOk result (λ seen. (found : FoundData) × (seen ≡ seen_of found)
            × (self.new.files ≡ Told path.now found ∷ self.old.files)) }
        ensures untold { OnErr result (self.new.files ≡ self.old.files) }
        ensures journal { self.new.has_one_journal ≡ self.old.has_one_journal }
    {
        let found = self.look(path)?;
        Ok(seen_in(&found))
    }

    /// The owner of the file at a path.
    pub fn owner(&mut self, path: &[u8]) -> Result<Owner, Trouble>
        ensures told { IfOk result (λ owner. (found : FoundData) × (owner ≡ found.owner)
            × (self.new.files ≡ Told path.now found ∷ self.old.files)) }
        ensures untold { OnErr result (self.new.files ≡ self.old.files) }
        ensures journal { self.new.has_one_journal ≡ self.old.has_one_journal }
    {
        let found = self.look(path)?;
        Ok(found.owner)
    }

    /// Meets what is at a path, which is to have this owner.
    pub fn meet(&mut self, path: &[u8], after: Owner) -> Result<Found, Trouble>
        ensures met { IfOk result (λ found. self.new.files
            ≡ met self.old.has_one_journal path.now after found self.old.files) }
        ensures one { IfOk result (λ found. HasOneOwner after found self.old.files) }
        ensures at_most { OnErr result (IsMetAtMost path.now after self.old.files self.new.files) }
        ensures journal { self.new.has_one_journal ≡ self.old.has_one_journal }
    {
        let name = self.way.enter(path)?;
        let found = self.find(path, name)?;
        let alloc = self.rt.alloc();
        self.files.count_name(alloc, path, &found, after)?;
        if found.owner == after {
            self.sync(path, name, &found)?;
        }
        Ok(found)
    }

    /// Sees that all names of what is at a path were met, where it was met as one with several.
    pub fn check_links(&mut self, path: &[u8]) -> Result<(), Trouble>
        ensures checked { OnOk result (HasNamesMet path.now self.old.files self.new.files) }
        ensures refused { IfErr result
            (λ trouble. LacksNames path.now trouble self.old.files self.new.files) }
        ensures journal { self.new.has_one_journal ≡ self.old.has_one_journal }
    {
        if !self.files.has_counted(path) {
            return Ok(());
        }
        let found = self.look(path)?;
        self.files.check_names(&found)
    }

    /// Gives what is at a path, and has one owner, another, with the last of its names.
    pub fn give(&mut self, path: &[u8], before: Owner, after: Owner) -> Result<Modes, Trouble>
        ensures given { IfOk result (λ modes.
            IsGiven path.now before after modes self.old.files self.new.files) }
        ensures at_most { OnErr result
            (IsGivenAtMost path.now before after self.old.files self.new.files) }
        ensures journal { self.new.has_one_journal ≡ self.old.has_one_journal }
    {
        let name = self.way.enter(path)?;
        let found = self.expect(path, name, before)?;
        if self.files.waits(&found) {
            return Ok(Modes {
                before: found.mode,
                after: found.mode,
            });
        }
        self.give_found(path, name, &found, after)?;
        let now = self.expect(path, name, after)?;
        if !now.is_same_file(&found) {
            return Err(Trouble::Exchanged);
        }
        Ok(Modes {
            before: found.mode,
            after: now.mode,
        })
    }

    /// Sets the mode of what is at a path, and has this owner.
    pub fn set_mode(&mut self, path: &[u8], owner: Owner, mode: u32) -> Result<(), Trouble>
        ensures set { OnOk result (IsModeSet path.now owner mode self.old.files self.new.files) }
        ensures at_most { OnErr result (IsToldAtMost path.now self.old.files self.new.files) }
        ensures journal { self.new.has_one_journal ≡ self.old.has_one_journal }
    {
        let name = self.way.enter(path)?;
        let found = self.expect(path, name, owner)?;
        if found.kind == Kind::Other {
            return Err(Trouble::NotDone);
        }
        self.set_mode_of(path, name, &found, mode)
    }

    /// Sees that what is at a path has this owner, and syncs it.
    pub fn keep(&mut self, path: &[u8], owner: Owner) -> Result<(), Trouble>
        ensures kept { OnOk result
            (IsKept self.old.has_one_journal path.now owner self.old.files self.new.files) }
        ensures at_most { OnErr result (IsToldAtMost path.now self.old.files self.new.files) }
        ensures journal { self.new.has_one_journal ≡ self.old.has_one_journal }
    {
        let name = self.way.enter(path)?;
        let found = self.expect(path, name, owner)?;
        self.sync(path, name, &found)
    }
}
