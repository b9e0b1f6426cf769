//! Directories and files that are open, and what a name in the working directory stands for.

ghost use Rattle.std.specs.Prelude.{◌≡◌, ◌↔◌, ◌∷◌, IsTrue, OnOk, OnErr};
ghost use Rattle.reown_files.specs.Actions.{RootSettled};
ghost use Rattle.reown_files.specs.OneFile.{AreOneFile, seen_if_there};

use crate::Trouble;
use crate::actions::{Action, ActionLog};
use crate::whole_file::path_with;
use reown_plan::Owner;
use std::alloc::Global;
use std::env::set_current_dir;
use std::fs::{File, Metadata, Permissions, TryLockError};
use std::io::Read;
use std::os::fd::AsRawFd;
use std::os::unix::fs::{MetadataExt, PermissionsExt, fchown, lchown};
use std::path::Path;
use std::{fs, io};

// Numbers of errors (errno(3)).
const ENOENT: i32 = 2;

const ENOMEM: i32 = 12;

const ENOTDIR: i32 = 20;

const ENAMETOOLONG: i32 = 36;

const ELOOP: i32 = 40;

/// The bits of a mode that are not the kind of its file (inode(7)).
const MODE_BITS: u32 = 0o7777;

/// The bits that a change of the owner clears (inode(7)): set-user-ID and set-group-ID.
pub const SET_ID: u32 = 0o6000;

/// What kind of file a name stands for.
#[derive(Clone, Copy, PartialEq, Eq)]
pub enum Kind {
    Regular,
    Directory,
    /// A link, a socket, a pipe or a device, which is never opened.
    Other,
}

/// What is known of a file (stat(2)).
#[derive(Clone, Copy)]
pub struct Found {
    pub owner: Owner,
    pub kind: Kind,
    /// The bits of its mode, without its kind: of a link, a socket, a pipe or a device without
    /// set-user-ID and set-group-ID, which mean nothing there.
    pub mode: u32,
    pub device: u64,
    pub inode: u64,
    /// How many names it has.
    pub links: u64,
}

impl Found {
    fn of(metadata: &Metadata) -> Found {
        let kind = if metadata.is_file() {
            Kind::Regular
        } else if metadata.is_dir() {
            Kind::Directory
        } else {
            Kind::Other
        };
        let bits = if kind == Kind::Other {
            MODE_BITS & !SET_ID
        } else {
            MODE_BITS
        };
        Found {
            owner: Owner {
                uid: metadata.uid(),
                gid: metadata.gid(),
            },
            kind,
            mode: metadata.mode() & bits,
            device: metadata.dev(),
            inode: metadata.ino(),
            links: metadata.nlink(),
        }
    }

    /// Whether this is one file, seen twice.
    pub fn is_same_file(&self, other: &Found) -> bool
        ensures { IsTrue result ↔ AreOneFile self.now other.now }
    {
        self.device == other.device && self.inode == other.inode && self.kind == other.kind
    }
}

// What the system said.
impl From<io::Error> for Trouble {
    fn from(error: io::Error) -> Self {
        match error.raw_os_error() {
            Some(ENOENT | ENOTDIR | ELOOP) => Trouble::Gone,
            Some(ENAMETOOLONG) => Trouble::BadPath,
            Some(ENOMEM) => Trouble::Memory,
            Some(number) => Trouble::System(number),
            None => Trouble::NotDone,
        }
    }
}

/// A file that may not be there.
pub fn if_there<T: Drop>(looked: Result<T, Trouble>) -> Result<Option<T>, Trouble>
    ensures { result ≡ seen_if_there looked }
{
    match looked {
        Ok(found) => Ok(Some(found)),
        Err(Trouble::Gone) => Ok(None),
        Err(trouble) => Err(trouble),
    }
}

/// A regular file or a directory that is open.
#[derive(Drop)]
pub struct OpenFile {
    file: File,
}

impl OpenFile {
    /// What it is.
    pub fn itself(&self) -> Result<Found, Trouble> {
        Ok(Found::of(&self.file.metadata()?))
    }

    // What it is now, where that is the file that was seen.
    fn same_as(&self, seen: &Found) -> Result<Found, Trouble> {
        let now = self.itself()?;
        if !now.is_same_file(seen) {
            return Err(Trouble::Exchanged);
        }
        Ok(now)
    }

    /// Its bytes, or as many of them as this.
    pub fn read(self, alloc: Global, most: u64) -> Result<Vec<u8>, Trouble> {
        let mut bytes = Vec::new(alloc);
        self.file.take(most).read_to_end(&mut bytes)?;
        Ok(bytes)
    }

    /// Gives it an owner.
    pub fn give(&self, owner: Owner) -> Result<(), Trouble> {
        fchown(&self.file, Some(owner.uid), Some(owner.gid))?;
        Ok(())
    }

    /// Sets the bits of its mode.
    pub fn set_mode(&self, mode: u32) -> Result<(), Trouble> {
        self.file.set_permissions(Permissions::from_mode(mode))?;
        Ok(())
    }

    /// Waits until it has reached its device.
    pub fn sync(&self) -> Result<(), Trouble> {
        self.file.sync_all()?;
        Ok(())
    }
}

// Opens what a path leads to, for reading.
fn open_at(rt: &HostRuntime, path: &str) -> Result<OpenFile, Trouble> {
    let file = File::open(rt, path)?;
    Ok(OpenFile { file })
}

// Opens the directory that a path leads to, for reading. The path ends in `.`, so that what is no
// directory is refused by the system.
fn open_inside(rt: &HostRuntime, path: &str) -> Result<OpenFile, Trouble> {
    match File::open(rt, path) {
        Ok(file) => Ok(OpenFile { file }),
        Err(error) if error.raw_os_error() == Some(ENOTDIR) => Err(Trouble::NotDirectory),
        Err(error) => Err(Trouble::from(error)),
    }
}

/// A directory that is open, and what it is.
#[derive(Drop)]
pub struct Directory {
    file: OpenFile,
    found: Found,
}

impl Directory {
    // What was opened, if it is a directory.
    fn of(file: OpenFile) -> Result<Directory, Trouble> {
        let found = file.itself()?;
        if found.kind != Kind::Directory {
            return Err(Trouble::NotDirectory);
        }
        Ok(Directory { file, found })
    }

    /// The directory at a path. What is no directory is not opened.
    pub fn at(rt: &HostRuntime, path: &str) -> Result<Directory, Trouble> {
        if path.is_empty() {
            return Err(Trouble::Gone);
        }
        let inside = Path::new(path).join(rt.alloc(), ".")?;
        Directory::of(open_inside(rt, inside.as_str())?)
    }

    /// What it is.
    pub fn found(&self) -> Found {
        self.found
    }

    /// The path by which it is reached wherever it is moved, by its descriptor (proc(5)).
    pub fn way_to(&self, rt: &HostRuntime) -> Result<String, Trouble> {
        let descriptor = self.file.file.as_raw_fd();
        Ok(format!(in rt.alloc(); "/proc/self/fd/{descriptor}")?)
    }

    /// Whether this path leads to it.
    pub fn is_at(&self, rt: &HostRuntime, path: &str) -> bool {
        match look_through(rt, path) {
            Ok(found) => found.is_same_file(&self.found),
            Err(_) => false,
        }
    }

    /// Keeps from it other processes that ask for the same, until it is closed (flock(2)).
    pub fn lock(&self) -> Result<(), Trouble> {
        match self.file.file.try_lock() {
            Ok(()) => Ok(()),
            Err(TryLockError::WouldBlock) => Err(Trouble::Busy),
            Err(TryLockError::Error(error)) => Err(Trouble::from(error)),
        }
    }

    // Waits until the directory has reached its device, with its time of change set anew.
    fn sync_touched(&self) -> Result<(), Trouble> {
        fchown(&self.file.file, None, None)?;
        self.file.sync()
    }

    /// Waits until the root has reached its device, and on a file system with one journal all that
    /// was changed before. Its time of change is set first, so that there is something to wait for.
    pub fn settle(&self, log: &mut ActionLog) -> Result<(), Trouble>
        ensures settled { OnOk result (log.new.actions ≡ RootSettled ∷ log.old.actions) }
        ensures undone { OnErr result (log.new.actions ≡ log.old.actions) }
    {
        match self.sync_touched() {
            Ok(()) => {
                log.note(&Action::RootSettled);
                Ok(())
            }
            Err(Trouble::System(number)) => Err(Trouble::OfRoot(number)),
            told => told,
        }
    }

    /// Waits until the directory has reached its device.
    pub fn sync(&self) -> Result<(), Trouble> {
        self.file.sync()
    }
}

// ---- paths

/// What a path leads to.
pub fn look_through(rt: &HostRuntime, path: &str) -> Result<Found, Trouble> {
    let metadata = fs::metadata(rt, path)?;
    Ok(Found::of(&metadata))
}

/// Opens the file that was seen at a path, for reading. What came in between is refused, once it
/// was opened.
pub fn open_seen(rt: &HostRuntime, path: &str, seen: &Found) -> Result<OpenFile, Trouble> {
    let file = open_at(rt, path)?;
    file.same_as(seen)?;
    Ok(file)
}

// ---- names in the working directory, which have no slash

// The text of a name.
fn text_of(name: &[u8]) -> Result<&str, Trouble> {
    match str::from_utf8(name) {
        Ok(text) => Ok(text),
        Err(_) => Err(Trouble::NotText),
    }
}

/// What a name stands for. A link is not followed.
pub fn find(rt: &HostRuntime, name: &[u8]) -> Result<Found, Trouble> {
    let metadata = fs::symlink_metadata(rt, text_of(name)?)?;
    Ok(Found::of(&metadata))
}

/// Makes the directory at a path the working directory.
pub fn go_to(rt: &HostRuntime, path: &str, wanted: &Found) -> Result<(), Trouble> {
    set_current_dir(rt, path)?;
    if !find(rt, b".")?.is_same_file(wanted) {
        return Err(Trouble::Exchanged);
    }
    Ok(())
}

/// Makes the directory of a name the working directory, if it is on this device. A link is refused:
/// one that came after the look is followed, to a directory alone, and then told and refused.
pub fn go_below(rt: &HostRuntime, name: &[u8], device: u64) -> Result<(), Trouble> {
    let seen = find(rt, name)?;
    if seen.kind != Kind::Directory {
        return Err(Trouble::Gone);
    }
    if seen.device != device {
        return Err(Trouble::OtherMount);
    }
    go_to(rt, text_of(name)?, &seen)
}

// Opens what has a name: what is to be a directory only if it is one.
fn open_as(rt: &HostRuntime, name: &str, kind: Kind) -> Result<OpenFile, Trouble> {
    if kind != Kind::Directory {
        return open_at(rt, name);
    }
    let inside = path_with(rt, name, "/.")?;
    open_at(rt, inside.as_str())
}

/// Opens the regular file or the directory that was seen under a name, for reading, where it has
/// the owner that was seen. A link that came in between is followed, and then told and refused.
pub fn open(rt: &HostRuntime, name: &[u8], seen: &Found) -> Result<OpenFile, Trouble> {
    let file = open_as(rt, text_of(name)?, seen.kind)?;
    let now = file.same_as(seen)?;
    if now.owner != seen.owner {
        return Err(Trouble::Foreign(now.owner));
    }
    Ok(file)
}

/// Gives what has a name an owner. A link is not followed.
pub fn give_by_name(rt: &HostRuntime, name: &[u8], owner: Owner) -> Result<(), Trouble> {
    lchown(rt, text_of(name)?, Some(owner.uid), Some(owner.gid))?;
    Ok(())
}
