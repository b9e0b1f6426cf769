//! The files below a root.

use crate::roots::NamedRoot;
use crate::sink::FileSink;
use crate::telling::{Trouble, tell_more_systems, tell_other_system, tell_trouble};
use crate::walk::{OpenDirectory, kind_of};
use idtext::GREATEST_ID;
use std::alloc::AllocError;
use std::fs::{DirEntry, Metadata};
use std::os::unix::fs::MetadataExt;
use std::{fs, io};
use unify_io::FileFault;

// A path as it is written and told: that of the starting directory is a full stop.
fn shown(path: &[u8]) -> &[u8] {
    if path.is_empty() { b"." } else { path }
}

/// How much of what is below roots was listed.
#[derive(Clone, Copy, PartialEq, Eq)]
pub enum Listed {
    /// All of it, but what is on other file systems, where that is left out.
    All,
    /// Not all of it; what was left out was told.
    Part,
    /// Not even each root.
    NotEachRoot,
}

/// A walk over the files below roots, which go into a sink.
#[derive(Drop)]
pub struct Listing<'l, S> {
    rt: &'l HostRuntime,
    sink: &'l mut S,
    // Whether what is on another file system than its root is left out.
    stays: bool,
    // The file system of the present root.
    device: u64,
    // The path of the present file, as it is written; empty at the starting directory.
    path: Vec<u8>,
    listed: Listed,
    // How many files were left out since they are on another file system than their root.
    elsewhere: usize,
}

impl<'l, S: FileSink> Listing<'l, S> {
    /// Nothing is listed yet.
    fn new(rt: &'l HostRuntime, stays: bool, sink: &'l mut S) -> Listing<'l, S> {
        Listing {
            rt,
            sink,
            stays,
            device: 0,
            path: Vec::new(rt.alloc()),
            listed: Listed::All,
            elsewhere: 0,
        }
    }

    // Tells why the present file, or what is in it, is not listed.
    fn trouble(&mut self, trouble: Trouble) -> Result<(), FileFault> {
        if let Trouble::System(error) = trouble {
            if error.kind() == io::ErrorKind::OutOfMemory {
                return Err(FileFault::Memory);
            }
        }
        if self.listed == Listed::All {
            self.listed = Listed::Part;
        }
        tell_trouble(self.rt, shown(&self.path), trouble)
    }

    // Tells why a root is not listed.
    fn root_trouble(&mut self, trouble: Trouble) -> Result<(), FileFault> {
        self.listed = Listed::NotEachRoot;
        self.trouble(trouble)
    }

    // Puts the present file into the sink.
    fn put(&mut self, found: &Metadata) -> Result<(), FileFault> {
        if found.uid() > GREATEST_ID || found.gid() > GREATEST_ID {
            return self.trouble(Trouble::NoOwner);
        }
        let kind = kind_of(&found.file_type());
        let (uid, gid) = (found.uid(), found.gid());
        if self.sink.entry(shown(&self.path), uid, gid, kind)? {
            Ok(())
        } else {
            self.trouble(Trouble::TooLong)
        }
    }

    // Goes to a name in the directory whose path has so many bytes.
    fn go_to(&mut self, path_len: usize, name: &str) -> Result<(), AllocError> {
        self.path.truncate(path_len);
        if path_len > 0 {
            self.path.push(b'/')?;
        }
        self.path.extend_from_slice(name.as_bytes())
    }

    // Opens the directory that the present file is, if it is not gone meanwhile.
    fn open(&mut self, path: &str, found: &Metadata) -> Result<Option<OpenDirectory>, FileFault> {
        match OpenDirectory::at(self.rt, path, found, self.path.len()) {
            Ok(directory) => Ok(directory),
            Err(trouble) => {
                self.trouble(trouble)?;
                Ok(None)
            }
        }
    }

    // Leaves the present file out, which is on another file system than its root.
    fn leave_out(&mut self) -> Result<(), FileFault> {
        tell_other_system(self.rt, shown(&self.path), self.elsewhere)?;
        self.elsewhere = self.elsewhere.saturating_add(1);
        Ok(())
    }

    // Lists the present file, and opens it if it is a directory.
    fn list(&mut self, path: &str, found: &Metadata) -> Result<Option<OpenDirectory>, FileFault> {
        if self.stays && found.dev() != self.device {
            self.leave_out()?;
            return Ok(None);
        }
        self.put(found)?;
        if found.is_dir() {
            self.open(path, found)
        } else {
            Ok(None)
        }
    }

    // Lists what has a name in a directory. What is gone meanwhile is no file any more.
    fn list_entry(
        &mut self,
        entry: &DirEntry,
        path_len: usize,
    ) -> Result<Option<OpenDirectory>, FileFault> {
        self.go_to(path_len, entry.file_name())?;
        match entry.metadata() {
            Ok(found) => self.list(entry.path().as_str(), &found),
            Err(error) if error.kind() == io::ErrorKind::NotFound => Ok(None),
            Err(error) => {
                self.trouble(Trouble::System(error))?;
                Ok(None)
            }
        }
    }

    // Lists what came of a directory whose path has so many bytes. One that is gone has no names.
    fn list_came(
        &mut self,
        came: io::Result<DirEntry>,
        path_len: usize,
    ) -> Result<Option<OpenDirectory>, FileFault> {
        match came {
            Ok(entry) => self.list_entry(&entry, path_len),
            Err(error) if error.kind() == io::ErrorKind::NotFound => Ok(None),
            Err(error) => {
                self.path.truncate(path_len);
                let is_name = error.kind() == io::ErrorKind::InvalidFilename;
                self.trouble(if is_name {
                    Trouble::NotText
                } else {
                    Trouble::System(error)
                })?;
                Ok(None)
            }
        }
    }

    // Lists all that is below the directories that are open, the last one first.
    fn list_below(&mut self, open: &mut Vec<OpenDirectory>) -> Result<(), FileFault> {
        for _ in 0..u64::MAX {
            let Some(directory) = open.last_mut() else {
                return Ok(());
            };
            let path_len = directory.path_len;
            match directory.next_name() {
                None => {
                    let _ = open.pop();
                }
                Some(came) => {
                    if let Some(below) = self.list_came(came, path_len)? {
                        open.push(below)?;
                    }
                }
            }
        }
        Ok(())
    }

    // Lists a root that the system told of, and all below it.
    fn list_root(&mut self, word: &str, found: &Metadata) -> Result<(), FileFault> {
        if !found.is_dir() {
            return self.root_trouble(Trouble::NotDirectory);
        }
        self.device = found.dev();
        let mut open = Vec::new(self.rt.alloc());
        if let Some(directory) = self.list(word, found)? {
            open.push(directory)?;
        }
        self.list_below(&mut open)
    }

    // Lists a root and all below it.
    fn root(&mut self, root: &NamedRoot<'_>) -> Result<(), FileFault> {
        self.path.clear();
        self.path.extend_from_slice(root.written.bytes())?;
        match fs::symlink_metadata(self.rt, root.word) {
            Ok(found) => self.list_root(root.word, &found),
            Err(error) => self.root_trouble(Trouble::System(error)),
        }
    }
}

/// Puts the files below each root into a sink, as they are found, and the root itself first. What
/// is on another file system than its root is left out where the walk `stays`, the directory that
/// it is mounted on too. Says how much was listed. What is left out is told on standard error: of
/// other file systems the first few files, and how many more there are.
///
/// # Errors
///
/// Those of the sink, want of memory, and that standard error does not take what is told of other
/// file systems.
pub fn list_files<S: FileSink>(
    rt: &HostRuntime,
    roots: &[NamedRoot<'_>],
    stays: bool,
    sink: &mut S,
) -> Result<Listed, FileFault> {
    let mut listing = Listing::new(rt, stays, sink);
    for root in roots {
        listing.root(root)?;
    }
    tell_more_systems(rt, listing.elsewhere)?;
    Ok(listing.listed)
}
