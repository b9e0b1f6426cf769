//! The directory that a merge writes into, as it is found before anything is read.

use crate::files::{
    FileFault, holds, holds_directory, host_directory, host_name, or_told, read_start,
};
use crate::report::output_refused;
use std::alloc::AllocError;
use std::fs::{DirEntry, File, Metadata, TryLockError};
use std::os::unix::fs::MetadataExt;
use std::path::{Path, PathBuf};
use std::{fs, io};

/// What a merge that was begun and did not end leaves in its directory.
pub const MARK: &str = ".unify-merge";

/// How the names begin under which a merge writes its files before it renames them.
pub const TEMPORARY: &str = ".unify-new.";

/// How the names of plans begin.
pub const PLAN: &str = "plan.";

/// How the names of each host's own passwd and group begin.
pub const OWN_PASSWD: &str = "passwd.";

pub const OWN_GROUP: &str = "group.";

/// Why nothing is written into a directory.
#[derive(Clone, Copy)]
pub enum OutputFault<'a> {
    EmptyWord,
    /// It is not there, no directory, or cannot be read or locked.
    System(io::Error),
    /// It is the directory of the host of that name.
    HostDirectory(&'a str),
    /// Another merge has it.
    Busy,
    /// It holds a file of that name, as the directory of a host does.
    HostFile(&'a str),
    /// It holds a directory of that name, where a merge has a file.
    Directory(&'a str),
    /// It holds something of that name that no merge wrote.
    Foreign(&'a str),
}

impl OutputFault<'_> {
    /// Whether it is want of memory.
    pub fn is_memory(&self) -> bool {
        match self {
            OutputFault::System(error) => error.kind() == io::ErrorKind::OutOfMemory,
            _ => false,
        }
    }
}

// Files that directories of hosts hold, and no merge writes.
const HOST_FILES: [&str; 3] = ["mtree", "login.defs", "shadow"];

// Files that a merge writes, except for those of each host.
const MERGED_FILES: [&str; 5] = ["passwd", "group", "map", "certificate", "report"];

// Notes a name, if it begins so.
fn note_name(
    rt: &HostRuntime,
    names: &mut Vec<String>,
    name: &str,
    start: &str,
) -> Result<(), AllocError> {
    if name.starts_with(start) {
        names.push(String::from_str(rt.alloc(), name)?)?;
    }
    Ok(())
}

// Notes the name of an entry of a directory, if it begins so. A name that is not UTF-8 is passed
// over.
fn note_entry(
    rt: &HostRuntime,
    names: &mut Vec<String>,
    entry: io::Result<DirEntry>,
    start: &str,
) -> io::Result<()> {
    match entry {
        Ok(entry) => Ok(note_name(rt, names, entry.file_name(), start)?),
        Err(error) if error.kind() == io::ErrorKind::InvalidFilename => Ok(()),
        Err(error) => Err(error),
    }
}

// Notes the names in a directory that begin so.
fn note_names(
    rt: &HostRuntime,
    names: &mut Vec<String>,
    directory: &str,
    start: &str,
) -> io::Result<()> {
    for entry in fs::read_dir(rt, directory)? {
        note_entry(rt, names, entry, start)?;
    }
    Ok(())
}

// Whether a file begins with these bytes.
fn starts_with(rt: &HostRuntime, path: &str, start: &[u8]) -> io::Result<bool> {
    let bytes = read_start(rt, path, start.len() as u64)?;
    Ok(bytes.as_slice() == start)
}

// What a path leads to, if it leads anywhere.
fn found_behind(rt: &HostRuntime, path: &str) -> io::Result<Option<Metadata>> {
    match fs::metadata(rt, path) {
        Ok(found) => Ok(Some(found)),
        Err(error) if error.kind() == io::ErrorKind::NotFound => Ok(None),
        Err(error) => Err(error),
    }
}

// Whether a path leads to a regular file that begins with these bytes. Where the system does
// not tell what the path leads to, that is an error: it may be such a file.
fn is_file_with(rt: &HostRuntime, path: &str, start: &[u8]) -> io::Result<bool> {
    match found_behind(rt, path)? {
        Some(found) if found.is_file() => starts_with(rt, path, start),
        _ => Ok(false),
    }
}

// Opens a directory. What is no directory is not opened.
fn open_directory(rt: &HostRuntime, directory: &str) -> io::Result<File> {
    let inside = Path::new(directory).join(rt.alloc(), ".")?;
    File::open(rt, inside.as_str())
}

/// The directory that hosts are merged into.
#[derive(Clone, Copy)]
pub struct OutputDirectory<'w> {
    /// The runtime that its files are read and written with.
    pub rt: &'w HostRuntime,
    /// Where it is.
    pub path: &'w str,
    /// The words that name the hosts.
    pub words: &'w [&'w str],
}

impl<'w> OutputDirectory<'w> {
    /// The path of the name in it that a start and an end make.
    pub fn path_of(&self, start: &str, end: &str) -> Result<PathBuf, AllocError> {
        let name = format!(in self.rt.alloc(); "{start}{end}")?;
        Path::new(self.path).join(self.rt.alloc(), name.as_str())
    }

    /// The names in it that begin so. A name that is not UTF-8 is passed over.
    pub fn names_with(&self, start: &str) -> Result<Vec<String>, FileFault> {
        let mut names = Vec::new(self.rt.alloc());
        let noted = note_names(self.rt, &mut names, self.path, start);
        or_told(self.rt, self.path, noted)?;
        Ok(names)
    }

    // Whether a name in it stands for a file that begins with these bytes.
    fn has_file_with(&self, name: &str, end: &str, start: &[u8]) -> Result<bool, FileFault> {
        let path = self.path_of(name, end)?;
        let begins = is_file_with(self.rt, path.as_str(), start);
        or_told(self.rt, path.as_str(), begins)
    }

    /// Whether a merge replaces or removes the files of the host of that name: it is one of those
    /// that are merged, or an earlier merge wrote a plan for it.
    pub fn takes_host(&self, host: &str) -> Result<bool, FileFault> {
        if self.words.iter().any(|word| host_name(*word) == host) {
            return Ok(true);
        }
        self.has_file_with(PLAN, host, b"unify plan ")
    }

    // Tells why nothing is written into it.
    fn refused(&self, fault: OutputFault<'_>) -> FileFault {
        output_refused(self.rt, self.path, fault)
    }

    // The first of these names that stands in it.
    fn first_held<'n>(&self, names: &[&'n str]) -> Result<Option<&'n str>, FileFault> {
        for name in names {
            if holds(self.rt, self.path, *name)? {
                return Ok(Some(*name));
            }
        }
        Ok(None)
    }

    // Whether a merge was made into it, or begun there.
    fn was_merged_into(&self) -> Result<bool, FileFault> {
        if holds(self.rt, self.path, MARK)? {
            return Ok(true);
        }
        self.has_file_with("report", "", b"unify report ")
    }

    // Refuses it if it holds names that begin as those of the files of hosts do.
    fn refuse_names_with(&self, start: &str) -> Result<(), FileFault> {
        match self.names_with(start)?.last() {
            None => Ok(()),
            Some(name) => Err(self.refused(OutputFault::Foreign(name.as_str()))),
        }
    }

    // Refuses it if it holds something that stands in the way of a first merge.
    fn refuse_foreign(&self) -> Result<(), FileFault> {
        if let Some(name) = self.first_held(&MERGED_FILES)? {
            return Err(self.refused(OutputFault::Foreign(name)));
        }
        for start in &[PLAN, OWN_PASSWD, OWN_GROUP] {
            self.refuse_names_with(*start)?;
        }
        Ok(())
    }

    // Refuses it if that name is of a directory in it.
    fn refuse_directory(&self, name: &str) -> Result<(), FileFault> {
        if holds_directory(self.rt, self.path, name)? {
            Err(self.refused(OutputFault::Directory(name)))
        } else {
            Ok(())
        }
    }

    // Refuses it if a name that begins so, and is of a file of a host that a merge replaces or
    // removes, is of a directory.
    fn refuse_directories_with(&self, start: &str) -> Result<(), FileFault> {
        for name in &self.names_with(start)? {
            if self.takes_host(name.strip_prefix(start).unwrap_or(""))? {
                self.refuse_directory(name.as_str())?;
            }
        }
        Ok(())
    }

    // Refuses it if a name of a merge's own is of a directory.
    fn refuse_directories(&self) -> Result<(), FileFault> {
        self.refuse_directory(MARK)?;
        for name in &MERGED_FILES {
            self.refuse_directory(*name)?;
        }
        for name in &self.names_with(TEMPORARY)? {
            self.refuse_directory(name.as_str())?;
        }
        Ok(())
    }

    // Refuses it if it holds what no merge may change.
    fn refuse_held(&self) -> Result<(), FileFault> {
        if let Some(name) = self.first_held(&HOST_FILES)? {
            return Err(self.refused(OutputFault::HostFile(name)));
        }
        self.refuse_directories()?;
        if !self.was_merged_into()? {
            return self.refuse_foreign();
        }
        for start in &[OWN_PASSWD, OWN_GROUP, PLAN] {
            self.refuse_directories_with(*start)?;
        }
        Ok(())
    }

    // Whether it is the directory of the host that a word names. One that is not there is told
    // later, where it is read.
    fn is_of_host(&self, word: &str, found: &Metadata) -> Result<bool, FileFault> {
        let directory = host_directory(word);
        let named = if directory.is_empty() { "." } else { directory };
        match or_told(self.rt, named, found_behind(self.rt, named))? {
            Some(host) => Ok(host.dev() == found.dev() && host.ino() == found.ino()),
            None => Ok(false),
        }
    }

    // Refuses it if it is the directory of one of the hosts that words name.
    fn refuse_host(&self, found: &Metadata) -> Result<(), FileFault> {
        for word in self.words {
            if self.is_of_host(*word, found)? {
                return Err(self.refused(OutputFault::HostDirectory(host_name(*word))));
            }
        }
        Ok(())
    }

    // Refuses it if it is the directory of a host, now that it was opened.
    fn see_apart(&self, opened: &File) -> Result<(), FileFault> {
        match opened.metadata() {
            Ok(found) => self.refuse_host(&found),
            Err(error) => Err(self.refused(OutputFault::System(error))),
        }
    }

    // Locks it, now that it was opened, unless another merge has it.
    fn take(&self, opened: &File) -> Result<(), FileFault> {
        match opened.try_lock() {
            Ok(()) => Ok(()),
            Err(TryLockError::WouldBlock) => Err(self.refused(OutputFault::Busy)),
            Err(TryLockError::Error(error)) => Err(self.refused(OutputFault::System(error))),
        }
    }

    // Locks it, now that it was opened, and looks at what it holds.
    fn lock(&self, opened: &File) -> Result<(), FileFault> {
        self.see_apart(opened)?;
        self.take(opened)?;
        self.refuse_held()
    }

    /// Opens it. It is locked: no other merge is made into it until what is returned is closed,
    /// which the end of the process does too. It is refused where it is not there, where it is or
    /// looks like the directory of a host, where another merge has it, where it holds a directory
    /// that has the name of a file that a merge writes or removes, and where it holds what a merge
    /// would write and no merge wrote.
    pub fn open(&self) -> Result<File, FileFault> {
        if self.path.is_empty() {
            return Err(self.refused(OutputFault::EmptyWord));
        }
        match open_directory(self.rt, self.path) {
            Ok(opened) => {
                self.lock(&opened)?;
                Ok(opened)
            }
            Err(error) => Err(self.refused(OutputFault::System(error))),
        }
    }
}
