//! Directories that are open. What is in one is reached by its descriptor, as
//! /proc/self/fd/N/NAME (proc(5)), so that no directory on the way is looked up again.

use crate::telling::Trouble;
use inventory_text::FileKind;
use std::fs::{DirEntry, File, FileType, Metadata, ReadDir};
use std::os::fd::AsRawFd;
use std::os::unix::fs::{FileTypeExt, MetadataExt};
use std::{fs, io};

/// What a file is, by what the system tells of it.
pub fn kind_of(found: &FileType) -> FileKind {
    if found.is_dir() {
        FileKind::Directory
    } else if found.is_symlink() {
        FileKind::Link
    } else if found.is_block_device() {
        FileKind::Block
    } else if found.is_char_device() {
        FileKind::Character
    } else if found.is_fifo() {
        FileKind::Fifo
    } else if found.is_socket() {
        FileKind::Socket
    } else {
        FileKind::Regular
    }
}

/// A directory that is open, and the names in it that have not come yet.
#[derive(Drop)]
pub struct OpenDirectory {
    // Keeps open what the names are read from.
    file: File,
    names: ReadDir,
    /// How many bytes the path of the directory has.
    pub path_len: usize,
}

// The directory that was seen at a path, opened. A link that came in between is followed, to a
// directory alone, and then told.
fn opened(rt: &HostRuntime, path: &str, seen: &Metadata) -> io::Result<Option<File>> {
    let inside = format!(in rt.alloc(); "{path}/.")?;
    let file = File::open(rt, inside.as_str())?;
    let found = file.metadata()?;
    if found.dev() == seen.dev() && found.ino() == seen.ino() {
        Ok(Some(file))
    } else {
        Ok(None)
    }
}

// The names in a directory that is open.
fn names_in(rt: &HostRuntime, file: &File) -> io::Result<ReadDir> {
    let descriptor = file.as_raw_fd();
    let path = format!(in rt.alloc(); "/proc/self/fd/{descriptor}")?;
    fs::read_dir(rt, path.as_str())
}

impl OpenDirectory {
    /// The directory that was seen at a path, if it is still there.
    pub fn at(
        rt: &HostRuntime,
        path: &str,
        seen: &Metadata,
        path_len: usize,
    ) -> Result<Option<OpenDirectory>, Trouble> {
        let file = match opened(rt, path, seen) {
            Ok(Some(file)) => file,
            Ok(None) => return Err(Trouble::Exchanged),
            Err(error) if error.kind() == io::ErrorKind::NotFound => return Ok(None),
            Err(error) => return Err(Trouble::System(error)),
        };
        match names_in(rt, &file) {
            Ok(names) => Ok(Some(OpenDirectory {
                file,
                names,
                path_len,
            })),
            Err(error) => Err(Trouble::System(error)),
        }
    }

    /// The next name in it, if there is one more.
    pub fn next_name(&mut self) -> Option<io::Result<DirEntry>> {
        self.names.next()
    }
}
