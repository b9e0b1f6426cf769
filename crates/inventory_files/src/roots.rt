//! The roots that words name.

use crate::telling::{RootFault, root_refused};
use idtext::ByteString;
use std::alloc::AllocError;
use std::fs::Metadata;
use std::os::unix::fs::MetadataExt;
use std::path::Path;
use std::{fs, io};
use unify_io::FileFault;

// Where a directory is, by whatever word.
#[derive(Drop)]
struct Place {
    device: u64,
    inode: u64,
    // Its path without links, as written paths are, where the system tells it.
    path: Option<ByteString>,
}

/// A root: the word that names it, and the path that its files are written below. That of `/` is
/// empty.
#[derive(Drop)]
pub struct NamedRoot<'w> {
    pub word: &'w str,
    pub written: ByteString,
    // Where it is; nowhere if it is no directory or cannot be looked at, which the walk tells.
    place: Option<Place>,
}

// Why a word names no root, if it does not.
fn fault_of(word: &str) -> Option<RootFault<'static>> {
    if word.is_empty() {
        return Some(RootFault::Empty);
    }
    for part in word.split('/') {
        if part == ".." {
            return Some(RootFault::HasDotDot);
        }
    }
    None
}

// The names in a word, with slashes between them: without slashes and full stops in front, or
// between two names.
fn written_path(rt: &HostRuntime, word: &str) -> Result<ByteString, AllocError> {
    let mut path = Vec::new(rt.alloc());
    for part in word.split('/') {
        if part.is_empty() || part == "." {
            continue;
        }
        if !path.is_empty() {
            path.push(b'/')?;
        }
        path.extend_from_slice(part.as_bytes())?;
    }
    Ok(ByteString::from_vec(path))
}

// Whether a path is another, or lies below it.
fn is_inside(path: &[u8], other: &[u8]) -> bool {
    if other.is_empty() {
        return true;
    }
    match path.strip_prefix(other) {
        Some([]) | Some([b'/', ..]) => true,
        _ => false,
    }
}

// What a call gave, if it gave something. Want of memory is a fault.
fn if_given<T: Drop>(done: io::Result<T>) -> Result<Option<T>, FileFault> {
    match done {
        Ok(value) => Ok(Some(value)),
        Err(error) if error.kind() == io::ErrorKind::OutOfMemory => Err(FileFault::Memory),
        Err(_) => Ok(None),
    }
}

// The path without links of the directory that a word names, as written paths are.
fn path_without_links(rt: &HostRuntime, word: &str) -> Result<Option<ByteString>, FileFault> {
    match if_given(Path::new(word).canonicalize(rt))? {
        Some(path) => Ok(Some(written_path(rt, path.as_str())?)),
        None => Ok(None),
    }
}

// Where the directory is that was found by a word.
fn place_of(rt: &HostRuntime, word: &str, found: &Metadata) -> Result<Place, FileFault> {
    Ok(Place {
        device: found.dev(),
        inode: found.ino(),
        path: path_without_links(rt, word)?,
    })
}

// Where the directory is that a word names, if it names one.
fn named_place(rt: &HostRuntime, word: &str) -> Result<Option<Place>, FileFault> {
    match if_given(fs::symlink_metadata(rt, word))? {
        Some(found) if found.is_dir() => Ok(Some(place_of(rt, word, &found)?)),
        _ => Ok(None),
    }
}

impl Place {
    // Whether it is another, or lies below it.
    fn is_in(&self, other: &Place) -> bool {
        if self.device == other.device && self.inode == other.inode {
            return true;
        }
        match (&self.path, &other.path) {
            (Some(path), Some(other)) => is_inside(path.bytes(), other.bytes()),
            _ => false,
        }
    }
}

impl NamedRoot<'_> {
    // Whether it is another, or lies below it: by its word, or by links that its word goes through.
    fn is_in(&self, other: &NamedRoot<'_>) -> bool {
        if is_inside(self.written.bytes(), other.written.bytes()) {
            return true;
        }
        match (&self.place, &other.place) {
            (Some(place), Some(other)) => place.is_in(other),
            _ => false,
        }
    }
}

// Refuses a root that lies in one of these, or that one of these lies in: a file would be listed
// twice.
fn see_apart(
    rt: &HostRuntime,
    roots: &[NamedRoot<'_>],
    root: &NamedRoot<'_>,
) -> Result<(), FileFault> {
    for other in roots {
        if root.is_in(other) {
            return Err(root_refused(rt, root.word, RootFault::Inside(other.word)));
        }
        if other.is_in(root) {
            return Err(root_refused(rt, other.word, RootFault::Inside(root.word)));
        }
    }
    Ok(())
}

// The root that a word names, after these.
fn root_of<'w>(
    rt: &HostRuntime,
    roots: &[NamedRoot<'w>],
    word: &'w str,
) -> Result<NamedRoot<'w>, FileFault> {
    if let Some(fault) = fault_of(word) {
        return Err(root_refused(rt, word, fault));
    }
    let root = NamedRoot {
        word,
        written: written_path(rt, word)?,
        place: named_place(rt, word)?,
    };
    see_apart(rt, roots, &root)?;
    Ok(root)
}

/// The roots that words name, in order. One that has `..` in it is refused, since its files have
/// no path below the starting directory, and so are two of which one lies in the other, by links
/// too.
pub fn named_roots<'w>(
    rt: &HostRuntime,
    words: &[&'w str],
) -> Result<Vec<NamedRoot<'w>>, FileFault> {
    let mut roots = Vec::new(rt.alloc());
    for word in words {
        let root = root_of(rt, &roots, *word)?;
        roots.push(root)?;
    }
    Ok(roots)
}
