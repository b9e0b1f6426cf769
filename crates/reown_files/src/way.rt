//! The way from a root to the directories below it. The working directory of the process goes
//! there, part by part, and no link is followed.

use crate::Trouble;
use crate::walk::{Directory, go_below, go_to};
use idtext::Pieces;
use memchr::memrchr;

/// A directory that is open, and one below it that is the working directory.
#[derive(Drop)]
pub struct Way<'w> {
    rt: &'w HostRuntime,
    root: Directory,
    // The path by which the root is reached from anywhere.
    back: String,
    // The path of the working directory from the root; it is empty for the root itself.
    path: Vec<u8>,
    // Whether the working directory is known to be there.
    is_there: bool,
}

// Whether a part of a path is the name of a file.
fn is_name(part: &[u8]) -> bool {
    !part.is_empty() && part != b".".as_slice() && part != b"..".as_slice()
}

// The directory part of a path, and the name in it: an empty one and `.` for the root itself.
fn split_name(path: &[u8]) -> (&[u8], &[u8]) {
    match memrchr(b'/', path) {
        Some(slash) => (&path[..slash], &path[slash + 1..]),
        None => (b"", path),
    }
}

// What a path has after that of a directory on its way, without the slash between them.
fn rest_below<'b>(path: &'b [u8], directory: &[u8]) -> Option<&'b [u8]> {
    if directory.is_empty() {
        return Some(path);
    }
    path.strip_prefix(directory)?.strip_prefix(b"/")
}

impl<'w> Way<'w> {
    /// The way from a directory. The working directory is what it was until the first name is
    /// looked for.
    pub fn from(rt: &'w HostRuntime, root: Directory) -> Result<Way<'w>, Trouble> {
        let back = root.way_to(rt)?;
        if !root.is_at(rt, back.as_str()) {
            return Err(Trouble::NoProc);
        }
        Ok(Way {
            rt,
            root,
            back,
            path: Vec::new(rt.alloc()),
            is_there: false,
        })
    }

    /// Where it begins.
    pub fn root(&self) -> &Directory {
        &self.root
    }

    // Goes back to the root.
    fn go_back(&mut self) -> Result<(), Trouble> {
        self.path.clear();
        go_to(self.rt, self.back.as_str(), &self.root.found())
    }

    // Goes down from the working directory, part by part.
    fn go_down(&self, path: &[u8]) -> Result<(), Trouble> {
        for part in Pieces::new(b'/', path) {
            if !is_name(part) {
                return Err(Trouble::BadPath);
            }
            go_below(self.rt, part, self.root.found().device)?;
        }
        Ok(())
    }

    // Goes to a directory, from the working directory where that is on its way.
    fn go(&mut self, parent: &[u8]) -> Result<(), Trouble> {
        if !self.is_there || rest_below(parent, &self.path).is_none() {
            self.is_there = false;
            self.go_back()?;
        }
        self.is_there = false;
        if !parent.is_empty() {
            self.go_down(rest_below(parent, &self.path).unwrap_or(parent))?;
        }
        self.path.clear();
        self.path.extend_from_slice(parent)?;
        self.is_there = true;
        Ok(())
    }

    /// Makes the directory that a path's last part is in the working directory, and hands out that
    /// part.
    pub fn enter<'b>(&mut self, path: &'b [u8]) -> Result<&'b [u8], Trouble> {
        let (parent, name) = split_name(path);
        if path.starts_with(b"/") || !is_name(name) && path != b".".as_slice() {
            return Err(Trouble::BadPath);
        }
        if !self.is_there || self.path.as_slice() != parent {
            self.go(parent)?;
        }
        Ok(name)
    }
}
