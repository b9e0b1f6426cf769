//! The memory of paths that were handed out, for paths to come.
ghost use Rattle.std.specs.Prelude.{◌≡◌, [], IfOk};

use std::alloc::{AllocError, Global};

// How many are kept at most: fewer files mostly wait after a piece of a text of 1,024 bytes.
const MOST_PATHS: usize = 64;

// How many bytes one may have room for, to be kept.
const MOST_BYTES: usize = 4096;

/// Paths that are no longer needed. Nothing rests on what they are but time.
#[derive(Drop)]
pub(crate) struct SparePaths {
    paths: Vec<Vec<u8>>,
}

impl SparePaths {
    /// None. Takes no memory.
    pub(crate) fn new(alloc: Global) -> Self {
        SparePaths {
            paths: Vec::new(alloc),
        }
    }

    /// An empty path with room for so many bytes.
    pub(crate) fn take(&mut self, alloc: Global, room: usize) -> Result<Vec<u8>, AllocError>
        ensures { IfOk result (λ path. path.items ≡ []) }
    {
        match self.paths.pop() {
            None => Vec::with_capacity(alloc, room),
            Some(mut path) => {
                path.clear();
                path.reserve(room)?;
                Ok(path)
            }
        }
    }

    /// A copy of a path.
    pub(crate) fn copy_of(&mut self, alloc: Global, path: &[u8]) -> Result<Vec<u8>, AllocError>
        ensures { IfOk result (λ copy. copy.items ≡ path.now) }
    {
        let mut copy = self.take(alloc, path.len())?;
        copy.extend_from_slice(path)?;
        Ok(copy)
    }

    /// Keeps the memory of a path, unless there is enough.
    pub(crate) fn give(&mut self, path: Vec<u8>) {
        if self.paths.len() < MOST_PATHS && path.capacity() <= MOST_BYTES {
            let _ = self.paths.push(path);
        }
    }
}
