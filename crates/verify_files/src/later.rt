//! What AFTER names: an inventory, or a directory, which is walked.

use crate::reading::{inventory_of, read_mtree};
use idtext::MOST_LINE_BYTES;
use inventory_files::{FileSink, Listed, list_files, named_roots};
use inventory_text::{FileKind, push_entry};
use mtree_inv::Inventory;
use std::fs;
use unify_io::{FileFault, Part, tell_of};

// What is said of a link to a directory.
const LINK: &str = "a symbolic link to a directory; it is followed where a slash stands behind it";

/// The files that are there now.
#[derive(Drop)]
pub(crate) struct LaterFiles {
    pub(crate) inventory: Inventory,
    /// Whether none was left out that was told of.
    pub(crate) is_whole: bool,
}

// The lines of an inventory, in memory.
#[derive(Drop)]
struct InventoryLines {
    text: Vec<u8>,
}

impl FileSink for InventoryLines {
    fn entry(
        &mut self,
        path: &[u8],
        uid: u32,
        gid: u32,
        kind: FileKind,
    ) -> Result<bool, FileFault> {
        let before = self.text.len();
        push_entry(&mut self.text, path, uid, gid, kind)?;
        if self.text.len() - before > MOST_LINE_BYTES + 1 {
            self.text.truncate(before);
            return Ok(false);
        }
        Ok(true)
    }
}

// The files below a directory, and the directory first, on its file system. They are written as
// `unify inventory -x` writes them, and read back, so that they are found by the same paths.
fn walk(rt: &HostRuntime, word: &str) -> Result<LaterFiles, FileFault> {
    let roots = named_roots(rt, &[word])?;
    let mut lines = InventoryLines {
        text: Vec::new(rt.alloc()),
    };
    let listed = list_files(rt, &roots, true, &mut lines)?;
    let inventory = inventory_of(rt, word, &lines.text)?;
    Ok(LaterFiles {
        inventory,
        is_whole: listed == Listed::All,
    })
}

// Whether a word leads to a directory.
fn leads_to_directory(rt: &HostRuntime, word: &str) -> bool {
    match fs::metadata(rt, word) {
        Ok(found) => found.is_dir(),
        Err(_) => false,
    }
}

/// The files that AFTER names. A link to a directory is refused, since no walk follows one.
pub(crate) fn later_files(rt: &HostRuntime, word: &str) -> Result<LaterFiles, FileFault> {
    match fs::symlink_metadata(rt, word) {
        Ok(found) if found.is_dir() => walk(rt, word),
        Ok(found) if found.is_symlink() && leads_to_directory(rt, word) => {
            let parts = [Part::Text(LINK)];
            Err(tell_of(rt, "file", word.as_bytes(), &parts, 3))
        }
        _ => Ok(LaterFiles {
            inventory: read_mtree(rt, word)?,
            is_whole: true,
        }),
    }
}
