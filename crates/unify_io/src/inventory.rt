//! Inventories that are read in pieces.

use crate::file_lines::FileLines;
use crate::files::{FileFault, host_directory, too_large};
use crate::report::file_failed;
use std::fs::File;
use std::io::{self, BufRead, BufReader, ErrorKind};
use std::path::{Path, PathBuf};

// How many bytes of an inventory are asked of the system at once.
const BUFFER_BYTES: usize = 65536;

// How many bytes are handed out at once, at most. The files of a piece wait with their whole paths,
// and a path may be that of 30,000 directories: so they are few.
const PIECE_BYTES: usize = 1024;

/// An inventory, open to be read once.
#[derive(Drop)]
pub struct InventoryFile {
    path: PathBuf,
    reader: BufReader<File>,
    // Where its lines of files are counted.
    lines: Option<FileLines>,
}

// Opens a file to be read in parts.
fn open_buffered(rt: &HostRuntime, path: &str) -> io::Result<BufReader<File>> {
    BufReader::with_capacity(rt.alloc(), BUFFER_BYTES, File::open(rt, path)?)
}

// Appends the bytes that the buffer has, or those that it is filled with: none only at the end.
fn append_buffered(reader: &mut BufReader<File>, bytes: &mut Vec<u8>) -> io::Result<()> {
    let buffered = reader.fill_buf()?;
    let len = buffered.len().min(PIECE_BYTES);
    bytes.extend_from_slice(&buffered[..len])?;
    reader.consume(len);
    Ok(())
}

// Whether a signal interrupted a call.
fn is_interrupted(ended: &io::Result<()>) -> bool {
    matches!(ended, Err(error) if error.kind() == ErrorKind::Interrupted)
}

// Appends the next piece, again where a signal interrupts that.
fn append_piece(reader: &mut BufReader<File>, bytes: &mut Vec<u8>) -> io::Result<()> {
    let mut ended = append_buffered(reader, bytes);
    for _ in 0..u64::MAX {
        if !is_interrupted(&ended) {
            break;
        }
        ended = append_buffered(reader, bytes);
    }
    ended
}

impl InventoryFile {
    /// Opens the inventory of the host that a word names.
    pub fn open(rt: &HostRuntime, word: &str) -> Result<InventoryFile, FileFault> {
        let path = Path::new(host_directory(word)).join(rt.alloc(), "mtree")?;
        InventoryFile::open_at(rt, path)
    }

    /// Opens the inventory at a path.
    pub fn open_path(rt: &HostRuntime, path: &str) -> Result<InventoryFile, FileFault> {
        InventoryFile::open_at(rt, PathBuf::from_str(rt.alloc(), path)?)
    }

    // Opens the inventory at a path.
    fn open_at(rt: &HostRuntime, path: PathBuf) -> Result<InventoryFile, FileFault> {
        match open_buffered(rt, path.as_str()) {
            Ok(reader) => Ok(InventoryFile {
                path,
                reader,
                lines: None,
            }),
            Err(error) => Err(file_failed(rt, path.as_str(), &error)),
        }
    }

    /// Counts its lines of files from here on.
    pub fn count_lines(&mut self) {
        self.lines = Some(FileLines::new());
    }

    /// Replaces the bytes by the next ones: none only at its end.
    pub fn next_piece(&mut self, rt: &HostRuntime, bytes: &mut Vec<u8>) -> Result<(), FileFault> {
        bytes.clear();
        if let Err(error) = append_piece(&mut self.reader, bytes) {
            return Err(file_failed(rt, self.path.as_str(), &error));
        }
        if let Some(lines) = &mut self.lines {
            lines.take(bytes);
        }
        Ok(())
    }

    /// How many lines are of files, of those that were read since they are counted.
    pub fn file_lines(&self) -> u64 {
        match &self.lines {
            Some(lines) => lines.count(),
            None => 0,
        }
    }

    /// Whether one of these lines ends in a carriage return.
    pub fn has_returns(&self) -> bool {
        match &self.lines {
            Some(lines) => lines.have_returns(),
            None => false,
        }
    }

    /// Tells that it has too many bytes.
    pub fn too_large(&self, rt: &HostRuntime) -> FileFault {
        file_failed(rt, self.path.as_str(), &too_large())
    }
}

/// The inventory at a path, for a command that reads it once.
#[derive(Drop)]
pub struct OpenInventory<'w> {
    rt: &'w HostRuntime,
    path: &'w str,
    inventory: InventoryFile,
    // Whether a reading was begun since it was opened.
    is_begun: bool,
}

impl<'w> OpenInventory<'w> {
    /// Opens it. Nothing is read as yet.
    pub fn new(rt: &'w HostRuntime, path: &'w str) -> Result<OpenInventory<'w>, FileFault> {
        let inventory = InventoryFile::open_path(rt, path)?;
        Ok(OpenInventory {
            rt,
            path,
            inventory,
            is_begun: false,
        })
    }

    /// Begins a reading.
    pub fn begin(&mut self) -> Result<(), FileFault> {
        if self.is_begun {
            self.inventory = InventoryFile::open_path(self.rt, self.path)?;
        }
        self.is_begun = true;
        Ok(())
    }

    /// Replaces the bytes by the next ones.
    pub fn piece(&mut self, bytes: &mut Vec<u8>) -> Result<(), FileFault> {
        self.inventory.next_piece(self.rt, bytes)
    }

    /// Tells that it has too many bytes.
    pub fn too_large(&self) -> FileFault {
        self.inventory.too_large(self.rt)
    }
}
