//! The files of a merge: the inventories of hosts, and the directory that is written into.

use crate::inventories::{HostFiles, LastInventory};
use unify_io::{FileFault, Output, OutputDirectory};
use unify_merge::{Call, CallFailed, MergeFiles, ReadFiles};

/// The files of a merge into a directory.
#[derive(Drop)]
pub struct SiteFiles<'w> {
    read: HostFiles<'w>,
    output: Output<'w>,
}

impl<'w> SiteFiles<'w> {
    /// Nothing is read or written as yet. Unless it is to be quiet it warns of hosts without files.
    pub fn new(directory: OutputDirectory<'w>, is_quiet: bool) -> SiteFiles<'w> {
        SiteFiles {
            read: HostFiles::new(directory.rt, directory.words, is_quiet),
            output: Output::new(directory),
        }
    }

    /// How many lines of files the inventories have, as far as each was read once.
    pub fn file_lines(&self) -> u64 {
        self.read.file_lines()
    }

    /// Removes what there is of a file that was not finished.
    pub fn discard(&self) {
        self.output.discard();
    }
}

impl LastInventory for SiteFiles<'_> {
    fn too_large(&self) -> FileFault {
        self.read.too_large()
    }
}

impl ReadFiles for SiteFiles<'_> {
    ghost ledger = { λ files. files.read.calls.log.ledger };

    ghost failure = { λ files. files.read.calls.failure };

    fn open(&mut self, host: usize) -> Result<(), CallFailed> {
        self.read.open(host)
    }

    fn piece(&mut self, bytes: &mut Vec<u8>) -> Result<(), CallFailed> {
        self.read.piece(bytes)
    }
}

impl MergeFiles for SiteFiles<'_> {
    fn clear(&mut self) -> Result<(), CallFailed> {
        let done = self.output.clear();
        self.read.calls.note(done, &Call::Clear)
    }

    fn begin(&mut self, name: &[u8]) -> Result<(), CallFailed> {
        let done = self.output.begin(name);
        self.read.calls.note(done, &Call::Begin(name))
    }

    fn append(&mut self, bytes: &[u8]) -> Result<(), CallFailed> {
        let done = self.output.append(bytes);
        self.read.calls.note(done, &Call::Append(bytes))
    }

    fn finish(&mut self) -> Result<(), CallFailed> {
        let done = self.output.finish();
        self.read.calls.note(done, &Call::Finish)
    }

    fn seal(&mut self, name: &[u8], text: &[u8]) -> Result<(), CallFailed> {
        let done = self.output.seal(name, text);
        self.read.calls.note(done, &Call::Seal(name, text))
    }
}
