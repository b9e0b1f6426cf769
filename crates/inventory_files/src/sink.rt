//! Where the files of a walk go.

use inventory_text::FileKind;
use unify_io::FileFault;

/// Takes the files that a walk finds, one after the other.
pub trait FileSink {
    /// Takes a file, by its path as an inventory has it, and says whether it could: not where its
    /// line would have more bytes than a line of an inventory may have.
    ///
    /// # Errors
    ///
    /// Where no file can be taken any more.
    fn entry(&mut self, path: &[u8], uid: u32, gid: u32, kind: FileKind) -> Result<bool, FileFault>;
}
