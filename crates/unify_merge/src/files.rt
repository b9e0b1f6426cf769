//! The files that commands read and a merge writes.

/// A call on files failed. The files have already reported why.
#[derive(Clone, Copy, Debug, PartialEq, Eq)]
pub struct CallFailed {
    /// The exit status that the files give to it.
    pub status: u8,
}

/// The inventories that a command reads. A call that fails has done nothing that counts. What a
/// call costs is for the files to say.
pub trait ReadFiles {
    ghost use Rattle.std.specs.Prelude.{◌≡◌, Option, Some, [], IfErr, OnOk, OnErr};
    ghost use Rattle.unify_merge.specs.Ledger.{Ledger, reading_so_far, with_piece};
    ghost use Rattle.unify_merge.specs.declared.files.CallFailed.{CallFailed};

    // What was read and written by the calls that succeeded.
    ghost ledger: { Self → Ledger };

    // What the last call that failed answered, if one has failed.
    ghost failure: { Self → Option CallFailed };

    /// Begins a reading of the inventory of the host with the index, from its start.
    fn open(&mut self, host: usize) -> Result<(), CallFailed>
        ensures opened { OnOk result (ledger self.new ≡ reading_so_far host [] (ledger self.old)) }
        ensures none { OnErr result (ledger self.new ≡ ledger self.old) }
        ensures ok { OnOk result (failure self.new ≡ failure self.old) }
        ensures failed { IfErr result (λ e. failure self.new ≡ Some e) };

    /// Replaces the bytes by the next of the reading; by none only at its end.
    fn piece(&mut self, bytes: &mut Vec<u8>) -> Result<(), CallFailed>
        ensures read { OnOk result
            (ledger self.new ≡ with_piece bytes.new.items (ledger self.old)) }
        ensures none { OnErr result (ledger self.new ≡ ledger self.old) }
        ensures ok { OnOk result (failure self.new ≡ failure self.old) }
        ensures failed { IfErr result (λ e. failure self.new ≡ Some e) };
}

/// The inventories that a merge reads, and the files that it writes.
pub trait MergeFiles: ReadFiles {
    ghost use Rattle.std.specs.Prelude.{◌≡◌, ◌⊎◌, true, [], ◌∷◌, Some, IfErr, OnOk, OnErr};
    ghost use Rattle.unify_merge.specs.Ledger.{cleared, with_begun, with_bytes, with_finished};
    ghost use Rattle.unify_merge.specs.Ledger.{after_files, with_sealed};

    /// Clears away what a merge left: its report first, what it wrote for each host, also for hosts
    /// that are no more, and its passwd and group. Where it fails, nothing was cleared away, or
    /// some of it or all of it was.
    fn clear(&mut self) -> Result<(), CallFailed>
        ensures clear { OnOk result (Self.ledger self.new ≡ cleared (Self.ledger self.old)) }
        ensures failing { OnErr result ((Self.ledger self.new ≡ Self.ledger self.old)
            ⊎ (Self.ledger self.new ≡ cleared (Self.ledger self.old))) }
        ensures ok { OnOk result (Self.failure self.new ≡ Self.failure self.old) }
        ensures failed { IfErr result (λ e. Self.failure self.new ≡ Some e) };

    /// Begins a file. What has its name stays until it is finished.
    fn begin(&mut self, name: &[u8]) -> Result<(), CallFailed>
        requires clear { (Self.ledger self.old).is_clear ≡ true }
        ensures begun { OnOk result
            (Self.ledger self.new ≡ with_begun name.now (Self.ledger self.old)) }
        ensures none { OnErr result (Self.ledger self.new ≡ Self.ledger self.old) }
        ensures ok { OnOk result (Self.failure self.new ≡ Self.failure self.old) }
        ensures failed { IfErr result (λ e. Self.failure self.new ≡ Some e) };

    /// Appends bytes to the file.
    fn append(&mut self, bytes: &[u8]) -> Result<(), CallFailed>
        ensures written { OnOk result
            (Self.ledger self.new ≡ with_bytes bytes.now (Self.ledger self.old)) }
        ensures none { OnErr result (Self.ledger self.new ≡ Self.ledger self.old) }
        ensures ok { OnOk result (Self.failure self.new ≡ Self.failure self.old) }
        ensures failed { IfErr result (λ e. Self.failure self.new ≡ Some e) };

    /// Gives the file its name, with all its bytes.
    fn finish(&mut self) -> Result<(), CallFailed>
        ensures finished { OnOk result
            (Self.ledger self.new ≡ with_finished (Self.ledger self.old)) }
        ensures none { OnErr result (Self.ledger self.new ≡ Self.ledger self.old) }
        ensures ok { OnOk result (Self.failure self.new ≡ Self.failure self.old) }
        ensures failed { IfErr result (λ e. Self.failure self.new ≡ Some e) };

    /// Writes the last file whole, when all others are settled where they stand, and settles it.
    /// Where it fails, the file may stand there all the same, as when it could not be settled; that
    /// any file is settled is not said then.
    fn seal(&mut self, name: &[u8], text: &[u8]) -> Result<(), CallFailed>
        requires clear { (Self.ledger self.old).is_clear ≡ true }
        ensures sealed { OnOk result
            (Self.ledger self.new
            ≡ with_sealed (record { name = name.now; text = text.now }) (Self.ledger self.old)) }
        ensures failing { OnErr result ((Self.ledger self.new ≡ Self.ledger self.old)
            ⊎ (Self.ledger self.new
            ≡ after_files (record { name = name.now; text = text.now } ∷ [])
            (Self.ledger self.old))) }
        ensures ok { OnOk result (Self.failure self.new ≡ Self.failure self.old) }
        ensures failed { IfErr result (λ e. Self.failure self.new ≡ Some e) };
}
