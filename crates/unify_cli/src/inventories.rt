//! The inventories of hosts, as a command reads them one after the other.

ghost use Rattle.std.specs.Prelude.{◌≡◌, Some, IfErr, OnOk, OnErr};
ghost use Rattle.unify_merge.specs.Noted.{noted};

use unify_io::{FileFault, Inventories, OpenInventory, file_fault_told};
use unify_merge::{Call, CallFailed, Log, ReadFiles};

/// Files of which inventories are read.
pub trait LastInventory {
    /// Tells that the one that was read last has too many bytes.
    fn too_large(&self) -> FileFault;
}

/// The calls that were made on files.
#[derive(Drop)]
pub struct Calls<'w> {
    rt: &'w HostRuntime,
    // What the last call that failed answered, if one has failed: for contracts alone.
    pub failure: Option<CallFailed>,
    pub log: Log,
}

impl<'w> Calls<'w> {
    /// None was made as yet.
    pub fn new(rt: &'w HostRuntime) -> Calls<'w> {
        Calls {
            rt,
            failure: None,
            log: Log::new(),
        }
    }

    /// Notes a call that was made, or tells why it failed, if that was not told.
    pub fn note(&mut self, done: Result<(), FileFault>, call: &Call<'_>) -> Result<(), CallFailed>
        ensures noted { OnOk result (self.new.log.ledger ≡ noted call.now self.old.log.ledger) }
        ensures none { OnErr result (self.new.log.ledger ≡ self.old.log.ledger) }
        ensures ok { OnOk result (self.new.failure ≡ self.old.failure) }
        ensures failed { IfErr result (λ e. self.new.failure ≡ Some e) }
    {
        match done {
            Ok(()) => {
                self.log.note(call);
                Ok(())
            }
            Err(fault) => {
                let failed = CallFailed {
                    status: file_fault_told(self.rt, fault),
                };
                self.failure = Some(failed);
                Err(failed)
            }
        }
    }
}

/// The inventories of the hosts that words name, and the calls on them.
#[derive(Drop)]
pub struct HostFiles<'w> {
    inventories: Inventories<'w>,
    pub(crate) calls: Calls<'w>,
}

impl<'w> HostFiles<'w> {
    /// Nothing is read as yet. Unless it is to be quiet it warns of hosts without files.
    pub fn new(rt: &'w HostRuntime, words: &'w [&'w str], is_quiet: bool) -> HostFiles<'w> {
        HostFiles {
            inventories: Inventories::new(rt, words, is_quiet),
            calls: Calls::new(rt),
        }
    }

    /// How many lines of files the inventories have, as far as each was read once.
    pub fn file_lines(&self) -> u64 {
        self.inventories.file_lines()
    }
}

impl LastInventory for HostFiles<'_> {
    fn too_large(&self) -> FileFault {
        self.inventories.too_large()
    }
}

impl ReadFiles for HostFiles<'_> {
    ghost ledger = { λ files. files.calls.log.ledger };

    ghost failure = { λ files. files.calls.failure };

    fn open(&mut self, host: usize) -> Result<(), CallFailed> {
        let done = self.inventories.open(host);
        self.calls.note(done, &Call::Open(host))
    }

    fn piece(&mut self, bytes: &mut Vec<u8>) -> Result<(), CallFailed> {
        let done = self.inventories.piece(bytes);
        self.calls.note(done, &Call::Piece(bytes))
    }
}

/// The inventory at a path, for a command that reads it once.
#[derive(Drop)]
pub struct InventoryAt<'w> {
    inventory: OpenInventory<'w>,
    calls: Calls<'w>,
}

impl<'w> InventoryAt<'w> {
    /// Opens it. Nothing is read as yet.
    pub fn new(rt: &'w HostRuntime, path: &'w str) -> Result<InventoryAt<'w>, FileFault> {
        Ok(InventoryAt {
            inventory: OpenInventory::new(rt, path)?,
            calls: Calls::new(rt),
        })
    }
}

impl LastInventory for InventoryAt<'_> {
    fn too_large(&self) -> FileFault {
        self.inventory.too_large()
    }
}

impl ReadFiles for InventoryAt<'_> {
    ghost ledger = { λ files. files.calls.log.ledger };

    ghost failure = { λ files. files.calls.failure };

    fn open(&mut self, host: usize) -> Result<(), CallFailed> {
        let done = self.inventory.begin();
        self.calls.note(done, &Call::Open(host))
    }

    fn piece(&mut self, bytes: &mut Vec<u8>) -> Result<(), CallFailed> {
        let done = self.inventory.piece(bytes);
        self.calls.note(done, &Call::Piece(bytes))
    }
}
