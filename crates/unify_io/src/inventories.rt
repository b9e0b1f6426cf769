//! The inventories of hosts, as a command reads them one after the other.

use crate::files::{FileFault, host_name};
use crate::inventory::InventoryFile;
use crate::report::internal_error;
use crate::warnings::warn_of_inventory;

// No call has begun the reading that this one goes on with.
fn not_open(rt: &HostRuntime) -> FileFault {
    internal_error(rt, "no inventory is open")
}

/// The inventories of the hosts that words name.
#[derive(Drop)]
pub struct Inventories<'w> {
    rt: &'w HostRuntime,
    words: &'w [&'w str],
    is_quiet: bool,
    // How many lines of files there were, when each was read for the first time.
    file_lines: u64,
    // How many were opened, and the last of them.
    opened: usize,
    inventory: Option<InventoryFile>,
}

impl<'w> Inventories<'w> {
    /// Nothing is read as yet. Unless it is to be quiet it warns of hosts without files.
    pub fn new(rt: &'w HostRuntime, words: &'w [&'w str], is_quiet: bool) -> Inventories<'w> {
        Inventories {
            rt,
            words,
            is_quiet,
            file_lines: 0,
            opened: 0,
            inventory: None,
        }
    }

    /// Opens the inventory of the host with the index.
    pub fn open(&mut self, host: usize) -> Result<(), FileFault> {
        let Some(word) = self.words.get(host) else {
            return Err(internal_error(self.rt, "no argument names this host"));
        };
        let mut inventory = InventoryFile::open(self.rt, *word)?;
        if self.opened < self.words.len() {
            inventory.count_lines();
        }
        self.inventory = Some(inventory);
        self.opened = self.opened.saturating_add(1);
        Ok(())
    }

    // The next bytes of the inventory.
    fn read_on(&mut self, bytes: &mut Vec<u8>) -> Result<(), FileFault> {
        match &mut self.inventory {
            Some(inventory) => inventory.next_piece(self.rt, bytes),
            None => Err(not_open(self.rt)),
        }
    }

    // Looks at the end of an inventory, and warns of it where it was read for the first time.
    fn look_at_end(&mut self) -> Result<(), FileFault> {
        let (Some(inventory), Some(word)) = (
            &self.inventory,
            self.words.get(self.opened.saturating_sub(1)),
        ) else {
            return Ok(());
        };
        let lines = inventory.file_lines();
        self.file_lines = self.file_lines.saturating_add(lines);
        if !self.is_quiet {
            let name = host_name(*word).as_bytes();
            warn_of_inventory(self.rt, name, inventory.has_returns(), lines > 0)?;
        }
        Ok(())
    }

    /// Replaces the bytes by the next ones of the inventory.
    pub fn piece(&mut self, bytes: &mut Vec<u8>) -> Result<(), FileFault> {
        self.read_on(bytes)?;
        if bytes.is_empty() {
            self.look_at_end()
        } else {
            Ok(())
        }
    }

    /// How many lines of files there are, as far as each inventory was read once.
    pub fn file_lines(&self) -> u64 {
        self.file_lines
    }

    /// Tells that the inventory that was opened last has too many bytes.
    pub fn too_large(&self) -> FileFault {
        match &self.inventory {
            Some(inventory) => inventory.too_large(self.rt),
            None => not_open(self.rt),
        }
    }
}
