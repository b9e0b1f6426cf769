//! Who has which number on which host.
ghost use Rattle.std.specs.Prelude.{◌≡◌, ◌<◌, ℕ, None, length, IfOk, OnOk};
ghost use Rattle.hosts_join.specs.Owners.{owner_in, with_owner};

use crate::host_owners::HostOwners;
use std::alloc::{AllocError, Global};

/// The places of names by their numbers on each host. Each host has tables of its own: whoever
/// looks one host's numbers up after the other then stays in these.
#[derive(Drop)]
pub(crate) struct Owners {
    hosts: Vec<HostOwners>,
}

impl Owners {
    /// No number on any of so many hosts. There is room for so many rows of each.
    pub(crate) fn with_capacity(
        alloc: Global,
        hosts: usize,
        rows: usize,
    ) -> Result<Self, AllocError>
        ensures none { IfOk result (λ owners. (h v : ℕ) → owner_in owners h v ≡ None) }
        ensures hosts { IfOk result (λ owners. length owners.hosts.items ≡ hosts) }
    {
        let mut tables = Vec::with_capacity(alloc, hosts)?;
        for _host in 0..hosts {
            tables.push(HostOwners::with_capacity(alloc, rows)?)?;
        }
        Ok(Owners { hosts: tables })
    }

    /// Gives a number on a host, which nobody has there, to the name at a place.
    pub(crate) fn insert(&mut self, host: u32, number: u32, place: u32) -> Result<(), AllocError>
        requires among { host < length self.old.hosts.items }
        requires free { owner_in self.old host number ≡ None }
        ensures given { OnOk result
            ((h v : ℕ) → owner_in self.new h v ≡ with_owner self.old host number place h v) }
        ensures hosts { OnOk result
            (length self.new.hosts.items ≡ length self.old.hosts.items) }
    {
        self.hosts[host as usize].insert(number, place)?;
        Ok(())
    }

    /// The place of the name that has a number on a host, which most likely is that of the host's
    /// row at this place.
    pub(crate) fn get_near(&self, host: u32, number: u32, row: usize) -> Option<u32>
        ensures { result ≡ owner_in self.now host number }
    {
        self.hosts.get(host as usize)?.get_near(number, row)
    }
}
