//! A host.
ghost use Rattle.std.specs.Prelude.{◌≡◌};
ghost use Rattle.hosts_join.specs.Hosts as spec;

use crate::Runs;
use accounts::{GroupTable, PasswdTable};
use idtext::Name;
use logindefs::HostRanges;

/// A host: its name, its ranges, its account tables and the numbers that it spares. The joins ask
/// for lawful hosts, and a host is lawful where its ranges came from `read_ranges`, its users from
/// `read_passwd` and its groups from `read_group`: their contracts say what a lawful host has.
#[derive(Drop)]
pub struct Host<'a> {
    /// The host's name.
    pub name: Name<'a>,
    /// Which of its numbers are regular and which are system numbers.
    pub ranges: HostRanges,
    /// Its users.
    pub users: PasswdTable<'a>,
    /// Its groups.
    pub groups: GroupTable<'a>,
    /// The numbers that a file of the host may have without a user in its table.
    pub spared_users: Runs,
    /// The numbers that a file of the host may have without a group in its table.
    pub spared_groups: Runs,
}

impl Host<'_> {
    /// Whether a file of the host may have the uid: it is a user's, or the host spares it. One
    /// look-up by hash, and a bisection where no user has it.
    pub fn allows_uid(&self, uid: u32) -> bool
        ensures { result ≡ spec.allows_uid self.now uid }
    {
        self.users.by_number(uid).is_some() || self.spared_users.has(uid)
    }

    /// Whether a file of the host may have the gid: it is a group's, or the host spares it. The
    /// same cost.
    pub fn allows_gid(&self, gid: u32) -> bool
        ensures { result ≡ spec.allows_gid self.now gid }
    {
        self.groups.by_number(gid).is_some() || self.spared_groups.has(gid)
    }
}
