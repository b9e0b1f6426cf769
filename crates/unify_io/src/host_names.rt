//! The names that hosts have, for warnings of texts that name others.

use crate::account_lines::{group_line, user_line};
use hosts_join::{HostText, Which};
use idtext::Lines;
use std::alloc::AllocError;
use std::collections::HashSet;

/// The names of hosts.
#[derive(Drop)]
pub(crate) struct HostNames<'h> {
    users: HashSet<&'h [u8]>,
    groups: HashSet<&'h [u8]>,
}

impl HostNames<'_> {
    /// Whether some host has the name, as one of that kind.
    pub(crate) fn have(&self, which: Which, name: &[u8]) -> bool {
        match which {
            Which::User => self.users.contains(name),
            Which::Group => self.groups.contains(name),
        }
    }
}

// Adds the names in a host's passwd.
fn add_users<'h>(users: &mut HashSet<&'h [u8]>, passwd: &'h [u8]) -> Result<(), AllocError> {
    for line in Lines::new(passwd) {
        if let Some(row) = user_line(line) {
            users.insert(row.name)?;
        }
    }
    Ok(())
}

// Adds the names in a host's group.
fn add_groups<'h>(groups: &mut HashSet<&'h [u8]>, group: &'h [u8]) -> Result<(), AllocError> {
    for line in Lines::new(group) {
        if let Some(row) = group_line(line) {
            groups.insert(row.name)?;
        }
    }
    Ok(())
}

/// The names of hosts whose account files were accepted: those of users in their passwd, those of
/// groups in their group.
pub(crate) fn names_of<'h>(
    rt: &HostRuntime,
    hosts: &'h [HostText],
) -> Result<HostNames<'h>, AllocError> {
    let mut names = HostNames {
        users: HashSet::new(rt.alloc()),
        groups: HashSet::new(rt.alloc()),
    };
    for host in hosts {
        add_users(&mut names.users, host.passwd.bytes())?;
        add_groups(&mut names.groups, host.group.bytes())?;
    }
    Ok(names)
}
