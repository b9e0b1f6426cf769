//! Warnings of lines of a keep text that keep no name, since no host has it.

use crate::host_names::{HostNames, names_of};
use crate::message::Part;
use crate::warnings::{MOST_LINES, warn, warn_of_more};
use hosts_join::{HostText, Which};
use idtext::Lines;
use std::alloc::AllocError;

/// The name that a line of a keep text lists, if it lists one.
pub(crate) fn listed_name(line: &[u8]) -> Option<(Which, &[u8])> {
    match line.strip_prefix(b"user ") {
        Some(name) => Some((Which::User, name)),
        None => Some((Which::Group, line.strip_prefix(b"group ")?)),
    }
}

/// Whether an accepted keep text lists a range of numbers of users, or of groups.
pub(crate) fn lists_range(keep: &[u8], which: Which) -> bool {
    match which {
        Which::User => Lines::new(keep).any(|line| line.starts_with(b"users ")),
        Which::Group => Lines::new(keep).any(|line| line.starts_with(b"groups ")),
    }
}

// Warns of a name that no host has.
fn warn_of_nobody(rt: &HostRuntime, which: Which, name: &[u8]) -> Result<(), AllocError> {
    let what = match which {
        Which::User => "keep of user",
        Which::Group => "keep of group",
    };
    warn(
        rt,
        &[
            Part::Text(what),
            Part::Name(name),
            Part::Text("is for a name that no host has"),
        ],
    )
}

// Warns of the names that a keep text lists and that are not among those of hosts.
fn warn_of_others(rt: &HostRuntime, names: &HostNames<'_>, keep: &[u8]) -> Result<(), AllocError> {
    let mut count: usize = 0;
    for line in Lines::new(keep) {
        if let Some((which, name)) = listed_name(line) {
            if !names.have(which, name) {
                if count < MOST_LINES {
                    warn_of_nobody(rt, which, name)?;
                }
                count = count.saturating_add(1);
            }
        }
    }
    warn_of_more(rt, "keeps of names that no host has:", count)
}

/// Warns of the names that an accepted keep text lists and that no host has. Where it lists a name
/// the account files of the hosts are read once more.
pub fn warn_of_keep(rt: &HostRuntime, hosts: &[HostText], keep: &[u8]) -> Result<(), AllocError> {
    if Lines::new(keep).all(|line| listed_name(line).is_none()) {
        return Ok(());
    }
    let names = names_of(rt, hosts)?;
    warn_of_others(rt, &names, keep)
}
