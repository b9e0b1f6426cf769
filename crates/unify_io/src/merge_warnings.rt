//! Warnings of what a merge gives: users and groups that are one by their name, and may have been
//! two.

use crate::account_lines::{GroupLine, group_line, user_line};
use crate::comment_warnings::warn_of_comments;
use crate::files::{FileFault, holds, read_file_in};
use crate::keep_warnings::{lists_range, warn_of_keep};
use crate::message::{MOST_NAMES, Part};
use crate::number_warnings::warn_of_numbers;
use crate::pin_warnings::warn_of_pins;
use crate::warnings::{MOST_LINES, only_memory, warn, warn_of_more};
use accounts::{GroupRow, GroupTable, PasswdRow, PasswdTable, read_group, read_passwd};
use hosts_join::{HostText, Which};
use idtext::{Lines, Pieces};
use std::alloc::AllocError;
use std::collections::HashSet;
use std::str;
use unify_texts::{MapText, read_map};

/// How many groups of a user an NFS request carries (AUTH_SYS, RFC 5531).
const MOST_GROUPS: usize = 16;

// Of how many files the user fields were counted, as a line of a report says.
fn files_in(line: &[u8]) -> Option<u64> {
    let text = str::from_utf8(line).ok()?.strip_prefix("user-fields ")?;
    let (_, files) = text.split_once(" of ")?;
    files.parse::<u64>().ok()
}

// How many files the inventories have, as a report says that has nothing reserved. Where something
// is, the files of what stays are not among those that it counts.
fn all_files(report: &[u8]) -> Option<u64> {
    if !report.starts_with(b"unify report 2\n") {
        return None;
    }
    Lines::new(report).find_map(|line| files_in(line))
}

// Warns of paths that stand in an inventory more than once, where its lines of files are more than
// its files.
fn warn_of_paths(rt: &HostRuntime, report: &[u8], file_lines: u64) -> Result<(), AllocError> {
    let again = file_lines.saturating_sub(all_files(report).unwrap_or(file_lines));
    if again == 0 {
        return Ok(());
    }
    warn(
        rt,
        &[
            Part::Text("inventory lines that repeat a path:"),
            Part::Count(again as usize),
        ],
    )
}

// The members of a group, to be looked up. What stands between two commas may be
// empty: that is nobody's name.
fn members_in<'a>(rt: &HostRuntime, row: &GroupLine<'a>) -> Result<HashSet<&'a [u8]>, AllocError> {
    let mut members = HashSet::new(rt.alloc());
    for member in Pieces::new(b',', row.members) {
        members.insert(member)?;
    }
    Ok(members)
}

// The first members of a group that are in a set, or that are not; one more than are told.
fn first_members<'a>(
    rt: &HostRuntime,
    group: &GroupRow<'a>,
    set: &HashSet<&[u8]>,
    are_in: bool,
) -> Result<Vec<&'a [u8]>, AllocError> {
    let mut first = Vec::new(rt.alloc());
    for member in group.members() {
        if set.contains(member) == are_in && first.len() <= MOST_NAMES {
            first.push(member)?;
        }
    }
    Ok(first)
}

// Whether all members of a group are in a set.
fn are_all_in(group: &GroupRow<'_>, set: &HashSet<&[u8]>) -> bool {
    for member in group.members() {
        if !set.contains(member) {
            return false;
        }
    }
    true
}

// Warns of a group that gets members on a host.
fn warn_of_group<'a>(
    rt: &HostRuntime,
    host: &'a [u8],
    group: &'a [u8],
    had: &'a [&'a [u8]],
    new: &'a [&'a [u8]],
) -> Result<(), AllocError> {
    let had = if had.is_empty() {
        Part::Text("no member")
    } else {
        Part::Names(had)
    };
    warn(
        rt,
        &[
            Part::Text("group"),
            Part::Name(group),
            Part::Text("on host"),
            Part::Name(host),
            Part::Text("had"),
            had,
            Part::Text("and gains"),
            Part::Names(new),
        ],
    )
}

// Warns of a merged group that gets members on a host, where its members are those of a set.
fn warn_of_new_members(
    rt: &HostRuntime,
    host: &[u8],
    merged: &GroupRow<'_>,
    members: &HashSet<&[u8]>,
) -> Result<(), AllocError> {
    let had = first_members(rt, merged, members, true)?;
    let new = first_members(rt, merged, members, false)?;
    warn_of_group(rt, host, merged.name, &had, &new)
}

/// What is told of the groups of hosts, as far as these were looked at.
#[derive(Drop)]
struct SeenGroups<'t> {
    // How many get members on a host.
    gaining: usize,
    // Those whose number was another group's.
    taken: HashSet<&'t [u8]>,
}

// Looks at whether a merged group gets members on a host that has the row. That is warned of, if
// not too many were told. Mostly the two lists are the same.
fn see_members(
    rt: &HostRuntime,
    host: &[u8],
    row: &GroupLine<'_>,
    merged: &GroupRow<'_>,
    gaining: &mut usize,
) -> Result<(), AllocError> {
    if row.members == merged.members {
        return Ok(());
    }
    let members = members_in(rt, row)?;
    if are_all_in(merged, &members) {
        return Ok(());
    }
    let told = *gaining;
    *gaining = told.saturating_add(1);
    if told < MOST_LINES {
        warn_of_new_members(rt, host, merged, &members)
    } else {
        Ok(())
    }
}

// Notes the group whose number was another group's on a host that has the row.
fn note_taken<'t>(
    taken: &mut HashSet<&'t [u8]>,
    row: &GroupLine<'_>,
    groups: &GroupTable<'t>,
) -> Result<(), AllocError> {
    if let Some(other) = groups.by_number(row.gid) {
        if other.name != row.name {
            taken.insert(other.name)?;
        }
    }
    Ok(())
}

// Looks at a row of a host's group.
fn see_row<'t>(
    rt: &HostRuntime,
    host: &[u8],
    row: &GroupLine<'_>,
    groups: &GroupTable<'t>,
    seen: &mut SeenGroups<'t>,
) -> Result<(), AllocError> {
    if let Some(merged) = groups.by_name(row.name) {
        see_members(rt, host, row, merged, &mut seen.gaining)?;
    }
    note_taken(&mut seen.taken, row, groups)
}

// Looks at the group of a host.
fn see_host<'t>(
    rt: &HostRuntime,
    host: &HostText,
    groups: &GroupTable<'t>,
    seen: &mut SeenGroups<'t>,
) -> Result<(), AllocError> {
    for line in Lines::new(host.group.bytes()) {
        if let Some(row) = group_line(line) {
            see_row(rt, host.name.bytes(), &row, groups, seen)?;
        }
    }
    Ok(())
}

// How many groups get members on a host, and how many have a number that was another group's.
#[derive(Clone, Copy)]
struct GroupCounts {
    gaining: usize,
    taken: usize,
}

// Warns of groups that give users on a host what they had on another one, and counts them.
fn see_groups(
    rt: &HostRuntime,
    hosts: &[HostText],
    groups: &GroupTable<'_>,
) -> Result<GroupCounts, AllocError> {
    let mut seen = SeenGroups {
        gaining: 0,
        taken: HashSet::new(rt.alloc()),
    };
    for host in hosts {
        see_host(rt, host, groups, &mut seen)?;
    }
    Ok(GroupCounts {
        gaining: seen.gaining,
        taken: seen.taken.len(),
    })
}

// Counts a group for the user in the row of that line.
fn count_for(counts: &mut [usize], line: u64) {
    let Ok(line) = usize::try_from(line) else {
        return;
    };
    if let Some(count) = counts.get_mut(line.wrapping_sub(1)) {
        *count = count.saturating_add(1);
    }
}

// Counts a group for each of its members whose primary group it is not.
fn count_members(counts: &mut [usize], users: &PasswdTable<'_>, group: &GroupRow<'_>) {
    for member in group.members() {
        if let Some(row) = users.by_name(member) {
            if row.gid != group.gid {
                count_for(counts, row.line);
            }
        }
    }
}

// How many groups each user is in: the primary group, and those that list the user.
fn group_counts(
    rt: &HostRuntime,
    users: &PasswdTable<'_>,
    groups: &GroupTable<'_>,
) -> Result<Vec<usize>, AllocError> {
    let mut counts = vec![in rt.alloc(); 1; users.rows().len()]?;
    for group in groups.rows() {
        count_members(&mut counts, users, group);
    }
    Ok(counts)
}

// Warns of a user who is in so many groups.
fn warn_of_group_count(rt: &HostRuntime, name: &[u8], count: usize) -> Result<(), AllocError> {
    warn(
        rt,
        &[
            Part::Text("user"),
            Part::Name(name),
            Part::Text("is in"),
            Part::Count(count),
            Part::Text("groups, and an NFS request carries 16"),
        ],
    )
}

// Warns of users in more groups than an NFS request carries.
fn warn_of_many_groups(
    rt: &HostRuntime,
    rows: &[PasswdRow<'_>],
    counts: &[usize],
) -> Result<(), AllocError> {
    let mut told: usize = 0;
    for (row, count) in rows.iter().zip(counts) {
        if *count > MOST_GROUPS {
            if told < MOST_LINES {
                warn_of_group_count(rt, row.name, *count)?;
            }
            told = told.saturating_add(1);
        }
    }
    warn_of_more(rt, "users in more than 16 groups:", told)
}

// Warns of merged users in more groups than an NFS request carries.
fn warn_of_group_counts(
    rt: &HostRuntime,
    users: &PasswdTable<'_>,
    groups: &GroupTable<'_>,
) -> Result<(), AllocError> {
    let counts = group_counts(rt, users, groups)?;
    warn_of_many_groups(rt, users.rows(), &counts)
}

// The user whose number was another user's by this line of a host's passwd.
fn renumbered_user<'u, 't>(line: &[u8], users: &'u PasswdTable<'t>) -> Option<&'u PasswdRow<'t>> {
    let row = user_line(line)?;
    users
        .by_number(row.uid)
        .filter(|user| user.name != row.name)
}

// Adds the users whose number was another user's on a host.
fn add_users_of<'t>(
    taken: &mut HashSet<&'t [u8]>,
    host: &HostText,
    users: &PasswdTable<'t>,
) -> Result<(), AllocError> {
    for line in Lines::new(host.passwd.bytes()) {
        if let Some(user) = renumbered_user(line, users) {
            taken.insert(user.name)?;
        }
    }
    Ok(())
}

// Warns of how many numbers were another name's on some host.
fn warn_of_taken(rt: &HostRuntime, what: &str, count: usize) -> Result<(), AllocError> {
    if count == 0 {
        return Ok(());
    }
    warn(
        rt,
        &[
            Part::Text("numbers of"),
            Part::Text(what),
            Part::Count(count),
        ],
    )
}

// Warns of users whose number was another user's: files that no inventory lists would be theirs.
fn warn_of_user_numbers(
    rt: &HostRuntime,
    hosts: &[HostText],
    users: &PasswdTable<'_>,
) -> Result<(), AllocError> {
    let mut taken = HashSet::new(rt.alloc());
    for host in hosts {
        add_users_of(&mut taken, host, users)?;
    }
    warn_of_taken(
        rt,
        "users that were another user's on some host:",
        taken.len(),
    )
}

// Warns of what merged tables give.
fn warn_of_tables(
    rt: &HostRuntime,
    hosts: &[HostText],
    users: &PasswdTable<'_>,
    groups: &GroupTable<'_>,
) -> Result<(), AllocError> {
    let counts = see_groups(rt, hosts, groups)?;
    warn_of_more(rt, "groups that get members on a host:", counts.gaining)?;
    warn_of_group_counts(rt, users, groups)?;
    warn_of_user_numbers(rt, hosts, users)?;
    warn_of_taken(
        rt,
        "groups that were another group's on some host:",
        counts.taken,
    )
}

// Warns of what merged users and a merged group text give.
fn warn_of_users(
    rt: &HostRuntime,
    hosts: &[HostText],
    users: &PasswdTable<'_>,
    group: &[u8],
) -> Result<(), AllocError> {
    match read_group(rt.alloc(), group) {
        Ok(groups) => warn_of_tables(rt, hosts, users, &groups),
        Err(fault) => only_memory(&fault),
    }
}

// Warns by a map of pins that give no number, and of names that stay as they are by ranges and have
// two numbers.
fn warn_by_map(
    rt: &HostRuntime,
    hosts: &[HostText],
    map: &MapText<'_>,
    pins: &[u8],
    keep: &[u8],
) -> Result<(), AllocError> {
    warn_of_pins(rt, hosts, map, pins)?;
    warn_of_numbers(rt, hosts, map, keep)
}

// Warns of the names that are not in the map that a merge wrote. It is read only where a pins text
// or a range of a keep text may have such names.
fn warn_of_names(
    rt: &HostRuntime,
    hosts: &[HostText],
    directory: &str,
    pins: &[u8],
    keep: &[u8],
) -> Result<(), FileFault> {
    if pins.is_empty() && !lists_range(keep, Which::User) && !lists_range(keep, Which::Group) {
        return Ok(());
    }
    let text = read_file_in(rt, directory, "map")?;
    let warned = match read_map(rt.alloc(), text.bytes()) {
        Ok(map) => warn_by_map(rt, hosts, &map, pins, keep),
        Err(_) => Err(AllocError),
    };
    Ok(warned?)
}

// Warns of what the report tells that a merge wrote: paths that stand twice, and comments in which
// hosts differ.
fn warn_of_report(
    rt: &HostRuntime,
    hosts: &[HostText],
    directory: &str,
    file_lines: u64,
) -> Result<(), FileFault> {
    let report = read_file_in(rt, directory, "report")?;
    warn_of_paths(rt, report.bytes(), file_lines)?;
    Ok(warn_of_comments(rt, hosts, report.bytes())?)
}

// Warns of users whose passwd and group are these texts.
fn warn_of_texts(
    rt: &HostRuntime,
    hosts: &[HostText],
    passwd: &[u8],
    group: &[u8],
) -> Result<(), AllocError> {
    match read_passwd(rt.alloc(), passwd) {
        Ok(users) => warn_of_users(rt, hosts, &users, group),
        Err(fault) => only_memory(&fault),
    }
}

// Warns of users and groups by the passwd and the group that a merge wrote. It wrote none where a
// name of the hosts is kept.
fn warn_of_merged_users(
    rt: &HostRuntime,
    hosts: &[HostText],
    directory: &str,
) -> Result<(), FileFault> {
    if !holds(rt, directory, "passwd")? {
        return Ok(());
    }
    let passwd = read_file_in(rt, directory, "passwd")?;
    let group = read_file_in(rt, directory, "group")?;
    Ok(warn_of_texts(rt, hosts, passwd.bytes(), group.bytes())?)
}

/// Warns of what a merge of hosts by pins and a keep text has written into a directory: pins that
/// give no number, since they are for nobody or for a name that stays as it is; names that stay as
/// they are by ranges of numbers, and have two; kept names that no host has; paths that stand in an
/// inventory more than once, where so many lines of files were read; users with two comments, who
/// may be two people; groups that get members on a host, who may do there what they could not;
/// users in more groups than an NFS request carries; and numbers that were another name's, whose
/// files no inventory may list. It reads the account files that were merged once more.
pub fn warn_of_merge(
    rt: &HostRuntime,
    hosts: &[HostText],
    directory: &str,
    pins: &[u8],
    keep: &[u8],
    file_lines: u64,
) -> Result<(), FileFault> {
    warn_of_names(rt, hosts, directory, pins, keep)?;
    warn_of_keep(rt, hosts, keep)?;
    warn_of_report(rt, hosts, directory, file_lines)?;
    warn_of_merged_users(rt, hosts, directory)
}
