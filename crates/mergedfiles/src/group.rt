//! The merged group file, after group(5).
ghost use Rattle.std.specs.Prelude.{◌≡◌, ◌++◌, length, map, IfOk, OnOk, decimal};
ghost use Rattle.std.specs.List.{All, join_with_byte};
ghost use Rattle.accounts.specs.Rows as rows;
ghost use Rattle.hosts_join.specs.Accounts.{first_appearances};
ghost use Rattle.hosts_join.specs.Hosts.{IsLawfulHost};
ghost use Rattle.mergedfiles.specs.Rows.{all_members, first_of, joined_users};
ghost use Rattle.mergedfiles.specs.Seen.{group_seen, texts_of};
ghost use Rattle.mergedfiles.specs.Spots as spots;
ghost use Rattle.mergedfiles.specs.Texts.{field, group_line, merged_groups};
ghost use Rattle.mergedfiles.specs.Together.{AreJoined};

use crate::order::by_number;
use crate::rows::{GroupOn, groups_at};
use hosts_join::{Host, Site, Spot};
use idtext::push_number;
use indexmap::IndexSet;
use ownership::Mapping;
use std::alloc::{AllocError, Global};

/// Appends a field, and the colon after it.
pub fn push_field(text: &mut Vec<u8>, bytes: &[u8]) -> Result<(), AllocError>
    ensures { OnOk result (text.new.items ≡ text.old.items ++ field bytes.now) }
{
    text.extend_from_slice(bytes)?;
    text.push(b':')?;
    Ok(())
}

/// Appends a number as a field.
pub fn push_number_field(text: &mut Vec<u8>, number: u32) -> Result<(), AllocError>
    ensures { OnOk result (text.new.items ≡ text.old.items ++ field (decimal number)) }
{
    push_number(text, u128::from(number))?;
    text.push(b':')?;
    Ok(())
}

/// Adds the users of a row.
fn push_members<'a>(users: &mut Vec<&'a [u8]>, group: &GroupOn<'_, 'a>) -> Result<(), AllocError>
    ensures { OnOk result
        (texts_of users.new.items ≡ texts_of users.old.items
        ++ rows.members_of (group_seen group.now).row.members) }
{
    let row = group.row;
    let mut members = row.members();
    while let Some(user) = members.next() {
        users.push(user)?;
    }
    Ok(())
}

/// The users of all rows of a group.
fn members<'a>(alloc: Global, groups: &[GroupOn<'_, 'a>]) -> Result<Vec<&'a [u8]>, AllocError>
    ensures { IfOk result
        (λ users. texts_of users.items ≡ all_members (map group_seen groups.now)) }
{
    let mut users = Vec::new(alloc);
    for group in groups {
        push_members(&mut users, group)?;
    }
    Ok(users)
}

/// Each user where it appears first.
fn each_once<'a>(alloc: Global, users: &[&'a [u8]]) -> Result<Vec<&'a [u8]>, AllocError>
    ensures { IfOk result (λ once. texts_of once.items ≡ first_appearances (texts_of users.now)) }
{
    let mut seen: IndexSet<&'a [u8]> = IndexSet::new(alloc);
    let mut once = Vec::new(alloc);
    for user in users {
        if seen.insert(*user)? {
            once.push(*user)?;
        }
    }
    Ok(once)
}

/// Appends the users with a comma between each two.
fn push_users(text: &mut Vec<u8>, users: &[&[u8]]) -> Result<(), AllocError>
    ensures { OnOk result
        (text.new.items ≡ text.old.items ++ join_with_byte 44 (texts_of users.now)) }
{
    for (i, user) in users.iter().enumerate() {
        if i > 0 {
            text.push(b',')?;
        }
        text.extend_from_slice(user)?;
    }
    Ok(())
}

/// Appends the line of a group that has these rows.
fn push_line(
    alloc: Global,
    text: &mut Vec<u8>,
    name: &[u8],
    number: u32,
    groups: &[GroupOn<'_, '_>],
) -> Result<(), AllocError>
    ensures { OnOk result
        (text.new.items ≡ text.old.items
        ++ group_line name.now number (joined_users (map group_seen groups.now))
        (first_of (map group_seen groups.now))) }
{
    let Some(first) = groups.first() else {
        return Ok(());
    };
    let row = first.row;
    let members = members(alloc, groups)?;
    let users = each_once(alloc, members.as_slice())?;
    push_field(text, name)?;
    push_field(text, row.password)?;
    push_number_field(text, number)?;
    push_users(text, users.as_slice())?;
    text.push(b'\n')?;
    Ok(())
}

/// Appends the line of a group that stands on the hosts of spots.
fn push_group(
    alloc: Global,
    text: &mut Vec<u8>,
    hosts: &[Host<'_>],
    name: &[u8],
    number: u32,
    among: &[Spot],
) -> Result<(), AllocError>
    ensures { OnOk result
        (text.new.items ≡ text.old.items
        ++ group_line name.now number (joined_users (spots.groups_at hosts.now name.now among.now))
        (first_of (spots.groups_at hosts.now name.now among.now))) }
{
    let groups = groups_at(alloc, hosts, name, among)?;
    push_line(alloc, text, name, number, groups.as_slice())
}

/// The merged group: a line for each group of the site, ascending by its new number, with the
/// password of the first host that has it and the users of all hosts, hosts in order, each where it
/// appears first. Requires that the site was joined from these hosts, each lawful, and that the
/// mapping has one number for each group.
///
/// Time in step with the group rows and their users, with one look-up by hash for each, and one
/// sort of the groups by number. Memory for the text, 8 bytes a group, and the users of one group
/// at a time.
///
/// # Errors
///
/// `AllocError` where memory is refused.
pub fn group_text(
    alloc: Global,
    hosts: &[Host<'_>],
    site: &Site<'_>,
    groups: &Mapping,
) -> Result<Vec<u8>, AllocError>
    requires joined { AreJoined hosts.now site.now }
    requires lawful { All IsLawfulHost hosts.now }
    requires for_groups { length groups.now ≡ length site.now.groups.names }
    ensures { IfOk result (λ text. text.items ≡ merged_groups hosts.now site.now groups.now) }
{
    let names = site.groups();
    let order = by_number(alloc, names.len(), groups)?;
    let mut text = Vec::new(alloc);
    for account in &order {
        let (index, number) = *account;
        push_group(
            alloc,
            &mut text,
            hosts,
            names.name(index),
            number,
            names.spots(index),
        )?;
    }
    Ok(text)
}
