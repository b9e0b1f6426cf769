//! The fields in which a later host differs from the first.
ghost use Rattle.std.specs.Prelude.{◌≡◌, ◌++◌, map, IfOk, OnOk};
ghost use Rattle.std.specs.List.{All};
ghost use Rattle.hosts_join.specs.Hosts.{IsLawfulHost};
ghost use Rattle.mergedfiles.specs.Differences as spec;
ghost use Rattle.mergedfiles.specs.Differences.{all_user_differences, all_group_differences};
ghost use Rattle.mergedfiles.specs.Differences.{site_differences};
ghost use Rattle.mergedfiles.specs.Seen.{user_seen, group_seen};
ghost use Rattle.mergedfiles.specs.Spots as spots;
ghost use Rattle.mergedfiles.specs.Together.{AreJoined};

use crate::alike::all_seen;
use crate::rows::{GroupOn, UserOn, groups_at, users_at};
use crate::{Difference, Field};
use hosts_join::{Host, Site, Spot, Which};
use idtext::Name;
use std::alloc::{AllocError, Global};

/// The name of the group that has the number on the host.
pub fn group_name<'a>(host: &Host<'a>, gid: u32) -> &'a [u8]
    ensures { result.now ≡ spec.group_name host.now gid }
{
    match host.groups.by_number(gid) {
        Some(group) => group.name,
        None => &[],
    }
}

/// What a field of a user's row says.
fn user_field<'a>(field: Field, user: &UserOn<'_, 'a>) -> &'a [u8]
    ensures { result.now ≡ spec.user_field field (user_seen user.now) }
{
    let row = user.row;
    match field {
        Field::Password => row.password,
        Field::Comment => row.comment,
        Field::Home => row.home,
        Field::Shell => row.shell,
        Field::Group => group_name(user.host, row.gid),
    }
}

/// Adds a difference for each later host where the field is another than on the first.
fn push_user_field<'a>(
    told: &mut Vec<Difference<'a>>,
    name: &'a [u8],
    field: Field,
    first: &UserOn<'_, 'a>,
    later: &[UserOn<'_, 'a>],
) -> Result<(), AllocError>
    ensures { OnOk result
        (told.new.items ≡ told.old.items
        ++ spec.user_differs name.now field (user_seen first.now) (map user_seen later.now)) }
{
    let expected = user_field(field, first);
    for user in later {
        if user_field(field, user) != expected {
            let host = user.host;
            told.push(Difference {
                kind: Which::User,
                name: Name::new(name),
                field,
                host: Name::new(host.name.bytes()),
            })?;
        }
    }
    Ok(())
}

/// Adds the differences of a user.
fn push_user_differences<'a>(
    alloc: Global,
    told: &mut Vec<Difference<'a>>,
    hosts: &[Host<'a>],
    name: &'a [u8],
    among: &[Spot],
) -> Result<(), AllocError>
    ensures { OnOk result
        (told.new.items ≡ told.old.items
        ++ spec.user_differences name.now (spots.users_at hosts.now name.now among.now)) }
{
    let users = users_at(alloc, hosts, name, among)?;
    let Some((first, later)) = users.as_slice().split_first() else {
        return Ok(());
    };
    push_user_field(told, name, Field::Password, first, later)?;
    push_user_field(told, name, Field::Comment, first, later)?;
    push_user_field(told, name, Field::Home, first, later)?;
    push_user_field(told, name, Field::Shell, first, later)?;
    push_user_field(told, name, Field::Group, first, later)?;
    Ok(())
}

/// What stands in the password field of a group's row.
fn password<'a>(group: &GroupOn<'_, 'a>) -> &'a [u8]
    ensures { result.now ≡ (group_seen group.now).row.password }
{
    let row = group.row;
    row.password
}

/// Adds a difference for each later host where a group's password is another than on the first.
fn push_group_password<'a>(
    told: &mut Vec<Difference<'a>>,
    name: &'a [u8],
    first: &GroupOn<'_, 'a>,
    later: &[GroupOn<'_, 'a>],
) -> Result<(), AllocError>
    ensures { OnOk result
        (told.new.items ≡ told.old.items
        ++ spec.group_differs name.now (group_seen first.now) (map group_seen later.now)) }
{
    let expected = password(first);
    for group in later {
        if password(group) != expected {
            let host = group.host;
            told.push(Difference {
                kind: Which::Group,
                name: Name::new(name),
                field: Field::Password,
                host: Name::new(host.name.bytes()),
            })?;
        }
    }
    Ok(())
}

/// Adds the differences of a group.
fn push_group_differences<'a>(
    alloc: Global,
    told: &mut Vec<Difference<'a>>,
    hosts: &[Host<'a>],
    name: &'a [u8],
    among: &[Spot],
) -> Result<(), AllocError>
    ensures { OnOk result
        (told.new.items ≡ told.old.items
        ++ spec.group_differences name.now (spots.groups_at hosts.now name.now among.now)) }
{
    let groups = groups_at(alloc, hosts, name, among)?;
    match groups.as_slice().split_first() {
        Some((first, later)) => push_group_password(told, name, first, later),
        None => Ok(()),
    }
}

/// Adds the differences of all users, names in byte order. Those whose rows say the same on each
/// host have none.
fn push_all_users<'a>(
    alloc: Global,
    told: &mut Vec<Difference<'a>>,
    hosts: &[Host<'a>],
    site: &Site<'a>,
) -> Result<(), AllocError>
    requires joined { AreJoined hosts.now site.now }
    requires lawful { All IsLawfulHost hosts.now }
    ensures { OnOk result
        (told.new.items ≡ told.old.items ++ all_user_differences hosts.now site.now) }
{
    let users = site.users();
    let seen = all_seen(alloc, hosts, site)?;
    for index in users.in_byte_order() {
        if seen[*index as usize].is_differing() {
            push_user_differences(alloc, told, hosts, users.name(*index), users.spots(*index))?;
        }
    }
    Ok(())
}

/// Adds the differences of all groups, names in byte order.
fn push_all_groups<'a>(
    alloc: Global,
    told: &mut Vec<Difference<'a>>,
    hosts: &[Host<'a>],
    site: &Site<'a>,
) -> Result<(), AllocError>
    requires joined { AreJoined hosts.now site.now }
    requires lawful { All IsLawfulHost hosts.now }
    ensures { OnOk result
        (told.new.items ≡ told.old.items ++ all_group_differences hosts.now site.now) }
{
    let groups = site.groups();
    for index in groups.in_byte_order() {
        push_group_differences(
            alloc,
            told,
            hosts,
            groups.name(*index),
            groups.spots(*index),
        )?;
    }
    Ok(())
}

/// Each later host on which a field of a name is another than on the first host that has the name:
/// users before groups, names in byte order; of a user the password, comment, home, shell and
/// primary group by its name, which is the empty name where the host has no group of the number; of
/// a group the password; hosts in order. Requires that the site was joined from these hosts, each
/// lawful.
///
/// Time in step with the account rows, with one look-up by hash for each group row, one for each
/// user row whose group is not that of the row before, and two more for each row of a user that is
/// not the same on all hosts. Memory for the list, 32 bytes a user, and the rows of one name at a
/// time. Names and hosts are slices of the input.
///
/// # Errors
///
/// `AllocError` where memory is refused.
pub fn differences<'a>(
    alloc: Global,
    hosts: &[Host<'a>],
    site: &Site<'a>,
) -> Result<Vec<Difference<'a>>, AllocError>
    requires joined { AreJoined hosts.now site.now }
    requires lawful { All IsLawfulHost hosts.now }
    ensures { IfOk result (λ told. told.items ≡ site_differences hosts.now site.now) }
{
    let mut told = Vec::new(alloc);
    push_all_users(alloc, &mut told, hosts, site)?;
    push_all_groups(alloc, &mut told, hosts, site)?;
    Ok(told)
}
