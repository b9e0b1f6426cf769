//! The rows of a name on the hosts that have it.
ghost use Rattle.std.specs.Prelude.{◌≡◌, IfOk, map, option_copied, slice_get};
ghost use Rattle.mergedfiles.specs.Spots as spots;
ghost use Rattle.mergedfiles.specs.Seen.{group_seen, group_told, user_seen, user_told};

use accounts::{GroupRow, PasswdRow};
use hosts_join::{Host, Spot};
use std::alloc::{AllocError, Global};

/// A user's row, and the host that it stands on.
#[derive(Clone, Copy)]
pub struct UserOn<'h, 'a> {
    pub host: &'h Host<'a>,
    pub row: &'h PasswdRow<'a>,
}

/// A group's row, and the host that it stands on.
#[derive(Clone, Copy)]
pub struct GroupOn<'h, 'a> {
    pub host: &'h Host<'a>,
    pub row: &'h GroupRow<'a>,
}

/// The host at an index.
fn host_at<'h, 'a>(hosts: &'h [Host<'a>], index: u32) -> Option<&'h Host<'a>>
    ensures { option_copied result ≡ slice_get hosts.now index }
{
    hosts.get(index as usize)
}

/// The row of a user on the host of a spot.
pub fn user_at<'h, 'a>(hosts: &'h [Host<'a>], name: &[u8], spot: &Spot) -> Option<UserOn<'h, 'a>>
    ensures { user_told result ≡ spots.user_at hosts.now name.now spot.now }
{
    let host = host_at(hosts, spot.host)?;
    let row = host.users.by_name(name)?;
    Some(UserOn { host, row })
}

/// The rows of a user on the hosts of spots.
pub fn users_at<'h, 'a>(
    alloc: Global,
    hosts: &'h [Host<'a>],
    name: &[u8],
    among: &[Spot],
) -> Result<Vec<UserOn<'h, 'a>>, AllocError>
    ensures { IfOk result
        (λ users. map user_seen users.items ≡ spots.users_at hosts.now name.now among.now) }
{
    let mut users = Vec::new(alloc);
    for spot in among {
        if let Some(user) = user_at(hosts, name, spot) {
            users.push(user)?;
        }
    }
    Ok(users)
}

/// The row of a group on the host of a spot.
fn group_at<'h, 'a>(hosts: &'h [Host<'a>], name: &[u8], spot: &Spot) -> Option<GroupOn<'h, 'a>>
    ensures { group_told result ≡ spots.group_at hosts.now name.now spot.now }
{
    let host = host_at(hosts, spot.host)?;
    let row = host.groups.by_name(name)?;
    Some(GroupOn { host, row })
}

/// The rows of a group on the hosts of spots.
pub fn groups_at<'h, 'a>(
    alloc: Global,
    hosts: &'h [Host<'a>],
    name: &[u8],
    among: &[Spot],
) -> Result<Vec<GroupOn<'h, 'a>>, AllocError>
    ensures { IfOk result
        (λ groups. map group_seen groups.items ≡ spots.groups_at hosts.now name.now among.now) }
{
    let mut groups = Vec::new(alloc);
    for spot in among {
        if let Some(group) = group_at(hosts, name, spot) {
            groups.push(group)?;
        }
    }
    Ok(groups)
}
