//! The merged passwd file, after passwd(5).
ghost use Rattle.std.specs.Prelude.{◌≡◌, ◌<◌, ◌++◌, length, IfOk, OnOk, Some};
ghost use Rattle.std.specs.List.{All};
ghost use Rattle.hosts_join.specs.Hosts.{IsLawfulHost};
ghost use Rattle.hosts_join.specs.Rules.{account};
ghost use Rattle.ownership.specs.Mappings.{AreForSite};
ghost use Rattle.mergedfiles.specs.Rows.{first_of};
ghost use Rattle.mergedfiles.specs.Seen.{user_seen, user_told};
ghost use Rattle.mergedfiles.specs.Spots as spots;
ghost use Rattle.mergedfiles.specs.Texts as texts;
ghost use Rattle.mergedfiles.specs.Texts.{user_line, merged_user, merged_users};
ghost use Rattle.mergedfiles.specs.Together.{AreJoined};

use crate::group::{push_field, push_number_field};
use crate::order::by_number;
use crate::rows::{UserOn, user_at};
use hosts_join::{Host, Names, Site, Spot};
use ownership::{Mapping, Mappings};
use std::alloc::{AllocError, Global};

/// The first row of a user on the hosts of spots.
fn first_user<'h, 'a>(hosts: &'h [Host<'a>], name: &[u8], among: &[Spot]) -> Option<UserOn<'h, 'a>>
    ensures { user_told result ≡ first_of (spots.users_at hosts.now name.now among.now) }
{
    for spot in among {
        if let Some(user) = user_at(hosts, name, spot) {
            return Some(user);
        }
    }
    None
}

/// The new number of the group that has the number on the host.
fn new_gid(host: &Host<'_>, gid: u32, groups: &Names<'_>, mapping: &Mapping) -> u32
    requires { length mapping.now ≡ length groups.now.names }
    ensures { result ≡ texts.new_gid groups.now mapping.now host.now gid }
{
    let Some(group) = host.groups.by_number(gid) else {
        return gid;
    };
    match groups.find(group.name) {
        Some(index) => mapping.number(index),
        None => gid,
    }
}

/// Appends a line with the fields of a user's row.
fn push_line(
    text: &mut Vec<u8>,
    name: &[u8],
    number: u32,
    first: &UserOn<'_, '_>,
    groups: &Names<'_>,
    gids: &Mapping,
) -> Result<(), AllocError>
    requires { length gids.now ≡ length groups.now.names }
    ensures { OnOk result
        (text.new.items ≡ text.old.items
        ++ user_line groups.now gids.now name.now number (Some (user_seen first.now))) }
{
    let row = first.row;
    push_field(text, name)?;
    push_field(text, row.password)?;
    push_number_field(text, number)?;
    push_number_field(text, new_gid(first.host, row.gid, groups, gids))?;
    push_field(text, row.comment)?;
    push_field(text, row.home)?;
    text.extend_from_slice(row.shell)?;
    text.push(b'\n')?;
    Ok(())
}

/// Appends the line of the user at an index.
fn push_user(
    text: &mut Vec<u8>,
    hosts: &[Host<'_>],
    site: &Site<'_>,
    index: u32,
    number: u32,
    gids: &Mapping,
) -> Result<(), AllocError>
    requires joined { AreJoined hosts.now site.now }
    requires lawful { All IsLawfulHost hosts.now }
    requires within { index < length site.now.users.names }
    requires for_groups { length gids.now ≡ length site.now.groups.names }
    ensures { OnOk result
        (text.new.items ≡ text.old.items
        ++ merged_user site.now.groups gids.now hosts.now (account site.now.users index).name
        number) }
{
    let names = site.users();
    let name = names.name(index);
    match first_user(hosts, name, names.spots(index)) {
        Some(first) => push_line(text, name, number, &first, site.groups(), gids),
        None => Ok(()),
    }
}

/// The merged passwd: a line for each user of the site, ascending by its new number, with the
/// fields of the first host that has it; its primary group is the group of that host, with its new
/// number; where that host has no group of the number, as where the group was left out because it
/// is kept, the number stays. Requires that the site was joined from these hosts, each lawful, and
/// that the mappings have one number for each user and for each group.
///
/// Time in step with the text, with three look-ups by hash for each user, and one sort of the users
/// by number. Memory for the text, and 8 bytes a user.
///
/// # Errors
///
/// `AllocError` where memory is refused.
pub fn passwd_text(
    alloc: Global,
    hosts: &[Host<'_>],
    site: &Site<'_>,
    mappings: &Mappings,
) -> Result<Vec<u8>, AllocError>
    requires joined { AreJoined hosts.now site.now }
    requires lawful { All IsLawfulHost hosts.now }
    requires for_site { AreForSite site.now mappings.now }
    ensures { IfOk result (λ text. text.items ≡ merged_users hosts.now site.now mappings.now) }
{
    let order = by_number(alloc, site.users().len(), &mappings.users)?;
    let mut text = Vec::new(alloc);
    for account in &order {
        let (index, number) = *account;
        push_user(&mut text, hosts, site, index, number, &mappings.groups)?;
    }
    Ok(text)
}
