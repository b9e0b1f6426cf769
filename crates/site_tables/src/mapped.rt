//! The map of a site that is counted: its names are exactly those of the hosts.

ghost use Rattle.std.specs.Prelude.{◌≡◌, ◌≤◌, length, All, IfOk};
ghost use Rattle.std.specs.List.{list_all, list_any};
ghost use Rattle.idtext.specs.First.{Gives, Yields};
ghost use Rattle.hosts_join.specs.Hosts.{IsLawfulHost};
ghost use Rattle.unify_texts.specs.Told.{told};
ghost use Rattle.site_tables.specs.Mapped.{are_users_mapped as users_mapped};
ghost use Rattle.site_tables.specs.Mapped.{are_groups_mapped as groups_mapped};
ghost use Rattle.site_tables.specs.Mapped.{has_user as host_has_user};
ghost use Rattle.site_tables.specs.Mapped.{has_group as host_has_group, is_user_map, is_group_map};
ghost use Rattle.site_tables.specs.Mapped.{mapped_names, names_checked, cost_begun};

use crate::others::OtherHosts;
use crate::rules::KeepRules;
use crate::site::{check_list, load_others};
use accounts::{GroupRow, PasswdRow};
use hosts_join::{Host, HostText, PairTable};
use std::alloc::Global;
use unify_texts::{Fault, MapText, read_map};

/// The hosts of a site with their tables, and a map of exactly their names. It borrows the texts.
#[derive(Drop)]
pub struct MappedHosts<'a> {
    /// What is counted of each.
    pub hosts: Vec<Host<'a>>,
    /// The map.
    pub names: MapText<'a>,
}

// Whether each user of these rows has a number.
fn row_users_have_numbers(names: &PairTable<'_>, rows: &[PasswdRow<'_>]) -> bool
    ensures { result ≡ users_mapped names.now rows.now }
{
    rows.iter().all(|row| names.number(row.name).is_some())
}

// Whether each group of these rows has a number.
fn row_groups_have_numbers(names: &PairTable<'_>, rows: &[GroupRow<'_>]) -> bool
    ensures { result ≡ groups_mapped names.now rows.now }
{
    rows.iter().all(|row| names.number(row.name).is_some())
}

// Whether each user of all hosts has a number.
fn host_users_have_numbers(names: &PairTable<'_>, hosts: &[Host<'_>]) -> bool
    ensures { result ≡ list_all (λ host. users_mapped names.now host.users) hosts.now }
{
    hosts
        .iter()
        .all(|host| row_users_have_numbers(names, host.users.rows()))
}

// Whether each group of all hosts has a number.
fn host_groups_have_numbers(names: &PairTable<'_>, hosts: &[Host<'_>]) -> bool
    ensures { result ≡ list_all (λ host. groups_mapped names.now host.groups) hosts.now }
{
    hosts
        .iter()
        .all(|host| row_groups_have_numbers(names, host.groups.rows()))
}

// Whether a host has the user.
fn has_user(host: &Host<'_>, name: &[u8]) -> bool
    ensures { result ≡ host_has_user name.now host.now }
{
    host.users.by_name(name).is_some()
}

// Whether a host has the group.
fn has_group(host: &Host<'_>, name: &[u8]) -> bool
    ensures { result ≡ host_has_group name.now host.now }
{
    host.groups.by_name(name).is_some()
}

// Whether some host has the user.
fn is_user(hosts: &[Host<'_>], name: &[u8]) -> bool
    ensures { result ≡ list_any (host_has_user name.now) hosts.now }
{
    hosts.iter().any(|host| has_user(host, name))
}

// Whether some host has the group.
fn is_group(hosts: &[Host<'_>], name: &[u8]) -> bool
    ensures { result ≡ list_any (host_has_group name.now) hosts.now }
{
    hosts.iter().any(|host| has_group(host, name))
}

// Whether each name of the map is a user of some host.
fn pairs_are_users(names: &PairTable<'_>, hosts: &[Host<'_>]) -> bool
    ensures { result ≡ list_all (λ p. list_any (host_has_user p.name) hosts.now) names.now }
{
    for index in 0..names.len() {
        let pair = names.at(index);
        if !is_user(hosts, pair.name) {
            return false;
        }
    }
    true
}

// Whether each name of the map is a group of some host.
fn pairs_are_groups(names: &PairTable<'_>, hosts: &[Host<'_>]) -> bool
    ensures { result ≡ list_all (λ p. list_any (host_has_group p.name) hosts.now) names.now }
{
    for index in 0..names.len() {
        let pair = names.at(index);
        if !is_group(hosts, pair.name) {
            return false;
        }
    }
    true
}

// Whether the map's users are exactly those of the hosts.
fn is_map_of_users(names: &PairTable<'_>, hosts: &[Host<'_>]) -> bool
    ensures { result ≡ is_user_map names.now hosts.now }
{
    host_users_have_numbers(names, hosts) && pairs_are_users(names, hosts)
}

// Whether the map's groups are exactly those of the hosts.
fn is_map_of_groups(names: &PairTable<'_>, hosts: &[Host<'_>]) -> bool
    ensures { result ≡ is_group_map names.now hosts.now }
{
    host_groups_have_numbers(names, hosts) && pairs_are_groups(names, hosts)
}

// Checks that the names of the map are exactly those of the hosts. A look-up by hash on each host
// for each of its names.
fn check_names<'a>(names: &MapText<'_>, hosts: &[Host<'_>]) -> Result<(), Fault<'a>>
    ensures { Gives (λ x. x) told result (names_checked names.now hosts.now) }
{
    if is_map_of_users(&names.users, hosts) && is_map_of_groups(&names.groups, hosts) {
        return Ok(());
    }
    Err(Fault::BadMap(0))
}

// The map of what is counted.
fn map_others<'a>(
    alloc: Global,
    others: OtherHosts<'a>,
    map: &'a [u8],
) -> Result<MappedHosts<'a>, Fault<'a>>
    ensures names { Gives (λ held. held.names) told result
        (mapped_names map.now others.entry.hosts.items) }
    ensures hosts { IfOk result (λ held. held.hosts.items ≡ others.entry.hosts.items) }
{
    let OtherHosts { hosts, reserved: _ } = others;
    let names = read_map(alloc, map)?;
    check_names(&names, &hosts)?;
    Ok(MappedHosts { hosts, names })
}

/// Reads what comes before the inventories of a site that a map is counted for. It answers what is
/// counted of the hosts, and the map.
///
/// It refuses with the first fault in this order: the host list; host by host login.defs, passwd,
/// group and the primary groups; the keep text, by line; the map, by line, and then at line 0 where
/// its names are not exactly those names of the hosts that are not kept. `Fault::Memory` is a
/// growth that was refused. One pass over each text, and the map's names are looked up on each
/// host.
pub fn map_tables<'a>(
    alloc: Global,
    texts: &'a [HostText],
    keep: &KeepRules<'a>,
    map: &'a [u8],
) -> Result<MappedHosts<'a>, Fault<'a>>
    ensures begun { Yields (λ begun held. (held.hosts.items ≡ begun.hosts)
        × (held.names ≡ begun.names)) told result (cost_begun texts.now keep.now map.now) }
    ensures len { IfOk result (λ held. length held.hosts.items ≡ length texts.now) }
    ensures few { IfOk result (λ held. length held.hosts.items ≤ 64) }
    ensures lawful { IfOk result (λ held. All IsLawfulHost held.hosts.items) }
{
    check_list(texts)?;
    let others = load_others(alloc, texts, keep)?;
    map_others(alloc, others, map)
}
