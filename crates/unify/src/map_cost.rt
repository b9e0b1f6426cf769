//! How many fields of files a map changes.

ghost use Rattle.std.specs.Prelude.{◌≡◌, ◌≤◌, List, length, IfOk, not, sum_by};
ghost use Rattle.idtext.specs.First.{Yields};
ghost use Rattle.mtree_inv.specs.declared.entry.Entry.{Entry};
ghost use Rattle.hosts_join.specs.Hosts.{IsLawfulHost};
ghost use Rattle.hosts_join.specs.Kinds.{group_at, user_at};
ghost use Rattle.hosts_join.specs.Pairs.{number_of};
ghost use Rattle.unify_texts.specs.Told.{told};
ghost use Rattle.unify.specs.Cost.{changed, host_cost, is_number};
ghost use Rattle.unify.specs.Begun.{IsBegunCost};
ghost use Rattle.site_tables.specs.Mapped.{cost_begun};
ghost use Rattle.unify.specs.RowFiles.{row_files};

use crate::counting::Cost;
use crate::inventories::Inventories;
use crate::row_files::RowFiles;
use hosts_join::{Host, HostText, PairTable};
use site_tables::{KeepRules, MappedHosts, map_tables};
use std::alloc::Global;
use unify_texts::{Fault, MapText};

/// The inventories of a site's hosts, and a map of exactly the names of these. It borrows the
/// texts.
#[derive(Drop)]
pub struct MappedSite<'a> {
    /// None of them has come as yet.
    pub inventories: Inventories<'a>,
    /// The map.
    pub names: MapText<'a>,
}

/// Reads what comes before the inventories of a site that a map is counted for; none of them has
/// come as yet. It refuses with the faults of [`map_tables`], in their order, or for want of
/// memory, and costs what that does.
pub fn begin_count<'a>(
    alloc: Global,
    texts: &'a [HostText],
    keep: &KeepRules<'a>,
    map: &'a [u8],
) -> Result<MappedSite<'a>, Fault<'a>>
    ensures begun { Yields IsBegunCost told result (cost_begun texts.now keep.now map.now) }
    ensures hosts { IfOk result (λ begun. length begun.inventories.hosts ≡ length texts.now) }
{
    let MappedHosts { hosts, names } = map_tables(alloc, texts, keep, map)?;
    let inventories = Inventories::of(alloc, hosts)?;
    Ok(MappedSite { inventories, names })
}

// Whether the map gives another number to a name than it has.
fn is_changed(names: &PairTable<'_>, name: &[u8], number: u32) -> bool
    ensures { result ≡ not (is_number (number_of names.now name.now) number) }
{
    match names.number(name) {
        Some(to) => to != number,
        None => true,
    }
}

// How many user fields of a host's files the map changes, where so many files are owned by each
// row of its passwd.
fn user_fields(names: &PairTable<'_>, host: &Host<'_>, files: &[u64]) -> u64
    requires lawful { IsLawfulHost host.now }
    requires counted { (here : List Entry) × (files.now ≡ (row_files host.now here).users)
        × (length here ≤ 16777216) }
    ensures { (here : List Entry) → files.now ≡ (row_files host.now here).users
        → result ≡ sum_by (λ e. changed names.now (user_at host.now.users e.uid) e.uid) here }
{
    let mut fields = 0;
    for (index, row) in host.users.rows().iter().enumerate() {
        if is_changed(names, row.name, row.uid) {
            fields += files[index];
        }
    }
    fields
}

// How many group fields of a host's files the map changes, where so many files are owned by each
// row of its group.
fn group_fields(names: &PairTable<'_>, host: &Host<'_>, files: &[u64]) -> u64
    requires lawful { IsLawfulHost host.now }
    requires counted { (here : List Entry) × (files.now ≡ (row_files host.now here).groups)
        × (length here ≤ 16777216) }
    ensures { (here : List Entry) → files.now ≡ (row_files host.now here).groups
        → result ≡ sum_by (λ e. changed names.now (group_at host.now.groups e.gid) e.gid) here }
{
    let mut fields = 0;
    for (index, row) in host.groups.rows().iter().enumerate() {
        if is_changed(names, row.name, row.gid) {
            fields += files[index];
        }
    }
    fields
}

// How many fields of a host's files the map changes, where so many files are owned by each of its
// rows.
fn fields_on(names: &MapText<'_>, host: &Host<'_>, rows: &RowFiles) -> Cost
    requires lawful { IsLawfulHost host.now }
    requires counted { (here : List Entry) × (rows.now ≡ row_files host.now here)
        × (length here ≤ 16777216) }
    ensures { (here : List Entry) → rows.now ≡ row_files host.now here
        → result ≡ host_cost names.now host.now here }
{
    Cost {
        users: user_fields(&names.users, host, rows.users.as_slice()),
        groups: group_fields(&names.groups, host, rows.groups.as_slice()),
    }
}

impl<'a> MappedSite<'a> {
    ghost use Rattle.std.specs.Prelude.{◌≡◌, length, Ok};
    ghost use Rattle.unify.specs.Count.{total_of};
    ghost use Rattle.unify.specs.Passes.{ended_in, read_in};

    /// How many user and group fields of the files the map changes. Requires that no host is left.
    /// One pass over the account rows, with a look-up by hash for each; it takes no memory.
    pub fn cost(&self) -> Cost
        requires none_left { ended_in self.now.inventories ≡ length self.now.inventories.hosts }
        ensures { total_of self.now.names (read_in self.now.inventories) ≡ Ok result }
    {
        let mut cost = Cost {
            users: 0,
            groups: 0,
        };
        for (index, rows) in self.inventories.passed.iter().enumerate() {
            let here = fields_on(&self.names, &self.inventories.hosts[index], rows);
            cost.users += here.users;
            cost.groups += here.groups;
        }
        cost
    }
}
