//! What the files of one owner get.
ghost use Rattle.std.specs.Prelude.{◌≡◌, length};
ghost use Rattle.reown_plan.specs.NewOwners.{HasNumbers, IsChangeOf};
ghost use Rattle.reown_plan.specs.Target.{renumbered};

use crate::Owner;
use crate::numbers::PrintedNumbers;
use hosts_join::{Names, Site};
use ownership::{Mapping, Mappings};
use std::marker::Model;

/// Which owners the files of a host get: a name of the site that has a number on the host has
/// another under the mappings.
#[derive(Clone, Copy)]
pub struct NewOwners<'a, 's> {
    /// The host's index.
    pub host: u32,
    /// The site whose host it is.
    pub site: &'a Site<'s>,
    /// The new numbers of the site's names.
    pub mappings: &'a Mappings,
}

/// What the files of one owner get on a host: the numbers with which their records begin, as they
/// are printed, or none where the owner stays. It takes no memory of its own.
#[derive(Drop)]
pub struct OwnerChange {
    pub(crate) numbers: Option<PrintedNumbers>,
}

impl Model for OwnerChange {
    ghost use Rattle.reown_plan.specs.OwnerChange as spec;

    ghost Value = { spec.OwnerChange };

    ghost view = { λ c. c.numbers };
}

/// Where the rows stand in a host's tables that have the numbers of an owner, as far as that is
/// known. Nothing rests on it but time.
#[derive(Clone, Copy, Debug, Default)]
pub struct OwnerRows {
    /// The place of the user's row in passwd.
    pub user: usize,
    /// The place of the group's row in group.
    pub group: usize,
}

// The new number of the name that has the number on the host, most likely by this row.
fn renumber(names: &Names<'_>, mapping: &Mapping, host: u32, number: u32, row: usize) -> u32
    requires { length mapping.now ≡ length names.now.names }
    ensures { result ≡ renumbered names.now mapping.now host number }
{
    match names.owner_of_row(host, number, row) {
        Some(index) => mapping.number(index),
        None => number,
    }
}

impl OwnerChange {
    /// What the files of an owner get. A uid or a gid that no name of the site has on the host
    /// stays as it is. Requires that the mappings have one number for each name of the site. Two
    /// look-ups by hash, unless rows that have the numbers are told; no memory.
    pub fn new(owners: &NewOwners<'_, '_>, before: Owner, rows: OwnerRows) -> OwnerChange
        requires { HasNumbers owners.now }
        ensures { IsChangeOf owners.now before result }
    {
        let NewOwners {
            host,
            site,
            mappings,
        } = *owners;
        let after = Owner {
            uid: renumber(site.users(), &mappings.users, host, before.uid, rows.user),
            gid: renumber(
                site.groups(),
                &mappings.groups,
                host,
                before.gid,
                rows.group,
            ),
        };
        let numbers = if before == after {
            None
        } else {
            Some(PrintedNumbers::new(before, after))
        };
        OwnerChange { numbers }
    }
}
