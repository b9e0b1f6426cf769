//! What of the hosts of a site is joined, by a keep text.

ghost use Rattle.std.specs.Prelude.{◌≡◌, [], map, All, IfOk};
ghost use Rattle.idtext.specs.First.{Gives};
ghost use Rattle.hosts_join.specs.declared.reserving.Reserved.{Reserved};
ghost use Rattle.kept_accounts.specs.Keeping.{IsKeeping, groups_on, keeps, users_on};
ghost use Rattle.kept_accounts.specs.Others.{without};
ghost use Rattle.kept_accounts.specs.Reserving.{reserved_groups, reserved_users};
ghost use Rattle.unify_texts.specs.Told.{told};
ghost use Rattle.site_tables.specs.Others.{keep_read, others_of, others_read};
ghost use Rattle.site_tables.specs.OthersHeld.{others_in};
ghost use Rattle.site_tables.specs.Sparing.{SparesNothing};

use crate::rules::KeepRules;
use hosts_join::{Groups, Host, Reserved, Users};
use keep_text::{KeepFault, KeepText, read_keep};
use kept_accounts::{KeptAccounts, UnownedNumbers};
use std::alloc::{AllocError, Global};
use unify_texts::Fault;

/// The numbers of each kind that no name is to be given.
#[derive(Drop)]
pub struct ReservedNumbers<'a> {
    pub users: Vec<Reserved<'a>>,
    pub groups: Vec<Reserved<'a>>,
}

/// Hosts without their kept users and groups, and the numbers that no name is to be given.
#[derive(Drop)]
pub struct OtherHosts<'a> {
    pub hosts: Vec<Host<'a>>,
    pub reserved: ReservedNumbers<'a>,
}

// What a keep text says. One pass over it, with a look-up by hash for each name.
fn load_keep<'a>(alloc: Global, text: &'a [u8]) -> Result<KeepText<'a>, Fault<'a>>
    ensures { Gives (λ keep. keep) told result (keep_read text.now) }
{
    match read_keep(alloc, text) {
        Ok(keep) => Ok(keep),
        Err(KeepFault::BadKeep(line)) => Err(Fault::BadKeep(line)),
        Err(KeepFault::Memory) => Err(Fault::Memory),
    }
}

// The numbers in listed ranges, those of kept names, and those without an account that stay.
fn reserve<'a>(
    alloc: Global,
    kept: &KeptAccounts<'a>,
    keep: &KeepText<'_>,
    hosts: &[Host<'a>],
    unowned: &UnownedNumbers<'a>,
) -> Result<ReservedNumbers<'a>, AllocError>
    requires users { IsKeeping keep.now.users (users_on hosts.now) kept.now.users }
    requires groups { IsKeeping keep.now.groups (groups_on hosts.now) kept.now.groups }
    ensures users { IfOk result
        (λ reserved. reserved.users.items ≡ reserved_users keep.now hosts.now unowned.now.users) }
    ensures groups { IfOk result
        (λ reserved. reserved.groups.items
        ≡ reserved_groups keep.now hosts.now unowned.now.groups) }
{
    let users = kept
        .users
        .reserved::<Users>(alloc, &keep.users, hosts, &unowned.users)?;
    let groups = kept
        .groups
        .reserved::<Groups>(alloc, &keep.groups, hosts, &unowned.groups)?;
    Ok(ReservedNumbers { users, groups })
}

// Each host without its kept users and groups.
fn leave_kept<'a>(
    alloc: Global,
    kept: &KeptAccounts<'a>,
    keep: &KeepText<'_>,
    hosts: &[Host<'a>],
    unowned: &UnownedNumbers<'a>,
) -> Result<Vec<Host<'a>>, AllocError>
    ensures { IfOk result (λ others. others.items
        ≡ map (without keep.now (keeps kept.now.users) (keeps kept.now.groups) unowned.now)
        hosts.now) }
{
    let mut others = Vec::new(alloc);
    for host in hosts {
        others.push(kept.without_kept(alloc, keep, host, unowned)?)?;
    }
    Ok(others)
}

// What of the hosts is joined, where these accounts are kept.
fn without_these<'a>(
    alloc: Global,
    kept: &KeptAccounts<'a>,
    keep: &KeepText<'_>,
    hosts: &[Host<'a>],
    unowned: &UnownedNumbers<'a>,
) -> Result<OtherHosts<'a>, AllocError>
    requires users { IsKeeping keep.now.users (users_on hosts.now) kept.now.users }
    requires groups { IsKeeping keep.now.groups (groups_on hosts.now) kept.now.groups }
    ensures { IfOk result (λ others. others_in others ≡ others_of keep.now hosts.now unowned.now) }
{
    let reserved = reserve(alloc, kept, keep, hosts, unowned)?;
    let hosts = leave_kept(alloc, kept, keep, hosts, unowned)?;
    Ok(OtherHosts { hosts, reserved })
}

// What of the hosts is joined, by what a keep text says.
fn without_kept<'a>(
    alloc: Global,
    keep: &KeepText<'_>,
    hosts: &[Host<'a>],
    unowned: &UnownedNumbers<'a>,
) -> Result<OtherHosts<'a>, AllocError>
    ensures { IfOk result (λ others. others_in others ≡ others_of keep.now hosts.now unowned.now) }
{
    let kept = KeptAccounts::of(alloc, keep, hosts)?;
    without_these(alloc, &kept, keep, hosts, unowned)
}

// What of the hosts is joined, by a text that is not empty.
fn other_hosts_by<'a>(
    alloc: Global,
    rules: &KeepRules<'a>,
    hosts: &[Host<'a>],
) -> Result<OtherHosts<'a>, Fault<'a>>
    ensures { Gives others_in told result (others_read rules.now hosts.now) }
{
    let keep = load_keep(alloc, rules.text.bytes())?;
    Ok(without_kept(alloc, &keep, hosts, &rules.unowned)?)
}

// All rows of the hosts, where nothing is kept.
fn all_hosts(alloc: Global, hosts: Vec<Host<'_>>) -> OtherHosts<'_>
    ensures { others_in result ≡ record {
      hosts = hosts.entry.items;
      reserved_users = [];
      reserved_groups = [];
    } }
{
    OtherHosts {
        hosts,
        reserved: ReservedNumbers {
            users: Vec::new(alloc),
            groups: Vec::new(alloc),
        },
    }
}

/// What of the hosts is joined, by what is to stay, and which numbers no name is to be given.
/// Requires that the hosts spare no number as yet. With the empty keep text they go on as they are,
/// and nothing is copied.
///
/// It refuses with `BadKeep` a line of the text. `Fault::Memory` is a growth that was refused. One
/// pass over the text, a few over the rows of the hosts, with a few look-ups by hash for each, and
/// for each host one look through the numbers without an account; of what is left it makes copies,
/// which borrow the hosts' texts.
pub fn other_hosts<'a>(
    alloc: Global,
    rules: &KeepRules<'a>,
    hosts: Vec<Host<'a>>,
) -> Result<OtherHosts<'a>, Fault<'a>>
    requires { All SparesNothing hosts.items }
    ensures { Gives others_in told result (others_read rules.now hosts.entry.items) }
{
    if rules.text.bytes().is_empty() {
        return Ok(all_hosts(alloc, hosts));
    }
    other_hosts_by(alloc, rules, &hosts)
}
