//! What stays as it is on two hosts, which no command shows.

ghost use Rattle.std.specs.Prelude.{IfOk};
ghost use Rattle.hosts_join.specs.Hosts.{IsLawfulHost};

use accounts::{GroupTable, PasswdTable, read_group, read_passwd};
use hosts_join::{Host, Runs};
use idtext::Name;
use keep_text::{KeepText, read_keep};
use kept_accounts::{KeptAccounts, UnownedNumber, UnownedNumbers, others_are_lawful};
use logindefs::read_ranges;
use std::alloc::{AllocError, Global};
use std::test::Fail;

// A host's name, its passwd and its group. It has no login.defs.
pub type Texts = (&'static [u8], &'static [u8], &'static [u8]);

pub const A: Texts = (
    b"a",
    b"root:x:0:0::/:/\nann:x:1001:100::/:/\ndaemon:x:1:0::/:/\nsvc:x:500:100::/:/\n\
        bob:x:1002:100::/:/\n",
    b"root:x:0:\nusers:x:100:\nwheel:x:1010:\n",
);

pub const B: Texts = (
    b"b",
    b"bob:x:1001:100::/:/\nroot:x:0:0::/:/\nsvc:x:1500:100::/:/\ndaemon:x:2:0::/:/\n",
    b"users:x:100:\nroot:x:0:\nwheel:x:1020:\n",
);

fn host_of(alloc: Global, texts: Texts) -> Result<Host<'static>, Fail>
    ensures { IfOk result (λ host. IsLawfulHost host) }
{
    let ranges = read_ranges(b"")?;
    let users = read_passwd(alloc, texts.1)?;
    let groups = read_group(alloc, texts.2)?;
    Ok(Host {
        name: Name::new(texts.0),
        ranges,
        users,
        groups,
        spared_users: Runs::none(alloc),
        spared_groups: Runs::none(alloc),
    })
}

pub fn both_hosts(alloc: Global) -> Result<Vec<Host<'static>>, Fail> {
    let mut hosts = Vec::new(alloc);
    hosts.push(host_of(alloc, A)?)?;
    hosts.push(host_of(alloc, B)?)?;
    Ok(hosts)
}

// What a text keeps on both hosts.
pub fn kept_by(alloc: Global, keep: &KeepText<'_>) -> Result<KeptAccounts<'static>, Fail> {
    let hosts = both_hosts(alloc)?;
    Ok(KeptAccounts::of(alloc, keep, &hosts)?)
}

// A keep text, a name, and whether it is kept as a user's and as a group's.
type KeptName = (&'static [u8], &'static [u8], bool, bool);

const KEPT_NAMES: [KeptName; 12] = [
    (b"users 0 999\n", b"root", true, false),
    (b"users 0 999\n", b"daemon", true, false),
    (b"users 0 999\n", b"ann", false, false),
    // One number lies inside, and one outside.
    (b"users 0 999\n", b"svc", false, false),
    (b"users 0 999\nuser svc\n", b"svc", true, false),
    (b"users 500 500\nusers 1500 1500\n", b"svc", true, false),
    (b"users 500 1499\n", b"svc", false, false),
    // A name that no host has.
    (b"user carol\n", b"carol", false, false),
    (b"groups 0 999\n", b"root", false, true),
    (b"groups 0 999\n", b"users", false, true),
    (b"groups 0 1019\n", b"wheel", false, false),
    (b"group wheel\nuser wheel\n", b"wheel", false, true),
];

#[test]
fn a_name_is_kept_by_all_its_numbers_or_by_itself(rt: HostRuntime) -> Result<(), Fail> {
    for (text, name, user, group) in KEPT_NAMES {
        let keep = read_keep(rt.alloc(), text)?;
        let kept = kept_by(rt.alloc(), &keep)?;
        assert_eq!(rt; kept.users.is_kept(name), user);
        assert_eq!(rt; kept.groups.is_kept(name), group);
    }
    Ok(())
}

// Numbers that files of both hosts have without a user.
pub fn unowned_uids(alloc: Global) -> Result<Vec<UnownedNumber<'static>>, AllocError> {
    let mut unowned = Vec::new(alloc);
    unowned.push(UnownedNumber {
        host: Name::new(b"a"),
        number: 77,
    })?;
    unowned.push(UnownedNumber {
        host: Name::new(b"b"),
        number: 1600,
    })?;
    Ok(unowned)
}

// One that files of the second host have without a group.
fn unowned_gids(alloc: Global) -> Result<Vec<UnownedNumber<'static>>, AllocError> {
    let mut unowned = Vec::new(alloc);
    unowned.push(UnownedNumber {
        host: Name::new(b"b"),
        number: u32::MAX,
    })?;
    Ok(unowned)
}

// What is left of a host.
pub fn left_of(
    alloc: Global,
    keep: &KeepText<'_>,
    kept: &KeptAccounts<'static>,
    texts: Texts,
) -> Result<Host<'static>, Fail>
    ensures { IfOk result (λ host. IsLawfulHost host) }
{
    let host = host_of(alloc, texts)?;
    let unowned = UnownedNumbers {
        users: unowned_uids(alloc)?,
        groups: unowned_gids(alloc)?,
    };
    others_are_lawful();
    Ok(kept.without_kept(alloc, keep, &host, &unowned)?)
}

// The same of a text.
fn left_by(alloc: Global, text: &[u8], texts: Texts) -> Result<Host<'static>, Fail> {
    let keep = read_keep(alloc, text)?;
    let kept = kept_by(alloc, &keep)?;
    left_of(alloc, &keep, &kept, texts)
}

type Names = &'static [&'static [u8]];

fn are_users(users: &PasswdTable<'_>, names: Names) -> bool {
    let rows = users.rows();
    rows.len() == names.len() && rows.iter().zip(names).all(|(row, name)| row.name == *name)
}

fn are_groups(groups: &GroupTable<'_>, names: Names) -> bool {
    let rows = groups.rows();
    rows.len() == names.len() && rows.iter().zip(names).all(|(row, name)| row.name == *name)
}

// A keep text, a host, and its users and groups that are left.
type Left = (&'static [u8], Texts, Names, Names);

const LEFT: [Left; 7] = [
    (
        b"",
        A,
        &[b"root", b"ann", b"daemon", b"svc", b"bob"],
        &[b"root", b"users", b"wheel"],
    ),
    (
        b"users 1 999\n",
        A,
        &[b"root", b"ann", b"svc", b"bob"],
        &[b"root", b"users", b"wheel"],
    ),
    (
        b"users 1 999\n",
        B,
        &[b"bob", b"root", b"svc"],
        &[b"users", b"root", b"wheel"],
    ),
    (
        b"user svc\nuser root\n",
        A,
        &[b"ann", b"daemon", b"bob"],
        &[b"root", b"users", b"wheel"],
    ),
    (
        b"user svc\ngroups 100 100\n",
        B,
        &[b"bob", b"root", b"daemon"],
        &[b"root", b"wheel"],
    ),
    (
        b"unowned users\n",
        B,
        &[b"bob", b"root", b"svc", b"daemon"],
        &[b"users", b"root", b"wheel"],
    ),
    (b"users 0 9999\ngroups 0 9999\n", A, &[], &[]),
];

#[test]
fn other_rows_are_left_in_order(rt: HostRuntime) -> Result<(), Fail> {
    for (text, texts, users, groups) in LEFT {
        let host = left_by(rt.alloc(), text, texts)?;
        assert!(rt; are_users(&host.users, users) && are_groups(&host.groups, groups));
    }
    Ok(())
}

// A keep text, a host, a number, and whether the host spares it as a user's and as a group's.
type Spared = (&'static [u8], Texts, u32, bool, bool);

const SPARED: [Spared; 19] = [
    (b"", A, 0, false, false),
    (b"", A, 77, false, false),
    // A listed range, whether or not an account has the number.
    (b"users 5 9\n", A, 5, true, false),
    (b"users 5 9\n", B, 9, true, false),
    (b"users 5 9\n", B, 10, false, false),
    // The number that a kept name has on the host, and not the one on the other host.
    (b"user svc\n", A, 500, true, false),
    (b"user svc\n", A, 1500, false, false),
    (b"user svc\n", B, 1500, true, false),
    (b"user svc\n", B, 500, false, false),
    (b"group wheel\n", A, 1010, false, true),
    (b"group wheel\n", A, 1020, false, false),
    // The number that files of the host have without an account, and no other.
    (b"unowned users\n", A, 77, true, false),
    (b"unowned users\n", A, 1600, false, false),
    (b"unowned users\n", A, 1001, false, false),
    (b"unowned users\n", B, 1600, true, false),
    (b"unowned users\n", B, 77, false, false),
    (b"unowned groups\n", B, u32::MAX, false, true),
    (b"unowned groups\n", A, u32::MAX, false, false),
    (b"unowned users\nunowned groups\n", A, 77, true, false),
];

#[test]
fn a_host_spares_what_the_text_keeps_there(rt: HostRuntime) -> Result<(), Fail> {
    for (text, texts, number, user, group) in SPARED {
        let host = left_by(rt.alloc(), text, texts)?;
        assert_eq!(rt; host.spared_users.has(number), user);
        assert_eq!(rt; host.spared_groups.has(number), group);
    }
    Ok(())
}

#[test]
fn users_and_groups_are_kept_apart(rt: HostRuntime) -> Result<(), Fail> {
    let host = left_by(rt.alloc(), b"users 0 4294967294\nunowned users\n", A)?;
    assert!(rt; are_users(&host.users, &[]) && host.spared_users.has(1));
    assert!(rt; are_groups(&host.groups, &[b"root", b"users", b"wheel"]));
    assert!(rt; !host.spared_groups.has(1) && !host.spared_groups.has(0));
    Ok(())
}
