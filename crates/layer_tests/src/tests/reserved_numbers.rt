//! The numbers that stay as they are on two hosts, and so are given to no name.

use crate::tests::kept_on_hosts::{both_hosts, kept_by, unowned_uids};
use hosts_join::{Groups, Reserved, Reserver, Users};
use keep_text::{KeepText, read_keep};
use std::alloc::Global;
use std::test::Fail;

pub fn reserved_uids(alloc: Global, keep: &KeepText<'_>) -> Result<Vec<Reserved<'static>>, Fail> {
    let kept = kept_by(alloc, keep)?;
    let hosts = both_hosts(alloc)?;
    let unowned = unowned_uids(alloc)?;
    Ok(
        kept.users
            .reserved::<Users>(alloc, &keep.users, &hosts, &unowned)?,
    )
}

pub fn reserved_gids(alloc: Global, keep: &KeepText<'_>) -> Result<Vec<Reserved<'static>>, Fail> {
    let kept = kept_by(alloc, keep)?;
    let hosts = both_hosts(alloc)?;
    Ok(
        kept.groups
            .reserved::<Groups>(alloc, &keep.groups, &hosts, &[])?,
    )
}

// Who reserves numbers: a listed range; on a host a name; files of a host.
#[derive(Clone, Copy)]
pub enum By {
    Range,
    Name(&'static [u8], &'static [u8]),
    Unowned(&'static [u8]),
}

fn is_by(by: &Reserver<'_>, expected: By) -> bool {
    match (by, expected) {
        (Reserver::Range, By::Range) => true,
        (Reserver::Name { host, name }, By::Name(on, kept)) => {
            host.bytes() == on && name.bytes() == kept
        }
        (Reserver::Unowned { host }, By::Unowned(on)) => host.bytes() == on,
        _ => false,
    }
}

// The first number, the last one, and who reserves them.
pub type Numbers = (u32, u32, By);

pub fn is_reserved(reserved: &Reserved<'_>, (low, high, by): Numbers) -> bool {
    reserved.numbers.low == low && reserved.numbers.high == high && is_by(&reserved.by, by)
}

fn are_reserved(reserved: &[Reserved<'_>], expected: &[Numbers]) -> bool {
    reserved.len() == expected.len()
        && reserved
            .iter()
            .zip(expected)
            .all(|(one, numbers)| is_reserved(one, *numbers))
}

// A keep text, and what is reserved of users and of groups.
type ReservedBy = (&'static [u8], &'static [Numbers], &'static [Numbers]);

const RESERVED: [ReservedBy; 5] = [
    (b"", &[], &[]),
    // The ranges, in the order of their lines, then host by host the numbers of names in them.
    (
        b"users 7 9\nusers 0 2\n",
        &[
            (7, 9, By::Range),
            (0, 2, By::Range),
            (0, 0, By::Name(b"a", b"root")),
            (1, 1, By::Name(b"a", b"daemon")),
            (0, 0, By::Name(b"b", b"root")),
            (2, 2, By::Name(b"b", b"daemon")),
        ],
        &[],
    ),
    (
        b"user svc\ngroup wheel\n",
        &[
            (500, 500, By::Name(b"a", b"svc")),
            (1500, 1500, By::Name(b"b", b"svc")),
        ],
        &[
            (1010, 1010, By::Name(b"a", b"wheel")),
            (1020, 1020, By::Name(b"b", b"wheel")),
        ],
    ),
    // Numbers without an account last, and only where the text says so.
    (
        b"unowned users\nuser bob\n",
        &[
            (1002, 1002, By::Name(b"a", b"bob")),
            (1001, 1001, By::Name(b"b", b"bob")),
            (77, 77, By::Unowned(b"a")),
            (1600, 1600, By::Unowned(b"b")),
        ],
        &[],
    ),
    (
        b"unowned groups\ngroups 50 60\n",
        &[],
        &[(50, 60, By::Range)],
    ),
];

#[test]
fn ranges_then_names_then_files_reserve_numbers(rt: HostRuntime) -> Result<(), Fail> {
    for (text, users, groups) in RESERVED {
        let keep = read_keep(rt.alloc(), text)?;
        assert!(rt; are_reserved(&reserved_uids(rt.alloc(), &keep)?, users));
        assert!(rt; are_reserved(&reserved_gids(rt.alloc(), &keep)?, groups));
    }
    Ok(())
}
