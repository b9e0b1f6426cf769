//! The numbers that no name is to be given.

ghost use Rattle.std.specs.Prelude.{◌≡◌, ◌++◌, map, OnOk};
ghost use Rattle.kept_accounts.specs.Reserving as spec;

use hosts_join::{Host, Reserved, Reserver};
use idtext::Name;
use logindefs::IdRange;
use std::alloc::{AllocError, Global};
use std::marker::Model;

/// A number that some file of a host has, and no account of the host.
#[derive(Drop)]
pub struct UnownedNumber<'a> {
    /// The host's name.
    pub host: Name<'a>,
    /// The uid or gid.
    pub number: u32,
}

/// The numbers of both kinds that files have, and no account of their host.
#[derive(Drop)]
pub struct UnownedNumbers<'a> {
    /// Uids.
    pub users: Vec<UnownedNumber<'a>>,
    /// Gids.
    pub groups: Vec<UnownedNumber<'a>>,
}

impl<'a> Model for UnownedNumbers<'a> {
    ghost Value = { spec.UnownedNumbers };

    ghost view = { λ it. record { users = it.users.items; groups = it.groups.items } };
}

impl<'a> UnownedNumbers<'a> {
    /// No number. Takes no memory.
    pub fn none(alloc: Global) -> Self
        ensures { result ≡ spec.no_numbers }
    {
        UnownedNumbers {
            users: Vec::new(alloc),
            groups: Vec::new(alloc),
        }
    }
}

/// That number alone.
pub fn only(number: u32) -> IdRange
    ensures { result ≡ spec.only number }
{
    IdRange {
        low: number,
        high: number,
    }
}

/// The number that a kept name has on a host.
pub fn by_name<'a>(host: &Host<'a>, name: &'a [u8], number: u32) -> Reserved<'a>
    ensures { result ≡ spec.by_name host.now (name.now, number) }
{
    Reserved {
        numbers: only(number),
        by: Reserver::Name {
            host: Name::new(host.name.bytes()),
            name: Name::new(name),
        },
    }
}

/// Appends listed ranges.
pub fn push_ranges(reserved: &mut Vec<Reserved<'_>>, ranges: &[IdRange]) -> Result<(), AllocError>
    ensures { OnOk result (reserved.new.items
        ≡ reserved.old.items ++ map spec.by_range ranges.now) }
{
    for range in ranges {
        reserved.push(Reserved {
            numbers: *range,
            by: Reserver::Range,
        })?;
    }
    Ok(())
}

/// Appends numbers without an account.
pub fn push_unowned<'a>(
    reserved: &mut Vec<Reserved<'a>>,
    unowned: &[UnownedNumber<'a>],
) -> Result<(), AllocError>
    ensures { OnOk result (reserved.new.items
        ≡ reserved.old.items ++ map spec.by_files unowned.now) }
{
    for found in unowned {
        reserved.push(Reserved {
            numbers: only(found.number),
            by: Reserver::Unowned {
                host: Name::new(found.host.bytes()),
            },
        })?;
    }
    Ok(())
}
