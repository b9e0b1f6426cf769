//! Users and groups.
use crate::{Host, Pair, PairTable, Pins, Reserved, Which};
use logindefs::{HostRanges, IdRange};

/// Users or groups: what a host, its ranges and the pins have of the kind. No call takes memory,
/// and each takes constant time.
pub trait Kind {
    ghost use Rattle.std.specs.Prelude.{◌≡◌, ℕ, ◌<◌, List, map, length, slice_index_or};
    ghost use Rattle.accounts.specs.Laws.{IsTable};
    ghost use Rattle.logindefs.specs.Ranges.{AreApart};
    ghost use Rattle.logindefs.specs.declared.ranges.IdRange.{IdRange};
    ghost use Rattle.logindefs.specs.declared.ranges.HostRanges.{HostRanges};
    ghost use Rattle.hosts_join.specs.declared.Which.{Which};
    ghost use Rattle.hosts_join.specs.declared.host.Host.{Host};
    ghost use Rattle.hosts_join.specs.declared.reserving.Reserved.{Reserved};
    ghost use Rattle.hosts_join.specs.PinPairs.{PinPairs, ArePins};
    ghost use Rattle.hosts_join.specs.Hosts.{IsLawfulHost};
    ghost use Rattle.hosts_join.specs.Accounts as spec;

    // Which kind it is.
    ghost kind: { Which };

    // The names of a host with their numbers, in order.
    ghost listed: { Host → List (List ℕ × ℕ) };

    ghost regular_range: { HostRanges → IdRange };

    ghost system_range: { HostRanges → IdRange };

    // The pins of the kind, in order of their lines.
    ghost pinned: { PinPairs → List spec.Pair };

    // What is reserved of the kind.
    ghost reserved_of: { PinPairs → List Reserved };

    /// Which kind it is.
    fn which() -> Which
        ensures { result ≡ kind };

    /// How many rows of the kind a host has.
    fn count(host: &Host<'_>) -> usize
        ensures { result ≡ length (listed host.now) };

    /// The name on a row.
    fn name<'a>(host: &Host<'a>, place: usize) -> &'a [u8]
        requires { place < length (listed host.now) }
        ensures { result.now ≡ (slice_index_or (listed host.now) place (spec.no_row)).0 };

    /// The number on a row.
    fn number(host: &Host<'_>, place: usize) -> u32
        requires { place < length (listed host.now) }
        ensures { result ≡ (slice_index_or (listed host.now) place (spec.no_row)).1 };

    /// The numbers that are regular on a host.
    fn regular(ranges: &HostRanges) -> IdRange
        ensures { result ≡ regular_range ranges.now };

    /// The numbers that are system numbers on a host.
    fn system(ranges: &HostRanges) -> IdRange
        ensures { result ≡ system_range ranges.now };

    /// The pins of the kind, in the order of their lines.
    fn pins<'p, 'a>(pins: &'p Pins<'a>) -> &'p PairTable<'a>
        ensures pairs { result.now ≡ pinned pins.now }
        ensures lawful { ArePins result.now };

    /// The numbers of the kind that no name is to be given.
    fn reserved<'p, 'a>(pins: &'p Pins<'a>) -> &'p [Reserved<'a>]
        ensures { result.now ≡ reserved_of pins.now };

    // On one lawful host names are distinct, numbers are distinct, and no number is above
    // 4294967294.
    ghost table: { (h : Host) → IsLawfulHost h
        → IsTable (map (λ p. p.0) (listed h)) (map (λ p. p.1) (listed h)) };

    // No number is both regular and system on one lawful host.
    ghost apart: { (h : Host) → IsLawfulHost h
        → AreApart (regular_range h.ranges) (system_range h.ranges) };
}

/// The users of a passwd file.
pub enum Users {}

/// The groups of a group file.
pub enum Groups {}

impl Kind for Users {
    ghost use Rattle.hosts_join.specs.declared.Which.TheVariants.{User};
    ghost use Rattle.hosts_join.specs.Kinds.{user_rows, user_rows-table};

    ghost kind = { User };

    ghost listed = { λ h. user_rows h.users };

    ghost regular_range = { λ r. r.uid };

    ghost system_range = { λ r. r.sys_uid };

    ghost pinned = { λ p. p.users };

    ghost reserved_of = { λ p. p.reserved_users };

    fn which() -> Which {
        Which::User
    }

    fn count(host: &Host<'_>) -> usize {
        host.users.rows().len()
    }

    fn name<'a>(host: &Host<'a>, place: usize) -> &'a [u8] {
        let row = &host.users.rows()[place];
        row.name
    }

    fn number(host: &Host<'_>, place: usize) -> u32 {
        let row = &host.users.rows()[place];
        row.uid
    }

    fn regular(ranges: &HostRanges) -> IdRange {
        ranges.uid
    }

    fn system(ranges: &HostRanges) -> IdRange {
        ranges.sys_uid
    }

    fn pins<'p, 'a>(pins: &'p Pins<'a>) -> &'p PairTable<'a> {
        pins.user_pins()
    }

    fn reserved<'p, 'a>(pins: &'p Pins<'a>) -> &'p [Reserved<'a>] {
        pins.reserved_users()
    }

    ghost table = { λ h lawful. user_rows-table h.users lawful.users };

    ghost apart = { λ h lawful. lawful.ranges.uids_apart };
}

impl Kind for Groups {
    ghost use Rattle.hosts_join.specs.declared.Which.TheVariants.{Group};
    ghost use Rattle.hosts_join.specs.Kinds.{group_rows, group_rows-table};

    ghost kind = { Group };

    ghost listed = { λ h. group_rows h.groups };

    ghost regular_range = { λ r. r.gid };

    ghost system_range = { λ r. r.sys_gid };

    ghost pinned = { λ p. p.groups };

    ghost reserved_of = { λ p. p.reserved_groups };

    fn which() -> Which {
        Which::Group
    }

    fn count(host: &Host<'_>) -> usize {
        host.groups.rows().len()
    }

    fn name<'a>(host: &Host<'a>, place: usize) -> &'a [u8] {
        let group = &host.groups.rows()[place];
        group.name
    }

    fn number(host: &Host<'_>, place: usize) -> u32 {
        let row = &host.groups.rows()[place];
        row.gid
    }

    fn regular(ranges: &HostRanges) -> IdRange {
        ranges.gid
    }

    fn system(ranges: &HostRanges) -> IdRange {
        ranges.sys_gid
    }

    fn pins<'p, 'a>(pins: &'p Pins<'a>) -> &'p PairTable<'a> {
        pins.group_pins()
    }

    fn reserved<'p, 'a>(pins: &'p Pins<'a>) -> &'p [Reserved<'a>] {
        pins.reserved_groups()
    }

    ghost table = { λ h lawful. group_rows-table h.groups lawful.groups };

    ghost apart = { λ h lawful. lawful.ranges.gids_apart };
}
