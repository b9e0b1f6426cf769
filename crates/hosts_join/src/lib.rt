//! The join of hosts that share files: the names of their users and of their groups, which of them
//! are pinned to a number, and the numbers that the others may get. What passwd(5), group(5) and
//! login.defs(5) say of one host is joined here into one site.
#![tactic(auto)]

mod checks;
mod clash;
mod classes;
mod fault;
mod host;
mod host_owners;
mod index;
mod joining;
mod kind;
mod laws;
mod members;
mod names;
mod order;
mod owners;
mod pair_lines;
mod pairs;
mod pins;
mod pool;
mod reserving;
mod runs;
mod texts;

pub use checks::{check_hosts, check_primary, is_host_name};
pub use fault::{PinsFault, PoolClass, SiteFault};
pub use host::Host;
pub use joining::{Site, join, join_kind};
pub use kind::{Groups, Kind, Users};
pub use laws::{
    a_site_has_lawful_accounts, a_site_knows_its_hosts, a_site_leaves_reserved_numbers,
    a_site_leaves_spared_numbers, bad_pins_are_told, claims_by_example,
    disagreeing_pins_are_refused, host_faults_are_there, host_names_are_one_word,
    kinds_name_their_hosts, lines_count_the_hosts, names_stand_as_they_appear,
    nothing_reserved_changes_nothing, number_faults_are_there, numbers_stand_where_they_may,
    numbers_that_may_stand_are_offered, pin_faults_are_there, pins_are_lawful, pins_are_listed,
    read_pins_reserve_nothing, spots_stand_by_hosts, users_are_told_first,
};
use logindefs::IdRange;
pub use names::Names;
pub use pair_lines::{PairLine, pair_line};
pub use pairs::PairTable;
pub use pins::Pins;
pub use pool::Pool;
pub use reserving::{Reserved, Reserver};
pub use runs::Runs;
pub use texts::HostText;

/// Users or groups.
#[derive(Clone, Copy, Debug, PartialEq, Eq)]
pub enum Which {
    /// Users, as passwd(5) has them.
    User,
    /// Groups, as group(5) has them.
    Group,
}

/// What a number is on its own host, by the ranges of its login.defs(5): regular, system, or in
/// neither range, which pins the name to it.
#[derive(Clone, Copy, Debug, PartialEq, Eq)]
pub enum Standing {
    /// In the regular range.
    Regular,
    /// In the system range.
    System,
    /// In neither range.
    Pinning,
}

impl Standing {
    ghost use Rattle.std.specs.Prelude.{◌≡◌};
    ghost use Rattle.hosts_join.specs.Rules as rules;

    fn is_regular(self) -> bool
        ensures { result ≡ rules.is_regular self }
    {
        match self {
            Standing::Regular => true,
            Standing::System | Standing::Pinning => false,
        }
    }

    fn is_pinning(self) -> bool
        ensures { result ≡ rules.is_pinning self }
    {
        match self {
            Standing::Pinning => true,
            Standing::Regular | Standing::System => false,
        }
    }
}

/// What a name is over all hosts: pinned to a number, or free to get one of the regular or of the
/// system pool.
#[derive(Clone, Copy, Debug, PartialEq, Eq)]
pub enum Class {
    /// Pinned to this number.
    Pinned(u32),
    /// Free, with a number of the regular pool.
    Regular,
    /// Free, with a number of the system pool.
    System,
}

impl Class {
    ghost use Rattle.std.specs.Prelude.{◌≡◌};
    ghost use Rattle.hosts_join.specs.Rules.{same_class, is_free_class};

    /// Whether a name of the class is free, and so not pinned. One look at the class.
    pub fn is_free(self) -> bool
        ensures { result ≡ is_free_class self }
    {
        match self {
            Class::Pinned(_) => false,
            Class::Regular | Class::System => true,
        }
    }

    fn is_same(self, other: Class) -> bool
        ensures { result ≡ same_class self other }
    {
        match (self, other) {
            (Class::Pinned(number), Class::Pinned(to)) => number == to,
            (Class::Regular, Class::Regular) | (Class::System, Class::System) => true,
            _ => false,
        }
    }
}

/// The number that a name has on one host, by the host's index, and what that number is there.
#[derive(Clone, Copy, Debug, PartialEq, Eq)]
pub struct Spot {
    /// The host's index, counted from 0.
    pub host: u32,
    /// The uid or gid there.
    pub number: u32,
    /// What that number is on the host.
    pub standing: Standing,
}

/// A row of an account file, with its host's index.
#[derive(Clone, Copy)]
pub(crate) struct Row<'a> {
    /// The host's index, counted from 0.
    pub host: u32,
    /// The user's or group's name.
    pub name: &'a [u8],
    /// Its uid or gid there.
    pub number: u32,
    /// What that number is on the host.
    pub standing: Standing,
}

/// A host's name, and its ranges for one kind.
#[derive(Clone, Copy)]
pub(crate) struct HostEntry<'a> {
    /// The host's name.
    pub name: &'a [u8],
    /// Its regular numbers.
    pub regular: IdRange,
    /// Its system numbers.
    pub system: IdRange,
}

/// A name and its number.
#[derive(Clone, Copy, Debug)]
pub struct Pair<'a> {
    /// The user's or group's name.
    pub name: &'a [u8],
    /// Its uid or gid.
    pub number: u32,
}

/// What pins a name to a number: a host, or the pins text.
#[derive(Clone, Copy)]
pub(crate) struct Source {
    /// The host's index, counted from 0, or none for the pins text.
    pub host: Option<u32>,
    /// The number that the name is pinned to.
    pub number: u32,
}
