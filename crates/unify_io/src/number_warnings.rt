//! Warnings of users and groups that stay as they are and have two numbers, since ranges of numbers
//! that a keep text lists have all of theirs: such lines may have been meant to reserve numbers.

use crate::account_lines::{group_line, user_line};
use crate::keep_warnings::{listed_name, lists_range};
use crate::message::Part;
use crate::warnings::{MOST_LINES, warn, warn_of_more};
use hosts_join::{HostText, Pair, PairTable, Which};
use idtext::Lines;
use logindefs::{IdRange, read_ranges};
use std::alloc::AllocError;
use std::collections::HashSet;
use unify_texts::MapText;

/// The number that a name has on a host.
#[derive(Clone, Copy)]
struct HostNumber<'h> {
    host: &'h [u8],
    number: u32,
    /// Whether it is in the host's range of regular accounts.
    is_regular: bool,
}

/// What was seen so far of a name that stays as it is.
#[derive(Clone, Copy)]
struct SeenName<'h> {
    name: &'h [u8],
    // The first host that has the name.
    first: HostNumber<'h>,
    // The first host where its number is another.
    other: Option<HostNumber<'h>>,
    // The first host where its number is regular.
    regular: Option<HostNumber<'h>>,
}

impl<'h> SeenName<'h> {
    // Sees the number that the name has on a host.
    fn see(&mut self, here: HostNumber<'h>) {
        if self.other.is_none() && here.number != self.first.number {
            self.other = Some(here);
        }
        if self.regular.is_none() && here.is_regular {
            self.regular = Some(here);
        }
    }

    // Two numbers of the name, of which one is regular on its host, if there are such.
    fn two_numbers(&self) -> Option<(HostNumber<'h>, HostNumber<'h>)> {
        let regular = self.regular?;
        if regular.number == self.first.number {
            Some((regular, self.other?))
        } else {
            Some((self.first, regular))
        }
    }
}

/// What was seen of names of one kind.
#[derive(Drop)]
struct SeenNames<'h> {
    // The place of each in the list.
    places: PairTable<'h>,
    list: Vec<SeenName<'h>>,
}

impl<'h> SeenNames<'h> {
    // Notes a name that was not seen before.
    fn push(&mut self, name: &'h [u8], first: HostNumber<'h>) -> Result<(), AllocError> {
        let Ok(place) = u32::try_from(self.list.len()) else {
            return Err(AllocError);
        };
        let mut seen = SeenName {
            name,
            first,
            other: None,
            regular: None,
        };
        seen.see(first);
        self.places.add(name, place)?;
        self.list.push(seen)?;
        Ok(())
    }

    // Sees the number that a name has on a host.
    fn see(&mut self, name: &'h [u8], here: HostNumber<'h>) -> Result<(), AllocError> {
        let Some(place) = self.places.number(name) else {
            return self.push(name, here);
        };
        if let Some(seen) = self.list.get_mut(place as usize) {
            seen.see(here);
        }
        Ok(())
    }
}

/// The names of one kind that do not stay by ranges of numbers alone.
#[derive(Drop)]
struct OtherNames<'n> {
    which: Which,
    // Those that do not stay: they are in the map that was made.
    mapped: &'n PairTable<'n>,
    // Those that a keep text lists.
    listed: HashSet<&'n [u8]>,
}

impl OtherNames<'_> {
    // Whether the name is one of them.
    fn have(&self, name: &[u8]) -> bool {
        self.mapped.number(name).is_some() || self.listed.contains(name)
    }
}

// The names of one kind that a keep text lists.
fn listed_names<'k>(
    rt: &HostRuntime,
    keep: &'k [u8],
    which: Which,
) -> Result<HashSet<&'k [u8]>, AllocError> {
    let mut names = HashSet::new(rt.alloc());
    for line in Lines::new(keep) {
        if let Some((kind, name)) = listed_name(line) {
            if kind == which {
                names.insert(name)?;
            }
        }
    }
    Ok(names)
}

// The name and the number in a line of passwd, or of group.
fn pair_in(which: Which, line: &[u8]) -> Option<Pair<'_>> {
    match which {
        Which::User => {
            let row = user_line(line)?;
            Some(Pair {
                name: row.name,
                number: row.uid,
            })
        }
        Which::Group => {
            let row = group_line(line)?;
            Some(Pair {
                name: row.name,
                number: row.gid,
            })
        }
    }
}

// The account file of a host for one kind, and the range of its regular accounts. A login.defs that
// was accepted has one.
fn table_of(host: &HostText, which: Which) -> Option<(&[u8], IdRange)> {
    let ranges = read_ranges(host.logindefs.bytes()).ok()?;
    match which {
        Which::User => Some((host.passwd.bytes(), ranges.uid)),
        Which::Group => Some((host.group.bytes(), ranges.gid)),
    }
}

// Sees the numbers that names have on a host, but for some names.
fn see_host<'h>(
    seen: &mut SeenNames<'h>,
    host: &'h HostText,
    others: &OtherNames<'_>,
) -> Result<(), AllocError> {
    let Some((text, regular)) = table_of(host, others.which) else {
        return Ok(());
    };
    for line in Lines::new(text) {
        if let Some(pair) = pair_in(others.which, line) {
            if !others.have(pair.name) {
                let here = HostNumber {
                    host: host.name.bytes(),
                    number: pair.number,
                    is_regular: regular.has(pair.number),
                };
                seen.see(pair.name, here)?;
            }
        }
    }
    Ok(())
}

// What the hosts say of the names that are not among some names.
fn seen_names<'h>(
    rt: &HostRuntime,
    hosts: &'h [HostText],
    others: &OtherNames<'_>,
) -> Result<Vec<SeenName<'h>>, AllocError> {
    let mut seen = SeenNames {
        places: PairTable::new(rt.alloc()),
        list: Vec::new(rt.alloc()),
    };
    for host in hosts {
        see_host(&mut seen, host, others)?;
    }
    Ok(seen.list)
}

// Warns of a name that has one number on a host and another on another host.
fn warn_of_name<'a>(
    rt: &HostRuntime,
    what: &'a str,
    name: &'a [u8],
    one: HostNumber<'a>,
    other: HostNumber<'a>,
) -> Result<(), AllocError> {
    warn(
        rt,
        &[
            Part::Text(what),
            Part::Name(name),
            Part::Text("keeps its numbers, which differ between hosts:"),
            Part::Count(one.number as usize),
            Part::Text("on"),
            Part::Name(one.host),
            Part::Text("and"),
            Part::Count(other.number as usize),
            Part::Text("on"),
            Part::Name(other.host),
        ],
    )
}

// Warns of those of some names that have two numbers, of which one is regular, and counts them.
fn warn_of_seen(rt: &HostRuntime, what: &str, seen: &[SeenName<'_>]) -> Result<usize, AllocError> {
    let mut count: usize = 0;
    for name in seen {
        if let Some((one, other)) = name.two_numbers() {
            if count < MOST_LINES {
                warn_of_name(rt, what, name.name, one, other)?;
            }
            count = count.saturating_add(1);
        }
    }
    Ok(count)
}

// Warns of names of one kind, where a keep text lists ranges of their numbers.
fn warn_of_kind(
    rt: &HostRuntime,
    hosts: &[HostText],
    mapped: &PairTable<'_>,
    keep: &[u8],
    which: Which,
) -> Result<(), AllocError> {
    if !lists_range(keep, which) {
        return Ok(());
    }
    let (what, more) = match which {
        Which::User => ("user", "users whose kept numbers differ:"),
        Which::Group => ("group", "groups whose kept numbers differ:"),
    };
    let others = OtherNames {
        which,
        mapped,
        listed: listed_names(rt, keep, which)?,
    };
    let seen = seen_names(rt, hosts, &others)?;
    let count = warn_of_seen(rt, what, &seen)?;
    warn_of_more(rt, more, count)
}

/// Warns of users and groups that stay as they are by ranges of numbers that an accepted keep text
/// lists, and not by their names, where they have two numbers on hosts and one of these is in its
/// host's range of regular accounts. Other accounts have another number on each host at most sites.
/// Such names are not in the map that was made. Where ranges are listed, the account files of the
/// hosts are read once more.
pub fn warn_of_numbers(
    rt: &HostRuntime,
    hosts: &[HostText],
    map: &MapText<'_>,
    keep: &[u8],
) -> Result<(), AllocError> {
    warn_of_kind(rt, hosts, &map.users, keep, Which::User)?;
    warn_of_kind(rt, hosts, &map.groups, keep, Which::Group)
}
