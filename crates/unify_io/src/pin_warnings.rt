//! Warnings of pins that give no number: no host has their name, or it stays as it is.

use crate::host_names::{HostNames, names_of};
use crate::message::Part;
use crate::warnings::{MOST_LINES, warn, warn_of_more};
use hosts_join::{HostText, PairLine, PairTable, Which, pair_line};
use idtext::Lines;
use std::alloc::AllocError;
use strsim::generic_damerau_levenshtein;
use unify_texts::MapText;

/// How many edits a name may be away at most from the name that is told for it. Two neighbours that
/// were exchanged are one edit.
const MOST_EDITS: usize = 2;

/// How many bytes the shorter of two names has to have for each edit between them. With fewer most
/// names that are so near are just other names, as eve and dave.
const BYTES_AN_EDIT: usize = 3;

/// How many bytes a name may have that is told for another, and that other. To compare two names
/// takes as many steps as the product of their lengths, which hosts and pins choose.
const MOST_NAME_BYTES: usize = 64;

/// A pin without its number.
#[derive(Clone, Copy)]
struct Pinned<'a> {
    which: Which,
    name: &'a [u8],
}

// The names of a map that are of the kind of a pin.
fn alike<'m, 'a>(map: &'m MapText<'a>, pinned: Pinned<'_>) -> &'m PairTable<'a> {
    match pinned.which {
        Which::User => &map.users,
        Which::Group => &map.groups,
    }
}

// Whether a name is compared with another that may be so many edits away, by their lengths.
fn is_compared(other: &[u8], name: &[u8], edits: usize) -> bool {
    other.len() <= MOST_NAME_BYTES
        && other.len().abs_diff(name.len()) <= edits
        && edits <= other.len().min(name.len()) / BYTES_AN_EDIT
}

// The first name of a table that is at most so many edits away from a name.
fn name_within<'a>(
    rt: &HostRuntime,
    table: &PairTable<'a>,
    name: &[u8],
    edits: usize,
) -> Result<Option<&'a [u8]>, AllocError> {
    for index in 0..table.len() {
        let other = table.at(index).name;
        if is_compared(other, name, edits)
            && generic_damerau_levenshtein(rt.alloc(), other, name)? <= edits
        {
            return Ok(Some(other));
        }
    }
    Ok(None)
}

// The name of a table that is the nearest to a name, and near enough. Long names are not compared.
fn nearest<'a>(
    rt: &HostRuntime,
    table: &PairTable<'a>,
    name: &[u8],
) -> Result<Option<&'a [u8]>, AllocError> {
    if name.len() > MOST_NAME_BYTES {
        return Ok(None);
    }
    for edits in 1..=MOST_EDITS {
        if let Some(other) = name_within(rt, table, name, edits)? {
            return Ok(Some(other));
        }
    }
    Ok(None)
}

// How a warning begins that is of a pin.
fn pin_of(pinned: Pinned<'_>) -> Part<'static> {
    match pinned.which {
        Which::User => Part::Text("pin of user"),
        Which::Group => Part::Text("pin of group"),
    }
}

// Warns of a pin for a name that stays as it is.
fn warn_of_kept(rt: &HostRuntime, pinned: Pinned<'_>) -> Result<(), AllocError> {
    warn(
        rt,
        &[
            pin_of(pinned),
            Part::Name(pinned.name),
            Part::Text("has no effect: the name stays as it is on each host"),
        ],
    )
}

// Warns of a pin for nobody, and tells a name that may be meant.
fn warn_of_nobody<'a>(
    rt: &HostRuntime,
    pinned: Pinned<'a>,
    near: Option<&'a [u8]>,
) -> Result<(), AllocError> {
    let (what, name) = (pin_of(pinned), Part::Name(pinned.name));
    match near {
        None => warn(
            rt,
            &[what, name, Part::Text("is for a name that no host has")],
        ),
        Some(near) => warn(
            rt,
            &[
                what,
                name,
                Part::Text("is for a name that no host has; there is"),
                Part::Name(near),
            ],
        ),
    }
}

// Warns of a pin for nobody, with the nearest name of a map.
fn warn_of_absent(
    rt: &HostRuntime,
    map: &MapText<'_>,
    pinned: Pinned<'_>,
) -> Result<(), AllocError> {
    let near = nearest(rt, alike(map, pinned), pinned.name)?;
    warn_of_nobody(rt, pinned, near)
}

// Warns of each of some pins that give no number, by whether hosts have its name.
fn warn_of_each(
    rt: &HostRuntime,
    map: &MapText<'_>,
    names: &HostNames<'_>,
    pins: &[Pinned<'_>],
) -> Result<(), AllocError> {
    let mut absent: usize = 0;
    for pinned in pins {
        if names.have(pinned.which, pinned.name) {
            warn_of_kept(rt, *pinned)?;
        } else {
            if absent < MOST_LINES {
                warn_of_absent(rt, map, *pinned)?;
            }
            absent = absent.saturating_add(1);
        }
    }
    warn_of_more(rt, "pins of names that no host has:", absent)
}

// The pin of a line whose name is not in a map.
fn beside_map<'p>(map: &MapText<'_>, line: &'p [u8]) -> Option<Pinned<'p>> {
    let PairLine::Given { which, name, .. } = pair_line(line) else {
        return None;
    };
    let pinned = Pinned {
        which,
        name: name.bytes(),
    };
    if alike(map, pinned).number(pinned.name).is_some() {
        return None;
    }
    Some(pinned)
}

// The pins whose names are not in a map.
fn all_beside_map<'p>(
    rt: &HostRuntime,
    map: &MapText<'_>,
    pins: &'p [u8],
) -> Result<Vec<Pinned<'p>>, AllocError> {
    let mut beside = Vec::new(rt.alloc());
    for line in Lines::new(pins) {
        if let Some(pinned) = beside_map(map, line) {
            beside.push(pinned)?;
        }
    }
    Ok(beside)
}

/// Warns of pins whose names are not in the map that was made of hosts with them: no host has the
/// name, or it stays as it is on each host. One look-up by hash for each pin, and where some name
/// is not in the map another for each of these and for each row of the hosts, whose account files
/// are then read once more.
pub fn warn_of_pins(
    rt: &HostRuntime,
    hosts: &[HostText],
    map: &MapText<'_>,
    pins: &[u8],
) -> Result<(), AllocError> {
    let beside = all_beside_map(rt, map, pins)?;
    if beside.is_empty() {
        return Ok(());
    }
    let names = names_of(rt, hosts)?;
    warn_of_each(rt, map, &names, &beside)
}
