//! Warnings of users who have another full name on one host than on another, as the comments of
//! passwd(5) tell: they may be two people.

use crate::account_lines::{UserLine, user_line};
use crate::message::Part;
use crate::warnings::{MOST_LINES, warn, warn_of_more};
use hosts_join::{HostText, PairTable};
use idtext::{Character, Lines, cut, first_character};
use std::alloc::AllocError;
use std::str;

/// What was seen of a user so far.
#[derive(Clone, Copy)]
struct SeenUser<'t> {
    // The first host that has the user, and the full name there.
    first: Option<(&'t [u8], &'t [u8])>,
    // The first host where the full name is another.
    other: Option<&'t [u8]>,
}

// The full name that a comment begins with: what stands before its first comma, as chfn(1) writes
// it.
fn full_name(comment: &[u8]) -> &[u8] {
    match cut(b',', comment) {
        Some((name, _)) => name,
        None => comment,
    }
}

impl<'t> SeenUser<'t> {
    // Sees the comment that the user has on a host.
    fn see(&mut self, host: &'t [u8], comment: &'t [u8]) {
        let here = full_name(comment);
        match self.first {
            None => self.first = Some((host, here)),
            Some((_, there)) => {
                if there != here && self.other.is_none() {
                    self.other = Some(host);
                }
            }
        }
    }
}

// The user of whom a line of a report says that a host has another comment, escaped.
fn commented(line: &[u8]) -> Option<&[u8]> {
    let text = str::from_utf8(line).ok()?.strip_prefix("differs user ")?;
    let (name, _) = text.split_once(" comment ")?;
    Some(name.as_bytes())
}

// A name without its escapes.
fn unescaped(rt: &HostRuntime, name: &[u8]) -> Result<Vec<u8>, AllocError> {
    let mut bytes = Vec::new(rt.alloc());
    let mut rest = name;
    while let Some((character, behind)) = first_character(rest) {
        if let Character::Plain(byte) | Character::Escape(byte) = character {
            bytes.push(byte)?;
        }
        rest = behind;
    }
    Ok(bytes)
}

// The users of whom a report says that some host has another comment, each once: the lines of one
// user stand together.
fn commented_users(rt: &HostRuntime, report: &[u8]) -> Result<Vec<Vec<u8>>, AllocError> {
    let mut users = Vec::new(rt.alloc());
    let mut last: &[u8] = b"";
    for line in Lines::new(report) {
        if let Some(name) = commented(line) {
            if name != last {
                users.push(unescaped(rt, name)?)?;
                last = name;
            }
        }
    }
    Ok(users)
}

// Sees the comment in a row of a host, if it is of one of the users with these places.
fn see_row<'t>(
    seen: &mut [SeenUser<'t>],
    places: &PairTable<'_>,
    host: &'t [u8],
    row: UserLine<'t>,
) {
    if let Some(place) = places.number(row.name) {
        if let Some(user) = seen.get_mut(place as usize) {
            user.see(host, row.comment);
        }
    }
}

// Sees the comments of a host.
fn see_host<'t>(seen: &mut [SeenUser<'t>], places: &PairTable<'_>, host: &'t HostText) {
    for line in Lines::new(host.passwd.bytes()) {
        if let Some(row) = user_line(line) {
            see_row(seen, places, host.name.bytes(), row);
        }
    }
}

// What the hosts say of users.
fn seen_users<'t>(
    rt: &HostRuntime,
    hosts: &'t [HostText],
    users: &[Vec<u8>],
) -> Result<Vec<SeenUser<'t>>, AllocError> {
    let mut places = PairTable::new(rt.alloc());
    let mut seen = Vec::new(rt.alloc());
    for (place, name) in users.iter().enumerate() {
        let Ok(place) = u32::try_from(place) else {
            return Err(AllocError);
        };
        places.add(name, place)?;
        seen.push(SeenUser {
            first: None,
            other: None,
        })?;
    }
    for host in hosts {
        see_host(&mut seen, &places, host);
    }
    Ok(seen)
}

// Warns of a user who has another full name on a host than on the first that has the user.
fn warn_of_user<'a>(
    rt: &HostRuntime,
    name: &'a [u8],
    other: &'a [u8],
    first: &'a [u8],
) -> Result<(), AllocError> {
    warn(
        rt,
        &[
            Part::Text("user"),
            Part::Name(name),
            Part::Text("has another full name on host"),
            Part::Name(other),
            Part::Text("than on"),
            Part::Name(first),
        ],
    )
}

// Warns of those of some users who have two full names, by what was seen of each.
fn warn_of_seen(
    rt: &HostRuntime,
    users: &[Vec<u8>],
    seen: &[SeenUser<'_>],
) -> Result<(), AllocError> {
    let mut count: usize = 0;
    for (name, user) in users.iter().zip(seen) {
        if let (Some((first, _)), Some(other)) = (user.first, user.other) {
            if count < MOST_LINES {
                warn_of_user(rt, name, other, first)?;
            }
            count = count.saturating_add(1);
        }
    }
    warn_of_more(rt, "users with two full names:", count)
}

/// Warns of users who have two full names on hosts, which are looked at where a report tells that
/// their comments differ. The account files of the hosts are read once more, one after the other.
pub fn warn_of_comments(
    rt: &HostRuntime,
    hosts: &[HostText],
    report: &[u8],
) -> Result<(), AllocError> {
    let users = commented_users(rt, report)?;
    if users.is_empty() {
        return Ok(());
    }
    let seen = seen_users(rt, hosts, &users)?;
    warn_of_seen(rt, &users, &seen)
}
