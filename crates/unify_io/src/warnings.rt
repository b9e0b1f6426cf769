//! Warnings: of what is accepted and is seldom meant so. Each is a line on standard error.

use crate::message::{Part, push_part};
use hosts_join::HostText;
use idtext::{ByteString, Lines, Pieces, ReadError, fields, is_skipped};
use std::alloc::AllocError;
use std::io::Write;

/// How many lines there are of one kind of warning that many names may have; the rest is counted.
pub const MOST_LINES: usize = 10;

// Appends a space and a part of a warning.
fn push_next(rt: &HostRuntime, line: &mut Vec<u8>, part: Part<'_>) -> Result<(), AllocError> {
    line.extend_from_slice(b" ")?;
    push_part(rt, line, part)
}

// Appends a warning.
fn push_warning(
    rt: &HostRuntime,
    line: &mut Vec<u8>,
    parts: &[Part<'_>],
) -> Result<(), AllocError> {
    line.extend_from_slice(b"unify: warning:")?;
    for part in parts {
        push_next(rt, line, *part)?;
    }
    line.extend_from_slice(b"\n")
}

/// Warns with these parts, between which there is a space.
pub fn warn(rt: &HostRuntime, parts: &[Part<'_>]) -> Result<(), AllocError> {
    let mut line = Vec::new(rt.alloc());
    push_warning(rt, &mut line, parts)?;
    let _ = rt.stderr().write_all(&line);
    Ok(())
}

/// Warns of how many there are beyond those that a line was told of.
pub fn warn_of_more(rt: &HostRuntime, what: &str, count: usize) -> Result<(), AllocError> {
    if count <= MOST_LINES {
        return Ok(());
    }
    warn(
        rt,
        &[
            Part::Text("more"),
            Part::Text(what),
            Part::Count(count - MOST_LINES),
        ],
    )
}

// Warns of a host.
fn warn_of_host<'a>(rt: &HostRuntime, name: &'a [u8], why: &'a str) -> Result<(), AllocError> {
    warn(rt, &[Part::Text("host"), Part::Name(name), Part::Text(why)])
}

// Whether a line of a text ends in a carriage return.
fn has_carriage_return(text: &[u8]) -> bool {
    Lines::new(text).any(|line| line.ends_with(b"\r"))
}

// Whether bytes begin with white space.
fn begins_with_space(bytes: &[u8]) -> bool {
    bytes.starts_with(b" ") || bytes.starts_with(b"\t")
}

// Whether a line of a text begins with white space and is not skipped.
fn has_space_in_front(text: &[u8]) -> bool {
    Lines::new(text).any(|line| !is_skipped(line) && begins_with_space(line))
}

// Whether a row of a group file has a member that begins with white space.
fn has_spaced_member(row: &[u8]) -> bool {
    fields(row).skip(3).any(|members| Pieces::new(b',', members).any(|member| begins_with_space(
        member,
    )))
}

// Whether a group file has such a row.
fn has_spaced_members(text: &[u8]) -> bool {
    Lines::new(text).any(|line| !is_skipped(line) && has_spaced_member(line))
}

// Whether all lines of a text are skipped.
fn is_all_skipped(text: &[u8]) -> bool {
    Lines::new(text).all(|line| is_skipped(line))
}

/// Warns of a host by its inventory: of its lines, and where none of them is of a file.
pub fn warn_of_inventory(
    rt: &HostRuntime,
    name: &[u8],
    has_returns: bool,
    has_files: bool,
) -> Result<(), AllocError> {
    if has_returns {
        warn_of_host(rt, name, "has lines in mtree that end in a carriage return")?;
    }
    if !has_files {
        warn_of_host(rt, name, "has no files")?;
    }
    Ok(())
}

// Warns of the lines of an account file of a host: of such that end in a carriage return, and of
// such that begin with white space, which is no part of a name where the system reads it.
fn warn_of_lines(
    rt: &HostRuntime,
    name: &[u8],
    text: &[u8],
    returns: &str,
    space: &str,
) -> Result<(), AllocError> {
    if has_carriage_return(text) {
        warn_of_host(rt, name, returns)?;
    }
    if has_space_in_front(text) {
        warn_of_host(rt, name, space)?;
    }
    Ok(())
}

// Warns of what the account files of a host have.
fn warn_of_tables(rt: &HostRuntime, host: &HostText) -> Result<(), AllocError> {
    let name = host.name.bytes();
    warn_of_lines(
        rt,
        name,
        host.passwd.bytes(),
        "has lines in passwd that end in a carriage return",
        "has lines in passwd that begin with white space",
    )?;
    warn_of_lines(
        rt,
        name,
        host.group.bytes(),
        "has lines in group that end in a carriage return",
        "has lines in group that begin with white space",
    )?;
    if has_spaced_members(host.group.bytes()) {
        warn_of_host(rt, name, "has members in group that begin with white space")?;
    }
    if has_carriage_return(host.logindefs.bytes()) {
        warn_of_host(
            rt,
            name,
            "has lines in login.defs that end in a carriage return",
        )?;
    }
    if is_all_skipped(host.passwd.bytes()) {
        warn_of_host(rt, name, "has no users")?;
    }
    if is_all_skipped(host.group.bytes()) {
        warn_of_host(rt, name, "has no groups")?;
    }
    Ok(())
}

/// Warns of what the account files of hosts have.
pub fn warn_of_hosts_tables(rt: &HostRuntime, hosts: &[HostText]) -> Result<(), AllocError> {
    for host in hosts {
        warn_of_tables(rt, host)?;
    }
    Ok(())
}

// Warns of a file.
fn warn_of_path<'a>(rt: &HostRuntime, path: &'a str, why: &'a str) -> Result<(), AllocError> {
    let name = Part::Name(path.as_bytes());
    warn(rt, &[Part::Text("file"), name, Part::Text(why)])
}

/// Warns of the lines of a map, a pins text or a keep text: of such that end in a carriage return,
/// and where the last has no newline, so that the text may have been cut.
pub fn warn_of_text(rt: &HostRuntime, path: &str, text: &ByteString) -> Result<(), AllocError> {
    if has_carriage_return(text.bytes()) {
        warn_of_path(rt, path, "has lines that end in a carriage return")?;
    }
    if !text.bytes().is_empty() && !text.bytes().ends_with(b"\n") {
        warn_of_path(rt, path, "has no newline at its end")?;
    }
    Ok(())
}

/// Want of memory; another fault of a text is told where the text is judged.
pub fn only_memory(fault: &ReadError) -> Result<(), AllocError> {
    match fault {
        ReadError::Memory => Err(AllocError),
        ReadError::Fault(_) => Ok(()),
    }
}
