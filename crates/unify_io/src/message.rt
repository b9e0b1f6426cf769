//! Parts of the lines that the program prints of its own accord.

use idtext::{push_escaped, push_number};
use std::alloc::AllocError;
use std::io;

/// How many names are told in one line.
pub(crate) const MOST_NAMES: usize = 8;

/// A part of a line.
#[derive(Clone, Copy)]
pub enum Part<'a> {
    Text(&'a str),
    /// A name or a path, which is escaped.
    Name(&'a [u8]),
    /// Names, the first few of them.
    Names(&'a [&'a [u8]]),
    Count(usize),
    /// What the system says of an error with this number (errno(3)).
    System(i32),
    /// What is said of an error.
    Failed(io::Error),
}

// What the system said, without the number that it gives it.
fn reason_in(told: &str) -> &str {
    match told.split_once(" (os error ") {
        Some((reason, _)) => reason,
        None => told,
    }
}

// Appends what the system said.
fn push_reason(rt: &HostRuntime, line: &mut Vec<u8>, error: &io::Error) -> Result<(), AllocError> {
    let told = error.to_string(rt.alloc())?;
    line.extend_from_slice(reason_in(told.as_str()).as_bytes())
}

// Appends a name of several, after those with a lower index.
fn push_listed(line: &mut Vec<u8>, index: usize, name: &[u8]) -> Result<(), AllocError> {
    if index > 0 {
        line.extend_from_slice(b", ")?;
    }
    push_escaped(line, name)
}

// Appends the first few of some names.
fn push_names(line: &mut Vec<u8>, names: &[&[u8]]) -> Result<(), AllocError> {
    for (index, name) in names.iter().take(MOST_NAMES).enumerate() {
        push_listed(line, index, *name)?;
    }
    if names.len() > MOST_NAMES {
        line.extend_from_slice(b" and others")?;
    }
    Ok(())
}

/// Appends a part of a line.
pub(crate) fn push_part(
    rt: &HostRuntime,
    line: &mut Vec<u8>,
    part: Part<'_>,
) -> Result<(), AllocError> {
    match part {
        Part::Text(text) => line.extend_from_slice(text.as_bytes()),
        Part::Name(name) => push_escaped(line, name),
        Part::Names(names) => push_names(line, names),
        Part::Count(count) => push_number(line, count as u128),
        Part::System(number) => push_reason(rt, line, &io::Error::from_raw_os_error(number)),
        Part::Failed(error) => push_reason(rt, line, &error),
    }
}
