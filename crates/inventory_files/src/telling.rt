//! What is told on standard error of files that are not listed, and of roots that are refused.

use idtext::{push_escaped, push_number};
use std::alloc::AllocError;
use std::io;
use std::io::Write;
use unify_io::{FileFault, MOST_LINES, Part, tell_of, write_failed};

/// Why a file, or what is in a directory, is not in an inventory.
#[derive(Clone, Copy)]
pub enum Trouble {
    /// The system refused a call.
    System(io::Error),
    /// A name in the directory is not UTF-8.
    NotText,
    /// The root is no directory.
    NotDirectory,
    /// The directory was exchanged while it was opened.
    Exchanged,
    /// Its line would have more bytes than an inventory's line may have.
    TooLong,
    /// Its owner is the number that stands for none.
    NoOwner,
}

/// Why a root is refused.
#[derive(Clone, Copy)]
pub enum RootFault<'a> {
    Empty,
    HasDotDot,
    /// It lies in this other one, or is the same.
    Inside(&'a str),
    /// With the roots before it, it does not fit into the first line of an inventory.
    TooLong,
}

// What is said of trouble.
fn part_of(trouble: Trouble) -> Part<'static> {
    Part::Text(match trouble {
        Trouble::System(error) => match error.raw_os_error() {
            Some(number) => return Part::System(number),
            None => "it cannot be read",
        },
        Trouble::NotText => "a name in it is not UTF-8",
        Trouble::NotDirectory => "not a directory",
        Trouble::Exchanged => "exchanged while it was opened",
        Trouble::TooLong => "the path is too long",
        Trouble::NoOwner => "its owner is not one that an account may have",
    })
}

/// Tells that a file is not listed, and why.
///
/// # Errors
///
/// Where memory is refused.
pub fn tell_trouble(rt: &HostRuntime, path: &[u8], trouble: Trouble) -> Result<(), FileFault> {
    match tell_of(rt, "file", path, &[part_of(trouble)], 3) {
        FileFault::Told(_) => Ok(()),
        fault => Err(fault),
    }
}

// Appends the line of a file on another file system than its root.
fn push_other_system(line: &mut Vec<u8>, path: &[u8]) -> Result<(), AllocError> {
    line.extend_from_slice(b"unify: other file system ")?;
    push_escaped(line, path)?;
    line.push(b'\n')?;
    Ok(())
}

// Appends the line of how many more there are.
fn push_more_systems(line: &mut Vec<u8>, more: usize) -> Result<(), AllocError> {
    line.extend_from_slice(b"unify: more on other file systems: ")?;
    push_number(line, more as u128)?;
    line.push(b'\n')?;
    Ok(())
}

// Tells a line of files that are left out and change no status. What was not told would be lost,
// so that ends the command.
fn tell_line(rt: &HostRuntime, line: &[u8]) -> Result<(), FileFault> {
    match rt.stderr().write_all(line) {
        Ok(()) => Ok(()),
        Err(_) => Err(FileFault::Told(write_failed(rt))),
    }
}

/// Tells of a file that is left out since it is on another file system than its root, where so
/// many were left out before. The first few are told.
///
/// # Errors
///
/// Where memory is refused, or standard error takes no more.
pub fn tell_other_system(rt: &HostRuntime, path: &[u8], before: usize) -> Result<(), FileFault> {
    if before >= MOST_LINES {
        return Ok(());
    }
    let mut line = Vec::new(rt.alloc());
    push_other_system(&mut line, path)?;
    tell_line(rt, &line)
}

/// Tells how many files on other file systems no line was told of, where so many are left out.
///
/// # Errors
///
/// Where memory is refused, or standard error takes no more.
pub fn tell_more_systems(rt: &HostRuntime, count: usize) -> Result<(), FileFault> {
    if count <= MOST_LINES {
        return Ok(());
    }
    let mut line = Vec::new(rt.alloc());
    push_more_systems(&mut line, count - MOST_LINES)?;
    tell_line(rt, &line)
}

/// Tells why a root is refused.
pub fn root_refused(rt: &HostRuntime, root: &str, fault: RootFault<'_>) -> FileFault {
    let (text, other) = match fault {
        RootFault::Empty => ("an empty word", ""),
        RootFault::HasDotDot => ("a part of it is ..", ""),
        RootFault::Inside(other) => ("it lies in ", other),
        RootFault::TooLong => ("the roots are too long for a line", ""),
    };
    let parts = [Part::Text(text), Part::Name(other.as_bytes())];
    tell_of(rt, "root", root.as_bytes(), &parts, 2)
}
