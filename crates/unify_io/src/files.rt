//! The files that words name.

ghost use Rattle.std.specs.Prelude.{◌≡◌, length, IfOk};

use crate::report::file_failed;
use clap::ArgMatches;
use hosts_join::HostText;
use idtext::ByteString;
use std::alloc::{AllocError, AllocFailed};
use std::fs::{File, Metadata};
use std::io::Read;
use std::path::Path;
use std::{fs, io};

/// Where the system tells the name of this machine (proc(5)).
pub const MACHINE_NAME: &str = "/proc/sys/kernel/hostname";

// The most bytes that an input file may have.
const MOST_BYTES: u64 = 4294967295;

/// Why a command with arguments has no answer. It owns nothing, so that a function that can fail
/// lets nothing go with it.
#[derive(Clone, Copy)]
pub enum FileFault {
    /// A growth was refused, which is still to be told.
    Memory,
    /// It was told on standard error where it was found; the exit status.
    Told(u8),
}

impl From<AllocError> for FileFault {
    fn from(_e: AllocError) -> FileFault {
        FileFault::Memory
    }
}

impl<T: Drop> From<AllocFailed<T>> for FileFault {
    fn from(_e: AllocFailed<T>) -> FileFault {
        FileFault::Memory
    }
}

/// What a call on a file gave, or its failure, which is told.
pub fn or_told<T: Drop>(rt: &HostRuntime, path: &str, done: io::Result<T>) -> Result<T, FileFault> {
    match done {
        Ok(value) => Ok(value),
        Err(error) => Err(file_failed(rt, path, &error)),
    }
}

/// The first bytes of a file, so many of them at most.
pub fn read_start(rt: &HostRuntime, path: &str, most: u64) -> io::Result<Vec<u8>> {
    let file = File::open(rt, path)?;
    let mut bytes = Vec::new(rt.alloc());
    file.take(most).read_to_end(&mut bytes)?;
    Ok(bytes)
}

/// What is said of a file that has too many bytes.
pub fn too_large() -> io::Error {
    io::Error::from(io::ErrorKind::FileTooLarge)
}

/// The text of the file at a path.
pub fn read_file(rt: &HostRuntime, path: &str) -> Result<ByteString, FileFault> {
    let bytes = or_told(rt, path, read_start(rt, path, MOST_BYTES + 1))?;
    if bytes.len() as u64 > MOST_BYTES {
        return Err(file_failed(rt, path, &too_large()));
    }
    Ok(ByteString::from_vec(bytes))
}

/// The text of the file that an option names, as `pins` or `keep`; the empty text where it is
/// absent.
pub fn read_named(
    rt: &HostRuntime,
    matches: &ArgMatches<'_>,
    option: &str,
) -> Result<ByteString, FileFault> {
    match matches.get_str(option) {
        Some(path) => read_file(rt, path),
        None => Ok(ByteString::new(rt.alloc())),
    }
}

/// The text of a file in a directory.
pub fn read_file_in(
    rt: &HostRuntime,
    directory: &str,
    name: &str,
) -> Result<ByteString, FileFault> {
    let path = Path::new(directory).join(rt.alloc(), name)?;
    read_file(rt, path.as_str())
}

// What stands at a path, if anything does. A link is not followed.
fn found_at(rt: &HostRuntime, path: &str) -> Result<Option<Metadata>, FileFault> {
    match fs::symlink_metadata(rt, path) {
        Ok(found) => Ok(Some(found)),
        Err(error) if error.kind() == io::ErrorKind::NotFound => Ok(None),
        Err(error) => Err(file_failed(rt, path, &error)),
    }
}

// What a name of a directory stands for, if it is there.
fn found_in(rt: &HostRuntime, directory: &str, name: &str) -> Result<Option<Metadata>, FileFault> {
    let path = Path::new(directory).join(rt.alloc(), name)?;
    found_at(rt, path.as_str())
}

/// Whether a name stands in a directory, be it that of a link that leads nowhere.
pub fn holds(rt: &HostRuntime, directory: &str, name: &str) -> Result<bool, FileFault> {
    Ok(found_in(rt, directory, name)?.is_some())
}

/// Whether a name of a directory is that of another directory, and of no link to one.
pub fn holds_directory(rt: &HostRuntime, directory: &str, name: &str) -> Result<bool, FileFault> {
    match found_in(rt, directory, name)? {
        Some(found) => Ok(found.is_dir()),
        None => Ok(false),
    }
}

// The text of a host's login.defs, which may be absent.
fn read_logindefs(rt: &HostRuntime, directory: &str) -> Result<ByteString, FileFault> {
    if holds(rt, directory, "login.defs")? {
        read_file_in(rt, directory, "login.defs")
    } else {
        Ok(ByteString::new(rt.alloc()))
    }
}

// The name and the directory of the host that a word names: NAME=DIR, split at the first `=`, or
// the directory alone, whose last component is the name then.
fn host_parts(word: &str) -> (&str, &str) {
    match word.split_once('=') {
        Some((name, directory)) => (name, directory),
        None => (Path::new(word).file_name().unwrap_or(word), word),
    }
}

/// The name of the host that a word names.
pub fn host_name(word: &str) -> &str {
    let (name, _) = host_parts(word);
    name
}

/// The directory of the host that a word names.
pub fn host_directory(word: &str) -> &str {
    let (_, directory) = host_parts(word);
    directory
}

// The texts of the host that a word names but its inventory, which is left empty.
fn read_tables(rt: &HostRuntime, word: &str) -> Result<HostText, FileFault> {
    let (name, directory) = host_parts(word);
    let passwd = read_file_in(rt, directory, "passwd")?;
    let group = read_file_in(rt, directory, "group")?;
    let logindefs = read_logindefs(rt, directory)?;
    Ok(HostText {
        name: ByteString::copy_of(rt.alloc(), name.as_bytes())?,
        passwd,
        group,
        logindefs,
        mtree: ByteString::new(rt.alloc()),
    })
}

/// The texts of the hosts that words name, in order, but their inventories, which are left empty.
pub fn read_hosts_tables(rt: &HostRuntime, words: &[&str]) -> Result<Vec<HostText>, FileFault>
    ensures { IfOk result (λ hosts. length hosts.items ≡ length words.now) }
{
    let mut hosts = Vec::new(rt.alloc());
    for word in words {
        hosts.push(read_tables(rt, *word)?)?;
    }
    Ok(hosts)
}
