//! Whether a file system has the journal that one of its kind may have: an ext4 is made without one
//! too.
ghost use Rattle.std.specs.Prelude.{◌≡◌};
ghost use Rattle.unify_apply.specs.Journal.{major_of, minor_of, tells_process};

use idtext::decimal;
use std::alloc::AllocError;
use std::fs;
use std::os::unix::fs::MetadataExt;
use std::path::PathBuf;

// Where the system tells the name of a device by its numbers (sysfs).
const DEVICES: &str = "/sys/dev/block";

// Where the system tells of each ext4, and of each xfs, by the name of its device (sysfs).
const EXT4: &str = "/sys/fs/ext4";

const XFS: &str = "/sys/fs/xfs";

/// Whether a text of the system tells a process that writes the journal of an ext4. One pass over
/// it.
pub fn tells_journal(text: &[u8]) -> bool
    ensures { result ≡ tells_process text.now }
{
    decimal(text.strip_suffix(b"\n").unwrap_or(text)).is_some()
}

// The major number of a device (makedev(3)).
#[tactic(auto, using(crate::proofs::DeviceNumbers::major_told))]
fn major(device: u64) -> u64
    ensures { result ≡ major_of device }
{
    ((device >> 8) & 0xfff) | ((device >> 32) & 0xffff_f000)
}

// The minor number of a device (makedev(3)).
#[tactic(auto, using(crate::proofs::DeviceNumbers::minor_told))]
fn minor(device: u64) -> u64
    ensures { result ≡ minor_of device }
{
    (device & 0xff) | ((device >> 12) & 0xffff_ff00)
}

// A path that ends with the name of the device of a file system, if the system tells one.
fn device_path(rt: &HostRuntime, root: &str) -> Result<Option<PathBuf>, AllocError> {
    let Ok(found) = fs::metadata(rt, root) else {
        return Ok(None);
    };
    let (major, minor) = (major(found.dev()), minor(found.dev()));
    let path = format!(in rt.alloc(); "{DEVICES}/{major}:{minor}")?;
    match fs::canonicalize(rt, path.as_str()) {
        Ok(path) => Ok(Some(path)),
        Err(_) => Ok(None),
    }
}

// Whether the file system on the device with this name has a journal: each xfs has one.
fn is_journaled(rt: &HostRuntime, name: &str) -> Result<bool, AllocError> {
    let task = format!(in rt.alloc(); "{EXT4}/{name}/journal_task")?;
    if let Ok(text) = fs::read(rt, task.as_str()) {
        return Ok(tells_journal(&text));
    }
    let folder = format!(in rt.alloc(); "{XFS}/{name}")?;
    Ok(fs::metadata(rt, folder.as_str()).is_ok())
}

/// Whether the system tells that the file system of a directory, an ext3, an ext4 or an xfs, has a
/// journal.
pub fn has_journal(rt: &HostRuntime, root: &str) -> Result<bool, AllocError> {
    let Some(path) = device_path(rt, root)? else {
        return Ok(false);
    };
    match path.file_name() {
        Some(name) => is_journaled(rt, name),
        None => Ok(false),
    }
}
