//! Mounts below the directory that a plan is carried out in. One of its own file system may be a
//! second way to its files.
ghost use Rattle.std.specs.Prelude.{◌≡◌, map, IfOk};
ghost use Rattle.unify_apply.specs.Mounts.{path_items};

use crate::journal::has_journal;
use crate::mountinfo::{
    Mount, Point, count_below, first_below, one_way, read_mounts, see_around, without_slash,
};
use std::alloc::AllocError;
use std::os::unix::fs::MetadataExt;
use std::path::PathBuf;
use std::{fs, io};
use unify_io::{FileFault, Part, read_file, tell_of, warn};

// Where the system tells the mounts that this process sees (proc(5)).
const MOUNTS: &str = "/proc/self/mountinfo";

// What is said of a directory that has its own file system below it once more.
const TWICE: &str = "its file system is also mounted below it, at ";

// Tells why a directory is not looked at, unless it was for want of memory, which is told later.
fn root_failed(rt: &HostRuntime, root: &str, error: &io::Error) -> FileFault {
    if error.kind() == io::ErrorKind::OutOfMemory {
        return FileFault::Memory;
    }
    tell_of(rt, "root", root.as_bytes(), &[Part::Failed(*error)], 2)
}

// Tells that the file system of a directory is mounted below it once more.
fn mounted_twice(rt: &HostRuntime, root: &str, point: &[u8]) -> FileFault {
    let parts = [Part::Text(TWICE), Part::Name(point)];
    tell_of(rt, "root", root.as_bytes(), &parts, 2)
}

/// The path of a directory from the root of all.
pub fn path_of_root(rt: &HostRuntime, root: &str) -> Result<PathBuf, FileFault> {
    match fs::canonicalize(rt, root) {
        Ok(path) => Ok(path),
        Err(error) => Err(root_failed(rt, root, &error)),
    }
}

// Warns of the first mount below a directory, and tells how many there are.
fn warn_of_mounts(
    rt: &HostRuntime,
    mounts: &[Mount<'_>],
    directory: &[u8],
    count: usize,
) -> Result<(), AllocError> {
    let Some(first) = first_below(mounts, directory) else {
        return Ok(());
    };
    let below = Part::Text(
        "file systems are mounted below the directory (findmnt -R), the first of",
    );
    warn(
        rt,
        &[
            below,
            Part::Count(count),
            Part::Text("at"),
            Part::Name(&first.point),
        ],
    )
}

/// How many file systems are mounted below the directory with this path from the root of all, whose
/// files no plan of it has. Where there are any, the first is warned of.
pub fn count_mounts(rt: &HostRuntime, path: &str, quiet: bool) -> Result<usize, FileFault> {
    let text = read_file(rt, MOUNTS)?;
    let mounts = read_mounts(rt.alloc(), text.bytes())?;
    let directory = without_slash(path.as_bytes());
    let count = count_below(&mounts, directory);
    if !quiet {
        warn_of_mounts(rt, &mounts, directory, count)?;
    }
    Ok(count)
}

// The device number of the file at a path, if it can be looked at. At the path of a mount that is
// the mount which is seen there.
fn device_at(rt: &HostRuntime, path: &[u8]) -> Option<u64> {
    let Ok(path) = str::from_utf8(path) else {
        return None;
    };
    match fs::symlink_metadata(rt, path) {
        Ok(found) => Some(found.dev()),
        Err(_) => None,
    }
}

// The mounts at these paths, each looked at.
fn looked_at(rt: &HostRuntime, paths: &[Vec<u8>]) -> Result<Vec<Point>, AllocError>
    ensures { IfOk result (λ points. map (λ point. point.path.items) points.items
        ≡ path_items paths.now) }
{
    let mut points = Vec::new(rt.alloc());
    for path in paths {
        points.push(Point {
            path: Vec::from_slice(rt.alloc(), path)?,
            device: device_at(rt, path),
        })?;
    }
    Ok(points)
}

/// Sees that no mount below a directory is a second way to its files, and tells whether its file
/// system is known to have one journal: by its kind, and by what the system tells of it, since an
/// ext4 may have none. The directory is looked at by its path from the root of all, and told as
/// words name it.
pub fn see_mounts(rt: &HostRuntime, root: &str, path: &str) -> Result<bool, FileFault> {
    let text = read_file(rt, MOUNTS)?;
    let around = see_around(rt.alloc(), text.bytes(), path.as_bytes())?;
    let points = looked_at(rt, &around.same)?;
    let device = match fs::metadata(rt, path) {
        Ok(found) => found.dev(),
        Err(error) => return Err(root_failed(rt, root, &error)),
    };
    match one_way(&around, &points, device) {
        Ok(has_one_journal) => Ok(has_one_journal && has_journal(rt, path)?),
        Err(point) => Err(mounted_twice(rt, root, point)),
    }
}
