//! The files beside a plan: its mark, and what a run puts there with the mark.
ghost use Rattle.std.specs.Prelude.{◌≡◌};
ghost use Rattle.std.specs.List.{list_any};
ghost use Rattle.std.specs.Str.{bytes_eq};
ghost use Rattle.unify_apply.specs.Told.{behind_mark, is_of_mark};

use crate::run::Paths;
use std::alloc::AllocError;
use std::fs::{self, Metadata};
use std::io;
use std::os::unix::fs::MetadataExt;
use std::path::Path;
use unify_io::{FileFault, Part, file_failed, tell_of};

// What is after the mark's path where a run writes the mark, and the modes, before they get their
// names.
const NEW: &str = ".new";

const NEW_MODES: &str = ".modes.new";

// What is said of a mark that can be no file.
const NO_FILE: &str = "the path of a directory, and no file's; choose another mark with --mark";

// What is said of a plan that has the name of a file which a run writes with the mark.
const WRITTEN: &str = "a file of this name is written and removed with the mark; choose another \
    mark with --mark";

// Whether this stands after the mark's path where a run puts a file beside the mark.
fn is_behind_mark(rest: &[u8]) -> bool
    ensures { result ≡ list_any (bytes_eq rest.now) behind_mark }
{
    rest == b".new".as_slice() || rest == b".modes".as_slice() || rest == b".modes.new".as_slice()
}

/// Whether a plan's path is one that a run puts a file at, where this is the path of its mark. One
/// pass over them.
pub fn is_of_mark(mark: &str, plan: &str) -> bool
    ensures { result ≡ is_of_mark mark.now plan.now }
{
    let (mark, plan) = (mark.as_bytes(), plan.as_bytes());
    if plan == mark {
        return true;
    }
    match plan.strip_prefix(mark) {
        Some(rest) => is_behind_mark(rest),
        None => false,
    }
}

// Whether the name at a path is one of this file, by its device and inode. A link there is not
// followed.
fn is_name_of(rt: &HostRuntime, path: &str, file: &Metadata) -> bool {
    match fs::symlink_metadata(rt, path) {
        Ok(found) => found.dev() == file.dev() && found.ino() == file.ino(),
        Err(_) => false,
    }
}

// Whether a plan is a file that a run writes the mark or the modes into first, however its path is
// written.
fn has_name_of_mark(rt: &HostRuntime, mark: &str, plan: &str) -> Result<bool, AllocError> {
    let Ok(file) = fs::metadata(rt, plan) else {
        return Ok(false);
    };
    let new = format!(in rt.alloc(); "{mark}{NEW}")?;
    let new_modes = format!(in rt.alloc(); "{mark}{NEW_MODES}")?;
    Ok(is_name_of(rt, new.as_str(), &file) || is_name_of(rt, new_modes.as_str(), &file))
}

// The directory of the mark.
fn parent_of(mark: &str) -> &str {
    match Path::new(mark).parent() {
        Some(parent) if !parent.as_str().is_empty() => parent.as_str(),
        _ => ".",
    }
}

// Whether the path of a mark is that of a directory: of one that is there, or else by the slash at
// its end. An empty one begins at the working directory.
fn is_directory(rt: &HostRuntime, mark: &str) -> bool {
    match fs::symlink_metadata(rt, mark) {
        Ok(found) => found.is_dir(),
        Err(_) => mark.is_empty() || mark.ends_with('/'),
    }
}

// Why the directory of a mark cannot be entered, where it cannot.
fn directory_fault(rt: &HostRuntime, mark: &str) -> Result<Option<io::Error>, AllocError> {
    let inside = Path::new(parent_of(mark)).join(rt.alloc(), ".")?;
    match fs::metadata(rt, inside.as_str()) {
        Ok(_) => Ok(None),
        Err(error) => Ok(Some(error)),
    }
}

/// What is beside a plan. It is looked at once and at first: the paths begin at the working
/// directory, which is another as soon as a file of the plan was looked at.
#[derive(Clone, Copy)]
pub struct Beside {
    is_directory: bool,
    takes_plan: bool,
    directory: Option<io::Error>,
}

impl Beside {
    /// Looks at what is beside a plan with this mark.
    pub fn look(rt: &HostRuntime, mark: &str, plan: &str) -> Result<Beside, AllocError> {
        let takes_plan = is_of_mark(mark, plan) || has_name_of_mark(rt, mark, plan)?;
        let directory = directory_fault(rt, mark)?;
        Ok(Beside {
            is_directory: is_directory(rt, mark),
            takes_plan,
            directory,
        })
    }

    /// Sees that the mark may be a file, and that no run with it replaces or removes its plan.
    pub fn see_paths(self, rt: &HostRuntime, paths: Paths<'_>) -> Result<(), FileFault> {
        let (path, why) = if self.is_directory {
            (paths.mark, NO_FILE)
        } else if self.takes_plan {
            (paths.plan, WRITTEN)
        } else {
            return Ok(());
        };
        Err(tell_of(rt, "file", path.as_bytes(), &[Part::Text(why)], 2))
    }

    /// Sees that the directory of the mark is there.
    pub fn see_directory(self, rt: &HostRuntime, mark: &str) -> Result<(), FileFault> {
        match self.directory {
            Some(error) => Err(file_failed(rt, parent_of(mark), &error)),
            None => Ok(()),
        }
    }
}
