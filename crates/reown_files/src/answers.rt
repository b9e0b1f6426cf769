//! What calls on a disk answer.
ghost use Rattle.std.specs.Prelude.{◌≡◌};

use reown_plan::Owner;
use std::alloc::{AllocError, AllocFailed};

/// Why a call on a disk failed.
#[derive(Clone, Copy, Debug, PartialEq, Eq)]
pub enum Trouble {
    /// A call of the system failed, with this number of an error (errno(3)).
    System(i32),
    /// A growth was refused.
    Memory,
    /// The path is none of an inventory: a part of it is empty, `.` or `..`, or too long.
    BadPath,
    /// A part of the path is not UTF-8, which the calls on files ask for.
    NotText,
    /// The file is not there, or a directory on the way to it is missing, or a link.
    Gone,
    /// The file has this owner, and not the one that was expected.
    Foreign(Owner),
    /// Another file came to its name while it was looked at.
    Exchanged,
    /// The file, or a directory on the way to it, lies on another file system than the root.
    OtherMount,
    /// The file has a name that is not in the plan.
    LinkedElsewhere,
    /// The file has two names in the plan, with two new owners.
    LinkedOtherwise,
    /// What was asked for was not done, and no call of the system says why: it is not there
    /// afterwards, the plan has no such change, or the tree was stopped before.
    NotDone,
    /// The directory is none.
    NotDirectory,
    /// Another process is at work below the directory.
    Busy,
    /// There is no /proc, by which files are reached (proc(5)).
    NoProc,
    /// The file of the mark is not a mark.
    NotMark,
    /// The file of the modes is cut, or has no modes of a plan.
    NotModes,
    /// The file of the modes is that of another plan, which was begun and has not ended.
    OtherPlan,
    /// There are more modes to write down than would be read back.
    TooManyModes,
    /// A call of the system on the root itself failed, with this number of an error.
    OfRoot(i32),
    /// The file of the modes could not be removed once its plan was done: a call of the system
    /// failed, with this number of an error.
    OfModes(i32),
}

/// The bits of a file's mode around a change of its owner (inode(7)); of a regular file or a
/// directory set-user-ID and set-group-ID are among them.
#[derive(Clone, Copy, Debug, PartialEq, Eq)]
pub struct Modes {
    /// Those that it had before.
    pub before: u32,
    /// Those that it has after it.
    pub after: u32,
}

/// What a look at a file tells of it (inode(7)).
#[derive(Clone, Copy, Debug, PartialEq, Eq)]
pub struct Seen {
    pub owner: Owner,
    /// Whether it is a regular file that has the set-user-ID or the set-group-ID bit.
    pub has_set_id: bool,
    /// Whether it has several names. A directory has one.
    pub has_several_names: bool,
}

/// Where the last call on a tree failed, and why.
#[derive(Clone, Copy, Debug, PartialEq, Eq)]
pub struct Failure {
    /// The record whose file it was, if it was one's; records count from 0.
    pub place: Option<usize>,
    /// Why it failed.
    pub trouble: Trouble,
}

/// Why a tree was not opened; records count from 0.
#[derive(Clone, Copy, Debug, PartialEq, Eq)]
pub enum OpenFault {
    /// A growth was refused.
    Memory,
    /// 37: the file of this record is not there.
    Missing(usize),
    /// 38: the file of this record has this owner, which is neither its old nor its new one.
    Foreign(usize, Owner),
    /// 44: the plan's mark is set, and the file of this record has its old owner.
    Unfinished(usize),
    /// 48: the plan was not begun, and the file of this record has its new owner.
    AlreadyChanged(usize),
    /// The file of this record could not be looked at.
    File(usize, Trouble),
    /// The mark could not be looked at, or the disk not be synced.
    Disk(Trouble),
    /// The modes that an earlier run wrote down could not be read, or are of another plan that has
    /// not ended, or those that this one may lose could not be written.
    Modes(Trouble),
}

impl From<AllocError> for OpenFault {
    ghost use Rattle.reown_files.specs.declared.answers.OpenFault.TheVariants.{Memory};

    ghost from_gives = { λ _ fault. fault ≡ Memory };

    fn from(_: AllocError) -> Self {
        OpenFault::Memory
    }
}

impl<T: Drop> From<AllocFailed<T>> for OpenFault {
    ghost use Rattle.reown_files.specs.declared.answers.OpenFault.TheVariants.{Memory};

    ghost from_gives = { λ _ fault. fault ≡ Memory };

    fn from(_: AllocFailed<T>) -> Self {
        OpenFault::Memory
    }
}

impl<T: Drop> From<AllocFailed<T>> for Trouble {
    ghost use Rattle.reown_files.specs.declared.answers.Trouble.TheVariants.{Memory};

    ghost from_gives = { λ _ trouble. trouble ≡ Memory };

    fn from(_: AllocFailed<T>) -> Self {
        Trouble::Memory
    }
}

impl From<AllocError> for Trouble {
    ghost use Rattle.reown_files.specs.declared.answers.Trouble.TheVariants.{Memory};

    ghost from_gives = { λ _ trouble. trouble ≡ Memory };

    fn from(_: AllocError) -> Self {
        Trouble::Memory
    }
}
