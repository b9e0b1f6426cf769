//! The record of what the system is asked of files, which only clauses read.
ghost use Rattle.std.specs.Prelude.{◌≡◌, List, [], ◌∷◌};
ghost use Rattle.std.specs.Borrow.{ftrue};
ghost use Rattle.reown_files.specs.Asked.{Asked};

use crate::walk::Found;
use reown_plan::Owner;
use std::marker::Model;

/// What was asked of the system, the newest first, for contracts alone: it takes no memory and no
/// time.
#[derive(Drop)]
pub struct AskedLog {
    pub ghost asked: { List Asked },
}

impl Model for AskedLog {
    ghost also_owns = { λ _. ftrue };
}

/// What was done, with the path of the file.
#[derive(Clone, Copy)]
pub enum Ask<'a> {
    /// A look told this of a file.
    Told(&'a [u8], Found),
    /// A name of a file that was told, which is to have this owner, was counted.
    Counted(&'a [u8], Found, Owner),
    /// A name of a file that was told is to have its new owner now.
    Awaited(Found),
    /// A file was given this owner.
    Given(&'a [u8], Owner),
    /// A file was given this mode.
    ModeGiven(&'a [u8], u32),
    /// A file was synced.
    Synced(&'a [u8]),
}

impl AskedLog {
    ghost use Rattle.reown_files.specs.AskedCode.{asked_of};

    /// Nothing was asked for as yet.
    pub fn new() -> AskedLog
        ensures { result.asked ≡ [] }
    {
        AskedLog {}
    }

    /// Notes what was done.
    pub fn note(&mut self, _ask: &Ask<'_>)
        ensures { self.new.asked ≡ asked_of _ask.now ∷ self.old.asked }
    {}
}
