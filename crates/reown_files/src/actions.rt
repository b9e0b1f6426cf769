//! The record of what is done to the mark, to the file of the modes and to the root, which only
//! clauses read.
ghost use Rattle.std.specs.Prelude.{◌≡◌, List, [], ◌∷◌};
ghost use Rattle.std.specs.Borrow.{ftrue};
ghost use Rattle.reown_files.specs.Actions.{Action as ActionData};

use std::marker::Model;

/// What was done, the newest first, for contracts alone: it takes no memory and no time.
#[derive(Drop)]
pub struct ActionLog {
    pub ghost actions: { List ActionData },
}

impl Model for ActionLog {
    ghost also_owns = { λ _. ftrue };
}

/// What was done. Each is noted by the call that does it, where the system told it of no error.
#[derive(Clone, Copy)]
pub enum Action<'a> {
    /// The file at this path was read, and this is its text, or as much of it as is read.
    FileRead(&'a [u8], &'a [u8]),
    /// The file at this path was to be read, and is not there.
    FileMissed(&'a [u8]),
    /// This text was written as a new file at the first path, and put at the second by that, whole.
    TextPut(&'a [u8], &'a [u8], &'a [u8]),
    /// The name of the file at this path was synced.
    NameSynced(&'a [u8]),
    /// What was at this path was removed, if it was there.
    FileRemoved(&'a [u8]),
    /// The root was synced.
    RootSettled,
}

impl ActionLog {
    ghost use Rattle.reown_files.specs.ActionsCode.{action_of};

    /// Nothing was done as yet.
    pub fn new() -> ActionLog
        ensures { result.actions ≡ [] }
    {
        ActionLog {}
    }

    /// Notes what was done.
    pub fn note(&mut self, _action: &Action<'_>)
        ensures { self.new.actions ≡ action_of _action.now ∷ self.old.actions }
    {}
}
