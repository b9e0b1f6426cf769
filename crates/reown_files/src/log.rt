//! The record of calls on a disk that is real, which only clauses read.
ghost use Rattle.std.specs.Prelude.{◌≡◌, List, [], ◌∷◌};
ghost use Rattle.std.specs.Borrow.{ftrue};
ghost use Rattle.reown_files.specs.Calls.{Called};

use crate::{Modes, Seen, Trouble};
use reown_plan::{Owner, PlanMark};
use std::marker::Model;

/// What was asked of a disk, the newest first, for contracts alone: it takes no memory and no time.
#[derive(Drop)]
pub struct Log {
    pub ghost calls: { List Called },
}

impl Model for Log {
    ghost also_owns = { λ _. ftrue };
}

/// A call that was made, with what it was given; what it answered, or whether it succeeded, comes
/// last.
#[derive(Clone, Copy)]
pub enum Call<'a> {
    /// The file of this path was looked at, and this was seen of it, if it is there.
    Looked(&'a [u8], Option<Seen>),
    /// The file of this path, which is to have this owner, was met, with an owner or not there.
    Met(&'a [u8], Owner, Option<Owner>),
    /// The mark of this plan was met, there or not.
    MetMark(&'a PlanMark, bool),
    /// The file of this path was seen at this owner, or not there.
    Saw(&'a [u8], Option<Owner>),
    /// The mark of this plan was seen to be there or not.
    SawMark(&'a PlanMark, bool),
    /// The file of this path could not be looked at or met, for this.
    NotSeen(&'a [u8], Trouble),
    /// The mark of this plan could not be looked at or met, for this.
    MarkNotSeen(&'a PlanMark, Trouble),
    /// The names of the file of this path were to be seen to be all in the plan.
    CheckedLinks(&'a [u8], bool),
    /// The file of this path was to be given an owner in place of another.
    Gave(&'a [u8], Owner, Owner, Option<Modes>),
    /// The bits of the mode of the file of this path were to be set, where it has this owner.
    SetMode(&'a [u8], Owner, u32, bool),
    /// The file of this path was to be seen at this owner and synced, by itself or with the sync of
    /// all.
    Kept(&'a [u8], Owner, bool),
    /// All was to be synced.
    Settled(bool),
    /// The mark of this plan was to be put.
    PutMark(&'a PlanMark, bool),
    /// The mark was to be synced.
    KeptMark(bool),
    /// The modes that an earlier run of this plan wrote down were to be read, where its mark was
    /// there or not; and this is whether there are such, if that could be told.
    ReadModes(&'a PlanMark, bool, Option<bool>),
    /// The mode was asked for that an earlier run of this plan had lost of a file, which has this
    /// owner now.
    LostMode(&'a PlanMark, &'a [u8], Owner, Option<u32>),
    /// The modes that this run of the plan may lose were to be written down.
    PutModes(&'a PlanMark, bool),
}

impl Log {
    ghost use Rattle.reown_files.specs.Noted.{noted};

    /// Nothing was asked for as yet.
    pub fn new() -> Log
        ensures { result.calls ≡ [] }
    {
        Log {}
    }

    /// Notes a call.
    pub fn note(&mut self, _call: &Call<'_>)
        ensures { self.new.calls ≡ noted _call.now ∷ self.old.calls }
    {}
}
