//! The calls by which the files of a plan are looked at and changed.
ghost use Rattle.std.specs.Prelude.{◌≡◌, ◌∷◌, List, None, Some, IfOk, IfErr, OnErr, is_ok};
ghost use Rattle.reown_files.specs.Calls.{Called, Looked, Met, MetMark, Gave, SetMode, Kept};
ghost use Rattle.reown_files.specs.Calls.{Settled, PutMark, LostMode, PutModes, CheckedLinks};
ghost use Rattle.reown_files.specs.Calls.{KeptMark, ReadModes, Saw, SawMark, NotSeen, MarkNotSeen};

use crate::{Modes, Seen, Trouble};
use reown_plan::{Owner, PlanMark};

/// A disk with the files of a plan and the plan's mark. What a call finds or does there, no
/// contract says; what was asked of it, and what it answered to that, is its record of calls. What
/// a call costs is for the disk to say.
pub trait Disk: Drop {
    // What was asked for so far, the newest first.
    ghost calls: { Self → List Called };

    /// What a file is, if it is there. No link is followed.
    fn look(&mut self, path: &[u8]) -> Result<Option<Seen>, Trouble>
        ensures looked { IfOk result
            (λ seen. calls self.new ≡ Looked path.now seen ∷ calls self.old) }
        ensures failed { IfErr result
            (λ trouble. calls self.new ≡ NotSeen path.now trouble ∷ calls self.old) };

    /// The owner of a file of the plan, if it is there. Each is met once, before any other call is
    /// made for it. Its names are counted, and where it has its new owner already, which an earlier
    /// run gave it, that is synced.
    fn meet(&mut self, path: &[u8], after: Owner) -> Result<Option<Owner>, Trouble>
        ensures met { IfOk result
            (λ found. calls self.new ≡ Met path.now after found ∷ calls self.old) }
        ensures failed { IfErr result
            (λ trouble. calls self.new ≡ NotSeen path.now trouble ∷ calls self.old) };

    /// Whether the mark of this plan is there, before anything is changed. One that is, is synced.
    fn meet_mark(&mut self, plan: &PlanMark) -> Result<bool, Trouble>
        ensures met { IfOk result (λ set. calls self.new ≡ MetMark plan.now set ∷ calls self.old) }
        ensures failed { IfErr result
            (λ trouble. calls self.new ≡ MarkNotSeen plan.now trouble ∷ calls self.old) };

    /// Sees that all names of a file were met.
    fn check_links(&mut self, path: &[u8]) -> Result<(), Trouble>
        ensures { calls self.new ≡ CheckedLinks path.now (is_ok result) ∷ calls self.old };

    /// The owner of a file, if it is there. No link is followed.
    fn owner(&mut self, path: &[u8]) -> Result<Option<Owner>, Trouble>
        ensures saw { IfOk result (λ found. calls self.new ≡ Saw path.now found ∷ calls self.old) }
        ensures failed { IfErr result
            (λ trouble. calls self.new ≡ NotSeen path.now trouble ∷ calls self.old) };

    /// Gives a file that has one owner another, and tells its mode before and after. A file with
    /// several names is given once, with its last name; until then the record of calls has what the
    /// disk has still to do.
    fn give(&mut self, path: &[u8], before: Owner, after: Owner) -> Result<Modes, Trouble>
        ensures gave { IfOk result
            (λ modes. calls self.new ≡ Gave path.now before after (Some modes) ∷ calls self.old) }
        ensures failed { OnErr result
            (calls self.new ≡ Gave path.now before after None ∷ calls self.old) };

    /// Sets the bits of the mode of a file that has this owner.
    fn set_mode(&mut self, path: &[u8], owner: Owner, mode: u32) -> Result<(), Trouble>
        ensures { calls self.new ≡ SetMode path.now owner mode (is_ok result) ∷ calls self.old };

    /// Sees that a file has this owner, and sees to it, by itself or with the next `settle`, that a
    /// stop of the machine leaves it so.
    fn keep(&mut self, path: &[u8], owner: Owner) -> Result<(), Trouble>
        ensures { calls self.new ≡ Kept path.now owner (is_ok result) ∷ calls self.old };

    /// Sees to it for what `keep` has not synced: links, sockets, pipes and devices, and all files
    /// where one sync keeps all.
    fn settle(&mut self) -> Result<(), Trouble>
        ensures { calls self.new ≡ Settled (is_ok result) ∷ calls self.old };

    /// Whether the mark of this plan is there.
    fn is_marked(&mut self, plan: &PlanMark) -> Result<bool, Trouble>
        ensures saw { IfOk result (λ set. calls self.new ≡ SawMark plan.now set ∷ calls self.old) }
        ensures failed { IfErr result
            (λ trouble. calls self.new ≡ MarkNotSeen plan.now trouble ∷ calls self.old) };

    /// Puts the mark of this plan there, in place of what mark is there.
    fn put_mark(&mut self, plan: &PlanMark) -> Result<(), Trouble>
        ensures { calls self.new ≡ PutMark plan.now (is_ok result) ∷ calls self.old };

    /// Reads the modes that an earlier run of this plan wrote down, and answers whether there are
    /// such, which tells that the plan was begun. Where the mark is there, that run has lost none.
    /// Fails where another plan was begun with this mark and has not ended.
    fn read_modes(&mut self, plan: &PlanMark, mark: bool) -> Result<bool, Trouble>
        ensures told { IfOk result
            (λ begun. calls self.new ≡ ReadModes plan.now mark (Some begun) ∷ calls self.old) }
        ensures failed { OnErr result
            (calls self.new ≡ ReadModes plan.now mark None ∷ calls self.old) };

    /// The mode that was read of this plan for a file, where the file has this owner and its mode
    /// lacks bits of that one, as a change of its owner clears them; none where it has another
    /// owner, or another mode.
    fn lost_mode(
        &mut self,
        plan: &PlanMark,
        path: &[u8],
        owner: Owner,
    ) -> Result<Option<u32>, Trouble>
        ensures told { IfOk result
            (λ mode. calls self.new ≡ LostMode plan.now path.now owner mode ∷ calls self.old) }
        ensures failed { IfErr result
            (λ trouble. calls self.new ≡ NotSeen path.now trouble ∷ calls self.old) };

    /// Writes down for this plan the modes of the files that were met at another owner than their
    /// new one and may lose bits of them, in place of what was written down before. A stop of the
    /// machine leaves that.
    fn put_modes(&mut self, plan: &PlanMark) -> Result<(), Trouble>
        ensures { calls self.new ≡ PutModes plan.now (is_ok result) ∷ calls self.old };

    /// Sees to it that a stop of the machine leaves the mark. Where this run has put it, the modes
    /// that it wrote down are forgotten then.
    fn keep_mark(&mut self) -> Result<(), Trouble>
        ensures { calls self.new ≡ KeptMark (is_ok result) ∷ calls self.old };
}
