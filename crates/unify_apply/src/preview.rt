//! A disk on which a run is begun, and nothing is changed.
ghost use Rattle.std.specs.Prelude.{◌≡◌, [], true};
ghost use Rattle.std.specs.List.{list_all};
ghost use Rattle.unify_apply.specs.Previews.{IsAsked, only_looks};

use reown_files::{Call, Disk, Log, Modes, Seen, Trouble};
use reown_plan::{Owner, PlanMark};
use std::marker::Model;

/// A disk that shows how a run begins: it asks another what only looks there, and nothing else, and
/// hands on what that tells. What comes before the first change and would write something it
/// answers as done, and any change as not done.
#[derive(Drop)]
pub struct Preview<D: Disk> {
    disk: D,
    // What was asked of this one.
    log: Log,
}

impl<D: Disk> Model for Preview<D> {
    ghost use Rattle.std.specs.Prelude.{◌≡◌, true, List};
    ghost use Rattle.std.specs.List.{list_all};
    ghost use Rattle.reown_files.specs.Calls.{Called};
    ghost use Rattle.unify_apply.specs.Previews.{IsAsked, only_looks};

    ghost Value = { List Called };

    ghost view = { λ preview. preview.log.calls };

    ghost invariant = { λ preview. (list_all only_looks (D.calls preview.disk) ≡ true)
        × IsAsked preview.log.calls (D.calls preview.disk) };
}

impl<D: Disk> Preview<D> {
    /// A disk that asks this one, which was asked looks alone as yet. Of the new one nothing was
    /// asked.
    pub fn of(disk: D) -> Preview<D>
        requires { list_all only_looks (D.calls disk) ≡ true }
        ensures { result ≡ [] }
    {
        Preview {
            disk,
            log: Log::new(),
        }
    }

    /// The disk below. It was asked looks alone: for what was asked of this one, it was asked no
    /// other, and has told what this one answered.
    pub fn into_disk(self) -> D
        ensures looks { list_all only_looks (D.calls result) ≡ true }
        ensures told { IsAsked self (D.calls result) }
    {
        let Preview { disk, log } = self;
        drop(log);
        disk
    }
}

impl<D: Disk> Disk for Preview<D> {
    ghost calls = { λ preview. preview };

    fn look(&mut self, path: &[u8]) -> Result<Option<Seen>, Trouble> {
        match self.disk.look(path) {
            Ok(seen) => {
                self.log.note(&Call::Looked(path, seen));
                Ok(seen)
            }
            Err(trouble) => {
                self.log.note(&Call::NotSeen(path, trouble));
                Err(trouble)
            }
        }
    }

    fn meet(&mut self, path: &[u8], after: Owner) -> Result<Option<Owner>, Trouble> {
        match self.disk.meet(path, after) {
            Ok(found) => {
                self.log.note(&Call::Met(path, after, found));
                Ok(found)
            }
            Err(trouble) => {
                self.log.note(&Call::NotSeen(path, trouble));
                Err(trouble)
            }
        }
    }

    // A mark that is there is not synced.
    fn meet_mark(&mut self, plan: &PlanMark) -> Result<bool, Trouble> {
        match self.disk.is_marked(plan) {
            Ok(is_set) => {
                self.log.note(&Call::MetMark(plan, is_set));
                Ok(is_set)
            }
            Err(trouble) => {
                self.log.note(&Call::MarkNotSeen(plan, trouble));
                Err(trouble)
            }
        }
    }

    fn check_links(&mut self, path: &[u8]) -> Result<(), Trouble> {
        let told = self.disk.check_links(path);
        self.log.note(&Call::CheckedLinks(path, told.is_ok()));
        told
    }

    fn owner(&mut self, path: &[u8]) -> Result<Option<Owner>, Trouble> {
        match self.disk.owner(path) {
            Ok(found) => {
                self.log.note(&Call::Saw(path, found));
                Ok(found)
            }
            Err(trouble) => {
                self.log.note(&Call::NotSeen(path, trouble));
                Err(trouble)
            }
        }
    }

    fn give(&mut self, path: &[u8], before: Owner, after: Owner) -> Result<Modes, Trouble> {
        self.log.note(&Call::Gave(path, before, after, None));
        Err(Trouble::NotDone)
    }

    fn set_mode(&mut self, path: &[u8], owner: Owner, mode: u32) -> Result<(), Trouble> {
        self.log.note(&Call::SetMode(path, owner, mode, true));
        Ok(())
    }

    fn keep(&mut self, path: &[u8], owner: Owner) -> Result<(), Trouble> {
        self.log.note(&Call::Kept(path, owner, true));
        Ok(())
    }

    fn settle(&mut self) -> Result<(), Trouble> {
        self.log.note(&Call::Settled(true));
        Ok(())
    }

    fn is_marked(&mut self, plan: &PlanMark) -> Result<bool, Trouble> {
        match self.disk.is_marked(plan) {
            Ok(is_there) => {
                self.log.note(&Call::SawMark(plan, is_there));
                Ok(is_there)
            }
            Err(trouble) => {
                self.log.note(&Call::MarkNotSeen(plan, trouble));
                Err(trouble)
            }
        }
    }

    fn put_mark(&mut self, plan: &PlanMark) -> Result<(), Trouble> {
        self.log.note(&Call::PutMark(plan, false));
        Err(Trouble::NotDone)
    }

    fn read_modes(&mut self, plan: &PlanMark, mark: bool) -> Result<bool, Trouble> {
        match self.disk.read_modes(plan, mark) {
            Ok(is_begun) => {
                self.log.note(&Call::ReadModes(plan, mark, Some(is_begun)));
                Ok(is_begun)
            }
            Err(trouble) => {
                self.log.note(&Call::ReadModes(plan, mark, None));
                Err(trouble)
            }
        }
    }

    fn lost_mode(
        &mut self,
        plan: &PlanMark,
        path: &[u8],
        owner: Owner,
    ) -> Result<Option<u32>, Trouble> {
        match self.disk.lost_mode(plan, path, owner) {
            Ok(lost) => {
                self.log.note(&Call::LostMode(plan, path, owner, lost));
                Ok(lost)
            }
            Err(trouble) => {
                self.log.note(&Call::NotSeen(path, trouble));
                Err(trouble)
            }
        }
    }

    fn put_modes(&mut self, plan: &PlanMark) -> Result<(), Trouble> {
        self.log.note(&Call::PutModes(plan, true));
        Ok(())
    }

    fn keep_mark(&mut self) -> Result<(), Trouble> {
        self.log.note(&Call::KeptMark(false));
        Err(Trouble::NotDone)
    }
}
