//! The files below a directory of the system, as a disk.
ghost use Rattle.std.specs.Prelude.{◌≡◌, [], ◌∷◌, true, false, None, Some};
ghost use Rattle.std.specs.Prelude.{IfOk, IfErr, IfSome, IfNone, OnOk, OnErr, is_ok, is_none};
ghost use Rattle.std.specs.Prelude.{◌||◌, ◌&&◌, not, ◌≤◌, length};
ghost use Rattle.reown_files.specs.Asked.{HasNamesMet, LacksNames, IsGiven, IsModeSet, IsKept};
ghost use Rattle.reown_files.specs.Asked.{IsToldAtMost, IsMetAtMost, IsGivenAtMost};
ghost use Rattle.reown_files.specs.Calls.{Looked, Met, CheckedLinks, Saw, NotSeen, Gave, SetMode};
ghost use Rattle.reown_files.specs.Calls.{Kept, LostMode, MetMark, MarkNotSeen, Settled, SawMark};
ghost use Rattle.reown_files.specs.Calls.{PutMark, ReadModes, PutModes, KeptMark};
ghost use Rattle.reown_files.specs.Actions.{FileRead, TextPut, RootSettled, mark_kept, modes_put};
ghost use Rattle.reown_files.specs.Actions.{new_beside};
ghost use Rattle.reown_files.specs.Actions.{IsMarkRead, IsMarkMet, IsReadAtMost};
ghost use Rattle.reown_files.specs.Actions.{IsMarkSyncedAtMost, IsModesReadAtMost};
ghost use Rattle.reown_files.specs.Actions.{IsModesPutAtMost};
ghost use Rattle.reown_files.specs.ActionsCode.{text_in};
ghost use Rattle.reown_files.specs.MarkText.{mark_text, modes_text};
ghost use Rattle.reown_files.specs.RootData.{IsSeen, IsSeenAt, IsMet, HasLostAt, TellsLost};
ghost use Rattle.reown_files.specs.RootData.{mode_noted, AsksMore, MeetsMore, ActsMore, PutsModes};
ghost use Rattle.reown_files.specs.RootData.{ReadsMore, is_absolute, IsPathFrom, modes_beside};
ghost use Rattle.reown_files.specs.Trees.{AreRead};

use crate::actions::ActionLog;
use crate::below::Below;
use crate::mark_file::MarkFile;
use crate::modes_file::{ModesFile, has_lost};
use crate::walk::{Directory, if_there};
use crate::whole_file::path_from;
use crate::{Call, Disk, Log, Modes, Seen, Trouble};
use reown_plan::{Owner, PlanMark};
use std::marker::Model;

/// The files below a directory of the system, with the mark in a file of its own. A path goes down
/// from the directory part by part, with the working directory of the process: no link is followed,
/// no other file system entered, and no link, socket, pipe or device opened. Other processes that
/// open the same directory so are kept from it while this one has it.
///
/// A call goes down from the directory of the call before, where that is on its way, with a few
/// calls of the system for each part. Whoever makes a file chooses its path, so files with several
/// names and modes that were written down stand in search trees: a look-up takes one or two
/// comparisons for each binary digit of their number, whatever the paths are. Their paths are kept.
#[derive(Drop)]
pub struct Root<'w> {
    below: Below<'w>,
    // The directory that was the working directory, where the path of the mark begins at it.
    _home: Option<Directory>,
    mark: MarkFile<'w>,
    modes: ModesFile<'w>,
    // Whether the mark was put.
    is_put: bool,
    actions: ActionLog,
    log: Log,
}

impl<'w> Model for Root<'w> {
    ghost use Rattle.std.specs.String.{string_bytes};
    ghost use Rattle.reown_files.specs.RootData.{RootData};

    ghost Value = { RootData };

    ghost view = { λ r. record {
      has_one_journal = r.below.has_one_journal;
      files = r.below.files;
      lines = r.modes.lines.items;
      read = r.modes.plan;
      modes = r.modes.noted.entries;
      mark_path = string_bytes r.mark.path;
      modes_path = string_bytes r.modes.path;
      was_done = r.modes.was_done;
      is_put = r.is_put;
      has_put_modes = r.modes.is_put;
      actions = r.actions.actions;
      calls = r.log.calls;
    } };
}

/// Why a directory is not worked below.
#[derive(Clone, Copy, Debug, PartialEq, Eq)]
pub enum RootFault {
    /// What is in the way at the directory itself.
    Root(Trouble),
    /// The working directory, where the path of the mark begins, could not be opened.
    Home(Trouble),
}

impl From<Trouble> for RootFault {
    ghost use Rattle.reown_files.specs.declared.root.RootFault.TheVariants as faults;

    ghost from_gives = { λ trouble fault. fault ≡ faults.Root trouble };

    fn from(trouble: Trouble) -> Self {
        RootFault::Root(trouble)
    }
}

// The working directory, where a path begins at it.
fn home_of(rt: &HostRuntime, path: &str) -> Result<Option<Directory>, RootFault>
    ensures { IfOk result (λ home. is_none home ≡ is_absolute path.now) }
{
    if path.starts_with("/") {
        return Ok(None);
    }
    match Directory::at(rt, ".") {
        Ok(home) => Ok(Some(home)),
        Err(trouble) => Err(RootFault::Home(trouble)),
    }
}

impl<'w> Root<'w> {
    /// The files below the directory at a path, and the mark at another. Nothing is looked at as
    /// yet but the directory.
    ///
    /// # Errors
    ///
    /// What is in the way: a directory that is none or cannot be opened, or is another process's;
    /// no /proc; or a working directory that cannot be opened, where the mark's path begins at it.
    pub fn open(rt: &'w HostRuntime, path: &str, mark: &str) -> Result<Root<'w>, RootFault>
        ensures fresh { IfOk result
            (λ root. (root.calls ≡ []) × (root.files ≡ []) × (root.lines ≡ [])) }
        ensures unread { IfOk result (λ root. root.read ≡ None) }
        ensures journals { IfOk result (λ root. root.has_one_journal ≡ false) }
        ensures undone { IfOk result (λ root. (root.is_put ≡ false) × (root.actions ≡ [])) }
        ensures unwritten { IfOk result
            (λ root. (root.was_done ≡ false) × (root.has_put_modes ≡ false)) }
        ensures mark { IfOk result
            (λ root. IsPathFrom (is_absolute mark.now) mark.now root.mark_path) }
        ensures modes { IfOk result (λ root. root.modes_path ≡ modes_beside root.mark_path) }
    {
        let root = Directory::at(rt, path)?;
        root.lock()?;
        let home = home_of(rt, mark)?;
        let mark = path_from(rt, home.as_ref(), mark)?;
        Ok(Root {
            below: Below::of(rt, root)?,
            modes: ModesFile::beside(rt, mark.as_str())?,
            mark: MarkFile::at(rt, mark),
            _home: home,
            is_put: false,
            actions: ActionLog::new(),
            log: Log::new(),
        })
    }

    /// What stands in the file of the mark, if it is there, whatever plan it is of. Its first 4096
    /// bytes are read, more than any mark has.
    ///
    /// # Errors
    ///
    /// `NotMark` where it is no regular file; or what is in the way.
    pub fn mark_text(&mut self) -> Result<Option<Vec<u8>>, Trouble>
        ensures read { IfOk result (λ text.
            self.new.actions ≡ FileRead self.old.mark_path (text_in text) ∷ self.old.actions) }
        ensures undone { OnErr result (self.new.actions ≡ self.old.actions) }
        ensures rest { self.new ≡ record self.old { actions = self.new.actions } }
    {
        self.mark.text(&mut self.actions)
    }

    /// Leaves it to `settle` to see that changes have reached the device: for a file system with
    /// one journal, on which a sync of one file keeps all that was changed before.
    pub fn trust_one_journal(&mut self)
        ensures { self.new ≡ record self.old { has_one_journal = true } }
    {
        self.below.has_one_journal = true;
    }

    // The owner of a file that is met. Its mode is noted where it does not have its new owner.
    fn met(&mut self, path: &[u8], after: Owner) -> Result<Option<Owner>, Trouble>
        ensures met { IfOk result (λ seen. IfSome seen
            (λ owner. IsMet path.now after owner self.old self.new)) }
        ensures gone { IfOk result (λ seen. IfNone seen ((self.new.lines ≡ self.old.lines)
            × IsMetAtMost path.now after self.old.files self.new.files)) }
        ensures at_most { OnErr result (IsMetAtMost path.now after self.old.files self.new.files) }
        ensures unwritten { OnErr result (self.new.lines ≡ self.old.lines) }
        ensures rest { self.new
            ≡ record self.old { files = self.new.files; lines = self.new.lines } }
    {
        let Some(found) = if_there(self.below.meet(path, after))? else {
            return Ok(None);
        };
        if found.owner != after {
            self.modes.add(path, &found)?;
        }
        Ok(Some(found.owner))
    }

    // Whether the mark is there. One that is, is synced.
    fn met_mark(&mut self, plan: &PlanMark) -> Result<bool, Trouble>
        ensures at_most { OnErr result
            (IsReadAtMost self.old.mark_path self.old.actions self.new.actions) }
        ensures rest { self.new ≡ record self.old { actions = self.new.actions } }
        ensures met { IfOk result (λ set.
            IsMarkMet self.old.mark_path plan.now set self.old.actions self.new.actions) }
    {
        let is_there = self.mark.is_there(plan, &mut self.actions)?;
        if is_there {
            self.mark.sync(&mut self.actions)?;
        }
        Ok(is_there)
    }

    // The mode that was noted for a file of a plan, where the file has this owner and has lost it.
    fn lost(&mut self, plan: &PlanMark, path: &[u8], owner: Owner) -> Result<Option<u32>, Trouble>
        ensures lost { IfOk result (λ lost. IfSome lost
            (λ mode. HasLostAt path.now owner mode self.old self.new)) }
        ensures tells { IfOk result (λ lost. TellsLost path.now owner
            (mode_noted plan.now path.now self.old) lost self.old.files self.new.files) }
        ensures untold { OnErr result (self.new.files ≡ self.old.files) }
        ensures rest { self.new ≡ record self.old { files = self.new.files } }
    {
        let Some(mode) = self.modes.noted(plan, path) else {
            return Ok(None);
        };
        let found = self.below.look(path)?;
        if found.owner == owner && has_lost(&found, mode) {
            Ok(Some(mode))
        } else {
            Ok(None)
        }
    }

    // Syncs the mark, and forgets the modes that this run wrote down where it has put the mark.
    fn finish(&mut self) -> Result<(), Trouble>
        ensures kept { OnOk result (self.new.actions
            ≡ mark_kept self.old.mark_path self.old.modes_path
            (self.old.is_put && self.old.has_put_modes) self.old.actions) }
        ensures at_most { OnErr result (IsMarkSyncedAtMost self.old.mark_path
            (self.old.is_put && self.old.has_put_modes) self.old.actions self.new.actions) }
        ensures forgotten { OnOk result
            (self.new.has_put_modes ≡ not self.old.is_put && self.old.has_put_modes) }
        ensures rest { self.new ≡ record self.old {
          has_put_modes = self.new.has_put_modes;
          actions = self.new.actions;
        } }
    {
        // A stop before the mark has reached its device has to find the modes.
        self.mark.sync(&mut self.actions)?;
        if self.is_put {
            self.modes.forget(&mut self.actions)?;
        }
        Ok(())
    }
}

impl<'w> Disk for Root<'w> {
    ghost calls = { λ root. root.calls };

    fn look(&mut self, path: &[u8]) -> Result<Option<Seen>, Trouble>
        ensures looked { IfOk result
            (λ seen. self.new.calls ≡ Looked path.now seen ∷ self.old.calls) }
        ensures told { IfOk result (λ seen. IfSome seen
            (λ seen. IsSeen path.now seen self.old self.new)) }
        ensures gone { IfOk result (λ seen. IfNone seen (self.new.files ≡ self.old.files)) }
        ensures failed { IfErr result
            (λ trouble. self.new.calls ≡ NotSeen path.now trouble ∷ self.old.calls) }
        ensures untold { OnErr result (self.new.files ≡ self.old.files) }
        ensures rest { AsksMore self.old self.new }
    {
        let told = if_there(self.below.see(path));
        self.log.note(&match told {
            Ok(seen) => Call::Looked(path, seen),
            Err(trouble) => Call::NotSeen(path, trouble),
        });
        told
    }

    fn meet(&mut self, path: &[u8], after: Owner) -> Result<Option<Owner>, Trouble>
        ensures met { IfOk result
            (λ found. self.new.calls ≡ Met path.now after found ∷ self.old.calls) }
        ensures told { IfOk result (λ found. IfSome found
            (λ owner. IsMet path.now after owner self.old self.new)) }
        ensures gone { IfOk result (λ found. IfNone found ((self.new.lines ≡ self.old.lines)
            × IsMetAtMost path.now after self.old.files self.new.files)) }
        ensures failed { IfErr result
            (λ trouble. self.new.calls ≡ NotSeen path.now trouble ∷ self.old.calls) }
        ensures at_most { OnErr result (IsMetAtMost path.now after self.old.files self.new.files) }
        ensures unwritten { OnErr result (self.new.lines ≡ self.old.lines) }
        ensures rest { MeetsMore self.old self.new }
    {
        let told = self.met(path, after);
        self.log.note(&match told {
            Ok(found) => Call::Met(path, after, found),
            Err(trouble) => Call::NotSeen(path, trouble),
        });
        told
    }

    fn meet_mark(&mut self, plan: &PlanMark) -> Result<bool, Trouble>
        ensures met { IfOk result
            (λ set. self.new.calls ≡ MetMark plan.now set ∷ self.old.calls) }
        ensures synced { IfOk result (λ set.
            IsMarkMet self.old.mark_path plan.now set self.old.actions self.new.actions) }
        ensures failed { IfErr result
            (λ trouble. self.new.calls ≡ MarkNotSeen plan.now trouble ∷ self.old.calls) }
        ensures at_most { OnErr result
            (IsReadAtMost self.old.mark_path self.old.actions self.new.actions) }
        ensures rest { ActsMore self.old self.new }
    {
        let told = self.met_mark(plan);
        self.log.note(&match told {
            Ok(is_there) => Call::MetMark(plan, is_there),
            Err(trouble) => Call::MarkNotSeen(plan, trouble),
        });
        told
    }

    fn check_links(&mut self, path: &[u8]) -> Result<(), Trouble>
        ensures noted { self.new.calls ≡ CheckedLinks path.now (is_ok result) ∷ self.old.calls }
        ensures checked { OnOk result (HasNamesMet path.now self.old.files self.new.files) }
        ensures refused { IfErr result
            (λ trouble. LacksNames path.now trouble self.old.files self.new.files) }
        ensures rest { AsksMore self.old self.new }
    {
        let told = self.below.check_links(path);
        self.log.note(&Call::CheckedLinks(path, told.is_ok()));
        told
    }

    fn owner(&mut self, path: &[u8]) -> Result<Option<Owner>, Trouble>
        ensures saw { IfOk result (λ found. self.new.calls ≡ Saw path.now found ∷ self.old.calls) }
        ensures told { IfOk result (λ found. IfSome found
            (λ owner. IsSeenAt path.now owner self.old self.new)) }
        ensures gone { IfOk result (λ found. IfNone found (self.new.files ≡ self.old.files)) }
        ensures failed { IfErr result
            (λ trouble. self.new.calls ≡ NotSeen path.now trouble ∷ self.old.calls) }
        ensures untold { OnErr result (self.new.files ≡ self.old.files) }
        ensures rest { AsksMore self.old self.new }
    {
        let told = if_there(self.below.owner(path));
        self.log.note(&match told {
            Ok(found) => Call::Saw(path, found),
            Err(trouble) => Call::NotSeen(path, trouble),
        });
        told
    }

    fn give(&mut self, path: &[u8], before: Owner, after: Owner) -> Result<Modes, Trouble>
        ensures gave { IfOk result (λ modes.
            self.new.calls ≡ Gave path.now before after (Some modes) ∷ self.old.calls) }
        ensures told { IfOk result (λ modes.
            IsGiven path.now before after modes self.old.files self.new.files) }
        ensures failed { OnErr result
            (self.new.calls ≡ Gave path.now before after None ∷ self.old.calls) }
        ensures at_most { OnErr result
            (IsGivenAtMost path.now before after self.old.files self.new.files) }
        ensures rest { AsksMore self.old self.new }
    {
        let told = self.below.give(path, before, after);
        self.log.note(&Call::Gave(path, before, after, told.ok()));
        told
    }

    fn set_mode(&mut self, path: &[u8], owner: Owner, mode: u32) -> Result<(), Trouble>
        ensures noted { self.new.calls
            ≡ SetMode path.now owner mode (is_ok result) ∷ self.old.calls }
        ensures set { OnOk result (IsModeSet path.now owner mode self.old.files self.new.files) }
        ensures at_most { OnErr result (IsToldAtMost path.now self.old.files self.new.files) }
        ensures rest { AsksMore self.old self.new }
    {
        let told = self.below.set_mode(path, owner, mode);
        self.log
            .note(&Call::SetMode(path, owner, mode, told.is_ok()));
        told
    }

    fn keep(&mut self, path: &[u8], owner: Owner) -> Result<(), Trouble>
        ensures noted { self.new.calls ≡ Kept path.now owner (is_ok result) ∷ self.old.calls }
        ensures kept { OnOk result
            (IsKept self.old.has_one_journal path.now owner self.old.files self.new.files) }
        ensures at_most { OnErr result (IsToldAtMost path.now self.old.files self.new.files) }
        ensures rest { AsksMore self.old self.new }
    {
        let told = self.below.keep(path, owner);
        self.log.note(&Call::Kept(path, owner, told.is_ok()));
        told
    }

    fn settle(&mut self) -> Result<(), Trouble>
        ensures noted { self.new.calls ≡ Settled (is_ok result) ∷ self.old.calls }
        ensures settled { OnOk result (self.new.actions ≡ RootSettled ∷ self.old.actions) }
        ensures undone { OnErr result (self.new.actions ≡ self.old.actions) }
        ensures rest { ActsMore self.old self.new }
    {
        let told = self.below.root().settle(&mut self.actions);
        self.log.note(&Call::Settled(told.is_ok()));
        told
    }

    fn is_marked(&mut self, plan: &PlanMark) -> Result<bool, Trouble>
        ensures saw { IfOk result
            (λ set. self.new.calls ≡ SawMark plan.now set ∷ self.old.calls) }
        ensures seen { IfOk result (λ set.
            IsMarkRead self.old.mark_path plan.now set self.old.actions self.new.actions) }
        ensures failed { IfErr result
            (λ trouble. self.new.calls ≡ MarkNotSeen plan.now trouble ∷ self.old.calls) }
        ensures at_most { OnErr result
            (IsReadAtMost self.old.mark_path self.old.actions self.new.actions) }
        ensures rest { ActsMore self.old self.new }
    {
        let told = self.mark.is_there(plan, &mut self.actions);
        self.log.note(&match told {
            Ok(is_there) => Call::SawMark(plan, is_there),
            Err(trouble) => Call::MarkNotSeen(plan, trouble),
        });
        told
    }

    fn put_mark(&mut self, plan: &PlanMark) -> Result<(), Trouble>
        ensures noted { self.new.calls ≡ PutMark plan.now (is_ok result) ∷ self.old.calls }
        ensures put { OnOk result (self.new.actions
            ≡ TextPut (new_beside self.old.mark_path) self.old.mark_path (mark_text plan.now)
            ∷ self.old.actions) }
        ensures undone { OnErr result (self.new.actions ≡ self.old.actions) }
        ensures rest { self.new ≡ record self.old {
          is_put = self.old.is_put || is_ok result;
          actions = self.new.actions;
          calls = self.new.calls;
        } }
    {
        let told = self.mark.put(plan, &mut self.actions);
        self.is_put = self.is_put || told.is_ok();
        self.log.note(&Call::PutMark(plan, told.is_ok()));
        told
    }

    fn read_modes(&mut self, plan: &PlanMark, mark: bool) -> Result<bool, Trouble>
        ensures told { IfOk result
            (λ begun. self.new.calls ≡ ReadModes plan.now mark (Some begun) ∷ self.old.calls) }
        ensures read { IfOk result (λ begun. AreRead
            self.old.mark_path self.old.modes_path plan.now mark begun
            self.old.actions self.new.actions
            self.old.read self.old.modes self.new.read self.new.modes) }
        ensures failed { OnErr result
            (self.new.calls ≡ ReadModes plan.now mark None ∷ self.old.calls) }
        ensures undone { OnErr result
            ((self.new.read ≡ self.old.read) × (self.new.modes ≡ self.old.modes)) }
        ensures at_most { OnErr result (IsModesReadAtMost
            self.old.mark_path self.old.modes_path self.old.actions self.new.actions) }
        ensures rest { ReadsMore mark self.old self.new }
    {
        let told = self.modes.read(plan, mark, &self.mark, &mut self.actions);
        self.log.note(&Call::ReadModes(plan, mark, told.ok()));
        told
    }

    fn lost_mode(
        &mut self,
        plan: &PlanMark,
        path: &[u8],
        owner: Owner,
    ) -> Result<Option<u32>, Trouble>
        ensures told { IfOk result
            (λ mode. self.new.calls ≡ LostMode plan.now path.now owner mode ∷ self.old.calls) }
        ensures lost { IfOk result (λ mode. IfSome mode
            (λ mode. HasLostAt path.now owner mode self.old self.new)) }
        ensures tells { IfOk result (λ lost. TellsLost path.now owner
            (mode_noted plan.now path.now self.old) lost self.old.files self.new.files) }
        ensures failed { IfErr result
            (λ trouble. self.new.calls ≡ NotSeen path.now trouble ∷ self.old.calls) }
        ensures untold { OnErr result (self.new.files ≡ self.old.files) }
        ensures rest { AsksMore self.old self.new }
    {
        let told = self.lost(plan, path, owner);
        self.log.note(&match told {
            Ok(lost) => Call::LostMode(plan, path, owner, lost),
            Err(trouble) => Call::NotSeen(path, trouble),
        });
        told
    }

    fn put_modes(&mut self, plan: &PlanMark) -> Result<(), Trouble>
        ensures noted { self.new.calls ≡ PutModes plan.now (is_ok result) ∷ self.old.calls }
        ensures put { OnOk result (self.new.actions ≡ modes_put self.old.modes_path
            self.old.was_done (modes_text plan.now self.old.lines) self.old.actions) }
        ensures read_back { OnOk result (self.old.was_done ≡ false
            → length (modes_text plan.now self.old.lines) ≤ 1073741824) }
        ensures at_most { OnErr result (IsModesPutAtMost self.old.modes_path self.old.was_done
            (modes_text plan.now self.old.lines) self.old.actions self.new.actions) }
        ensures written { OnOk result
            (self.new.has_put_modes ≡ self.old.has_put_modes || not self.old.was_done) }
        ensures rest { PutsModes self.old self.new }
    {
        let told = self.modes.put(plan, &mut self.actions);
        self.log.note(&Call::PutModes(plan, told.is_ok()));
        told
    }

    fn keep_mark(&mut self) -> Result<(), Trouble>
        ensures noted { self.new.calls ≡ KeptMark (is_ok result) ∷ self.old.calls }
        ensures kept { OnOk result (self.new.actions
            ≡ mark_kept self.old.mark_path self.old.modes_path
            (self.old.is_put && self.old.has_put_modes) self.old.actions) }
        ensures at_most { OnErr result (IsMarkSyncedAtMost self.old.mark_path
            (self.old.is_put && self.old.has_put_modes) self.old.actions self.new.actions) }
        ensures forgotten { OnOk result
            (self.new.has_put_modes ≡ not self.old.is_put && self.old.has_put_modes) }
        ensures rest { PutsModes self.old self.new }
    {
        let told = self.finish();
        self.log.note(&Call::KeptMark(told.is_ok()));
        told
    }
}
