//! How far a command is with the files of a plan, told on standard error while it goes on.
ghost use Rattle.std.specs.Prelude.{◌≡◌};

use reown_files::{Disk, Modes, Seen, Trouble};
use reown_plan::{Owner, PlanMark};
use std::io::IsTerminal;

// After how many files it is told again how far a command is.
const EACH: usize = 10_000;

/// How it is told how far a command is.
#[derive(Clone, Copy, Debug, PartialEq, Eq)]
pub enum ProgressStyle {
    /// Not at all.
    Never,
    /// By a line each time.
    Lines,
    /// By one line of a terminal, which is written anew.
    OneLine,
}

// What is done with files, one after the other.
#[derive(Clone, Copy)]
enum Step {
    Looked,
    Changed,
    Synced,
}

impl Step {
    fn word(self) -> &'static str {
        match self {
            Step::Looked => "looked at",
            Step::Changed => "changed",
            Step::Synced => "synced",
        }
    }
}

// Whether it is told that a step was done with so many of the files: now and then, and after the
// last.
fn is_told(done: usize, files: usize) -> bool {
    done % EACH == 0 || done == files
}

impl ProgressStyle {
    // One line on a terminal, lines elsewhere if they are asked for.
    fn of(quiet: bool, terminal: bool, asked: bool) -> ProgressStyle {
        match (quiet, terminal, asked) {
            (true, _, _) | (false, false, false) => ProgressStyle::Never,
            (false, true, _) => ProgressStyle::OneLine,
            (false, false, true) => ProgressStyle::Lines,
        }
    }

    /// How the words of a command want it told, where standard error may be a terminal.
    pub fn wanted(rt: &HostRuntime, quiet: bool, asked: bool) -> ProgressStyle {
        ProgressStyle::of(quiet, rt.stderr().is_terminal(), asked)
    }

    // Tells how many of the files a step was done with. What cannot be told is not.
    fn tell(self, rt: &HostRuntime, step: Step, done: usize, files: usize) {
        if !is_told(done, files) {
            return;
        }
        let word = step.word();
        let _ = match self {
            ProgressStyle::Never => Ok(()),
            ProgressStyle::Lines => eprintln!(rt; "unify: progress: {word} {done} of {files}"),
            ProgressStyle::OneLine => eprint!(rt; "\r\x1b[Kunify: {word} {done} of {files}"),
        };
    }

    /// Clears the line, so that something else may be told.
    pub fn clear(self, rt: &HostRuntime) {
        if self == ProgressStyle::OneLine {
            let _ = eprint!(rt; "\r\x1b[K");
        }
    }
}

/// A disk that tells how far a command is with its files. What it is asked for it asks another, and
/// counts what that one did.
#[derive(Drop)]
pub struct Telling<'w, D: Disk> {
    rt: &'w HostRuntime,
    style: ProgressStyle,
    disk: D,
    // How many files the plan has, how many were looked at, how many of those are to be changed,
    // and how many were.
    files: usize,
    looked: usize,
    to_change: usize,
    changed: usize,
    synced: usize,
}

impl<'w, D: Disk> Telling<'w, D> {
    /// Tells of a disk with so many files of a plan.
    pub fn of(rt: &'w HostRuntime, style: ProgressStyle, files: usize, disk: D) -> Telling<'w, D>
        ensures { D.calls result.disk ≡ D.calls disk }
    {
        Telling {
            rt,
            style,
            disk,
            files,
            looked: 0,
            to_change: 0,
            changed: 0,
            synced: 0,
        }
    }

    // One more file was looked at.
    fn count_look(&mut self)
        ensures { self.new.disk ≡ self.old.disk }
    {
        self.looked = self.looked.saturating_add(1);
        self.style
            .tell(self.rt, Step::Looked, self.looked, self.files);
    }

    // One more was met, and is to be changed or has its new owner.
    fn count_met(&mut self, found: Option<Owner>, after: Owner)
        ensures { self.new.disk ≡ self.old.disk }
    {
        if found != Some(after) {
            self.to_change = self.to_change.saturating_add(1);
        }
        self.count_look();
    }

    // One more was changed.
    fn count_change(&mut self)
        ensures { self.new.disk ≡ self.old.disk }
    {
        self.changed = self.changed.saturating_add(1);
        self.style
            .tell(self.rt, Step::Changed, self.changed, self.to_change);
    }

    // One more was synced.
    fn count_sync(&mut self)
        ensures { self.new.disk ≡ self.old.disk }
    {
        self.synced = self.synced.saturating_add(1);
        self.style
            .tell(self.rt, Step::Synced, self.synced, self.files);
    }
}

impl<'w, D: Disk> Disk for Telling<'w, D> {
    ghost calls = { λ telling. D.calls telling.disk };

    fn look(&mut self, path: &[u8]) -> Result<Option<Seen>, Trouble> {
        let seen = self.disk.look(path)?;
        self.count_look();
        Ok(seen)
    }

    fn meet(&mut self, path: &[u8], after: Owner) -> Result<Option<Owner>, Trouble> {
        let found = self.disk.meet(path, after)?;
        self.count_met(found, after);
        Ok(found)
    }

    fn meet_mark(&mut self, plan: &PlanMark) -> Result<bool, Trouble> {
        self.disk.meet_mark(plan)
    }

    fn check_links(&mut self, path: &[u8]) -> Result<(), Trouble> {
        self.disk.check_links(path)
    }

    fn owner(&mut self, path: &[u8]) -> Result<Option<Owner>, Trouble> {
        self.disk.owner(path)
    }

    fn give(&mut self, path: &[u8], before: Owner, after: Owner) -> Result<Modes, Trouble> {
        let modes = self.disk.give(path, before, after)?;
        self.count_change();
        Ok(modes)
    }

    fn set_mode(&mut self, path: &[u8], owner: Owner, mode: u32) -> Result<(), Trouble> {
        self.disk.set_mode(path, owner, mode)
    }

    fn keep(&mut self, path: &[u8], owner: Owner) -> Result<(), Trouble> {
        self.disk.keep(path, owner)?;
        self.count_sync();
        Ok(())
    }

    fn settle(&mut self) -> Result<(), Trouble> {
        self.disk.settle()
    }

    fn is_marked(&mut self, plan: &PlanMark) -> Result<bool, Trouble> {
        self.disk.is_marked(plan)
    }

    fn put_mark(&mut self, plan: &PlanMark) -> Result<(), Trouble> {
        self.disk.put_mark(plan)
    }

    // What was looked at before this was counted, and is met after it.
    fn read_modes(&mut self, plan: &PlanMark, mark: bool) -> Result<bool, Trouble> {
        self.looked = 0;
        self.disk.read_modes(plan, mark)
    }

    fn lost_mode(
        &mut self,
        plan: &PlanMark,
        path: &[u8],
        owner: Owner,
    ) -> Result<Option<u32>, Trouble> {
        self.disk.lost_mode(plan, path, owner)
    }

    // What was synced before is not of this run.
    fn put_modes(&mut self, plan: &PlanMark) -> Result<(), Trouble> {
        self.synced = 0;
        self.disk.put_modes(plan)
    }

    fn keep_mark(&mut self) -> Result<(), Trouble> {
        self.disk.keep_mark()
    }
}
