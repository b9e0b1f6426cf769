//! A tree of real files, held against what the run of its plan must have made of it.
ghost use Rattle.std.specs.Prelude.{◌≡◌, ◌+◌, ◌^◌, ◌<◌, ◌≤◌, [], ◌∷◌, true, false, None};
ghost use Rattle.std.specs.Prelude.{Some};
ghost use Rattle.std.specs.Prelude.{IfOk, IfErr, OnOk, OnErr, IsSome, Contains};

use crate::comparing::{check_mark, check_owner};
use crate::giving::{give_file, has_change, sync_all};
use crate::opening::begun_tree;
use crate::{Disk, Failure, OpenFault, Trouble};
use reown_plan::{Owner, Plan, PlanMark, Record};
use reown_runner::{DeviceFault, MemTree, Tree};
use std::alloc::Global;
use std::marker::Model;

mod faults;

/// The files of a plan on a disk, held against what the run of the plan must have made of them: a
/// call that finds anything else fails. Each read looks at the disk. Nothing is written but what
/// the plan has, and the mark is set only where each file was seen at its new owner and synced
/// after the last write. A call takes a look-up by bisection and the calls of its disk; a sync is
/// one pass over the plan.
#[derive(Drop)]
pub struct RealTree<'p, 'a, D: Disk> {
    mark: PlanMark,
    records: &'p [Record<'a>],
    held: MemTree,
    disk: D,
    is_kept: bool,
    is_stopped: bool,
    faults: u64,
    asked: u64,
    failure: Option<Failure>,
}

/// A disk whose files a tree was not opened on, and why.
#[derive(Drop)]
pub struct Refused<D: Disk> {
    pub fault: OpenFault,
    pub disk: D,
}

impl<'p, 'a, D: Disk> Model for RealTree<'p, 'a, D> {
    ghost use Rattle.std.specs.Prelude.{◌≡◌, map, true, false};
    ghost use Rattle.reown_plan.specs.Records.{record_of};
    ghost use Rattle.reown_files.specs.Lawful.{is_lawful, is_begun, is_synced, no_mode_failed};
    ghost use Rattle.reown_files.specs.Real.{RealData, HoldsReplay};

    ghost Value = { RealData };

    ghost view = { λ r. record {
      mark = r.mark;
      records = map record_of r.records.now;
      tree = r.held;
      is_kept = r.is_kept;
      is_stopped = r.is_stopped;
      faults = r.faults;
      failure = r.failure;
      asked = r.asked;
      calls = D.calls r.disk;
    } };

    ghost invariant = { λ r. (r.held.paths ≡ map (λ x. x.path) (map record_of r.records.now))
        × (is_lawful r.mark (map record_of r.records.now) (D.calls r.disk) ≡ true)
        × (r.is_kept ≡ true → is_synced (map record_of r.records.now) (D.calls r.disk) ≡ true)
        × (is_begun (map record_of r.records.now) (D.calls r.disk) ≡ true)
        × HoldsReplay r.faults (D.calls r.disk) r.held
        × (r.is_stopped ≡ false → no_mode_failed (D.calls r.disk) ≡ true) };
}

ghost use Rattle.reown_files.specs.Lawful.{is_lawful, is_mark_kept, is_planned, is_unchanged};
ghost use Rattle.reown_files.specs.Calls.{Saw, SawMark};
ghost use Rattle.reown_files.specs.Opening.{IsRefusal, MetFit};
ghost use Rattle.reown_files.specs.Replay.{replay};
ghost use Rattle.reown_files.specs.Stages.{stage_in};
ghost use Rattle.reown_files.specs.Real.{RealData, HoldsReplay, known_real, readable_real};
ghost use Rattle.reown_files.specs.Real.{Grows, IsLater, later_rests, later_goes_on, place_of};
ghost use Rattle.reown_files.specs.Real.{FailsAt, FailsToSync, AsksMore, KeepsMore, GivesMore};
ghost use Rattle.reown_files.specs.Real.{PutsMore, FailsBy, IsOutside, IsNotGiven, IsNotPut};
ghost use Rattle.reown_files.specs.Failed.{Last, AskedLast, SeesOtherwise, SeesMarkOtherwise};
ghost use Rattle.reown_files.specs.Failed.{FailsToGive, FailsToSettle};
ghost use Rattle.reown_runner.specs.Memory.{known_mem, marked, settled};
ghost use Rattle.reown_runner.specs.Halfway.{MayGoOn};
ghost use Rattle.reown_plan.specs.Mark.{mark_of, mark_eq, is_marked_for};
ghost use Rattle.reown_runner.specs.Tree.{cells_of, ForEachPlan, counted, Same, Writes, SetsMark};
ghost use Rattle.reown_runner.specs.Tree.{Syncs, Stops, MayDo, Write, SetMark, Sync, IsCounted};
ghost use Rattle.reown_runner.specs.Tree.{MarksNoOther};

impl<'p, 'a, D: Disk> RealTree<'p, 'a, D> {
    /// Opens the files of a plan on a disk, as an earlier run of the plan may have left them, or
    /// none. What modes such a run lost are set back; that and what else it did is synced, so that
    /// a stop of the machine leaves it; and those that this one may lose are written down. Three
    /// passes over the plan. A plan was begun where its modes are written down, or its mark is
    /// there; or the caller knows that it was, by `was_begun`.
    ///
    /// # Errors
    ///
    /// Modes of an earlier run that cannot be read, or another plan that has not ended; then the
    /// first record, in order, whose file is not there, or has neither its old nor its new owner,
    /// or its old one where the mark is set, or its new one where the plan was not begun; then the
    /// first whose file has a name that is not in the plan; a call of the disk that failed; or want
    /// of memory. Nothing is changed then but modes that were set back, and the disk is handed
    /// back.
    pub fn open(
        alloc: Global,
        plan: &'p Plan<'a>,
        was_begun: bool,
        mut disk: D,
    ) -> Result<Self, Refused<D>>
        requires { D.calls disk ≡ [] }
        ensures mark { IfOk result (λ tree. tree.mark ≡ mark_of plan.now) }
        ensures records { IfOk result (λ tree. tree.records ≡ plan.now.records) }
        ensures safe { IfOk result
            (λ tree. MayGoOn plan.now.records (cells_of (mark_of plan.now) (known_real tree))) }
        ensures fit { IfOk result (λ tree. MetFit
            (stage_in was_begun (mark_of plan.now) (replay tree.calls))
            plan.now.records tree.calls) }
        ensures none_failed { IfOk result
            (λ tree. (tree.faults ≡ 0) × (tree.failure ≡ None) × (tree.asked ≡ 0)) }
        ensures unchanged { IfErr result (λ refused. is_unchanged (D.calls refused.disk) ≡ true) }
        ensures lawful { IfErr result (λ refused.
            is_lawful (mark_of plan.now) plan.now.records (D.calls refused.disk) ≡ true) }
        ensures refused { IfErr result (λ refused. IsRefusal
            (stage_in was_begun (mark_of plan.now) (replay (D.calls refused.disk)))
            plan.now.records (D.calls refused.disk) refused.fault) }
    {
        let mark = plan.mark();
        let records = plan.records();
        match begun_tree(alloc, &mut disk, &mark, records, was_begun) {
            Ok(held) => Ok(RealTree {
                mark,
                records,
                held,
                disk,
                is_kept: false,
                is_stopped: false,
                faults: 0,
                asked: 0,
                failure: None,
            }),
            Err(fault) => Err(Refused { fault, disk }),
        }
    }

    /// Nothing was asked of the disk but what the plan has, and that in its order; and what is held
    /// of each file and of the mark is what that has made of them, beginning with what `open`
    /// found. It is a law, and does nothing.
    pub fn asks_only_the_plan(&self)
        ensures lawful { is_lawful self.now.mark self.now.records self.now.calls ≡ true }
        ensures replayed { HoldsReplay self.now.faults self.now.calls self.now.tree }
    {
        let _kept = self.is_kept;
    }

    /// Where a call has failed last, and why, as far as the disk told. Constant time.
    pub fn failure(&self) -> Option<Failure>
        ensures { result ≡ self.now.failure }
    {
        self.failure
    }
}

// What is held.
impl<'p, 'a, D: Disk> RealTree<'p, 'a, D> {
    fn held_owner(&mut self, path: &[u8]) -> Option<Owner>
        ensures answer { result ≡ (known_mem self.old.tree).owner path.now }
        ensures untouched { self.new ≡ self.old }
    {
        self.held.owner(path).unwrap()
    }

    fn held_mark(&mut self, plan: &PlanMark) -> bool
        ensures answer { result ≡ is_marked_for plan.now (known_mem self.old.tree).mark }
        ensures untouched { self.new ≡ self.old }
    {
        self.held.is_marked(plan).unwrap()
    }

    // Holds an owner that no call has given, where no call may fail any more.
    fn write(&mut self, path: &[u8], owner: Owner)
        requires there { IsSome ((known_mem self.old.tree).owner path.now) }
        requires last { 2 ^ 64 ≤ self.old.faults + 1 }
        ensures done { ForEachPlan (Writes path.now owner)
            (known_mem self.old.tree) (known_mem self.new.tree) }
        ensures rest { self.new ≡ record self.old { tree = self.new.tree } }
    {
        self.held.set_owner(path, owner).unwrap()
    }

    // Holds the mark where no call has put it, and no call may fail any more.
    fn write_mark(&mut self, plan: &PlanMark)
        requires { 2 ^ 64 ≤ self.old.faults + 1 }
        ensures done { SetsMark
            (cells_of plan.now (known_mem self.old.tree))
            (cells_of plan.now (known_mem self.new.tree)) }
        ensures rest { self.new ≡ record self.old { tree = marked plan.now self.old.tree } }
    {
        self.held.set_mark(plan).unwrap()
    }

    fn settle(&mut self)
        ensures done { ForEachPlan Syncs (known_mem self.old.tree) (known_mem self.new.tree) }
        ensures rest { self.new ≡ record self.old { tree = settled self.old.tree } }
    {
        self.held.sync().unwrap()
    }

    // What a stop has left is for the next `open` to find: what was held is among it.
    fn leave(&mut self)
        ensures left { ForEachPlan Stops (known_mem self.old.tree) (known_mem self.new.tree) }
        ensures rest { self.new
            ≡ record self.old { tree = settled self.old.tree; is_stopped = true } }
    {
        self.is_stopped = true;
        self.settle();
    }
}

// What is asked of the disk. Each answers whether that was done, and found as it must be.
impl<'p, 'a, D: Disk> RealTree<'p, 'a, D> {
    fn compare_owner(&mut self, path: &[u8], held: Option<Owner>) -> Result<(), Trouble>
        ensures saw { OnOk result (self.new.calls ≡ Saw path.now held ∷ self.old.calls) }
        ensures rest { self.new ≡ record self.old { calls = self.new.calls } }
        ensures grows { Grows self.old.calls self.new.calls }
        ensures failed { OnErr result (FailsBy (SeesOtherwise path.now held) self.old self.new) }
    {
        if self.is_stopped {
            return Err(Trouble::NotDone);
        }
        let found = self.disk.owner(path)?;
        check_owner(found, held)
    }

    // The disk has this owner, or none, for the file.
    fn sees(&mut self, path: &[u8], held: Option<Owner>) -> bool
        ensures saw { result ≡ true → self.new.calls ≡ Saw path.now held ∷ self.old.calls }
        ensures failure { result ≡ false
            → FailsAt (place_of self.old.records path.now) self.new.failure }
        ensures rest { AsksMore self.old self.new }
        ensures grows { Grows self.old.calls self.new.calls }
        ensures failed { result ≡ false → FailsBy (SeesOtherwise path.now held) self.old self.new }
    {
        let told = self.compare_owner(path, held);
        let place = self.held.index_of(path);
        self.note(place, told)
    }

    // Whether the plan has this change.
    fn plans(&self, path: &[u8], before: Owner, after: Owner) -> bool
        ensures planned { result ≡ true → is_planned self.now.records path.now before after ≡ true }
        ensures outside { result ≡ false
            → IsOutside self.now.records path.now (Some before) after }
    {
        match self.held.index_of(path) {
            Some(i) => has_change(self.records, i, path, before, after),
            None => false,
        }
    }

    // Makes a change that the plan has. What was given is held, also where its mode was not set
    // back; that is for the next `open` then, and the tree is stopped.
    fn give_planned(&mut self, path: &[u8], before: Owner, after: Owner) -> Result<(), Trouble>
        requires runs { self.old.is_stopped ≡ false }
        requires planned { is_planned self.old.records path.now before after ≡ true }
        requires there { IsSome ((known_mem self.old.tree).owner path.now) }
        ensures done { OnOk result (ForEachPlan (Writes path.now after)
            (known_mem self.old.tree) (known_mem self.new.tree)) }
        ensures failed { OnErr result (ForEachPlan (MayDo (Write path.now after))
            (known_mem self.old.tree) (known_mem self.new.tree)) }
        ensures rest { GivesMore self.old self.new }
        ensures grows { Grows self.old.calls self.new.calls }
        ensures why { OnErr result
            (AskedLast (FailsToGive path.now after) self.old.calls self.new.calls) }
    {
        self.is_kept = false;
        let change = give_file(&mut self.disk, path, before, after);
        if change.is_made {
            self.held.set_owner(path, after).unwrap();
            self.is_stopped = change.told.is_err();
        }
        change.told
    }

    // Makes a change, where the plan has it.
    fn give(&mut self, path: &[u8], before: Option<Owner>, after: Owner) -> Result<(), Trouble>
        requires { before ≡ (known_mem self.old.tree).owner path.now }
        ensures done { OnOk result (ForEachPlan (Writes path.now after)
            (known_mem self.old.tree) (known_mem self.new.tree)) }
        ensures failed { OnErr result (ForEachPlan (MayDo (Write path.now after))
            (known_mem self.old.tree) (known_mem self.new.tree)) }
        ensures rest { GivesMore self.old self.new }
        ensures grows { Grows self.old.calls self.new.calls }
        ensures why { OnErr result (IsNotGiven path.now after self.old self.new) }
    {
        let Some(before) = before else {
            return Err(Trouble::Gone);
        };
        if self.is_stopped {
            return Err(Trouble::NotDone);
        }
        if !self.plans(path, before, after) {
            return Err(Trouble::NotDone);
        }
        self.give_planned(path, before, after)
    }

    fn gives(&mut self, path: &[u8], before: Option<Owner>, after: Owner) -> bool
        requires { before ≡ (known_mem self.old.tree).owner path.now }
        ensures done { result ≡ true → ForEachPlan (Writes path.now after)
            (known_mem self.old.tree) (known_mem self.new.tree) }
        ensures failed { result ≡ false → ForEachPlan (MayDo (Write path.now after))
            (known_mem self.old.tree) (known_mem self.new.tree) }
        ensures failure { result ≡ false
            → FailsAt (place_of self.old.records path.now) self.new.failure }
        ensures rest { GivesMore self.old self.new }
        ensures grows { Grows self.old.calls self.new.calls }
        ensures why { result ≡ false → IsNotGiven path.now after self.old self.new }
    {
        let told = self.give(path, before, after);
        let place = self.held.index_of(path);
        self.note(place, told)
    }

    // Each file was seen at its new owner and synced after the last write; and so the mark, where
    // it is held.
    fn keeps(&mut self, mark: bool) -> bool
        ensures kept { result ≡ true → mark ≡ true → is_mark_kept self.new.calls ≡ true }
        ensures failure { result ≡ false → FailsToSync self.old self.new self.new.failure }
        ensures rest { KeepsMore self.old self.new }
        ensures grows { Grows self.old.calls self.new.calls }
    {
        self.keeps_files() && self.keeps_mark(mark)
    }

    fn keeps_files(&mut self) -> bool
        ensures failure { result ≡ false → FailsToSync self.old self.new self.new.failure }
        ensures rest { KeepsMore self.old self.new }
        ensures grows { Grows self.old.calls self.new.calls }
    {
        if self.is_stopped {
            return self.note(None, Err(Trouble::NotDone));
        }
        self.is_kept || self.keeps_each()
    }

    fn keeps_each(&mut self) -> bool
        ensures failure { result ≡ false → FailsToSync self.old self.new self.new.failure }
        ensures rest { KeepsMore self.old self.new }
        ensures grows { Grows self.old.calls self.new.calls }
    {
        self.is_kept = false;
        match sync_all(&mut self.disk, self.records) {
            Ok(()) => {
                self.is_kept = true;
                true
            }
            Err(failure) => {
                self.failure = Some(failure);
                false
            }
        }
    }

    fn compare_mark(&mut self, plan: &PlanMark, held: bool) -> Result<(), Trouble>
        ensures saw { OnOk result (self.new.calls ≡ SawMark plan.now held ∷ self.old.calls) }
        ensures rest { self.new ≡ record self.old { calls = self.new.calls } }
        ensures grows { Grows self.old.calls self.new.calls }
        ensures failed { OnErr result
            (FailsBy (SeesMarkOtherwise plan.now held) self.old self.new) }
    {
        if self.is_stopped {
            return Err(Trouble::NotDone);
        }
        let set = self.disk.is_marked(plan)?;
        check_mark(set, held)
    }

    // The disk has the mark of the plan, or does not have it.
    fn sees_mark(&mut self, plan: &PlanMark, held: bool) -> bool
        ensures saw { result ≡ true → self.new.calls ≡ SawMark plan.now held ∷ self.old.calls }
        ensures failure { result ≡ false → FailsAt None self.new.failure }
        ensures rest { AsksMore self.old self.new }
        ensures grows { Grows self.old.calls self.new.calls }
        ensures failed { result ≡ false
            → FailsBy (SeesMarkOtherwise plan.now held) self.old self.new }
    {
        let told = self.compare_mark(plan, held);
        self.note(None, told)
    }

    // Whether the mark is that of the plan.
    fn is_own(&self, plan: &PlanMark) -> bool
        ensures { result ≡ mark_eq plan.now self.now.mark }
    {
        *plan == self.mark
    }

    // Puts the mark of the plan, where each file was kept after the last write. One that was put
    // is held.
    fn put_mark(&mut self, plan: &PlanMark) -> Result<(), Trouble>
        ensures marked { OnOk result (self.new.tree ≡ marked plan.now self.old.tree) }
        ensures failed { OnErr result (self.new.tree ≡ self.old.tree) }
        ensures rest { self.new ≡ record self.old { tree = self.new.tree; calls = self.new.calls } }
        ensures grows { Grows self.old.calls self.new.calls }
        ensures why { OnErr result (IsNotPut plan.now self.old self.new) }
    {
        if self.is_stopped {
            return Err(Trouble::NotDone);
        }
        if !self.is_kept {
            return Err(Trouble::NotDone);
        }
        if !self.is_own(plan) {
            return Err(Trouble::NotDone);
        }
        self.disk.put_mark(plan)?;
        self.held.set_mark(plan).unwrap();
        Ok(())
    }

    fn puts_mark(&mut self, plan: &PlanMark) -> bool
        ensures marked { result ≡ true → self.new.tree ≡ marked plan.now self.old.tree }
        ensures failed { result ≡ false → self.new.tree ≡ self.old.tree }
        ensures failure { result ≡ false → FailsAt None self.new.failure }
        ensures rest { PutsMore self.old self.new }
        ensures grows { Grows self.old.calls self.new.calls }
        ensures why { result ≡ false → IsNotPut plan.now self.old self.new }
    {
        let told = self.put_mark(plan);
        self.note(None, told)
    }

    fn keeps_mark(&mut self, held: bool) -> bool
        ensures kept { result ≡ true → held ≡ true → is_mark_kept self.new.calls ≡ true }
        ensures failure { result ≡ false → FailsAt None self.new.failure }
        ensures failed { result ≡ false → Last FailsToSettle self.new.calls }
        ensures rest { AsksMore self.old self.new }
        ensures grows { Grows self.old.calls self.new.calls }
    {
        if !held {
            return true;
        }
        let told = self.disk.keep_mark();
        self.note(None, told)
    }
}

impl<'p, 'a, D: Disk> Tree for RealTree<'p, 'a, D> {
    ghost known = { known_real };

    ghost follows = { IsLater };

    fn owner(&mut self, path: &[u8]) -> Result<Option<Owner>, DeviceFault>
        ensures answer { IfOk result (λ owner. owner ≡ (known_real self.old).owner path.now) }
        ensures saw { IfOk result (λ owner. self.old.faults + 1 < 2 ^ 64
            → self.new.calls ≡ Saw path.now owner ∷ self.old.calls) }
        ensures same { ForEachPlan Same (known_real self.old) (known_real self.new) }
        ensures faults { IsCounted
            (known_real self.old).faults (known_real self.new).faults result }
        ensures asked { (known_real self.new).asked ≡ (known_real self.old).asked }
        ensures failure { OnErr result
            (FailsAt (place_of self.old.records path.now) self.new.failure) }
        ensures why { OnErr result (FailsBy
            (SeesOtherwise path.now ((known_real self.old).owner path.now)) self.old self.new) }
        ensures later { IsLater self.old self.new }
    {
        let held = self.held_owner(path);
        if self.sees(path, held) {
            return Ok(held);
        }
        if self.may_fail() {
            return Err(self.fail());
        }
        Ok(held)
    }

    fn set_owner(&mut self, path: &[u8], owner: Owner) -> Result<(), DeviceFault>
        requires { IsSome ((known_real self.old).owner path.now) }
        ensures done { OnOk result (ForEachPlan (Writes path.now owner)
            (known_real self.old) (known_real self.new)) }
        ensures failed { OnErr result (ForEachPlan (MayDo (Write path.now owner))
            (known_real self.old) (known_real self.new)) }
        ensures faults { IsCounted
            (known_real self.old).faults (known_real self.new).faults result }
        ensures asked { (known_real self.new).asked ≡ counted (known_real self.old).asked }
        ensures failure { OnErr result
            (FailsAt (place_of self.old.records path.now) self.new.failure) }
        ensures why { OnErr result (IsNotGiven path.now owner self.old self.new) }
        ensures later { IsLater self.old self.new }
    {
        self.count();
        let held = self.held_owner(path);
        if self.gives(path, held, owner) {
            return Ok(());
        }
        if self.may_fail() {
            return Err(self.fail());
        }
        self.write(path, owner);
        Ok(())
    }

    fn is_marked(&mut self, plan: &PlanMark) -> Result<bool, DeviceFault>
        ensures answer { IfOk result
            (λ set. set ≡ is_marked_for plan.now (known_real self.old).mark) }
        ensures saw { IfOk result (λ set. self.old.faults + 1 < 2 ^ 64
            → self.new.calls ≡ SawMark plan.now set ∷ self.old.calls) }
        ensures same { ForEachPlan Same (known_real self.old) (known_real self.new) }
        ensures faults { IsCounted
            (known_real self.old).faults (known_real self.new).faults result }
        ensures asked { (known_real self.new).asked ≡ (known_real self.old).asked }
        ensures failure { OnErr result (FailsAt None self.new.failure) }
        ensures why { OnErr result (FailsBy (SeesMarkOtherwise plan.now
            (is_marked_for plan.now (known_real self.old).mark)) self.old self.new) }
        ensures later { IsLater self.old self.new }
    {
        let held = self.held_mark(plan);
        if self.sees_mark(plan, held) {
            return Ok(held);
        }
        if self.may_fail() {
            return Err(self.fail());
        }
        Ok(held)
    }

    fn set_mark(&mut self, plan: &PlanMark) -> Result<(), DeviceFault>
        ensures done { OnOk result (SetsMark
            (cells_of plan.now (known_real self.old))
            (cells_of plan.now (known_real self.new))) }
        ensures failed { OnErr result (MayDo SetMark
            (cells_of plan.now (known_real self.old))
            (cells_of plan.now (known_real self.new))) }
        ensures no_other { MarksNoOther plan.now (known_real self.old) (known_real self.new) }
        ensures faults { IsCounted
            (known_real self.old).faults (known_real self.new).faults result }
        ensures asked { (known_real self.new).asked ≡ counted (known_real self.old).asked }
        ensures failure { OnErr result (FailsAt None self.new.failure) }
        ensures why { OnErr result (IsNotPut plan.now self.old self.new) }
        ensures later { IsLater self.old self.new }
    {
        self.count();
        if self.puts_mark(plan) {
            return Ok(());
        }
        if self.may_fail() {
            return Err(self.fail());
        }
        self.write_mark(plan);
        Ok(())
    }

    fn sync(&mut self) -> Result<(), DeviceFault>
        ensures done { OnOk result (ForEachPlan Syncs (known_real self.old) (known_real self.new)) }
        ensures kept { OnOk result (self.old.faults + 1 < 2 ^ 64
            → is_marked_for self.old.mark (known_real self.old).mark ≡ true
            → is_mark_kept self.new.calls ≡ true) }
        ensures failed { OnErr result
            (ForEachPlan (MayDo Sync) (known_real self.old) (known_real self.new)) }
        ensures faults { IsCounted
            (known_real self.old).faults (known_real self.new).faults result }
        ensures asked { (known_real self.new).asked ≡ counted (known_real self.old).asked }
        ensures failure { OnErr result (FailsToSync self.old self.new self.new.failure) }
        ensures later { IsLater self.old self.new }
    {
        self.count();
        let plan = self.mark;
        let held = self.held_mark(&plan);
        if !self.keeps(held) && self.may_fail() {
            return Err(self.fail());
        }
        self.settle();
        Ok(())
    }

    fn reopen(&mut self)
        ensures left { ForEachPlan Stops (known_real self.old) (known_real self.new) }
        ensures mark { Contains (known_real self.old).marks_left (known_real self.new).mark }
        ensures faults { (known_real self.new).faults ≡ (known_real self.old).faults }
        ensures asked { (known_real self.new).asked ≡ (known_real self.old).asked }
        ensures later { IsLater self.old self.new }
    {
        self.leave();
    }

    fn faults(&self) -> u64 {
        self.faults
    }

    ghost readable = { readable_real };

    ghost rests = { later_rests };

    ghost goes_on = { later_goes_on };
}
