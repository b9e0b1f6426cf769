//! A tree whose calls fail by a script.
ghost use Rattle.std.specs.Prelude.{◌≡◌, ◌≢◌, ◌+◌, ◌^◌, ◌<◌, drop};
ghost use Rattle.reown_runner.specs.declared.failing.Item.TheVariants.{Pass};

use crate::{DeviceFault, MemTree, Tree};
use reown_plan::{Owner, PlanMark};
use std::marker::Model;

/// What a call does.
#[derive(Clone, Copy, Debug, PartialEq, Eq)]
pub enum Item {
    /// It is done.
    Pass,
    /// It fails, and nothing is done.
    FailBefore,
    /// It is done, and then fails.
    FailAfter,
}

/// A tree in memory whose calls fail by a script. Its calls cost what those of the tree in memory
/// do.
#[derive(Drop)]
pub struct FailTree {
    tree: MemTree,
    script: Vec<Item>,
    next: usize,
    faults: u64,
    asked: u64,
}

impl Model for FailTree {
    ghost use Rattle.std.specs.Prelude.{drop, length, ◌≤◌};
    ghost use Rattle.reown_runner.specs.Failing.{Failing};

    ghost Value = { Failing };

    ghost view = { λ f. record {
      tree = f.tree;
      script = drop f.next f.script.items;
      faults = f.faults;
      asked = f.asked;
    } };

    ghost invariant = { λ f. f.next ≤ length f.script.items };
}

ghost use Rattle.reown_runner.specs.Failing.{known_failing, readable_failing, next_item};
ghost use Rattle.reown_runner.specs.Failing.{IsScripted};
ghost use Rattle.reown_runner.specs.Memory.{known_mem, IsWritten, marked, settled, IsReopened};
ghost use Rattle.reown_runner.specs.Tree.{cells_of, ForEachPlan, counted, Same, Writes, SetsMark};
ghost use Rattle.reown_runner.specs.Tree.{Syncs, Stops, MayDo, Write, SetMark, Sync, IsCounted};
ghost use Rattle.reown_runner.specs.Tree.{MarksNoOther};
ghost use Rattle.reown_plan.specs.Mark.{is_marked_for};
ghost use Rattle.std.specs.Prelude.{⊤, OnOk, OnErr, IfOk, IsSome, Contains};

impl FailTree {
    /// A tree whose calls fail by this script, and pass after its end. Each read, write and sync
    /// takes one item. Constant time.
    pub fn new(tree: MemTree, script: Vec<Item>) -> Self
        ensures { result ≡ record { tree = tree; script = script.items; faults = 0; asked = 0 } }
    {
        FailTree {
            tree,
            script,
            next: 0,
            faults: 0,
            asked: 0,
        }
    }

    // The next item of the script.
    fn take(&mut self) -> Item
        ensures item { result ≡ next_item self.old }
        ensures script { self.new ≡ record self.old { script = drop 1 self.old.script } }
        ensures room { result ≢ Pass → self.old.faults + 1 < 2 ^ 64 }
    {
        if self.next == self.script.len() {
            return Item::Pass;
        }
        let item = self.script[self.next];
        self.next += 1;
        if self.faults == u64::MAX {
            return Item::Pass;
        }
        item
    }

    fn fail(&mut self) -> DeviceFault
        requires { self.old.faults + 1 < 2 ^ 64 }
        ensures { self.new ≡ record self.old { faults = self.old.faults + 1 } }
    {
        self.faults += 1;
        DeviceFault
    }

    fn count(&mut self)
        ensures { self.new ≡ record self.old { asked = counted self.old.asked } }
    {
        self.asked = self.asked.saturating_add(1);
    }
}

// What is done to the tree below, which doesn't fail.
impl FailTree {
    fn read_owner(&mut self, path: &[u8]) -> Option<Owner>
        ensures answer { result ≡ (known_mem self.old.tree).owner path.now }
        ensures untouched { self.new ≡ self.old }
    {
        self.tree.owner(path).unwrap()
    }

    fn read_mark(&mut self, plan: &PlanMark) -> bool
        ensures answer { result ≡ is_marked_for plan.now (known_mem self.old.tree).mark }
        ensures untouched { self.new ≡ self.old }
    {
        self.tree.is_marked(plan).unwrap()
    }

    fn write(&mut self, path: &[u8], owner: Owner)
        requires { IsSome ((known_mem self.old.tree).owner path.now) }
        ensures done { ForEachPlan (Writes path.now owner) (known_mem self.old.tree)
            (known_mem self.new.tree) }
        ensures written { IsWritten path.now owner self.old.tree self.new.tree }
        ensures rest { self.new ≡ record self.old { tree = self.new.tree } }
    {
        self.tree.set_owner(path, owner).unwrap()
    }

    fn write_mark(&mut self, plan: &PlanMark)
        ensures done { SetsMark (cells_of plan.now (known_mem self.old.tree))
            (cells_of plan.now (known_mem self.new.tree)) }
        ensures marked { self.new ≡ record self.old { tree = marked plan.now self.old.tree } }
    {
        self.tree.set_mark(plan).unwrap()
    }

    fn settle(&mut self)
        ensures done { ForEachPlan Syncs (known_mem self.old.tree) (known_mem self.new.tree) }
        ensures settled { self.new ≡ record self.old { tree = settled self.old.tree } }
    {
        self.tree.sync().unwrap()
    }

    fn stop(&mut self)
        ensures left { ForEachPlan Stops (known_mem self.old.tree) (known_mem self.new.tree) }
        ensures chosen { IsReopened self.old.tree self.new.tree }
        ensures rest { self.new ≡ record self.old { tree = self.new.tree } }
    {
        self.tree.reopen();
    }
}

impl Tree for FailTree {
    ghost known = { known_failing };

    ghost follows = { λ _ _. ⊤ };

    fn owner(&mut self, path: &[u8]) -> Result<Option<Owner>, DeviceFault>
        ensures answer { IfOk result (λ owner. owner ≡ (known_failing self.old).owner path.now) }
        ensures same { ForEachPlan Same (known_failing self.old) (known_failing self.new) }
        ensures faults { IsCounted (known_failing self.old).faults (known_failing self.new).faults
            result }
        ensures asked { (known_failing self.new).asked ≡ (known_failing self.old).asked }
        ensures scripted { IsScripted (next_item self.old) result ⊤ ⊤ }
        ensures untouched { self.new.tree ≡ self.old.tree }
        ensures script { self.new.script ≡ drop 1 self.old.script }
    {
        match self.take() {
            Item::Pass => Ok(self.read_owner(path)),
            Item::FailBefore | Item::FailAfter => Err(self.fail()),
        }
    }

    fn set_owner(&mut self, path: &[u8], owner: Owner) -> Result<(), DeviceFault>
        requires { IsSome ((known_failing self.old).owner path.now) }
        ensures done { OnOk result
            (ForEachPlan (Writes path.now owner) (known_failing self.old)
            (known_failing self.new)) }
        ensures failed { OnErr result
            (ForEachPlan (MayDo (Write path.now owner)) (known_failing self.old)
            (known_failing self.new)) }
        ensures faults { IsCounted (known_failing self.old).faults (known_failing self.new).faults
            result }
        ensures asked { (known_failing self.new).asked ≡ counted (known_failing self.old).asked }
        ensures scripted { IsScripted (next_item self.old) result (self.new.tree ≡ self.old.tree)
            (IsWritten path.now owner self.old.tree self.new.tree) }
        ensures script { self.new.script ≡ drop 1 self.old.script }
    {
        self.count();
        match self.take() {
            Item::Pass => {
                self.write(path, owner);
                Ok(())
            }
            Item::FailBefore => Err(self.fail()),
            Item::FailAfter => {
                self.write(path, owner);
                Err(self.fail())
            }
        }
    }

    fn is_marked(&mut self, plan: &PlanMark) -> Result<bool, DeviceFault>
        ensures answer { IfOk result
            (λ set. set ≡ is_marked_for plan.now (known_failing self.old).mark) }
        ensures same { ForEachPlan Same (known_failing self.old) (known_failing self.new) }
        ensures faults { IsCounted (known_failing self.old).faults (known_failing self.new).faults
            result }
        ensures asked { (known_failing self.new).asked ≡ (known_failing self.old).asked }
        ensures scripted { IsScripted (next_item self.old) result ⊤ ⊤ }
        ensures untouched { self.new.tree ≡ self.old.tree }
        ensures script { self.new.script ≡ drop 1 self.old.script }
    {
        match self.take() {
            Item::Pass => Ok(self.read_mark(plan)),
            Item::FailBefore | Item::FailAfter => Err(self.fail()),
        }
    }

    fn set_mark(&mut self, plan: &PlanMark) -> Result<(), DeviceFault>
        ensures done { OnOk result
            (SetsMark (cells_of plan.now (known_failing self.old))
            (cells_of plan.now (known_failing self.new))) }
        ensures failed { OnErr result
            (MayDo SetMark (cells_of plan.now (known_failing self.old))
            (cells_of plan.now (known_failing self.new))) }
        ensures no_other { MarksNoOther plan.now (known_failing self.old) (known_failing self.new) }
        ensures faults { IsCounted (known_failing self.old).faults (known_failing self.new).faults
            result }
        ensures asked { (known_failing self.new).asked ≡ counted (known_failing self.old).asked }
        ensures scripted { IsScripted (next_item self.old) result (self.new.tree ≡ self.old.tree)
            (self.new.tree ≡ marked plan.now self.old.tree) }
        ensures script { self.new.script ≡ drop 1 self.old.script }
    {
        self.count();
        match self.take() {
            Item::Pass => {
                self.write_mark(plan);
                Ok(())
            }
            Item::FailBefore => Err(self.fail()),
            Item::FailAfter => {
                self.write_mark(plan);
                Err(self.fail())
            }
        }
    }

    fn sync(&mut self) -> Result<(), DeviceFault>
        ensures done { OnOk result
            (ForEachPlan Syncs (known_failing self.old) (known_failing self.new)) }
        ensures failed { OnErr result
            (ForEachPlan (MayDo Sync) (known_failing self.old) (known_failing self.new)) }
        ensures faults { IsCounted (known_failing self.old).faults (known_failing self.new).faults
            result }
        ensures asked { (known_failing self.new).asked ≡ counted (known_failing self.old).asked }
        ensures scripted { IsScripted (next_item self.old) result (self.new.tree ≡ self.old.tree)
            (self.new.tree ≡ settled self.old.tree) }
        ensures script { self.new.script ≡ drop 1 self.old.script }
    {
        self.count();
        match self.take() {
            Item::Pass => {
                self.settle();
                Ok(())
            }
            Item::FailBefore => Err(self.fail()), // Nothing is synced.
            Item::FailAfter => {
                self.settle();
                Err(self.fail())
            }
        }
    }

    fn reopen(&mut self)
        ensures left { ForEachPlan Stops (known_failing self.old) (known_failing self.new) }
        ensures mark { Contains (known_failing self.old).marks_left (known_failing self.new).mark }
        ensures faults { (known_failing self.new).faults ≡ (known_failing self.old).faults }
        ensures asked { (known_failing self.new).asked ≡ (known_failing self.old).asked }
        ensures chosen { IsReopened self.old.tree self.new.tree }
        ensures script { self.new.script ≡ self.old.script }
    {
        self.stop();
    }

    fn faults(&self) -> u64 {
        self.faults
    }

    ghost readable = { readable_failing };

    ghost rests = { λ _. tt };

    ghost goes_on = { λ _ _ _ _ _. tt };
}
