//! A tree of files as a runner sees it: what a read answers, and what a stop may leave.
ghost use Rattle.std.specs.Prelude.{◌≡◌, IfOk, OnOk, OnErr, IsSome, Contains};
ghost use Rattle.reown_plan.specs.Mark.{is_marked_for};
ghost use Rattle.reown_plan.specs.declared.mark.PlanMark.{PlanMark};
ghost use Rattle.reown_runner.specs.Tree.{TreeData, Write, SetMark, Sync, Same, Writes, SetsMark};
ghost use Rattle.reown_runner.specs.Tree.{Syncs, IsReadable, MayDo, Stops, cells_of, ForEachPlan};
ghost use Rattle.reown_runner.specs.Tree.{counted, IsCounted, MarksNoOther};

use reown_plan::{Owner, PlanMark};

/// A call of a tree's device failed.
#[derive(Clone, Copy, Debug, PartialEq, Eq)]
pub struct DeviceFault;

/// A tree of files with owners and a mark of the plan that was done last, on a device whose calls
/// may fail and which a stop may cut off: until a sync, a stop leaves in each cell by itself what
/// was written or what was there before (chown(2), fsync(2)). A stop inside a call leaves what one
/// after it would where the call has failed: its write or sync has happened or not, and no other.
/// What a call costs is for the tree to say.
pub trait Tree {
    /// What is known of it.
    ghost known: { Self → TreeData };

    /// What each call keeps to besides, between the tree before it and the tree after it; so a run
    /// of calls keeps to it too.
    ghost follows: { Self → Self → Type 0 };

    /// The owner of a file, if the file is there. Where it fails, nothing has happened.
    fn owner(&mut self, path: &[u8]) -> Result<Option<Owner>, DeviceFault>
        ensures answer { IfOk result (λ owner. owner ≡ (known self.old).owner path.now) }
        ensures same { ForEachPlan Same (known self.old) (known self.new) }
        ensures faults { IsCounted (known self.old).faults (known self.new).faults result }
        ensures asked { (known self.new).asked ≡ (known self.old).asked }
        ensures follows { follows self.old self.new };

    /// Gives a file that is there an owner. Where it fails, that has happened or not.
    fn set_owner(&mut self, path: &[u8], owner: Owner) -> Result<(), DeviceFault>
        requires { IsSome ((known self.old).owner path.now) }
        ensures done { OnOk result
            (ForEachPlan (Writes path.now owner) (known self.old) (known self.new)) }
        ensures failed { OnErr result
            (ForEachPlan (MayDo (Write path.now owner)) (known self.old) (known self.new)) }
        ensures faults { IsCounted (known self.old).faults (known self.new).faults result }
        ensures asked { (known self.new).asked ≡ counted (known self.old).asked }
        ensures follows { follows self.old self.new };

    /// Whether the tree is marked for this plan. Where it fails, nothing has happened.
    fn is_marked(&mut self, plan: &PlanMark) -> Result<bool, DeviceFault>
        ensures answer { IfOk result (λ set. set ≡ is_marked_for plan.now (known self.old).mark) }
        ensures same { ForEachPlan Same (known self.old) (known self.new) }
        ensures faults { IsCounted (known self.old).faults (known self.new).faults result }
        ensures asked { (known self.new).asked ≡ (known self.old).asked }
        ensures follows { follows self.old self.new };

    /// Marks the tree for this plan, whatever it was marked for, and for no other. Where it fails,
    /// that has happened or not.
    fn set_mark(&mut self, plan: &PlanMark) -> Result<(), DeviceFault>
        ensures done { OnOk result
            (SetsMark (cells_of plan.now (known self.old)) (cells_of plan.now (known self.new))) }
        ensures failed { OnErr result
            (MayDo SetMark (cells_of plan.now (known self.old))
            (cells_of plan.now (known self.new))) }
        ensures no_other { MarksNoOther plan.now (known self.old) (known self.new) }
        ensures faults { IsCounted (known self.old).faults (known self.new).faults result }
        ensures asked { (known self.new).asked ≡ counted (known self.old).asked }
        ensures follows { follows self.old self.new };

    /// After it a stop leaves what is read. Where it fails, it counts as a sync or not.
    fn sync(&mut self) -> Result<(), DeviceFault>
        ensures done { OnOk result (ForEachPlan Syncs (known self.old) (known self.new)) }
        ensures failed { OnErr result (ForEachPlan (MayDo Sync) (known self.old) (known self.new)) }
        ensures faults { IsCounted (known self.old).faults (known self.new).faults result }
        ensures asked { (known self.new).asked ≡ counted (known self.old).asked }
        ensures follows { follows self.old self.new };

    /// A stop: the tree is now what the stop has left, with nothing pending.
    fn reopen(&mut self)
        ensures left { ForEachPlan Stops (known self.old) (known self.new) }
        ensures mark { Contains (known self.old).marks_left (known self.new).mark }
        ensures faults { (known self.new).faults ≡ (known self.old).faults }
        ensures asked { (known self.new).asked ≡ (known self.old).asked }
        ensures follows { follows self.old self.new };

    /// How many calls have failed.
    fn faults(&self) -> u64
        ensures { result ≡ (known self.now).faults };

    /// A stop may leave what is read.
    ghost readable: { (tree : Self) (plan : PlanMark) → IsReadable (cells_of plan (known tree)) };

    /// No call keeps to it.
    ghost rests: { (tree : Self) → follows tree tree };

    /// Nor is it lost from call to call.
    ghost goes_on: { (a b c : Self) → follows a b → follows b c → follows a c };
}
