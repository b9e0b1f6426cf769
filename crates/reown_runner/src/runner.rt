//! Carries a plan out on a tree.
ghost use Rattle.std.specs.Prelude.{length, ◌≡◌, ◌+◌, ◌-◌, ◌≤◌, replicate, ℕ, false, List, Option};
ghost use Rattle.std.specs.Prelude.{map, IfOk, IfErr, OnOk, OnErr, IsOk};
ghost use Rattle.reown_plan.specs.Records.{record_of};
ghost use Rattle.reown_runner.specs.RunnerData.{starting};
ghost use Rattle.reown_runner.specs.declared.runner.RunFault.TheVariants.{Device};
ghost use Rattle.reown_runner.specs.Tree.{cells_of, Does, IsMarkedOnlyFor};
ghost use Rattle.reown_runner.specs.Step.{turn, marked_turn, is_new, not_new, record_turn};
ghost use Rattle.reown_runner.specs.Step.{record_place, IsAdvance, IsTold, IsAsked, IsPlaceOf};
ghost use Rattle.reown_runner.specs.Step.{progress_at, moved, advances_left, operations_left};
ghost use Rattle.reown_runner.specs.Run.{IsRun, Advanced, Advances, host_at, refusal};
ghost use Rattle.reown_plan.specs.declared.mark.PlanMark.{PlanMark};
ghost use Rattle.reown_plan.specs.declared.plan.Owner.{Owner};
ghost use Rattle.reown_runner.specs.State.{State, StandsFor};
ghost use Rattle.reown_runner.specs.Safe.{IsSafeInStep};
ghost use Rattle.reown_runner.specs.Finished.{IsFresh, AreOld, owner_after_plan};

use crate::{DeviceFault, Tree};
use reown_plan::{Owner, Plan, PlanMark, Record};
use std::marker::Model;

/// Where a runner is in its plan; records count from 0.
#[derive(Clone, Copy, Debug, PartialEq, Eq)]
pub enum Place {
    /// It reads the mark, and where that is set each file.
    Start,
    /// It moves the file of this record.
    Record(usize),
    /// It syncs, so that a stop leaves the new owners.
    SyncOwners,
    /// It sets the mark.
    Mark,
    /// It syncs, so that a stop leaves the mark set.
    SyncMark,
    /// It has nothing left to do.
    Done,
}

/// Whether a plan is done.
#[derive(Clone, Copy, Debug, PartialEq, Eq)]
pub enum Progress {
    /// The plan goes on.
    Working,
    /// Nothing is left to do.
    Done,
}

/// Why a runner stays at its place; records count from 0.
#[derive(Clone, Copy, Debug, PartialEq, Eq)]
pub enum RunFault {
    /// 36: a call of the device failed.
    Device,
    /// 37: the file of this record is not there.
    Missing(usize),
    /// 38: the file of this record has neither its old nor its new owner.
    Foreign(usize),
    /// 44: the tree is marked for the plan, and the file of this record has its old owner.
    Unfinished(usize),
}

impl From<DeviceFault> for RunFault {
    ghost from_gives = { λ _ fault. fault ≡ Device };

    fn from(_: DeviceFault) -> Self {
        RunFault::Device
    }
}

impl Place {
    fn progress(self) -> Progress
        ensures { result ≡ progress_at self }
    {
        match self {
            Place::Done => Progress::Done,
            _ => Progress::Working,
        }
    }
}

/// Carries a plan out on a tree, in steps of at most one write or sync.
#[derive(Drop)]
pub struct Runner<'p, 'a> {
    mark: PlanMark,
    records: &'p [Record<'a>],
    place: Place,
}

impl<'p, 'a> Model for Runner<'p, 'a> {
    ghost use Rattle.std.specs.Prelude.{map};
    ghost use Rattle.reown_plan.specs.PlanData.{HaveDistinctPaths};
    ghost use Rattle.reown_runner.specs.RunnerData.{RunnerData};

    ghost Value = { RunnerData };

    ghost use Rattle.reown_plan.specs.Records.{record_of};
    ghost use Rattle.reown_runner.specs.Step.{IsPlaceOf};

    ghost view = { λ r. record {
      mark = r.mark;
      records = map record_of r.records.now;
      place = r.place;
    } };

    ghost invariant = { λ r. HaveDistinctPaths (map record_of r.records.now)
        × IsPlaceOf (map record_of r.records.now) r.place };
}

// The place of a record, or the one after the records.
fn place_of(records: &[Record], i: usize) -> Place
    ensures place { result ≡ record_place (map record_of records.now) i }
    ensures fits { IsPlaceOf (map record_of records.now) result }
{
    if i < records.len() {
        Place::Record(i)
    } else {
        Place::SyncOwners
    }
}

// Moves the file of a record from its old owner to its new one, unless it is there.
fn move_file<T: Tree>(
    planned: &Record,
    i: usize,
    next: Place,
    tree: &mut T,
) -> Result<Place, RunFault>
    ensures step { (plan : PlanMark)
        → IsAdvance
        (record_turn i (record_of planned.now) next ((T.known tree.old).owner planned.now.path.now))
        (λ operation. Does operation (cells_of plan (T.known tree.old))
        (cells_of plan (T.known tree.new))) result }
    ensures faults { IsTold (T.known tree.old).faults (T.known tree.new).faults result }
    ensures asked { IsAsked
        (record_turn i (record_of planned.now) next ((T.known tree.old).owner planned.now.path.now))
        (T.known tree.old).asked (T.known tree.new).asked }
    ensures next { IfOk result (λ place. place ≡ next) }
    ensures follows { T.follows tree.old tree.new }
{
    match tree.owner(planned.path)? {
        None => return Err(RunFault::Missing(i)),
        Some(owner) => {
            if owner == planned.before {
                tree.set_owner(planned.path, planned.after)?;
            } else if owner != planned.after {
                return Err(RunFault::Foreign(i));
            }
        }
    }
    Ok(next)
}

// Whether the file of a record has its new owner.
fn has_new(planned: &Record, owner: Option<Owner>) -> bool
    ensures { result ≡ is_new (record_of planned.now) owner }
{
    match owner {
        None => false,
        Some(has) => has == planned.after,
    }
}

// Why the file of a record is refused that does not have its new owner, though the plan is marked
// as done.
fn refused_as(i: usize, planned: &Record, owner: Option<Owner>) -> RunFault
    ensures { result ≡ not_new i (record_of planned.now) owner }
{
    match owner {
        None => RunFault::Missing(i),
        Some(owner) => {
            if owner == planned.before {
                RunFault::Unfinished(i)
            } else {
                RunFault::Foreign(i)
            }
        }
    }
}

// Where the tree is marked for the plan, each file has its new owner.
fn look_over<T: Tree>(records: &[Record], tree: &mut T) -> Result<Place, RunFault>
    ensures step { (plan : PlanMark)
        → IsAdvance (marked_turn 0 (map record_of records.now) (T.known tree.old).owner)
        (λ operation. Does operation (cells_of plan (T.known tree.old))
        (cells_of plan (T.known tree.new))) result }
    ensures faults { IsTold (T.known tree.old).faults (T.known tree.new).faults result }
    ensures asked { (T.known tree.new).asked ≡ (T.known tree.old).asked }
    ensures next { IfOk result (λ place. place ≡ Place.Done) }
    ensures follows { T.follows tree.old tree.new }
{
    for (i, planned) in records.iter().enumerate() {
        let owner = tree.owner(planned.path)?;
        if !has_new(planned, owner) {
            return Err(refused_as(i, planned, owner));
        }
    }
    Ok(Place::Done)
}

// Does what the place says, and gives the place after it.
fn next_place<T: Tree>(
    records: &[Record],
    plan: &PlanMark,
    place: Place,
    tree: &mut T,
) -> Result<Place, RunFault>
    requires { IsPlaceOf (map record_of records.now) place }
    ensures step { IsAdvance
        (turn (map record_of records.now) place (T.known tree.old).owner
        (cells_of plan.now (T.known tree.old)).mark)
        (λ operation. Does operation (cells_of plan.now (T.known tree.old))
        (cells_of plan.now (T.known tree.new))) result }
    ensures faults { IsTold (T.known tree.old).faults (T.known tree.new).faults result }
    ensures asked { IsAsked
        (turn (map record_of records.now) place (T.known tree.old).owner
        (cells_of plan.now (T.known tree.old)).mark) (T.known tree.old).asked
        (T.known tree.new).asked }
    ensures other { IsMarkedOnlyFor plan.now (T.known tree.old) (T.known tree.new) }
    ensures fits { IfOk result (IsPlaceOf (map record_of records.now)) }
    ensures rests { place ≡ Place.Done → IsOk result × (tree.new ≡ tree.old) }
    ensures follows { T.follows tree.old tree.new }
{
    match place {
        Place::Start => {
            if tree.is_marked(plan)? {
                look_over(records, tree)
            } else {
                Ok(place_of(records, 0))
            }
        }
        Place::Record(i) => move_file(&records[i], i, place_of(records, i + 1), tree),
        Place::SyncOwners => {
            tree.sync()?;
            Ok(Place::Mark)
        }
        Place::Mark => {
            tree.set_mark(plan)?;
            Ok(Place::SyncMark)
        }
        Place::SyncMark => {
            tree.sync()?;
            Ok(Place::Done)
        }
        Place::Done => Ok(Place::Done),
    }
}

impl<'p, 'a> Runner<'p, 'a> {
    /// A runner at the start of a plan, whose records it borrows. One pass over the plan's text,
    /// for its mark.
    pub fn new(plan: &'p Plan<'a>) -> Self
        ensures { result ≡ starting plan.now }
    {
        Runner {
            mark: plan.mark(),
            records: plan.records(),
            place: Place::Start,
        }
    }

    /// Where it is. Constant time.
    pub fn place(&self) -> Place
        ensures { result ≡ self.now.place }
    {
        self.place
    }

    // After a stop.
    pub(crate) fn restart(&mut self)
        ensures { self.new ≡ record self.old { place = Place.Start } }
    {
        self.place = Place::Start;
    }

    /// Does what the place asks for, with at most one write or sync, and goes on to the next place.
    /// At most two calls of the tree, but at the start of a plan that the tree is marked for, where
    /// it looks at each file; and no memory. At `Done` it touches nothing.
    ///
    /// # Errors
    ///
    /// A refusal leaves the place: the device failed; the record's file is not there, or has
    /// neither its old nor its new owner; or the tree is marked for the plan, and the record's file
    /// is the first that is not at its new owner.
    pub fn advance<T: Tree>(&mut self, tree: &mut T) -> Result<Progress, RunFault>
        ensures mark { self.new.mark ≡ self.old.mark }
        ensures records { self.new.records ≡ self.old.records }
        ensures progress { IfOk result (λ progress. progress ≡ progress_at self.new.place) }
        ensures stays { OnErr result (self.new.place ≡ self.old.place) }
        ensures step { IsAdvance
            (turn self.old.records self.old.place (T.known tree.old).owner
            (cells_of self.old.mark (T.known tree.old)).mark)
            (λ operation. Does operation (cells_of self.old.mark (T.known tree.old))
            (cells_of self.old.mark (T.known tree.new))) (moved self.new.place result) }
        ensures other { IsMarkedOnlyFor self.old.mark (T.known tree.old) (T.known tree.new) }
        ensures faults { IsTold (T.known tree.old).faults (T.known tree.new).faults result }
        ensures asked { IsAsked
            (turn self.old.records self.old.place (T.known tree.old).owner
            (cells_of self.old.mark (T.known tree.old)).mark) (T.known tree.old).asked
            (T.known tree.new).asked }
        ensures rests { self.old.place ≡ Place.Done → IsOk result × (tree.new ≡ tree.old) }
        ensures follows { T.follows tree.old tree.new }

        // One advance is nearer to the end, by one unless the mark was found set.
        ensures nearer { OnOk result
            (advances_left self.old.records self.new.place
            ≤ advances_left self.old.records self.old.place - 1) }
        ensures by_one { OnOk result
            ((self.old.place ≡ Place.Start
            → (cells_of self.old.mark (T.known tree.old)).mark ≡ false)
            → advances_left self.old.records self.new.place
            ≡ advances_left self.old.records self.old.place - 1) }

        ensures spends { OnOk result
            ((T.known tree.new).asked + operations_left self.old.records self.new.place
            ≤ (T.known tree.old).asked + operations_left self.old.records self.old.place) }
        ensures spends_err { OnErr result
            ((T.known tree.new).asked
            ≤ (T.known tree.old).asked + operations_left self.old.records self.old.place) }

        // Where whatever a stop leaves is safe, and the place goes with the tree, that stays so;
        // and then only the device refuses.
        ensures safe { (inventory : List ℕ → Option Owner)
            → IsSafeInStep inventory self.old.records self.old.place
            (cells_of self.old.mark (T.known tree.old))
            → IsSafeInStep inventory self.old.records self.new.place
            (cells_of self.old.mark (T.known tree.new)) }
        ensures device { (inventory : List ℕ → Option Owner)
            → IsSafeInStep inventory self.old.records self.old.place
            (cells_of self.old.mark (T.known tree.old))
            → IfErr result (λ fault. fault ≡ Device) }

        // It is one advance in each history that the tree stands for.
        ensures stands { (s : State) → StandsFor self.old.mark (T.known tree.old) s
            → (t : State) × StandsFor self.old.mark (T.known tree.new) t
            × Advanced self.old.records (host_at self.old.place (T.known tree.old) s)
            (moved self.new.place result) (host_at self.new.place (T.known tree.new) t) }
    {
        match next_place(self.records, &self.mark, self.place, tree) {
            Ok(place) => {
                self.place = place;
                Ok(place.progress())
            }
            Err(fault) => Err(fault),
        }
    }

    /// Advances until the plan is done. For r records it makes at most r + 4 advances, and r + 3
    /// writes and syncs.
    ///
    /// # Errors
    ///
    /// Those of `advance`. A refusal leaves the runner at the place where it came, from which it
    /// may run on.
    pub fn run<T: Tree>(&mut self, tree: &mut T) -> Result<(), RunFault>
        ensures mark { self.new.mark ≡ self.old.mark }
        ensures records { self.new.records ≡ self.old.records }
        ensures done { OnOk result (self.new.place ≡ Place.Done) }
        ensures faults { IsTold (T.known tree.old).faults (T.known tree.new).faults result }
        ensures asked { (T.known tree.new).asked
            ≤ (T.known tree.old).asked + operations_left self.old.records self.old.place }
        ensures few { (T.known tree.new).asked
            ≤ (T.known tree.old).asked + (length self.old.records + 3) }
        ensures follows { T.follows tree.old tree.new }

        ensures safe { (inventory : List ℕ → Option Owner)
            → IsSafeInStep inventory self.old.records self.old.place
            (cells_of self.old.mark (T.known tree.old))
            → IsSafeInStep inventory self.old.records self.new.place
            (cells_of self.old.mark (T.known tree.new)) }
        ensures device { (inventory : List ℕ → Option Owner)
            → IsSafeInStep inventory self.old.records self.old.place
            (cells_of self.old.mark (T.known tree.old))
            → IfErr result (λ fault. fault ≡ Device) }

        // So it is Ok wherever no call of the device failed, and then a tree that was fresh reads
        // as the plan says.
        ensures finishes { (inventory : List ℕ → Option Owner)
            → IsSafeInStep inventory self.old.records self.old.place
            (cells_of self.old.mark (T.known tree.old))
            → (T.known tree.new).faults ≡ (T.known tree.old).faults → IsOk result }
        ensures reads { (inventory : List ℕ → Option Owner)
            → IsFresh inventory (cells_of self.old.mark (T.known tree.old))
            → AreOld inventory self.old.records → self.old.place ≡ Place.Start
            → OnOk result ((path : List ℕ)
            → (T.known tree.new).owner path ≡ owner_after_plan inventory self.old.records path) }

        // It is a run of some advances, at most four more than there are records, in each history
        // that the tree stands for, with just the writes and syncs of that run.
        ensures stands { (s : State) → StandsFor self.old.mark (T.known tree.old) s
            → (n : ℕ) × (t : State) × StandsFor self.old.mark (T.known tree.new) t
            × IsRun self.old.records (host_at self.old.place (T.known tree.old) s)
            (replicate n Advances) (refusal result) (host_at self.new.place (T.known tree.new) t)
            × (n ≤ length self.old.records + 4) }
    {
        'steps: loop {
            match self.advance(tree) {
                Ok(Progress::Done) => return Ok(()),
                Ok(Progress::Working) => {}
                Err(fault) => return Err(fault),
            }
        }
    }
}
