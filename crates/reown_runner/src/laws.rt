//! What holds of safe trees, of runs, and of plans that are done.
ghost use Rattle.std.specs.Prelude.{◌≡◌, ◌↔◌, ◌+◌, ◌++◌, ◌≤◌, ℕ, Bool, true, false, List, Option};
ghost use Rattle.std.specs.Prelude.{None, Some, IfSome, length, replicate, slice_get};
ghost use Rattle.reown_plan.specs.declared.mark.PlanMark.{PlanMark};
ghost use Rattle.reown_plan.specs.declared.plan.Owner.{Owner};
ghost use Rattle.reown_plan.specs.PlanData.{PlanRecord, HaveDistinctPaths};
ghost use Rattle.reown_runner.specs.declared.runner.Place.{Place};
ghost use Rattle.reown_runner.specs.declared.runner.Place.TheVariants.{Start, Done};
ghost use Rattle.reown_runner.specs.declared.runner.RunFault.{RunFault};
ghost use Rattle.reown_runner.specs.declared.runner.RunFault.TheVariants.{Device};
ghost use Rattle.reown_runner.specs.Tree.{TreeData, Image, IsImage, IsReadable, Stops, cells_of};
ghost use Rattle.reown_runner.specs.State.{State, StandsFor, fresh, cells_at};
ghost use Rattle.reown_runner.specs.Safe.{IsSafe, IsSafeImage, IsSafeInStep};
ghost use Rattle.reown_runner.specs.Finished.{IsFresh, AreOld, IsOldOrNew, owner_after_plan};
ghost use Rattle.reown_runner.specs.Finished.{HasSafeLists};
ghost use Rattle.reown_runner.specs.declared.campaign.Event.{Event};
ghost use Rattle.reown_runner.specs.Interleaved.{AllHappen, HappensHostByHost, one_by_one};
ghost use Rattle.reown_runner.specs.Run.{Host, HostEvent, Advances, IsRun, AreRuns};
ghost use Rattle.reown_runner.specs.TurnLaws.{OldFilesAreWritten, MarksAreLookedInto, IsToldTruly};
ghost use Rattle.reown_runner.specs.TurnLaws.{IsLookedAt, HasToBeTold};

/// A tree that is as its inventory, and not marked for the plan, is safe and in step at the start
/// of a plan whose paths are there at their old owners; so is a world without a history. Such a
/// tree stands for the history in which nothing has happened.
pub fn fresh_is_safe()
    ensures trees { (inventory : List ℕ → Option Owner) (plan : PlanMark)
        (records : List PlanRecord) (tree : TreeData) → IsFresh inventory (cells_of plan tree)
        → AreOld inventory records → IsSafeInStep inventory records Start (cells_of plan tree) }
    ensures worlds { (inventory : List ℕ → Option Owner) (records : List PlanRecord) (image : Image)
        → ((path : List ℕ) → image.owner path ≡ inventory path) → image.mark ≡ false
        → AreOld inventory records → IsSafeInStep inventory records Start (cells_at (fresh image)) }
    ensures stands { (inventory : List ℕ → Option Owner) (plan : PlanMark) (tree : TreeData)
        → IsFresh inventory (cells_of plan tree)
        → StandsFor plan tree (fresh (record { owner = inventory; mark = false })) }
{}

/// A host that is safe and in step stays so over any run of its events, also where one is refused,
/// and over any such runs one after the other.
pub fn stays_safe()
    ensures run { (inventory : List ℕ → Option Owner) (records : List PlanRecord)
        → HaveDistinctPaths records
        → (host : Host) (events : List HostEvent) (refused : Option RunFault) (end : Host)
        → IsRun records host events refused end
        → IsSafeInStep inventory records host.place (cells_at host.state)
        → IsSafeInStep inventory records end.place (cells_at end.state) }
    ensures runs { (inventory : List ℕ → Option Owner) (records : List PlanRecord)
        → HaveDistinctPaths records
        → (host : Host) (runs : List (List HostEvent)) (end : Host) → AreRuns records host runs end
        → IsSafeInStep inventory records host.place (cells_at host.state)
        → IsSafeInStep inventory records end.place (cells_at end.state) }
{}

/// A front of a run is a run as well, whose end is as safe: so it is after each event, whatever
/// comes after it.
pub fn a_front_is_a_run()
    ensures { (inventory : List ℕ → Option Owner) (records : List PlanRecord)
        → HaveDistinctPaths records
        → (host : Host) (front rest : List HostEvent) (refused : Option RunFault) (end : Host)
        → IsRun records host (front ++ rest) refused end
        → IsSafeInStep inventory records host.place (cells_at host.state)
        → (cut : Option RunFault) × (there : Host) × IsRun records host front cut there
        × IsSafeInStep inventory records there.place (cells_at there.state) }
{}

/// Of a safe tree a stop leaves each file at its old or its new owner, where the inventory has the
/// plan's old owners.
pub fn safe_is_old_or_new()
    ensures { (inventory : List ℕ → Option Owner) (records : List PlanRecord) (image : Image)
        → AreOld inventory records → IsSafeImage inventory records image
        → (path : List ℕ) → IsOldOrNew inventory records image path }
{}

/// Only the device refuses a run of a host that is safe and in step.
pub fn only_the_device_refuses()
    ensures { (inventory : List ℕ → Option Owner) (records : List PlanRecord)
        → HaveDistinctPaths records
        → (host : Host) (events : List HostEvent) (refused : Option RunFault) (end : Host)
        → IsRun records host events refused end
        → IsSafeInStep inventory records host.place (cells_at host.state)
        → IfSome refused (λ fault. fault ≡ Device) }
{}

/// A stop of a tree that is safe and in step, at whatever place, leaves one that is safe and in
/// step at the start: `reopen` by itself, with a new `Runner` after it.
pub fn a_stop_stays_safe()
    ensures { (inventory : List ℕ → Option Owner) (plan : PlanMark) (records : List PlanRecord)
        (place : Place) (old new : TreeData) → IsReadable (cells_of plan old)
        → Stops (cells_of plan old) (cells_of plan new)
        → IsSafeInStep inventory records place (cells_of plan old)
        → IsSafeInStep inventory records Start (cells_of plan new) }
{}

/// A tree is safe exactly where its lists are.
pub fn safe_by_lists()
    ensures { (inventory : List ℕ → Option Owner) (plan : PlanMark) (records : List PlanRecord)
        (tree : TreeData) → IsReadable (cells_of plan tree)
        → IsSafe inventory records (cells_of plan tree) ↔ HasSafeLists plan inventory records tree }
{}

/// A host that is done is marked for its plan and has each file at its owner after the plan,
/// whatever a stop leaves.
pub fn done_means_done()
    ensures trees { (inventory : List ℕ → Option Owner) (plan : PlanMark)
        (records : List PlanRecord) (tree : TreeData)
        → IsSafeInStep inventory records Done (cells_of plan tree)
        → (image : Image) → IsImage (cells_of plan tree) image → (image.mark ≡ true)
        × ((path : List ℕ) → image.owner path ≡ owner_after_plan inventory records path) }
    ensures worlds { (inventory : List ℕ → Option Owner) (records : List PlanRecord) (s : State)
        → IsSafeInStep inventory records Done (cells_at s)
        → (image : Image) → IsImage (cells_at s) image → (image.mark ≡ true)
        × ((path : List ℕ) → image.owner path ≡ owner_after_plan inventory records path) }
{}

/// From the start, with the mark not set, advances of which none is refused are done exactly after
/// four more than there are records.
pub fn advances_from_start()
    ensures { (records : List PlanRecord) (n : ℕ) (host end : Host) → host.place ≡ Start
        → (cells_at host.state).mark ≡ false → IsRun records host (replicate n Advances) None end
        → (end.place ≡ Done) ↔ (length records + 4 ≤ n) }
{}

/// Events of many hosts in one list happen exactly where each host goes by its own, in their order,
/// as `drive` tells it host by host. A run is its events one by one.
pub fn happens_host_by_host()
    ensures hosts { HappensHostByHost }
    ensures runs { (records : List PlanRecord) (host : Host) (events : List HostEvent)
        (refused : Option RunFault) (end : Host) → IsRun records host events refused end
        → AreRuns records host (one_by_one events) end }
{}

/// In a world whose hosts are safe and in step, as fresh trees are, they stay so whatever events
/// happen, in whatever order and refused or not; and whatever a further stop leaves, each file of
/// each host is at its old or its new owner.
pub fn worlds_stay_safe()
    ensures safe { (inventory : ℕ → List ℕ → Option Owner) (plans : ℕ → List PlanRecord)
        → ((host : ℕ) → HaveDistinctPaths (plans host))
        → (old : ℕ → Host) (events : List Event) (new : ℕ → Host) → AllHappen plans old events new
        → ((host : ℕ) → IsSafeInStep (inventory host) (plans host) (old host).place
        (cells_at (old host).state))
        → (host : ℕ) → IsSafeInStep (inventory host) (plans host) (new host).place
        (cells_at (new host).state) }
    ensures files { (inventory : ℕ → List ℕ → Option Owner) (plans : ℕ → List PlanRecord)
        → ((host : ℕ) → HaveDistinctPaths (plans host))
        → (old : ℕ → Host) (events : List Event) (new : ℕ → Host) → AllHappen plans old events new
        → ((host : ℕ) → IsSafeInStep (inventory host) (plans host) (old host).place
        (cells_at (old host).state))
        → (host : ℕ) → AreOld (inventory host) (plans host)
        → (image : Image) → IsImage (cells_at (new host).state) image → (path : List ℕ)
        → IsOldOrNew (inventory host) (plans host) image path }
{}

/// Whatever the files of a tree are: a turn writes over none but one that reads as at the old owner
/// of its record, a mark is believed only where each file reads as at its new owner, and what is
/// told of a file is so. Of the file that it looks at, that of its record or the first that is not
/// at its new owner where the plan is marked, what is so is told.
pub fn turns_look_first()
    ensures written { OldFilesAreWritten }
    ensures marked { MarksAreLookedInto }
    ensures told { (records : List PlanRecord) (place : Place) (owner : List ℕ → Option Owner)
        (mark : Bool) (i : ℕ) (planned : PlanRecord) → slice_get records i ≡ Some planned
        → IsToldTruly records place owner mark i planned }
    ensures tells { (records : List PlanRecord) (place : Place) (owner : List ℕ → Option Owner)
        (mark : Bool) (i : ℕ) (planned : PlanRecord) → slice_get records i ≡ Some planned
        → IsLookedAt records place owner mark i
        → HasToBeTold records place owner mark i planned }
{}
