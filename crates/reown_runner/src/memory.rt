//! A tree in memory, which never fails.
ghost use Rattle.std.specs.Prelude.{◌≡◌, ◌<◌, ℕ, map, take, length, position, slice_get, slice_set};
ghost use Rattle.std.specs.Prelude.{slice_index_or, Some, IfOk, IfSome, OnOk, OnErr, IsSome, ⊤};
ghost use Rattle.std.specs.Prelude.{Contains};
ghost use Rattle.std.specs.Option.{option_map};
ghost use Rattle.std.specs.Str.{bytes_eq};

use crate::paths::{PathIndex, PathList};
use crate::{DeviceFault, Tree};
use mtree_inv::{Entry, Inventory};
use reown_plan::{Owner, PlanMark, Record};
use std::alloc::{AllocError, Global};
use std::marker::Model;

/// Which of the values that are pending a stop keeps.
#[derive(Clone, Copy, Debug, PartialEq, Eq)]
pub enum Keep {
    /// All of them.
    All,
    /// None.
    Lost,
    /// Of the cells that are pending, in order and the mark last, every other, from the first on.
    Alternate,
    /// The mark's alone.
    MarkOnly,
}

/// A file's owner at the last sync, and now.
#[derive(Clone, Copy, Debug)]
pub struct FileCell {
    synced: Owner,
    now: Owner,
}

/// A tree in memory. A path is found by bisection: a call with one takes a comparison of paths for
/// each binary digit of the number of files, whatever their names are. A sync and a stop take one
/// pass over the files. No call but `new` and `of_records` takes memory.
#[derive(Drop)]
pub struct MemTree {
    paths: PathIndex,
    cells: Vec<FileCell>,
    mark_synced: Option<PlanMark>,
    mark_now: Option<PlanMark>,
    keep: Keep,
    asked: u64,
}

impl Model for MemTree {
    ghost use Rattle.std.specs.Prelude.{◌≡◌, length};
    ghost use Rattle.reown_runner.specs.Memory.{Mem};

    ghost Value = { Mem };

    ghost view = { λ m. record {
      paths = m.paths;
      cells = m.cells.items;
      mark_synced = m.mark_synced;
      mark_now = m.mark_now;
      keep = m.keep;
      asked = m.asked;
    } };

    ghost invariant = { λ m. length m.paths ≡ length m.cells.items };
}

ghost use Rattle.reown_runner.specs.Memory.{known_mem, keeps_file, is_odd_one, settled_cell};
ghost use Rattle.reown_runner.specs.Memory.{left_cell, owner_in, new_mem, IsWritten, marked};
ghost use Rattle.reown_runner.specs.Memory.{settled, IsReopened};
ghost use Rattle.reown_runner.specs.MemoryReads.{readable_mem};
ghost use Rattle.reown_runner.specs.Tree.{cells_of, ForEachPlan, counted, Same, Writes, SetsMark};
ghost use Rattle.reown_runner.specs.Tree.{Syncs, Stops, MayDo, Write, SetMark, Sync, IsCounted};
ghost use Rattle.reown_runner.specs.Tree.{MarksNoOther};
ghost use Rattle.reown_plan.specs.Mark.{is_marked_for};
ghost use Rattle.reown_plan.specs.declared.mark.PlanMark.{PlanMark};
ghost use Rattle.reown_runner.specs.Finished.{IsFresh};
ghost use Rattle.reown_runner.specs.Halfway.{mem_of_records, AreHalfway, MayGoOn};
ghost use Rattle.reown_plan.specs.PlanData.{HaveDistinctPaths};
ghost use Rattle.reown_plan.specs.Owners.{owner_of};
ghost use Rattle.reown_plan.specs.Records.{record_of};

// The paths of files.
fn paths_in(alloc: Global, entries: &[Entry]) -> Result<PathList, AllocError>
    ensures { IfOk result (λ paths. paths ≡ map (λ e. e.path) entries.now) }
{
    let mut paths = PathList::with_capacity(alloc, entries.len())?;
    for entry in entries {
        paths.push(entry.path.bytes())?;
    }
    Ok(paths)
}

// The paths of records.
fn paths_of(alloc: Global, records: &[Record]) -> Result<PathList, AllocError>
    ensures { IfOk result (λ paths. paths ≡ map (λ r. r.path) (map record_of records.now)) }
{
    let mut paths = PathList::with_capacity(alloc, records.len())?;
    for planned in records {
        paths.push(planned.path)?;
    }
    Ok(paths)
}

// A cell at the owner of each file, with nothing pending.
fn cells_in(alloc: Global, entries: &[Entry]) -> Result<Vec<FileCell>, AllocError>
    ensures { IfOk result (λ cells.
        cells.items ≡ map (λ e. settled_cell (owner_of e)) entries.now) }
{
    let mut cells = Vec::with_capacity(alloc, entries.len())?;
    for entry in entries {
        let owner = Owner {
            uid: entry.uid,
            gid: entry.gid,
        };
        cells.push(FileCell {
            synced: owner,
            now: owner,
        })?;
    }
    Ok(cells)
}

// A cell at each owner, with nothing pending.
fn cells_at(alloc: Global, owners: &[Owner]) -> Result<Vec<FileCell>, AllocError>
    ensures { IfOk result (λ cells. cells.items ≡ map settled_cell owners.now) }
{
    let mut cells = Vec::with_capacity(alloc, owners.len())?;
    for owner in owners {
        cells.push(FileCell {
            synced: *owner,
            now: *owner,
        })?;
    }
    Ok(cells)
}

fn sync_cells(cells: &mut [FileCell])
    ensures { cells.new ≡ map (λ c. settled_cell c.now) cells.old }
{
    for cell in cells.iter_mut() {
        cell.synced = cell.now;
    }
}

// A stop leaves in each cell what the choice keeps. Answers whether the next pending cell is an odd
// one.
fn leave_cells(cells: &mut [FileCell], keep: Keep) -> bool
    ensures odd { result ≡ is_odd_one cells.old }
    ensures cells { (k : ℕ) (d : FileCell) → k < length cells.old
        → slice_index_or cells.new k d
        ≡ left_cell (keeps_file keep (take k cells.old)) (slice_index_or cells.old k d) }
{
    let mut odd = true;
    for cell in cells.iter_mut() {
        let kept = match keep {
            Keep::All => true,
            Keep::Lost | Keep::MarkOnly => false,
            Keep::Alternate => odd,
        };
        if cell.synced != cell.now {
            odd = !odd;
        }
        let owner = if kept { cell.now } else { cell.synced };
        *cell = FileCell {
            synced: owner,
            now: owner,
        };
    }
    odd
}

impl MemTree {
    /// A tree as its inventory, marked for no plan, with nothing pending. A stop keeps all, until
    /// `on_reopen` chooses otherwise. One pass over the inventory, with a copy of each path, and
    /// one sort of these.
    ///
    /// # Errors
    ///
    /// `AllocError` where memory is refused.
    pub fn new(alloc: Global, inventory: &Inventory) -> Result<MemTree, AllocError>
        ensures starts { IfOk result (λ tree. tree ≡ new_mem inventory.now) }
        ensures fresh { IfOk result
            (λ tree. (plan : PlanMark)
            → IsFresh (owner_in inventory.now) (cells_of plan (known_mem tree))) }
    {
        let entries = inventory.entries();
        let paths = PathIndex::new(alloc, paths_in(alloc, entries)?)?;
        let cells = cells_in(alloc, entries)?;
        Ok(MemTree {
            paths,
            cells,
            mark_synced: None,
            mark_now: None,
            keep: Keep::All,
            asked: 0,
        })
    }

    /// A tree that has just the files of records, at these owners, with the mark as told and
    /// nothing pending. Where each owner is the old or the new one, as an earlier run may have
    /// left it, the plan may go on from there. A stop keeps all, until `on_reopen` chooses
    /// otherwise. One pass, with a copy of each path, and one sort of these.
    ///
    /// # Errors
    ///
    /// `AllocError` where memory is refused.
    pub fn of_records(
        alloc: Global,
        records: &[Record],
        owners: &[Owner],
        mark: Option<PlanMark>,
    ) -> Result<MemTree, AllocError>
        requires distinct { HaveDistinctPaths (map record_of records.now) }
        requires as_many { length owners.now ≡ length records.now }
        ensures starts { IfOk result
            (λ tree. tree ≡ mem_of_records (map record_of records.now) owners.now mark) }
        ensures safe { IfOk result
            (λ tree. (plan : PlanMark)
            → AreHalfway (map record_of records.now) owners.now (is_marked_for plan mark)
            → MayGoOn (map record_of records.now) (cells_of plan (known_mem tree))) }
    {
        let paths = PathIndex::new(alloc, paths_of(alloc, records)?)?;
        let cells = cells_at(alloc, owners)?;
        Ok(MemTree {
            paths,
            cells,
            mark_synced: mark,
            mark_now: mark,
            keep: Keep::All,
            asked: 0,
        })
    }

    /// Chooses what a stop keeps. No call of `Tree` changes the choice. What is run over any tree
    /// (`Runner`, `Campaign`) says nothing of it: that holds for whatever a stop leaves. Constant
    /// time.
    pub fn on_reopen(&mut self, keep: Keep)
        ensures { self.new ≡ record self.old { keep = keep } }
    {
        self.keep = keep;
    }

    /// The place of a path among the paths, if it is one of them. It takes a comparison of paths
    /// for each binary digit of their number.
    pub fn index_of(&self, path: &[u8]) -> Option<usize>
        ensures place { result ≡ position (bytes_eq path.now) self.now.paths }
        ensures within { IfSome result (λ i. i < length self.now.cells) }
    {
        self.paths.find(path)
    }

    fn owner_at(&self, i: usize) -> Owner
        requires { i < length self.now.cells }
        ensures { option_map (λ c. c.now) (slice_get self.now.cells i) ≡ Some result }
    {
        self.cells[i].now
    }

    // Writes an owner over what is there.
    fn write(&mut self, i: usize, owner: Owner)
        requires { i < length self.old.cells }
        ensures { (c : FileCell) × (slice_get self.old.cells i ≡ Some c)
            × (self.new ≡ record self.old {
              cells =
                  slice_set self.old.cells i (record { synced = c.synced; now = owner });
              asked = counted self.old.asked;
            }) }
    {
        self.cells[i].now = owner;
        self.asked = self.asked.saturating_add(1);
    }

    // What is pending is synced.
    fn settle(&mut self)
        ensures { self.new ≡ settled self.old }
    {
        sync_cells(&mut self.cells);
        self.mark_synced = self.mark_now;
        self.asked = self.asked.saturating_add(1);
    }

    // A stop, as it was chosen.
    fn leave(&mut self)
        ensures { IsReopened self.old self.new }
    {
        let odd = leave_cells(&mut self.cells, self.keep);
        let kept = match self.keep {
            Keep::All | Keep::MarkOnly => true,
            Keep::Lost => false,
            Keep::Alternate => odd,
        };
        let mark = if kept {
            self.mark_now
        } else {
            self.mark_synced
        };
        self.mark_synced = mark;
        self.mark_now = mark;
    }
}

impl Tree for MemTree {
    ghost known = { known_mem };

    ghost follows = { λ _ _. ⊤ };

    fn owner(&mut self, path: &[u8]) -> Result<Option<Owner>, DeviceFault>
        ensures answer { IfOk result (λ owner. owner ≡ (known_mem self.old).owner path.now) }
        ensures same { ForEachPlan Same (known_mem self.old) (known_mem self.new) }
        ensures faults { IsCounted (known_mem self.old).faults (known_mem self.new).faults result }
        ensures asked { (known_mem self.new).asked ≡ (known_mem self.old).asked }
        ensures untouched { self.new ≡ self.old }
    {
        match self.index_of(path) {
            None => Ok(None),
            Some(i) => Ok(Some(self.owner_at(i))),
        }
    }

    fn set_owner(&mut self, path: &[u8], owner: Owner) -> Result<(), DeviceFault>
        requires { IsSome ((known_mem self.old).owner path.now) }
        ensures done { OnOk result
            (ForEachPlan (Writes path.now owner) (known_mem self.old) (known_mem self.new)) }
        ensures failed { OnErr result
            (ForEachPlan (MayDo (Write path.now owner)) (known_mem self.old) (known_mem self.new)) }
        ensures faults { IsCounted (known_mem self.old).faults (known_mem self.new).faults result }
        ensures asked { (known_mem self.new).asked ≡ counted (known_mem self.old).asked }
        ensures written { IsWritten path.now owner self.old self.new }
    {
        let i = self.index_of(path).unwrap();
        self.write(i, owner);
        Ok(())
    }

    fn is_marked(&mut self, plan: &PlanMark) -> Result<bool, DeviceFault>
        ensures answer { IfOk result
            (λ set. set ≡ is_marked_for plan.now (known_mem self.old).mark) }
        ensures same { ForEachPlan Same (known_mem self.old) (known_mem self.new) }
        ensures faults { IsCounted (known_mem self.old).faults (known_mem self.new).faults result }
        ensures asked { (known_mem self.new).asked ≡ (known_mem self.old).asked }
        ensures untouched { self.new ≡ self.old }
    {
        Ok(self.mark_now.is_some_and(|mark| mark == *plan))
    }

    fn set_mark(&mut self, plan: &PlanMark) -> Result<(), DeviceFault>
        ensures done { OnOk result
            (SetsMark (cells_of plan.now (known_mem self.old))
            (cells_of plan.now (known_mem self.new))) }
        ensures failed { OnErr result
            (MayDo SetMark (cells_of plan.now (known_mem self.old))
            (cells_of plan.now (known_mem self.new))) }
        ensures no_other { MarksNoOther plan.now (known_mem self.old) (known_mem self.new) }
        ensures faults { IsCounted (known_mem self.old).faults (known_mem self.new).faults result }
        ensures asked { (known_mem self.new).asked ≡ counted (known_mem self.old).asked }
        ensures marked { self.new ≡ marked plan.now self.old }
    {
        self.mark_now = Some(*plan);
        self.asked = self.asked.saturating_add(1);
        Ok(())
    }

    fn sync(&mut self) -> Result<(), DeviceFault>
        ensures done { OnOk result (ForEachPlan Syncs (known_mem self.old) (known_mem self.new)) }
        ensures failed { OnErr result
            (ForEachPlan (MayDo Sync) (known_mem self.old) (known_mem self.new)) }
        ensures faults { IsCounted (known_mem self.old).faults (known_mem self.new).faults result }
        ensures asked { (known_mem self.new).asked ≡ counted (known_mem self.old).asked }
        ensures settled { self.new ≡ settled self.old }
    {
        self.settle();
        Ok(())
    }

    fn reopen(&mut self)
        ensures left { ForEachPlan Stops (known_mem self.old) (known_mem self.new) }
        ensures mark { Contains (known_mem self.old).marks_left (known_mem self.new).mark }
        ensures faults { (known_mem self.new).faults ≡ (known_mem self.old).faults }
        ensures asked { (known_mem self.new).asked ≡ (known_mem self.old).asked }
        ensures chosen { IsReopened self.old self.new }
    {
        self.leave();
    }

    fn faults(&self) -> u64 {
        0
    }

    ghost readable = { readable_mem };

    ghost rests = { λ _. tt };

    ghost goes_on = { λ _ _ _ _ _. tt };
}
