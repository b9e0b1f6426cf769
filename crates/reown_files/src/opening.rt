//! What an earlier run of a plan may have left of its files, before this one changes anything.
ghost use Rattle.std.specs.Prelude.{◌≡◌, [], true, Some, None, IfOk, IfErr, OnOk, map, length};
ghost use Rattle.std.specs.Prelude.{if◌then◌else◌};
ghost use Rattle.reown_plan.specs.PlanData.{HaveDistinctPaths};
ghost use Rattle.reown_plan.specs.Records.{record_of};
ghost use Rattle.reown_runner.specs.Halfway.{AreHalfway, MayGoOn, mem_of_records};
ghost use Rattle.reown_runner.specs.Memory.{known_mem};
ghost use Rattle.reown_runner.specs.Tree.{cells_of};
ghost use Rattle.reown_files.specs.Lawful.{is_begun, is_lawful, is_unchanged, no_mode_failed};
ghost use Rattle.reown_files.specs.Opening.{IsRefusal, MetFit};
ghost use Rattle.reown_files.specs.Real.{IsReplay};
ghost use Rattle.reown_files.specs.Replay.{replay};
ghost use Rattle.reown_files.specs.Stages.{stage_in};

use crate::looking::{check_all_links, look_at_all};
use crate::restoring::begin;
use crate::stage::Stage;
use crate::{Disk, OpenFault};
use reown_plan::{Owner, PlanMark, Record};
use reown_runner::MemTree;
use std::alloc::{AllocError, Global};

// The files of records at these owners, marked for the plan or for none.
fn held_tree(
    alloc: Global,
    records: &[Record],
    owners: &[Owner],
    is_marked: bool,
    mark: PlanMark,
) -> Result<MemTree, AllocError>
    requires distinct { HaveDistinctPaths (map record_of records.now) }
    requires as_many { length owners.now ≡ length records.now }
    requires halfway { AreHalfway (map record_of records.now) owners.now is_marked }
    ensures paths { IfOk result
        (λ held. held.paths ≡ map (λ r. r.path) (map record_of records.now)) }
    ensures starts { IfOk result (λ held. held ≡ mem_of_records
        (map record_of records.now) owners.now (if is_marked then Some mark else None)) }
    ensures safe { IfOk result
        (λ held. MayGoOn (map record_of records.now) (cells_of mark (known_mem held))) }
{
    if is_marked {
        MemTree::of_records(alloc, records, owners, Some(mark))
    } else {
        MemTree::of_records(alloc, records, owners, None)
    }
}

/// The files of a plan on a disk, as an earlier run of it may have left them, or none, with the
/// modes set back that such a run lost. That it was begun may be known without its modes.
pub fn begun_tree<D: Disk>(
    alloc: Global,
    disk: &mut D,
    plan: &PlanMark,
    records: &[Record],
    was_begun: bool,
) -> Result<MemTree, OpenFault>
    requires distinct { HaveDistinctPaths (map record_of records.now) }
    requires fresh { D.calls disk.old ≡ [] }
    ensures paths { IfOk result
        (λ held. held.paths ≡ map (λ r. r.path) (map record_of records.now)) }
    ensures safe { IfOk result
        (λ held. MayGoOn (map record_of records.now) (cells_of plan.now (known_mem held))) }
    ensures fit { OnOk result (MetFit (stage_in was_begun plan.now (replay (D.calls disk.new)))
        (map record_of records.now) (D.calls disk.new)) }
    ensures replayed { IfOk result (IsReplay (D.calls disk.new)) }
    ensures begun { OnOk result (is_begun (map record_of records.now) (D.calls disk.new) ≡ true) }
    ensures modes { OnOk result (no_mode_failed (D.calls disk.new) ≡ true) }
    ensures unchanged { is_unchanged (D.calls disk.new) ≡ true }
    ensures lawful { is_lawful plan.now (map record_of records.now) (D.calls disk.new) ≡ true }
    ensures refused { IfErr result (IsRefusal
        (stage_in was_begun plan.now (replay (D.calls disk.new)))
        (map record_of records.now) (D.calls disk.new)) }
{
    let is_marked = match disk.meet_mark(plan) {
        Ok(is_marked) => is_marked,
        Err(trouble) => return Err(OpenFault::Disk(trouble)),
    };
    let has_modes = match disk.read_modes(plan, is_marked) {
        Ok(has_modes) => has_modes,
        Err(trouble) => return Err(OpenFault::Modes(trouble)),
    };
    let stage = Stage::of(is_marked, has_modes, was_begun);
    let owners = look_at_all(alloc, disk, records, stage)?;
    check_all_links(disk, records)?;
    begin(disk, plan, records)?;
    let held = held_tree(alloc, records, &owners, is_marked, *plan)?;
    Ok(held)
}
