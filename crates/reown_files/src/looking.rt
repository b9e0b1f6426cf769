//! The files of a plan as they lie on a disk, before anything is changed.
ghost use Rattle.std.specs.Prelude.{◌≡◌, ℕ, true, false, List, Some, None, map, length, IfOk};
ghost use Rattle.std.specs.Prelude.{IfErr, OnOk};
ghost use Rattle.reown_plan.specs.declared.mark.PlanMark.{PlanMark};
ghost use Rattle.reown_plan.specs.PlanData.{PlanRecord, HaveDistinctPaths};
ghost use Rattle.reown_plan.specs.Records.{record_of};
ghost use Rattle.reown_files.specs.Lawful.{all_met, all_checked, is_unchanged, is_lawful};
ghost use Rattle.reown_files.specs.Lawful.{is_met, is_mode_kept, no_mode_failed, were_read};
ghost use Rattle.reown_files.specs.Opening.{IsUnfit, IsTrouble, IsRefusal};
ghost use Rattle.reown_files.specs.Replay.{replay, found_of};
ghost use Rattle.reown_files.specs.Stages.{MayHave, AreAllowed};

use crate::stage::Stage;
use crate::{Disk, OpenFault};
use reown_plan::{Owner, Record};
use std::alloc::Global;

// The owner of a record's file, where the file may have it at this stage of the plan.
fn check_left(
    i: usize,
    planned: &Record,
    found: Option<Owner>,
    stage: Stage,
) -> Result<Owner, OpenFault>
    ensures allowed { IfOk result (λ owner. MayHave stage (record_of planned.now) owner) }
    ensures found { IfOk result (λ owner. found ≡ Some owner) }
    ensures refused { IfErr result (IsUnfit stage i (record_of planned.now) found) }
{
    let Some(owner) = found else {
        return Err(OpenFault::Missing(i));
    };
    if owner != planned.before && owner != planned.after {
        return Err(OpenFault::Foreign(i, owner));
    }
    if stage == Stage::Done && owner != planned.after {
        return Err(OpenFault::Unfinished(i));
    }
    if stage == Stage::NotBegun && owner != planned.before {
        return Err(OpenFault::AlreadyChanged(i));
    }
    Ok(owner)
}

/// The owners of the records' files on the disk, of which none was met before, at this stage of
/// their plan.
pub fn look_at_all<D: Disk>(
    alloc: Global,
    disk: &mut D,
    records: &[Record],
    stage: Stage,
) -> Result<Vec<Owner>, OpenFault>
    requires distinct { HaveDistinctPaths (map record_of records.now) }
    requires unmet { (path : List ℕ) → (replay (D.calls disk.old)).owner path ≡ None }
    requires first { (path : List ℕ) → is_met path (D.calls disk.old) ≡ false }
    ensures as_many { IfOk result (λ owners. length owners.items ≡ length records.now) }
    ensures allowed { IfOk result
        (λ owners. AreAllowed stage (map record_of records.now) owners.items) }
    ensures met { IfOk result
        (λ owners. (path : List ℕ) → (replay (D.calls disk.new)).owner path
        ≡ found_of (map record_of records.now) owners.items path) }
    ensures all_met { OnOk result (all_met (map record_of records.now) (D.calls disk.new) ≡ true) }
    ensures kept { OnOk result ((r : PlanRecord)
        → is_mode_kept (D.calls disk.new) r ≡ is_mode_kept (D.calls disk.old) r) }
    ensures mark { (replay (D.calls disk.new)).mark ≡ (replay (D.calls disk.old)).mark }
    ensures begun { (replay (D.calls disk.new)).begun ≡ (replay (D.calls disk.old)).begun }
    ensures modes { OnOk result
        (no_mode_failed (D.calls disk.new) ≡ no_mode_failed (D.calls disk.old)) }
    ensures unchanged { is_unchanged (D.calls disk.old) ≡ true
        → is_unchanged (D.calls disk.new) ≡ true }
    ensures lawful { (mark : PlanMark)
        → is_lawful mark (map record_of records.now) (D.calls disk.old) ≡ true
        → is_lawful mark (map record_of records.now) (D.calls disk.new) ≡ true }
    ensures read { (mark : PlanMark) → were_read mark (D.calls disk.old) ≡ true
        → were_read mark (D.calls disk.new) ≡ true }
    ensures refused { IfErr result
        (IsRefusal stage (map record_of records.now) (D.calls disk.new)) }
{
    let mut owners = Vec::with_capacity(alloc, records.len())?;
    for (i, planned) in records.iter().enumerate() {
        let found = match disk.meet(planned.path, planned.after) {
            Ok(found) => found,
            Err(trouble) => return Err(OpenFault::File(i, trouble)),
        };
        let owner = check_left(i, planned, found, stage)?;
        owners.push(owner)?;
    }
    Ok(owners)
}

/// Sees that the names of each file are all in the plan.
pub fn check_all_links<D: Disk>(disk: &mut D, records: &[Record]) -> Result<(), OpenFault>
    ensures checked { OnOk result
        (all_checked (map record_of records.now) (D.calls disk.new) ≡ true) }
    ensures modes { no_mode_failed (D.calls disk.new) ≡ no_mode_failed (D.calls disk.old) }
    ensures kept { (r : PlanRecord)
        → is_mode_kept (D.calls disk.new) r ≡ is_mode_kept (D.calls disk.old) r }
    ensures unchanged { is_unchanged (D.calls disk.new) ≡ is_unchanged (D.calls disk.old) }
    ensures lawful { (mark : PlanMark) (plan : List PlanRecord)
        → all_met plan (D.calls disk.old) ≡ true → is_lawful mark plan (D.calls disk.old) ≡ true
        → is_lawful mark plan (D.calls disk.new) ≡ true }
    ensures read { (mark : PlanMark)
        → were_read mark (D.calls disk.new) ≡ were_read mark (D.calls disk.old) }
    ensures replayed { replay (D.calls disk.new) ≡ replay (D.calls disk.old) }
    ensures refused { IfErr result (IsTrouble (map record_of records.now) (D.calls disk.new)) }
{
    for (i, planned) in records.iter().enumerate() {
        if let Err(trouble) = disk.check_links(planned.path) {
            return Err(OpenFault::File(i, trouble));
        }
    }
    Ok(())
}
