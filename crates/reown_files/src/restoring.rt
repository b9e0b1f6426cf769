//! The modes of a plan's files around its run: those that an earlier run lost are set back, and
//! those that this one may lose are written down.
ghost use Rattle.std.specs.Prelude.{◌≡◌, ◌∷◌, ◌++◌, [], true, List, map, IfErr, OnOk};
ghost use Rattle.std.specs.List.{list_any};
ghost use Rattle.reown_plan.specs.PlanData.{PlanRecord};
ghost use Rattle.reown_plan.specs.Records.{record_of};
ghost use Rattle.reown_files.specs.Lawful.{is_given, is_unchanged, all_asked, is_begun, is_lawful};
ghost use Rattle.reown_files.specs.Lawful.{no_mode_failed, all_checked, is_mode_kept, were_read};
ghost use Rattle.reown_files.specs.Failed.{Last, FailsOn};
ghost use Rattle.reown_files.specs.Opening.{IsTrouble};
ghost use Rattle.reown_files.specs.Replay.{replay};

use crate::{Disk, OpenFault, Trouble};
use reown_plan::{PlanMark, Record};

// Sets the mode of a record's file back, where an earlier run had lost it.
fn set_back<D: Disk>(disk: &mut D, plan: &PlanMark, planned: &Record) -> Result<(), Trouble>
    ensures failed { IfErr result
        (λ trouble. Last (FailsOn (record_of planned.now).path trouble) (D.calls disk.new)) }
    ensures asked { OnOk result ((before : List PlanRecord)
        → all_asked before (D.calls disk.old) ≡ true
        → all_asked (before ++ record_of planned.now ∷ []) (D.calls disk.new) ≡ true) }
    ensures modes { OnOk result
        (no_mode_failed (D.calls disk.new) ≡ no_mode_failed (D.calls disk.old)) }
    ensures kept { OnOk result ((r : PlanRecord) → is_mode_kept (D.calls disk.old) r ≡ true
        → is_mode_kept (D.calls disk.new) r ≡ true) }
    ensures checked { (records : List PlanRecord) → all_checked records (D.calls disk.old) ≡ true
        → all_checked records (D.calls disk.new) ≡ true }
    ensures read { were_read plan.now (D.calls disk.new) ≡ were_read plan.now (D.calls disk.old) }
    ensures unchanged { is_unchanged (D.calls disk.old) ≡ true
        → is_unchanged (D.calls disk.new) ≡ true }
    ensures lawful { (records : List PlanRecord)
        → list_any (is_given (record_of planned.now).path (record_of planned.now).after) records
        ≡ true
        → were_read plan.now (D.calls disk.old) ≡ true
        → is_unchanged (D.calls disk.old) ≡ true
        → is_lawful plan.now records (D.calls disk.old) ≡ true
        → is_lawful plan.now records (D.calls disk.new) ≡ true }
    ensures replayed { replay (D.calls disk.new) ≡ replay (D.calls disk.old) }
{
    let lost = disk.lost_mode(plan, planned.path, planned.after)?;
    let Some(mode) = lost else {
        return Ok(());
    };
    disk.set_mode(planned.path, planned.after, mode)?;
    disk.keep(planned.path, planned.after)
}

// Sets back each mode that an earlier run had lost.
fn set_all_back<D: Disk>(disk: &mut D, plan: &PlanMark, records: &[Record]) -> Result<(), OpenFault>
    requires unchanged { is_unchanged (D.calls disk.old) ≡ true }
    requires checked { all_checked (map record_of records.now) (D.calls disk.old) ≡ true }
    requires kept { (r : PlanRecord) → is_mode_kept (D.calls disk.old) r ≡ true }
    requires read { were_read plan.now (D.calls disk.old) ≡ true }
    requires lawful { is_lawful plan.now (map record_of records.now) (D.calls disk.old) ≡ true }
    ensures checked { all_checked (map record_of records.now) (D.calls disk.new) ≡ true }
    ensures kept { OnOk result ((r : PlanRecord) → is_mode_kept (D.calls disk.new) r ≡ true) }
    ensures read { were_read plan.now (D.calls disk.new) ≡ true }
    ensures refused { IfErr result (IsTrouble (map record_of records.now) (D.calls disk.new)) }
    ensures asked { OnOk result (all_asked (map record_of records.now) (D.calls disk.new) ≡ true) }
    ensures modes { OnOk result
        (no_mode_failed (D.calls disk.new) ≡ no_mode_failed (D.calls disk.old)) }
    ensures unchanged { is_unchanged (D.calls disk.new) ≡ true }
    ensures lawful { is_lawful plan.now (map record_of records.now) (D.calls disk.new) ≡ true }
    ensures replayed { replay (D.calls disk.new) ≡ replay (D.calls disk.old) }
{
    for (i, planned) in records.iter().enumerate() {
        match set_back(disk, plan, planned) {
            Ok(()) => {}
            Err(trouble) => return Err(OpenFault::File(i, trouble)),
        }
    }
    Ok(())
}

/// Sets back each mode that an earlier run of the plan had lost, as it wrote them down, sees to it
/// that a stop of the machine leaves this and all else that such a run did, and then writes down
/// the modes that this one may lose.
pub fn begin<D: Disk>(disk: &mut D, plan: &PlanMark, records: &[Record]) -> Result<(), OpenFault>
    requires read { were_read plan.now (D.calls disk.old) ≡ true }
    requires checked { all_checked (map record_of records.now) (D.calls disk.old) ≡ true }
    requires kept { (r : PlanRecord) → is_mode_kept (D.calls disk.old) r ≡ true }
    requires unchanged { is_unchanged (D.calls disk.old) ≡ true }
    requires lawful { is_lawful plan.now (map record_of records.now) (D.calls disk.old) ≡ true }
    ensures begun { OnOk result (is_begun (map record_of records.now) (D.calls disk.new) ≡ true) }
    ensures modes { OnOk result
        (no_mode_failed (D.calls disk.new) ≡ no_mode_failed (D.calls disk.old)) }
    ensures unchanged { is_unchanged (D.calls disk.new) ≡ true }
    ensures refused { IfErr result (IsTrouble (map record_of records.now) (D.calls disk.new)) }
    ensures lawful { is_lawful plan.now (map record_of records.now) (D.calls disk.new) ≡ true }
    ensures replayed { replay (D.calls disk.new) ≡ replay (D.calls disk.old) }
{
    set_all_back(disk, plan, records)?;
    if let Err(trouble) = disk.settle() {
        return Err(OpenFault::Disk(trouble));
    }
    match disk.put_modes(plan) {
        Ok(()) => Ok(()),
        Err(trouble) => Err(OpenFault::Modes(trouble)),
    }
}
