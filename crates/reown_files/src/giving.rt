//! The changes of a plan, made on a disk.
ghost use Rattle.std.specs.Prelude.{◌≡◌, ◌&&◌, ◌||◌, not, true, false, List, Some, map, OnOk};
ghost use Rattle.std.specs.Prelude.{IfErr, OnErr, is_ok, slice_get, if◌then◌else◌};
ghost use Rattle.reown_plan.specs.declared.mark.PlanMark.{PlanMark};
ghost use Rattle.reown_plan.specs.PlanData.{PlanRecord};
ghost use Rattle.reown_plan.specs.Records.{record_of};
ghost use Rattle.reown_files.specs.Lawful.{is_of, is_planned, all_kept, is_synced, is_begun};
ghost use Rattle.reown_files.specs.Lawful.{is_lawful, no_mode_failed};
ghost use Rattle.reown_files.specs.Failed.{AskedLast, FailsToGive};
ghost use Rattle.reown_files.specs.Replay.{replay, with_owner};
ghost use Rattle.reown_files.specs.Real.{Grows, WasNotKept};

use crate::{Disk, Failure, Trouble};
use reown_plan::{Owner, Record};

// Whether this change is that of a record.
fn is_change(planned: &Record, path: &[u8], before: Owner, after: Owner) -> bool
    ensures { result ≡ is_of path.now before after (record_of planned.now) }
{
    path == planned.path && before == planned.before && after == planned.after
}

/// Whether this change is that of the record at a place.
pub fn has_change(records: &[Record], i: usize, path: &[u8], before: Owner, after: Owner) -> bool
    ensures planned { result ≡ true
        → is_planned (map record_of records.now) path.now before after ≡ true }
    ensures other { result ≡ false → (r : PlanRecord)
        → slice_get (map record_of records.now) i ≡ Some r
        → is_of path.now before after r ≡ false }
{
    if i < records.len() {
        is_change(&records[i], path, before, after)
    } else {
        false
    }
}

/// What came of a change.
#[derive(Clone, Copy)]
pub struct Change {
    /// Whether the file was given its new owner.
    pub is_made: bool,
    /// Whether it has its mode too.
    pub told: Result<(), Trouble>,
}

/// Gives a file that has one owner another, and sets its mode back where that has changed with it.
pub fn give_file<D: Disk>(disk: &mut D, path: &[u8], before: Owner, after: Owner) -> Change
    ensures lawful { (mark : PlanMark) (records : List PlanRecord)
        → is_planned records path.now before after ≡ true
        → is_begun records (D.calls disk.old) ≡ true
        → is_lawful mark records (D.calls disk.old) ≡ true
        → is_lawful mark records (D.calls disk.new) ≡ true }
    ensures begun { (records : List PlanRecord) → is_begun records (D.calls disk.old) ≡ true
        → is_begun records (D.calls disk.new) ≡ true }
    ensures replayed { replay (D.calls disk.new)
        ≡ (if result.is_made then with_owner path.now (Some after) (replay (D.calls disk.old))
        else replay (D.calls disk.old)) }
    ensures whole { OnOk result.told (result.is_made ≡ true) }
    ensures mode { no_mode_failed (D.calls disk.new)
        ≡ ((not result.is_made || is_ok result.told) && no_mode_failed (D.calls disk.old)) }
    ensures grows { Grows (D.calls disk.old) (D.calls disk.new) }
    ensures failed { OnErr result.told
        (AskedLast (FailsToGive path.now after) (D.calls disk.old) (D.calls disk.new)) }
{
    let modes = match disk.give(path, before, after) {
        Ok(modes) => modes,
        Err(trouble) => {
            return Change {
                is_made: false,
                told: Err(trouble),
            };
        }
    };
    let told = if modes.before == modes.after {
        Ok(())
    } else {
        disk.set_mode(path, after, modes.before)
    };
    Change {
        is_made: true,
        told,
    }
}

// Sees that each record's file has its new owner, and syncs it, where it is not for the sync of
// all.
fn keep_all<D: Disk>(disk: &mut D, records: &[Record]) -> Result<(), Failure>
    ensures failure { IfErr result
        (λ failure. WasNotKept (map record_of records.now) (D.calls disk.new) failure.place) }
    ensures kept { OnOk result (all_kept (map record_of records.now) (D.calls disk.new) ≡ true) }
    ensures modes { no_mode_failed (D.calls disk.new) ≡ no_mode_failed (D.calls disk.old) }
    ensures lawful { (mark : PlanMark) (plan : List PlanRecord)
        → is_lawful mark plan (D.calls disk.old) ≡ true
        → is_lawful mark plan (D.calls disk.new) ≡ true }
    ensures begun { (plan : List PlanRecord) → is_begun plan (D.calls disk.old) ≡ true
        → is_begun plan (D.calls disk.new) ≡ true }
    ensures replayed { replay (D.calls disk.new) ≡ replay (D.calls disk.old) }
    ensures grows { Grows (D.calls disk.old) (D.calls disk.new) }
{
    for (i, planned) in records.iter().enumerate() {
        match disk.keep(planned.path, planned.after) {
            Ok(()) => {}
            Err(trouble) => {
                return Err(Failure {
                    place: Some(i),
                    trouble,
                });
            }
        }
    }
    Ok(())
}

/// Sees that each record's file has its new owner, and that a stop of the machine leaves it so.
pub fn sync_all<D: Disk>(disk: &mut D, records: &[Record]) -> Result<(), Failure>
    ensures failure { IfErr result
        (λ failure. WasNotKept (map record_of records.now) (D.calls disk.new) failure.place) }
    ensures synced { OnOk result (is_synced (map record_of records.now) (D.calls disk.new) ≡ true) }
    ensures modes { no_mode_failed (D.calls disk.new) ≡ no_mode_failed (D.calls disk.old) }
    ensures lawful { (mark : PlanMark) (plan : List PlanRecord)
        → is_lawful mark plan (D.calls disk.old) ≡ true
        → is_lawful mark plan (D.calls disk.new) ≡ true }
    ensures begun { (plan : List PlanRecord) → is_begun plan (D.calls disk.old) ≡ true
        → is_begun plan (D.calls disk.new) ≡ true }
    ensures replayed { replay (D.calls disk.new) ≡ replay (D.calls disk.old) }
    ensures grows { Grows (D.calls disk.old) (D.calls disk.new) }
{
    keep_all(disk, records)?;
    match disk.settle() {
        Ok(()) => Ok(()),
        Err(trouble) => Err(Failure {
            place: None,
            trouble,
        }),
    }
}
