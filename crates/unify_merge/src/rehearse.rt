//! A rehearsal of a plan, from the bytes that it reads.

ghost use Rattle.std.specs.Prelude.{◌≡◌, [], IfErr, IfOk};
ghost use Rattle.reown_plan.specs.PlanData.{PlanData};
ghost use Rattle.rehearsal.specs.PlanRehearsal.{StandsFor};
ghost use Rattle.unify_merge.specs.Failures.{failure_after};
ghost use Rattle.unify_merge.specs.FirstReading.{ReadsOnly};
ghost use Rattle.unify_merge.specs.Rehearse.{HasCarriedOut, StopsCarrying};
ghost use Rattle.unify_merge.specs.Rehearse.{HasRehearsed, StopsRehearsal};

use crate::fault::MergeFault;
use crate::files::ReadFiles;
use crate::pieces::{MOST_INVENTORY_BYTES, next_piece};
use rehearsal::{Rehearsal, plan_at};
use reown_plan::Plan;
use std::alloc::Global;

// Reads the inventory, from its start to its end, and carries the plan out.
fn read_and_end<'a, F: ReadFiles>(
    alloc: Global,
    files: &mut F,
    rehearsal: &mut Rehearsal<'_, 'a>,
    bytes: &mut Vec<u8>,
) -> Result<u32, MergeFault<'a>>
    requires { (plan : PlanData) × StandsFor rehearsal.old plan [] }
    ensures carried { IfOk result
        (λ n. (plan : PlanData) → StandsFor rehearsal.old plan []
        → HasCarriedOut plan (F.ledger files.old).read (F.ledger files.new) n) }
    ensures stopped { IfErr result
        (λ fault. (plan : PlanData) → StandsFor rehearsal.old plan []
        → StopsCarrying plan (F.ledger files.old).read (F.ledger files.new) fault) }
    ensures calls { F.failure files.new ≡ failure_after result (F.failure files.old) }
    ensures reads { ReadsOnly (F.ledger files.old) (F.ledger files.new) }
{
    files.open(0)?;
    let mut left = MOST_INVENTORY_BYTES;
    while next_piece(files, bytes, &mut left)? {
        rehearsal.piece(bytes)?;
    }
    let records = rehearsal.end(alloc)?;
    Ok(records)
}

// Carries a plan out on a tree in memory that is as the inventory tells.
fn rehearse_plan<'a, F: ReadFiles>(
    alloc: Global,
    files: &mut F,
    plan: &Plan<'a>,
) -> Result<u32, MergeFault<'a>>
    ensures carried { IfOk result
        (HasCarriedOut plan.now (F.ledger files.old).read (F.ledger files.new)) }
    ensures stopped { IfErr result
        (StopsCarrying plan.now (F.ledger files.old).read (F.ledger files.new)) }
    ensures calls { F.failure files.new ≡ failure_after result (F.failure files.old) }
    ensures reads { ReadsOnly (F.ledger files.old) (F.ledger files.new) }
{
    let mut rehearsal = Rehearsal::new(alloc, plan)?;
    let mut bytes = Vec::new(alloc);
    read_and_end(alloc, files, &mut rehearsal, &mut bytes)
}

/// Carries the plan that a text spells out on a tree in memory that is as an inventory tells, and
/// answers how many records it has. The inventory is the first of the files.
///
/// It is read once, piece by piece, and not kept. It stops early where the plan is refused, before
/// anything is read; where a call on the files fails; where the inventory has more than
/// 4,294,967,295 bytes; at the first fault of what is read, in the order of
/// `rehearsal::rehearse`; or where a growth is refused (`Fault::Memory`).
///
/// One pass over the plan and the inventory, one sort of the plan's records by their paths, one
/// look-up of each file among these, and at most two of each record's file.
pub fn rehearse_files<'a, F: ReadFiles>(
    alloc: Global,
    files: &mut F,
    plan: &'a [u8],
) -> Result<u32, MergeFault<'a>>
    ensures rehearsed { IfOk result
        (HasRehearsed plan.now (F.ledger files.old) (F.ledger files.new)) }
    ensures stopped { IfErr result
        (StopsRehearsal plan.now (F.ledger files.old) (F.ledger files.new)) }
    ensures calls { F.failure files.new ≡ failure_after result (F.failure files.old) }
    ensures reads { ReadsOnly (F.ledger files.old) (F.ledger files.new) }
{
    let plan = plan_at(alloc, plan)?;
    rehearse_plan(alloc, files, &plan)
}
