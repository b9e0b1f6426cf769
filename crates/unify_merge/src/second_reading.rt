//! The second reading of the inventories: plans are written.

ghost use Rattle.std.specs.Prelude.{◌≡◌, ◌+◌, ◌<◌, ◌++◌, ◌∷◌, [], ℕ, List, length, true, Some};
ghost use Rattle.std.specs.Prelude.{None, OnOk, IfErr, OnErr};
ghost use Rattle.mtree_inv.specs.declared.entry.Entry.{Entry};
ghost use Rattle.hosts_join.specs.declared.host.Host.{Host};
ghost use Rattle.unify.specs.SecondPass.{IsFresh, IsNext, IsOfSameSite, WereFirst, ended_in};
ghost use Rattle.unify.specs.SecondPass.{whole_plan};
ghost use Rattle.unify_merge.specs.Failures.{failure_after};
ghost use Rattle.unify_merge.specs.Ledger.{HasBegun, with_bytes};
ghost use Rattle.unify_merge.specs.SecondReading.{ArePlanned, HasPlan, IsPlanned, IsReadAgain};
ghost use Rattle.unify_merge.specs.SecondReading.{IsTurnOf, IsWithinFile, StopsEnd, StopsPiece};
ghost use Rattle.unify_merge.specs.SecondReading.{StopsPlanning, StopsSecond, WereRead, WritesOnly};
ghost use Rattle.unify_merge.specs.SecondReading.{HasReadOneAtMost, PlanBrokeOff, PlansBrokeOff};
ghost use Rattle.unify_merge.specs.SecondReading.{plan_name};

use crate::fault::MergeFault;
use crate::files::MergeFiles;
use crate::pieces::{MOST_INVENTORY_BYTES, next_piece};
use hosts_join::HostText;
use std::alloc::Global;
use unify::{Solved, host_file_name};

// The bytes of a piece, and what its plan goes on with.
#[derive(Drop)]
struct Buffers {
    bytes: Vec<u8>,
    plan: Vec<u8>,
}

// Appends to the plan what the next bytes of the inventory add.
fn plan_piece<'a, F: MergeFiles>(
    files: &mut F,
    solved: &mut Solved<'a>,
    bytes: &[u8],
    plan: &mut Vec<u8>,
) -> Result<(), MergeFault<'a>>
    requires left { ended_in solved.old < length solved.old.hosts }
    ensures told { IfErr result
        (λ fault. (host : Host) → IsNext solved.old host
        → StopsPiece host (solved.old.text ++ bytes.now) fault) }
    ensures calls { F.failure files.new ≡ failure_after result (F.failure files.old) }
    ensures planned { OnOk result
        ((host : Host) → IsNext solved.old host → (more : List ℕ)
        × (F.ledger files.new ≡ with_bytes more (F.ledger files.old))
        × (solved.new
        ≡ record solved.old {
          text = solved.old.text ++ bytes.now;
          planned = solved.old.planned ++ more;
        })) }
    ensures none { OnErr result (F.ledger files.new ≡ F.ledger files.old) }
    ensures writes { WritesOnly (F.ledger files.old) (F.ledger files.new) }
{
    plan.clear();
    solved.piece(bytes, plan)?;
    files.append(plan)?;
    Ok(())
}

// Appends to the plan what the end of the inventory adds.
fn end_plan<'a, F: MergeFiles>(
    files: &mut F,
    solved: &mut Solved<'a>,
    plan: &mut Vec<u8>,
) -> Result<(), MergeFault<'a>>
    requires left { ended_in solved.old < length solved.old.hosts }
    ensures told { IfErr result
        (λ fault. (host : Host) (were : List Entry) → IsNext solved.old host
        → WereFirst solved.old host were
        → StopsEnd host were solved.old.text fault) }
    ensures calls { F.failure files.new ≡ failure_after result (F.failure files.old) }
    ensures planned { OnOk result
        ((host : Host) (were : List Entry) → IsNext solved.old host
        → WereFirst solved.old host were → (more : List ℕ)
        × (F.ledger files.new ≡ with_bytes more (F.ledger files.old)) × (found : List Entry)
        × IsReadAgain host were solved.old.text found
        × (solved.old.planned ++ more
        ≡ whole_plan host solved.old.joined solved.old.merged (ended_in solved.old) found)) }
    ensures none { OnErr result (F.ledger files.new ≡ F.ledger files.old) }
    ensures writes { WritesOnly (F.ledger files.old) (F.ledger files.new) }
    ensures fresh { solved.old.met ≡ None → OnOk result (IsFresh solved.new) }
    ensures ended { OnOk result (ended_in solved.new ≡ ended_in solved.old + 1) }
    ensures site { OnOk result (IsOfSameSite solved.old solved.new) }
{
    plan.clear();
    solved.end_host(plan)?;
    files.append(plan)?;
    Ok(())
}

// Reads the inventory whose reading has begun, and writes its plan, whose file has.
fn plan_reading<'a, F: MergeFiles>(
    files: &mut F,
    solved: &mut Solved<'a>,
    buffers: &mut Buffers,
) -> Result<(), MergeFault<'a>>
    requires left { ended_in solved.old < length solved.old.hosts }
    requires fresh { IsFresh solved.old }
    requires begun { (F.ledger files.old).reading
        ≡ Some (record { host = ended_in solved.old; text = [] }) }
    requires file { (name : List ℕ)
        × ((F.ledger files.old).writing ≡ Some (record { name = name; text = [] })) }
    ensures planned { OnOk result
        ((host : Host) (were : List Entry) (name : List ℕ) → IsTurnOf solved.old host were
        → (F.ledger files.old).writing ≡ Some (record { name = name; text = [] })
        → IsPlanned solved.old host were name (F.ledger files.old) (F.ledger files.new)) }
    ensures stopped { IfErr result
        (λ fault. (host : Host) (were : List Entry) → IsTurnOf solved.old host were
        → StopsSecond host were (ended_in solved.old) (F.ledger files.old).read (F.ledger files.new)
        fault) }
    ensures calls { F.failure files.new ≡ failure_after result (F.failure files.old) }
    ensures kept { IsWithinFile (F.ledger files.old) (F.ledger files.new) }
    ensures reads { HasReadOneAtMost (F.ledger files.old).read (F.ledger files.new) }
    ensures fresh { OnOk result (IsFresh solved.new) }
    ensures ended { OnOk result (ended_in solved.new ≡ ended_in solved.old + 1) }
    ensures site { OnOk result (IsOfSameSite solved.old solved.new) }
{
    let mut left = MOST_INVENTORY_BYTES;
    while next_piece(files, &mut buffers.bytes, &mut left)? {
        plan_piece(files, solved, &buffers.bytes, &mut buffers.plan)?;
    }
    end_plan(files, solved, &mut buffers.plan)
}

// Reads the inventory of the next host once more, and writes the host's plan as a file of this
// name.
fn plan_host<'a, F: MergeFiles>(
    files: &mut F,
    solved: &mut Solved<'a>,
    index: usize,
    name: &[u8],
    buffers: &mut Buffers,
) -> Result<(), MergeFault<'a>>
    requires clear { (F.ledger files.old).is_clear ≡ true }
    requires next { index ≡ ended_in solved.old }
    requires fresh { IsFresh solved.old }
    requires left { index < length solved.old.hosts }
    ensures planned { OnOk result
        ((host : Host) (were : List Entry) → IsTurnOf solved.old host were
        → HasPlan solved.old host were name.now (F.ledger files.old) (F.ledger files.new)) }
    ensures stopped { IfErr result
        (λ fault. (host : Host) (were : List Entry) → IsTurnOf solved.old host were
        → StopsSecond host were index (F.ledger files.old).read (F.ledger files.new)
        fault) }
    ensures calls { F.failure files.new ≡ failure_after result (F.failure files.old) }
    ensures clear { OnOk result ((F.ledger files.new).is_clear ≡ true) }
    ensures begun { OnErr result
        (HasBegun (name.now ∷ []) (F.ledger files.old) (F.ledger files.new)) }
    ensures left { OnErr result (PlanBrokeOff (F.ledger files.old) (F.ledger files.new)) }
    ensures fresh { OnOk result (IsFresh solved.new) }
    ensures ended { OnOk result (ended_in solved.new ≡ index + 1) }
    ensures site { OnOk result (IsOfSameSite solved.old solved.new) }
{
    files.begin(name)?;
    files.open(index)?;
    plan_reading(files, solved, buffers)?;
    files.finish()?;
    Ok(())
}

// Reads the inventory of the next host once more, and writes the host's plan.
fn plan_named<'a, F: MergeFiles>(
    alloc: Global,
    files: &mut F,
    solved: &mut Solved<'a>,
    index: usize,
    host: &HostText,
    buffers: &mut Buffers,
) -> Result<(), MergeFault<'a>>
    requires clear { (F.ledger files.old).is_clear ≡ true }
    requires next { index ≡ ended_in solved.old }
    requires fresh { IsFresh solved.old }
    requires left { index < length solved.old.hosts }
    ensures planned { OnOk result
        ((here : Host) (were : List Entry) → IsTurnOf solved.old here were
        → HasPlan solved.old here were (plan_name host.now) (F.ledger files.old)
        (F.ledger files.new)) }
    ensures stopped { IfErr result
        (λ fault. (here : Host) (were : List Entry) → IsTurnOf solved.old here were
        → StopsSecond here were index (F.ledger files.old).read (F.ledger files.new)
        fault) }
    ensures calls { F.failure files.new ≡ failure_after result (F.failure files.old) }
    ensures clear { OnOk result ((F.ledger files.new).is_clear ≡ true) }
    ensures begun { OnErr result
        (HasBegun (plan_name host.now ∷ []) (F.ledger files.old) (F.ledger files.new)) }
    ensures left { OnErr result (PlanBrokeOff (F.ledger files.old) (F.ledger files.new)) }
    ensures fresh { OnOk result (IsFresh solved.new) }
    ensures ended { OnOk result (ended_in solved.new ≡ index + 1) }
    ensures site { OnOk result (IsOfSameSite solved.old solved.new) }
{
    let name = host_file_name(alloc, b"plan.", host)?;
    plan_host(files, solved, index, &name, buffers)
}

/// Reads the inventories of all hosts once more, and writes the plan of each host.
pub fn plan_hosts<'a, F: MergeFiles>(
    alloc: Global,
    files: &mut F,
    solved: &mut Solved<'a>,
    hosts: &[HostText],
) -> Result<(), MergeFault<'a>>
    requires clear { (F.ledger files.old).is_clear ≡ true }
    requires start { ended_in solved.old ≡ 0 }
    requires each { length hosts.now ≡ length solved.old.hosts }
    requires fresh { IsFresh solved.old }
    ensures planned { OnOk result
        ((read : List (Host × List Entry)) → WereRead solved.old read
        → ArePlanned hosts.now solved.old read (F.ledger files.old) (F.ledger files.new)) }
    ensures stopped { IfErr result
        (λ fault. (read : List (Host × List Entry)) → WereRead solved.old read
        → StopsPlanning read (F.ledger files.old) (F.ledger files.new)
        fault) }
    ensures calls { F.failure files.new ≡ failure_after result (F.failure files.old) }
    ensures clear { OnOk result ((F.ledger files.new).is_clear ≡ true) }
    ensures left { OnErr result
        ((read : List (Host × List Entry)) → WereRead solved.old read
        → PlansBrokeOff hosts.now solved.old read (F.ledger files.old) (F.ledger files.new)) }
    ensures site { OnOk result (IsOfSameSite solved.old solved.new) }
{
    let mut buffers = Buffers {
        bytes: Vec::new(alloc),
        plan: Vec::new(alloc),
    };
    for (index, host) in hosts.iter().enumerate() {
        plan_named(alloc, files, solved, index, host, &mut buffers)?;
    }
    Ok(())
}
