//! A reading of the inventories of all hosts: their files are counted.

ghost use Rattle.std.specs.Prelude.{◌≡◌, ◌<◌, ◌++◌, ◌∷◌, [], ℕ, List, length, Some, Ok, slice_get};
ghost use Rattle.std.specs.Prelude.{OnOk, IfErr};
ghost use Rattle.mtree_inv.specs.declared.entry.Entry.{Entry};
ghost use Rattle.hosts_join.specs.declared.host.Host.{Host};
ghost use Rattle.unify.specs.Passes.{at_start, behind, ended_in, read_in};
ghost use Rattle.unify_merge.specs.Failures.{failure_after};
ghost use Rattle.unify_merge.specs.FirstReading.{AreWithinLimit, HasRead, IsWithinLimit};
ghost use Rattle.unify_merge.specs.FirstReading.{ReadsOnly, StopsCounting, StopsFirst};
ghost use Rattle.unify_merge.specs.FirstReading.{readings_from};

use crate::fault::MergeFault;
use crate::files::ReadFiles;
use crate::pieces::{MOST_INVENTORY_BYTES, next_piece};
use std::alloc::Global;
use unify::Inventories;

// Counts the files of the inventory whose reading has begun.
fn count_reading<'a, F: ReadFiles>(
    files: &mut F,
    inventories: &mut Inventories<'a>,
    bytes: &mut Vec<u8>,
) -> Result<(), MergeFault<'a>>
    requires left { ended_in inventories.old < length inventories.old.hosts }
    requires fresh { inventories.old ≡ behind inventories.old.hosts inventories.old.ended }
    requires begun { (F.ledger files.old).reading
        ≡ Some (record { host = ended_in inventories.old; text = [] }) }
    ensures counted { OnOk result ((text : List ℕ)
        × (inventories.new ≡ behind inventories.old.hosts (inventories.old.ended ++ text ∷ []))
        × HasRead (F.ledger files.old).read (ended_in inventories.old) text (F.ledger files.new)
        × IsWithinLimit text) }
    ensures accepted { OnOk result
        ((read : List (Host × List Entry)) × (read_in inventories.new ≡ Ok read)) }
    ensures stopped { IfErr result
        (λ fault. (host : Host)
        → slice_get inventories.old.hosts (ended_in inventories.old) ≡ Some host
        → StopsFirst host (ended_in inventories.old) (F.ledger files.old).read (F.ledger files.new)
        fault) }
    ensures calls { F.failure files.new ≡ failure_after result (F.failure files.old) }
    ensures reads { ReadsOnly (F.ledger files.old) (F.ledger files.new) }
{
    let mut left = MOST_INVENTORY_BYTES;
    while next_piece(files, bytes, &mut left)? {
        inventories.piece(bytes)?;
    }
    inventories.end_host()?;
    Ok(())
}

// Reads the inventory of the next host, and counts its files.
fn count_host<'a, F: ReadFiles>(
    files: &mut F,
    inventories: &mut Inventories<'a>,
    index: usize,
    bytes: &mut Vec<u8>,
) -> Result<(), MergeFault<'a>>
    requires next { index ≡ ended_in inventories.old }
    requires left { index < length inventories.old.hosts }
    requires fresh { inventories.old ≡ behind inventories.old.hosts inventories.old.ended }
    ensures counted { OnOk result ((text : List ℕ)
        × (inventories.new ≡ behind inventories.old.hosts (inventories.old.ended ++ text ∷ []))
        × HasRead (F.ledger files.old).read index text (F.ledger files.new)
        × IsWithinLimit text) }
    ensures accepted { OnOk result
        ((read : List (Host × List Entry)) × (read_in inventories.new ≡ Ok read)) }
    ensures stopped { IfErr result
        (λ fault. (host : Host) → slice_get inventories.old.hosts index ≡ Some host
        → StopsFirst host index (F.ledger files.old).read (F.ledger files.new)
        fault) }
    ensures calls { F.failure files.new ≡ failure_after result (F.failure files.old) }
    ensures reads { ReadsOnly (F.ledger files.old) (F.ledger files.new) }
{
    files.open(index)?;
    count_reading(files, inventories, bytes)
}

/// Reads the inventories of all hosts, and counts their files.
pub fn count_hosts<'a, F: ReadFiles>(
    alloc: Global,
    files: &mut F,
    inventories: &mut Inventories<'a>,
) -> Result<(), MergeFault<'a>>
    requires start { inventories.old ≡ at_start inventories.old.hosts }
    ensures counted { OnOk result ((texts : List (List ℕ))
        × (inventories.new ≡ behind inventories.old.hosts texts)
        × (length texts ≡ length inventories.old.hosts)
        × ((F.ledger files.new).read ≡ (F.ledger files.old).read ++ readings_from 0 texts)
        × AreWithinLimit texts) }
    ensures accepted { OnOk result
        ((read : List (Host × List Entry)) × (read_in inventories.new ≡ Ok read)) }
    ensures stopped { IfErr result
        (StopsCounting inventories.old.hosts (F.ledger files.old) (F.ledger files.new)) }
    ensures calls { F.failure files.new ≡ failure_after result (F.failure files.old) }
    ensures reads { ReadsOnly (F.ledger files.old) (F.ledger files.new) }
{
    let mut bytes = Vec::new(alloc);
    for index in 0..inventories.hosts_left() {
        count_host(files, inventories, index, &mut bytes)?;
    }
    Ok(())
}
