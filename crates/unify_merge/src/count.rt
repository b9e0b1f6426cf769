//! A count of a map, from the bytes that it reads.

ghost use Rattle.std.specs.Prelude.{◌≡◌, IfOk, IfErr};
ghost use Rattle.unify_merge.specs.Failures.{failure_after};
ghost use Rattle.unify_merge.specs.Count.{HasCounted, StopsCount};
ghost use Rattle.unify_merge.specs.FirstReading.{ReadsOnly};
ghost use Rattle.unify_merge.specs.Surveyed.{HasCountedFiles, StopsCountFiles};

use crate::fault::MergeFault;
use crate::files::ReadFiles;
use crate::first_reading::count_hosts;
use crate::surveying::survey_files;
use hosts_join::HostText;
use site_tables::KeepRules;
use std::alloc::Global;
use unify::{Cost, begin_count};

/// How many user and group fields of files the numbers of a map text change, for any map whose
/// names are exactly those of the hosts that are not kept; it need keep no pin and no pool. The
/// tables of the hosts, the keep text with the numbers that files have without an account, and the
/// map are given, and the inventories are read from the files, once; those among the texts are not
/// looked at.
///
/// Each inventory is read when its host's turn comes, piece by piece, and none is kept. It stops
/// early where a call on the files fails, where an inventory has more than 4,294,967,295 bytes, at
/// the first fault of what is read, in the order of `count`, or where a growth is refused
/// (`Fault::Memory`).
///
/// One pass over each inventory, with two look-ups by hash for each file; the map's names are
/// looked up on each host.
pub fn count_by<'a, F: ReadFiles>(
    alloc: Global,
    files: &mut F,
    hosts: &'a [HostText],
    keep: &KeepRules<'a>,
    map: &'a [u8],
) -> Result<Cost, MergeFault<'a>>
    ensures counted { IfOk result
        (HasCounted hosts.now keep.now map.now (F.ledger files.old) (F.ledger files.new)) }
    ensures stopped { IfErr result
        (StopsCount hosts.now keep.now map.now (F.ledger files.old) (F.ledger files.new)) }
    ensures calls { F.failure files.new ≡ failure_after result (F.failure files.old) }
    ensures reads { ReadsOnly (F.ledger files.old) (F.ledger files.new) }
{
    let mut begun = begin_count(alloc, hosts, keep, map)?;
    count_hosts(alloc, files, &mut begun.inventories)?;
    Ok(begun.cost())
}

/// What [`count_by`] counts by this keep text, with the numbers that files have without an account.
/// Where the text keeps such numbers they are found first, for which each inventory is read once
/// more.
///
/// It stops early as `count_by` does; before that where what the survey reads is refused: the host
/// list, host by host the tables, and host by host the inventory.
pub fn count_files<'a, F: ReadFiles>(
    alloc: Global,
    files: &mut F,
    hosts: &'a [HostText],
    keep: &'a [u8],
    map: &'a [u8],
) -> Result<Cost, MergeFault<'a>>
    ensures counted { IfOk result
        (HasCountedFiles hosts.now keep.now map.now (F.ledger files.old) (F.ledger files.new)) }
    ensures stopped { IfErr result
        (StopsCountFiles hosts.now keep.now map.now (F.ledger files.old) (F.ledger files.new)) }
    ensures calls { F.failure files.new ≡ failure_after result (F.failure files.old) }
    ensures reads { ReadsOnly (F.ledger files.old) (F.ledger files.new) }
{
    let unowned = survey_files(alloc, files, hosts, keep)?;
    let keep = KeepRules::new(keep, unowned);
    count_by(alloc, files, hosts, &keep, map)
}
