//! A check of a certificate, from the bytes that it reads.

ghost use Rattle.std.specs.Prelude.{◌≡◌, IfOk, IfErr};
ghost use Rattle.unify_merge.specs.Failures.{failure_after};
ghost use Rattle.unify_merge.specs.Check.{HasChecked, StopsCheck};
ghost use Rattle.unify_merge.specs.FirstReading.{ReadsOnly};
ghost use Rattle.unify_merge.specs.Surveyed.{HasCheckedFiles, StopsCheckFiles};

use crate::fault::MergeFault;
use crate::files::ReadFiles;
use crate::first_reading::count_hosts;
use crate::surveying::survey_files;
use hosts_join::HostText;
use site_tables::{KeepRules, SiteRules};
use std::alloc::Global;
use unify::begin_site;

/// How many user and group fields of files the mappings of a certificate change, where the
/// certificate proves that no admissible mappings change fewer; it may be written by anybody. The
/// tables of the hosts, the rules and the certificate are given, and the inventories are read from
/// the files, once; those among the texts are not looked at.
///
/// Each inventory is read when its host's turn comes, piece by piece, and none is kept. It stops
/// early where a call on the files fails, where an inventory has more than 4,294,967,295 bytes, at
/// the first fault of what is read, in the order of `check`, or where a growth is refused
/// (`Fault::Memory`).
///
/// One pass over each inventory, with two look-ups by hash for each file; the rest is near linear
/// in the account rows and the certificate's lines.
pub fn check_by<'a, F: ReadFiles>(
    alloc: Global,
    files: &mut F,
    hosts: &'a [HostText],
    rules: &SiteRules<'a>,
    certificate: &'a [u8],
) -> Result<u64, MergeFault<'a>>
    ensures checked { IfOk result
        (HasChecked hosts.now rules.now certificate.now (F.ledger files.old) (F.ledger files.new)) }
    ensures stopped { IfErr result
        (StopsCheck hosts.now rules.now certificate.now (F.ledger files.old) (F.ledger files.new)) }
    ensures calls { F.failure files.new ≡ failure_after result (F.failure files.old) }
    ensures reads { ReadsOnly (F.ledger files.old) (F.ledger files.new) }
{
    let mut begun = begin_site(alloc, hosts, rules)?;
    count_hosts(alloc, files, &mut begun.inventories)?;
    Ok(begun.check(certificate)?)
}

/// What [`check_by`] tells of a certificate by these pins and this keep text, with the numbers that
/// files have without an account. Where the keep text keeps such numbers they are found first, for
/// which each inventory is read once more.
///
/// It stops early as `check_by` does; before that where what the survey reads is refused: the host
/// list, host by host the tables, and host by host the inventory.
pub fn check_files<'a, F: ReadFiles>(
    alloc: Global,
    files: &mut F,
    hosts: &'a [HostText],
    pins: &'a [u8],
    keep: &'a [u8],
    certificate: &'a [u8],
) -> Result<u64, MergeFault<'a>>
    ensures checked { IfOk result
        (HasCheckedFiles hosts.now pins.now keep.now certificate.now (F.ledger files.old)
        (F.ledger files.new)) }
    ensures stopped { IfErr result
        (StopsCheckFiles hosts.now pins.now keep.now certificate.now (F.ledger files.old)
        (F.ledger files.new)) }
    ensures calls { F.failure files.new ≡ failure_after result (F.failure files.old) }
    ensures reads { ReadsOnly (F.ledger files.old) (F.ledger files.new) }
{
    let unowned = survey_files(alloc, files, hosts, keep)?;
    let rules = SiteRules::new(pins, KeepRules::new(keep, unowned));
    check_by(alloc, files, hosts, &rules, certificate)
}
