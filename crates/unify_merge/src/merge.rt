//! A merge, from the bytes that it reads to the bytes of each file.

ghost use Rattle.std.specs.Prelude.{◌≡◌, ◌⊎◌, List, length, true, Some, IfOk, OnOk, IfErr, OnErr};
ghost use Rattle.mtree_inv.specs.declared.entry.Entry.{Entry};
ghost use Rattle.hosts_join.specs.declared.host.Host.{Host};
ghost use Rattle.unify_texts.specs.declared.fault.Fault.TheVariants.{Memory};
ghost use Rattle.site_tables.specs.Begun.{AreTogether};
ghost use Rattle.unify.specs.Passes.{ended_in};
ghost use Rattle.unify.specs.SecondPass.{IsFresh, IsSolvedFrom, ended_in as ended_again};
ghost use Rattle.unify_merge.specs.Failures.{failure_after};
ghost use Rattle.unify_merge.specs.Ledger.{BrokeOff, after_files};
ghost use Rattle.unify_merge.specs.FirstReading.{ReadsOnly};
ghost use Rattle.unify_merge.specs.HostFiles.{HasFiles};
ghost use Rattle.unify_merge.specs.SecondReading.{StopsPlanning, WereRead};
ghost use Rattle.unify_merge.specs.Merge.{HasMade, HasMerged, HasSolved, HasWritten, Leaves};
ghost use Rattle.unify_merge.specs.Merge.{StopsMerge, WritingBrokeOff, account_files, first_files};
ghost use Rattle.unify_merge.specs.Surveyed.{HasMergedFiles, LeavesFiles, StopsMergeFiles};
ghost use Rattle.unify_merge.specs.declared.fault.MergeFault.TheVariants.{Refused};

use crate::fault::MergeFault;
use crate::files::{CallFailed, MergeFiles};
use crate::first_reading::count_hosts;
use crate::host_files::write_hosts;
use crate::second_reading::plan_hosts;
use crate::surveying::survey_files;
use crate::whole_file::write_file;
use hosts_join::HostText;
use site_tables::{KeepRules, SiteRules};
use std::alloc::Global;
use unify::{Cost, JoinedSite, Outcome, Solved, begin_site};
use unify_texts::Fault;

// Writes the one passwd and the one group, unless a name is kept.
fn write_accounts<F: MergeFiles>(files: &mut F, outcome: &Outcome) -> Result<(), CallFailed>
    requires clear { (F.ledger files.old).is_clear ≡ true }
    ensures written { OnOk result
        (HasFiles (account_files outcome.now) (F.ledger files.old) (F.ledger files.new)) }
    ensures ok { OnOk result (F.failure files.new ≡ F.failure files.old) }
    ensures failed { IfErr result (λ e. F.failure files.new ≡ Some e) }
    ensures left { OnErr result
        (BrokeOff (account_files outcome.now) (F.ledger files.old) (F.ledger files.new)) }
{
    if outcome.keeps_names {
        return Ok(());
    }
    write_file(files, b"passwd", outcome.passwd.bytes())?;
    write_file(files, b"group", outcome.group.bytes())
}

// Writes the files of the whole site that come before those of the hosts.
fn write_first<F: MergeFiles>(files: &mut F, outcome: &Outcome) -> Result<(), CallFailed>
    requires clear { (F.ledger files.old).is_clear ≡ true }
    ensures written { OnOk result
        (F.ledger files.new ≡ after_files (first_files outcome.now) (F.ledger files.old)) }
    ensures ok { OnOk result (F.failure files.new ≡ F.failure files.old) }
    ensures failed { IfErr result (λ e. F.failure files.new ≡ Some e) }
    ensures left { OnErr result
        (BrokeOff (first_files outcome.now) (F.ledger files.old) (F.ledger files.new)) }
{
    write_accounts(files, outcome)?;
    write_file(files, b"map", outcome.map.bytes())?;
    write_file(files, b"certificate", outcome.certificate.bytes())
}

// Merges the hosts whose inventories were read.
fn solve<'a>(read: JoinedSite<'a>) -> Result<Solved<'a>, MergeFault<'a>>
    requires together { AreTogether read.inventories.hosts read.site }
    requires none_left { ended_in read.inventories ≡ length read.inventories.hosts }
    ensures solved { IfOk result (IsSolvedFrom read.entry.inventories read.entry.site) }
    ensures memory { IfErr result (λ fault. fault ≡ Refused Memory) }
{
    match read.solve() {
        Ok(solved) => Ok(solved),
        Err(_read) => Err(MergeFault::Refused(Fault::Memory)),
    }
}

// Reads the inventories once, and merges the hosts.
fn solve_hosts<'a, F: MergeFiles>(
    alloc: Global,
    files: &mut F,
    hosts: &'a [HostText],
    rules: &SiteRules<'a>,
) -> Result<Solved<'a>, MergeFault<'a>>
    ensures solved { IfOk result
        (HasSolved hosts.now rules.now (F.ledger files.old) (F.ledger files.new)) }
    ensures stopped { IfErr result
        (StopsMerge hosts.now rules.now (F.ledger files.old) (F.ledger files.new)) }
    ensures calls { F.failure files.new ≡ failure_after result (F.failure files.old) }
    ensures reads { ReadsOnly (F.ledger files.old) (F.ledger files.new) }
{
    let mut begun = begin_site(alloc, hosts, rules)?;
    begun.inventories.expect_second_reading();
    count_hosts(alloc, files, &mut begun.inventories)?;
    solve(begun)
}

// Writes what was merged, with the plans, each host's own files and the report, and hands out how
// many fields of files change.
fn write_merged<'a, F: MergeFiles>(
    alloc: Global,
    files: &mut F,
    solved: &mut Solved<'a>,
    hosts: &[HostText],
) -> Result<Cost, MergeFault<'a>>
    requires start { ended_again solved.old ≡ 0 }
    requires each { length hosts.now ≡ length solved.old.hosts }
    requires fresh { IsFresh solved.old }
    ensures written { IfOk result
        (λ cost. (read : List (Host × List Entry)) → WereRead solved.old read
        → HasWritten hosts.now solved.old read (F.ledger files.old) (F.ledger files.new) cost) }
    ensures stopped { IfErr result
        (λ fault. (read : List (Host × List Entry)) → WereRead solved.old read
        → StopsPlanning read (F.ledger files.old) (F.ledger files.new)
        fault) }
    ensures calls { F.failure files.new ≡ failure_after result (F.failure files.old) }
    ensures left { OnErr result
        ((read : List (Host × List Entry)) → WereRead solved.old read
        → ReadsOnly (F.ledger files.old) (F.ledger files.new)
        ⊎ WritingBrokeOff hosts.now solved.old read (F.ledger files.old) (F.ledger files.new)) }
    ensures merged { OnOk result (solved.new.merged ≡ solved.old.merged) }
{
    files.clear()?;
    write_first(files, solved.outcome())?;
    plan_hosts(alloc, files, solved, hosts)?;
    write_hosts(alloc, files, solved, hosts)?;
    files.seal(b"report", solved.outcome().report.bytes())?;
    Ok(solved.outcome().cost)
}

/// Merges hosts, whose tables and rules are given, and whose inventories are read from the files,
/// twice; and writes the files of the merge. It hands out what was merged except for the plans,
/// which are among the files.
///
/// Each inventory is read when its host's turn comes, piece by piece. Nothing is written before the
/// hosts are merged; then the files of an earlier merge are cleared away, and these are written, in
/// this order: passwd and group, unless a name of the hosts is kept; map, certificate, the plan of
/// each host, each host's own passwd and group with their new numbers, and the report, with which
/// all of them are settled. It stops early where a call on the files fails, where an inventory has
/// more than 4,294,967,295 bytes, at the first fault of what is read, where an inventory has
/// changed when it is read the second time (`Fault::InventoryChanged`), or where a growth is
/// refused (`Fault::Memory`). Wherever it ends early, either nothing was written and nothing
/// cleared away, or every inventory was accepted before that; then the files that are whole are the
/// first of these, with their bytes, and at most the next was begun.
///
/// Two passes over each inventory, with two look-ups by hash for each file; the rest is near linear
/// in the names and account rows, except for the solver, which is near linear where few numbers are
/// contested.
pub fn merge_outcome<'a, F: MergeFiles>(
    alloc: Global,
    files: &mut F,
    hosts: &'a [HostText],
    rules: &SiteRules<'a>,
) -> Result<Outcome, MergeFault<'a>>
    ensures merged { IfOk result
        (HasMade hosts.now rules.now (F.ledger files.old) (F.ledger files.new)) }
    ensures stopped { IfErr result
        (StopsMerge hosts.now rules.now (F.ledger files.old) (F.ledger files.new)) }
    ensures calls { F.failure files.new ≡ failure_after result (F.failure files.old) }
    ensures left { OnErr result
        (Leaves hosts.now rules.now (F.ledger files.old) (F.ledger files.new)) }
{
    let mut solved = solve_hosts(alloc, files, hosts, rules)?;
    write_merged(alloc, files, &mut solved, hosts)?;
    Ok(solved.into_outcome())
}

/// Merges hosts and writes the files as [`merge_outcome`] does, and hands out how many fields of
/// files change.
pub fn merge_by<'a, F: MergeFiles>(
    alloc: Global,
    files: &mut F,
    hosts: &'a [HostText],
    rules: &SiteRules<'a>,
) -> Result<Cost, MergeFault<'a>>
    ensures merged { IfOk result
        (HasMerged hosts.now rules.now (F.ledger files.old) (F.ledger files.new)) }
    ensures stopped { IfErr result
        (StopsMerge hosts.now rules.now (F.ledger files.old) (F.ledger files.new)) }
    ensures calls { F.failure files.new ≡ failure_after result (F.failure files.old) }
    ensures left { OnErr result
        (Leaves hosts.now rules.now (F.ledger files.old) (F.ledger files.new)) }
{
    let outcome = merge_outcome(alloc, files, hosts, rules)?;
    Ok(outcome.cost)
}

/// What [`merge_by`] merges and writes by these pins and this keep text, with the numbers that
/// files have without an account. Where the keep text keeps such numbers they are found first, for
/// which each inventory is read once more.
///
/// It stops early as `merge_by` does; before that where what the survey reads is refused: the host
/// list, host by host the tables, and host by host the inventory. Nothing was written then.
pub fn merge_files<'a, F: MergeFiles>(
    alloc: Global,
    files: &mut F,
    hosts: &'a [HostText],
    pins: &'a [u8],
    keep: &'a [u8],
) -> Result<Cost, MergeFault<'a>>
    ensures merged { IfOk result
        (HasMergedFiles hosts.now pins.now keep.now (F.ledger files.old) (F.ledger files.new)) }
    ensures stopped { IfErr result
        (StopsMergeFiles hosts.now pins.now keep.now (F.ledger files.old) (F.ledger files.new)) }
    ensures calls { F.failure files.new ≡ failure_after result (F.failure files.old) }
    ensures left { OnErr result
        (LeavesFiles hosts.now pins.now keep.now (F.ledger files.old) (F.ledger files.new)) }
{
    let unowned = survey_files(alloc, files, hosts, keep)?;
    let rules = SiteRules::new(pins, KeepRules::new(keep, unowned));
    merge_by(alloc, files, hosts, &rules)
}
