//! A survey of the inventories of all hosts: which numbers their files have that no account of
//! their host has.

ghost use Rattle.std.specs.Prelude.{◌≡◌, ◌++◌, ℕ, List, [], Err, IfErr, IfOk, IfSome, OnOk};
ghost use Rattle.survey.specs.Surveying.{StandsFor};
ghost use Rattle.unify_texts.specs.Told.{told};
ghost use Rattle.site_tables.specs.Hosts.{lines_of};
ghost use Rattle.unify.specs.Passes.{is_read};
ghost use Rattle.unify_merge.specs.Failures.{failure_after};
ghost use Rattle.unify_merge.specs.FirstReading.{HasRead, IsWithinLimit, ReadsOnly};
ghost use Rattle.unify_merge.specs.Surveyed.{StopsFinding, WereFound};
ghost use Rattle.unify_merge.specs.Survey.{AddsNumbers, HasAdded, HasSurveyed, IsSurveyOf};
ghost use Rattle.unify_merge.specs.Survey.{StopsReading, StopsSurvey};
ghost use Rattle.unify_texts.specs.Limits.{most_files};
ghost use Rattle.site_tables.specs.Survey.{inventory_of};

use crate::fault::MergeFault;
use crate::files::ReadFiles;
use crate::pieces::{MOST_INVENTORY_BYTES, next_piece};
use hosts_join::{Host, HostText};
use kept_accounts::UnownedNumbers;
use site_tables::{begin_survey, read_fault};
use std::alloc::Global;
use survey::HostSurvey;
use unify_texts::{Fault, MOST_FILES};

// Takes the next piece of the inventory of the host.
fn survey_piece<'a>(survey: &mut HostSurvey, host: &Host<'a>, bytes: &[u8]) -> Result<(), Fault<'a>>
    requires { (text : List ℕ) × StandsFor most_files host.now survey.old text }
    ensures told { IfErr result
        (λ e. (text : List ℕ) → StandsFor most_files host.now survey.old text
        → IfSome (told e) (λ f. is_read (lines_of host.now (text ++ bytes.now)) ≡ Err f)) }
    ensures stands { OnOk result
        ((text : List ℕ) → StandsFor most_files host.now survey.old text
        → StandsFor most_files host.now survey.new (text ++ bytes.now)) }
{
    match survey.piece(host, bytes) {
        Ok(()) => Ok(()),
        Err(fault) => Err(read_fault(host, fault)),
    }
}

// Takes the end of the inventory of the host.
fn survey_end<'a>(survey: &mut HostSurvey, host: &Host<'a>) -> Result<(), Fault<'a>>
    requires { (text : List ℕ) × StandsFor most_files host.now survey.old text }
    ensures told { IfErr result
        (λ e. (text : List ℕ) → StandsFor most_files host.now survey.old text
        → IfSome (told e) (λ f. is_read (inventory_of host.now text) ≡ Err f)) }
    ensures read { OnOk result
        ((text : List ℕ) → StandsFor most_files host.now survey.old text
        → IsSurveyOf host.now text survey.new) }
{
    match survey.end(host) {
        Ok(()) => Ok(()),
        Err(fault) => Err(read_fault(host, fault)),
    }
}

// Reads the inventory of a host, from its start to its end.
fn read_host<'a, F: ReadFiles>(
    files: &mut F,
    survey: &mut HostSurvey,
    index: usize,
    host: &Host<'a>,
    bytes: &mut Vec<u8>,
) -> Result<(), MergeFault<'a>>
    requires { StandsFor most_files host.now survey.old [] }
    ensures read { OnOk result
        ((text : List ℕ) × HasRead (F.ledger files.old).read index text (F.ledger files.new)
        × IsSurveyOf host.now text survey.new × IsWithinLimit text) }
    ensures stopped { IfErr result
        (StopsReading host.now index (F.ledger files.old).read (F.ledger files.new)) }
    ensures calls { F.failure files.new ≡ failure_after result (F.failure files.old) }
    ensures reads { ReadsOnly (F.ledger files.old) (F.ledger files.new) }
{
    files.open(index)?;
    let mut left = MOST_INVENTORY_BYTES;
    while next_piece(files, bytes, &mut left)? {
        survey_piece(survey, host, bytes)?;
    }
    survey_end(survey, host)?;
    Ok(())
}

// Reads the inventory of a host, and appends the numbers of its files.
fn survey_host<'a, F: ReadFiles>(
    alloc: Global,
    files: &mut F,
    index: usize,
    host: &Host<'a>,
    bytes: &mut Vec<u8>,
    found: &mut UnownedNumbers<'a>,
) -> Result<(), MergeFault<'a>>
    ensures read { OnOk result
        ((text : List ℕ) × HasRead (F.ledger files.old).read index text (F.ledger files.new)
        × AddsNumbers host.now text found.old found.new × IsWithinLimit text) }
    ensures stopped { IfErr result
        (StopsReading host.now index (F.ledger files.old).read (F.ledger files.new)) }
    ensures calls { F.failure files.new ≡ failure_after result (F.failure files.old) }
    ensures reads { ReadsOnly (F.ledger files.old) (F.ledger files.new) }
{
    let mut survey = HostSurvey::new(alloc, MOST_FILES);
    read_host(files, &mut survey, index, host, bytes)?;
    survey.push_to(host, found)?;
    Ok(())
}

// Reads the inventories of all hosts, and appends the numbers of their files.
fn add_hosts<'a, F: ReadFiles>(
    alloc: Global,
    files: &mut F,
    hosts: &[Host<'a>],
    found: &mut UnownedNumbers<'a>,
) -> Result<(), MergeFault<'a>>
    ensures added { OnOk result
        (HasAdded hosts.now (F.ledger files.old) (F.ledger files.new) found.old found.new) }
    ensures stopped { IfErr result
        (StopsSurvey hosts.now (F.ledger files.old) (F.ledger files.new)) }
    ensures calls { F.failure files.new ≡ failure_after result (F.failure files.old) }
    ensures reads { ReadsOnly (F.ledger files.old) (F.ledger files.new) }
{
    let mut bytes = Vec::new(alloc);
    for (index, host) in hosts.iter().enumerate() {
        survey_host(alloc, files, index, host, &mut bytes, found)?;
    }
    Ok(())
}

/// The numbers that files of the hosts have and no account of their host has, and that the host
/// does not spare: host by host, in the order of the hosts, and of a host each once, in the order
/// in which files have them first.
///
/// The inventories are read from the files, once, each when its host's turn comes, piece by piece,
/// by mtree(5) and the profile that the page of `mtree_inv` states, and none is kept. It stops
/// early where a call on the files fails, where an inventory has more than 4,294,967,295 bytes, at
/// the first fault of an inventory, or where a growth is refused (`Fault::Memory`).
///
/// One pass over each inventory, with two look-ups by hash for each file, a bisection for a number
/// that no account has, and one look-up more where the host does not spare it either.
pub fn survey_hosts<'a, F: ReadFiles>(
    alloc: Global,
    files: &mut F,
    hosts: &[Host<'a>],
) -> Result<UnownedNumbers<'a>, MergeFault<'a>>
    ensures found { IfOk result
        (HasSurveyed hosts.now (F.ledger files.old) (F.ledger files.new)) }
    ensures stopped { IfErr result
        (StopsSurvey hosts.now (F.ledger files.old) (F.ledger files.new)) }
    ensures calls { F.failure files.new ≡ failure_after result (F.failure files.old) }
    ensures reads { ReadsOnly (F.ledger files.old) (F.ledger files.new) }
{
    let mut found = UnownedNumbers::none(alloc);
    add_hosts(alloc, files, hosts, &mut found)?;
    Ok(found)
}

/// The numbers that the files of the hosts have, and no account of their host, where the keep text
/// keeps such numbers; else none, and no inventory is read. The tables of the hosts and the keep
/// text are given as texts.
///
/// It stops early at the first fault of the host list and, host by host, of the tables, and then as
/// [`survey_hosts`] does. It takes what `begin_survey` and that take.
pub fn survey_files<'a, F: ReadFiles>(
    alloc: Global,
    files: &mut F,
    hosts: &'a [HostText],
    keep: &[u8],
) -> Result<UnownedNumbers<'a>, MergeFault<'a>>
    ensures found { IfOk result
        (WereFound hosts.now keep.now (F.ledger files.old) (F.ledger files.new)) }
    ensures stopped { IfErr result
        (StopsFinding hosts.now keep.now (F.ledger files.old) (F.ledger files.new)) }
    ensures calls { F.failure files.new ≡ failure_after result (F.failure files.old) }
    ensures reads { ReadsOnly (F.ledger files.old) (F.ledger files.new) }
{
    let surveying = begin_survey(alloc, hosts, keep)?;
    survey_hosts(alloc, files, &surveying)
}
