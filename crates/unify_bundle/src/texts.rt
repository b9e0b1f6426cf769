//! Commands over texts: each is the command over files, whose inventories are among the texts.

ghost use Rattle.std.specs.Prelude.{IfOk};
ghost use Rattle.idtext.specs.First.{Gives, Yields};
ghost use Rattle.unify_texts.specs.Told.{told};
ghost use Rattle.unify.specs.Checking.{IsChecked, check_of};
ghost use Rattle.unify.specs.Count.{count_of};
ghost use Rattle.unify.specs.Outcomes.{IsOutcome};
ghost use Rattle.unify.specs.Reading.{site_read};
ghost use Rattle.site_tables.specs.Survey.{surveyed};
ghost use Rattle.unify_laws.specs.Headline.{Headline};
ghost use Rattle.unify_laws.specs.HostTexts.{AreSiteFiles};

use crate::site_files::with_files;
use crate::text_files::TextFiles;
use hosts_join::HostText;
use kept_accounts::UnownedNumbers;
use site_tables::{KeepRules, SiteRules};
use std::alloc::Global;
use unify::{Cost, Outcome, SiteFiles};
use unify_merge::{check_by, count_by, merge_outcome, survey_files};
use unify_texts::Fault;

/// The numbers that the files of the hosts have, and no account of their host, where the keep text
/// keeps such numbers; else none.
///
/// It refuses with the first fault of `begin_survey`, and then of the inventories, host by host.
/// `Fault::Memory` is as for `merge`. One pass over the keep text; where it keeps such
/// numbers another over the tables and the inventories, with three look-ups by hash for each file.
pub fn survey_texts<'a>(
    alloc: Global,
    texts: &'a [HostText],
    keep: &[u8],
) -> Result<UnownedNumbers<'a>, Fault<'a>>
    ensures { Gives (λ found. found) told result (surveyed texts.now keep.now) }
{
    let mut files = TextFiles::new(alloc, texts);
    let found = survey_files(alloc, &mut files, texts, keep);
    files.answer(found)
}

/// How many user and group fields of the hosts' files the numbers of a map text change, for any
/// map whose names are exactly those of the hosts that the keep text does not keep; it need keep no
/// pin and no pool.
///
/// It refuses with the first fault in this order: the host list; host by host login.defs, passwd,
/// group and the primary groups; the keep text, by line; the map, by line, and then at line 0 where
/// its names are not exactly those names; host by host the inventory, and then its owners.
/// `Fault::Memory` is a growth that was refused, or an inventory of more than 4,294,967,295 bytes.
///
/// It reads each text once, and each owner by hash, so it takes time linear in the texts (a map's
/// names are looked up on each host). It keeps the tables of all hosts, which borrow their texts,
/// and the paths of one inventory at a time.
pub fn count<'a>(
    alloc: Global,
    hosts: &'a [HostText],
    keep: &KeepRules<'a>,
    map: &'a [u8],
) -> Result<Cost, Fault<'a>>
    ensures { Gives (λ cost. cost) told result (count_of hosts.now keep.now map.now) }
{
    let mut files = TextFiles::new(alloc, hosts);
    let cost = count_by(alloc, &mut files, hosts, keep, map);
    files.answer(cost)
}

/// How many user and group fields the mappings of a certificate change, where the certificate
/// proves that no admissible mappings change fewer; it may be written by anybody.
///
/// It refuses with the first fault in this order: those of `merge`; the certificate's text,
/// by line; the check, users before groups. `Fault::Memory` is as there.
///
/// It reads each text once, and takes time near linear in account rows, files and the certificate's
/// lines.
pub fn check<'a>(
    alloc: Global,
    hosts: &'a [HostText],
    rules: &SiteRules<'a>,
    certificate: &'a [u8],
) -> Result<u64, Fault<'a>>
    ensures exact { Gives (λ cost. cost) told result
        (check_of hosts.now rules.now certificate.now) }
    ensures proved { IfOk result (IsChecked hosts.now rules.now certificate.now) }
{
    let mut files = TextFiles::new(alloc, hosts);
    let cost = check_by(alloc, &mut files, hosts, rules, certificate);
    files.answer(cost)
}

/// What `merge` gives, with each host's own passwd and group with their new numbers, as the
/// files passwd.NAME and group.NAME: by the same map the texts of the host with only their numbers
/// replaced. It refuses as `merge` does.
///
/// It is the merge that people run, over files in memory: it reads each inventory twice, each
/// passwd and each group twice, and else each text once. Its time is near linear in the texts but
/// for the solver, which is near linear where few numbers are contested. What it writes is in
/// memory.
pub fn merge_hosts<'a>(
    alloc: Global,
    hosts: &'a [HostText],
    rules: &SiteRules<'a>,
) -> Result<SiteFiles, Fault<'a>>
    ensures { Yields (AreSiteFiles hosts.now) told result (site_read hosts.now rules.now) }
{
    let mut files = TextFiles::new(alloc, hosts);
    let merged = merge_outcome(alloc, &mut files, hosts, rules);
    let outcome = files.answer(merged)?;
    let site = with_files(alloc, outcome, hosts.len(), files.into_files())?;
    Ok(site)
}

/// One passwd and one group for all hosts, the map of every name to its number, its certificate, a
/// report and a plan for each host, where the map changes as few user and group fields of files as
/// possible.
///
/// It refuses with the first fault in this order: the host list; host by host login.defs, passwd,
/// group and the primary groups; the keep text, by line; the pins text, by line; the join, users
/// before groups; host by host the inventory, by line, and then its owners in inventory order, uid
/// before gid. `Fault::Memory` is a growth that was refused, or an inventory of more than
/// 4,294,967,295 bytes. Several maps may cost the least; which of them is given is not said.
///
/// It is `merge_hosts` without each host's own files, and takes the same.
pub fn merge<'a>(
    alloc: Global,
    hosts: &'a [HostText],
    rules: &SiteRules<'a>,
) -> Result<Outcome, Fault<'a>>
    ensures answers { Yields IsOutcome told result (site_read hosts.now rules.now) }
    ensures correct { Yields Headline told result (site_read hosts.now rules.now) }
{
    let site = merge_hosts(alloc, hosts, rules)?;
    Ok(site.outcome)
}
