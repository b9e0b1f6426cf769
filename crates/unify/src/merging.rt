//! From a site whose files were counted to one passwd and group, a map, a certificate and a report.

ghost use Rattle.std.specs.Prelude.{◌≡◌, [], List, All, IfOk, OnOk};
ghost use Rattle.hosts_join.specs.Hosts.{IsLawfulHost};
ghost use Rattle.ownership.specs.Costs.{cost_of};
ghost use Rattle.ownership.specs.Counts.{IsMadeFor, StandsFor};
ghost use Rattle.ownership.specs.Files.{Added, by_user, by_group};
ghost use Rattle.ownership.specs.Mappings.{AreForSite};
ghost use Rattle.certcheck.specs.Spelling.{spelling};
ghost use Rattle.mergedfiles.specs.Texts.{merged_users, merged_groups};
ghost use Rattle.mergedfiles.specs.Together.{AreJoined};
ghost use Rattle.unify_texts.specs.Report.{report_of};
ghost use Rattle.unify_texts.specs.ReservedLines as reserved;
ghost use Rattle.unify_texts.specs.WrittenMap as written;
ghost use Rattle.unify.specs.Whole.{IsWhole};
ghost use Rattle.unify.specs.Merging.{HoldsCounted, IsMerged, IsPrintedButPlans};
ghost use Rattle.unify.specs.Outcomes.{AreAnswered};
ghost use Rattle.unify.specs.Reading.{WholeSite, files_of_site};

use crate::counting::Cost;
use crate::outcome::{Outcome, TextList};
use crate::solving::solve_names;
use certcheck::{Certificate, write_certificate};
use hosts_join::{Host, Site};
use idtext::ByteString;
use mergedfiles::{group_text, passwd_text};
use ownership::{Counts, Mappings};
use std::alloc::{AllocError, Global};
use unify_texts::{figures_under, keeps_a_name, report_text, write_map};

/// What a merge gives for a site except for its plans, and the mappings that these go by.
#[derive(Drop)]
pub struct Merged {
    /// Its list of plans is empty.
    pub outcome: Outcome,
    pub mappings: Mappings,
}

// Mappings, and their certificate.
#[derive(Drop)]
struct CertifiedMappings<'a> {
    mappings: Mappings,
    certificate: Certificate<'a>,
}

// How many user and group fields mappings change.
fn cost_under(site: &Site<'_>, counts: &Counts, mappings: &Mappings) -> Cost
    requires made { IsMadeFor site.now counts.now }
    requires for_site { AreForSite site.now mappings.now }
    ensures { (files : List Added) → StandsFor site.now counts.now files
        → result
        ≡ record {
          users = cost_of site.now.users (by_user files) mappings.now.users;
          groups = cost_of site.now.groups (by_group files) mappings.now.groups;
        } }
{
    let Mappings { users, groups } = mappings;
    let user_figures = figures_under(site.users(), counts.users(), counts.user_files(), users);
    let group_figures = figures_under(site.groups(), counts.groups(), counts.group_files(), groups);
    Cost {
        users: user_figures.changed_files,
        groups: group_figures.changed_files,
    }
}

// The text of the map.
fn map_of(alloc: Global, site: &Site<'_>, mappings: &Mappings) -> Result<ByteString, AllocError>
    requires { AreForSite site.now mappings.now }
    ensures { IfOk result (λ text. text ≡ written.map_text site.now mappings.now) }
{
    Ok(ByteString::from_vec(write_map(alloc, site, mappings)?))
}

// The mappings of a site whose files were counted, and their certificate.
fn solve_site<'a>(
    alloc: Global,
    site: &Site<'a>,
    counts: &Counts,
) -> Result<CertifiedMappings<'a>, AllocError>
    requires { IsMadeFor site.now counts.now }
    ensures for_site { IfOk result (λ found. AreForSite site.now found.mappings) }
    ensures answered { IfOk result
        (λ found. (whole : WholeSite) → site.now ≡ whole.joined
        → StandsFor whole.joined counts.now (files_of_site whole)
        → AreAnswered whole found.mappings found.certificate) }
{
    let users = solve_names(alloc, site.users(), counts.users())?;
    let groups = solve_names(alloc, site.groups(), counts.groups())?;
    Ok(CertifiedMappings {
        mappings: Mappings {
            users: users.mapping,
            groups: groups.mapping,
        },
        certificate: Certificate {
            users: users.side,
            groups: groups.side,
        },
    })
}

// What a merge writes, with nothing written as yet.
fn nothing_written(alloc: Global) -> Outcome
    ensures { result.plans ≡ [] }
{
    Outcome {
        passwd: ByteString::new(alloc),
        group: ByteString::new(alloc),
        keeps_names: false,
        map: ByteString::new(alloc),
        certificate: ByteString::new(alloc),
        report: ByteString::new(alloc),
        plans: TextList::new(alloc),
        cost: Cost {
            users: 0,
            groups: 0,
        },
    }
}

// Writes passwd and group by mappings, and whether a name is kept, which then stands in neither.
fn write_accounts(
    alloc: Global,
    hosts: &[Host<'_>],
    site: &Site<'_>,
    certified: &CertifiedMappings<'_>,
    outcome: &mut Outcome,
) -> Result<(), AllocError>
    requires joined { AreJoined hosts.now site.now }
    requires lawful { All IsLawfulHost hosts.now }
    requires for_site { AreForSite site.now certified.now.mappings }
    ensures { OnOk result
        (outcome.new
        ≡ record outcome.old {
          passwd = merged_users hosts.now site.now certified.now.mappings;
          group = merged_groups hosts.now site.now certified.now.mappings.groups;
          keeps_names = reserved.keeps_a_name site.now;
        }) }
{
    let passwd = passwd_text(alloc, hosts, site, &certified.mappings)?;
    outcome.passwd = ByteString::from_vec(passwd);
    let group = group_text(alloc, hosts, site, &certified.mappings.groups)?;
    outcome.group = ByteString::from_vec(group);
    outcome.keeps_names = keeps_a_name(site);
    Ok(())
}

// Writes mappings as a map, and their certificate.
fn write_numbers(
    alloc: Global,
    site: &Site<'_>,
    certified: &CertifiedMappings<'_>,
    outcome: &mut Outcome,
) -> Result<(), AllocError>
    requires for_site { AreForSite site.now certified.now.mappings }
    ensures { OnOk result
        (outcome.new
        ≡ record outcome.old {
          map = written.map_text site.now certified.now.mappings;
          certificate = spelling certified.now.certificate;
        }) }
{
    outcome.map = map_of(alloc, site, &certified.mappings)?;
    let certificate = write_certificate(alloc, &certified.certificate)?;
    outcome.certificate = ByteString::from_vec(certificate);
    Ok(())
}

// Writes what mappings change: the report, and the cost.
fn write_changes(
    alloc: Global,
    hosts: &[Host<'_>],
    site: &Site<'_>,
    counts: &Counts,
    certified: &CertifiedMappings<'_>,
    outcome: &mut Outcome,
) -> Result<(), AllocError>
    requires joined { AreJoined hosts.now site.now }
    requires lawful { All IsLawfulHost hosts.now }
    requires made { IsMadeFor site.now counts.now }
    requires for_site { AreForSite site.now certified.now.mappings }
    ensures { OnOk result ((files : List Added) → StandsFor site.now counts.now files
        → outcome.new
        ≡ record outcome.old {
          report = report_of hosts.now site.now files certified.now.mappings;
          cost =
              record {
                users = cost_of site.now.users (by_user files) certified.now.mappings.users;
                groups = cost_of site.now.groups (by_group files) certified.now.mappings.groups;
              };
        }) }
{
    let report = report_text(alloc, hosts, site, counts, &certified.mappings)?;
    outcome.report = ByteString::from_vec(report);
    outcome.cost = cost_under(site, counts, &certified.mappings);
    Ok(())
}

// What a merge of a site that was counted writes, by its mappings and their certificate, except for
// the plans.
fn texts_of(
    alloc: Global,
    hosts: &[Host<'_>],
    site: &Site<'_>,
    counts: &Counts,
    certified: &CertifiedMappings<'_>,
) -> Result<Outcome, AllocError>
    requires holds { (whole : WholeSite) × HoldsCounted whole hosts.now site.now counts.now }
    requires for_site { AreForSite site.now certified.now.mappings }
    ensures { IfOk result (λ outcome. (whole : WholeSite)
        → HoldsCounted whole hosts.now site.now counts.now
        → IsPrintedButPlans whole certified.now.mappings certified.now.certificate outcome) }
{
    let mut outcome = nothing_written(alloc);
    write_accounts(alloc, hosts, site, certified, &mut outcome)?;
    write_numbers(alloc, site, certified, &mut outcome)?;
    write_changes(alloc, hosts, site, counts, certified, &mut outcome)?;
    Ok(outcome)
}

/// What a merge of a site that was counted gives except for its plans. Requires that the site is
/// whole. It fails for want of memory alone.
pub fn merge_counted(
    alloc: Global,
    hosts: &[Host<'_>],
    site: &Site<'_>,
    counts: &Counts,
) -> Result<Merged, AllocError>
    requires { (whole : WholeSite) × IsWhole whole
        × HoldsCounted whole hosts.now site.now counts.now }
    ensures { IfOk result (λ merged. (whole : WholeSite)
        → HoldsCounted whole hosts.now site.now counts.now → IsMerged whole merged) }
{
    let certified = solve_site(alloc, site, counts)?;
    let outcome = texts_of(alloc, hosts, site, counts, &certified)?;
    Ok(Merged {
        outcome,
        mappings: certified.mappings,
    })
}
