//! The report.

ghost use Rattle.std.specs.Prelude.{◌≡◌, ◌++◌, List, flat_map, IfOk, OnOk, All};
ghost use Rattle.hosts_join.specs.Hosts.{IsLawfulHost};
ghost use Rattle.mergedfiles.specs.Together.{AreJoined};
ghost use Rattle.ownership.specs.Counts.{IsMadeFor, StandsFor};
ghost use Rattle.ownership.specs.Files.{Added};
ghost use Rattle.ownership.specs.Mappings.{AreForSite};
ghost use Rattle.unify_texts.specs.Report as report;

use crate::figures::{Figures, figures_under};
use crate::reserved::push_reserved_lines;
use crate::words::{Word, kind_word, push_line};
use hosts_join::{Host, Reserved, Site};
use mergedfiles::{Difference, Field, differences};
use ownership::{Counts, Mappings};
use std::alloc::{AllocError, Global};

fn field_word(field: Field) -> &'static str
    ensures { result.now ≡ report.field_word field }
{
    match field {
        Field::Password => "password",
        Field::Comment => "comment",
        Field::Home => "home",
        Field::Shell => "shell",
        Field::Group => "group",
    }
}

// How the names of a kind got their numbers.
fn push_names(out: &mut Vec<u8>, kinds: &str, figures: &Figures) -> Result<(), AllocError>
    ensures { OnOk result
        (out.new.items ≡ out.old.items ++ report.names_line kinds.now figures.now) }
{
    let words = [
        Word::Number(u128::from(figures.names)),
        Word::Text("pinned"),
        Word::Number(u128::from(figures.pinned)),
        Word::Text("kept"),
        Word::Number(u128::from(figures.kept)),
        Word::Text("fresh"),
        Word::Number(u128::from(figures.fresh)),
    ];
    push_line(out, kinds, &words)
}

// How many of all change.
fn push_change(out: &mut Vec<u8>, what: &str, changed: u64, all: u64) -> Result<(), AllocError>
    ensures { OnOk result
        (out.new.items ≡ out.old.items ++ report.change_line what.now changed all) }
{
    let words = [
        Word::Number(u128::from(changed)),
        Word::Text("of"),
        Word::Number(u128::from(all)),
    ];
    push_line(out, what, &words)
}

fn push_difference(out: &mut Vec<u8>, difference: &Difference<'_>) -> Result<(), AllocError>
    ensures { OnOk result (out.new.items ≡ out.old.items ++ report.difference_line difference.now) }
{
    let words = [
        Word::Text(kind_word(difference.kind)),
        Word::Shown(difference.name.bytes()),
        Word::Text(field_word(difference.field)),
        Word::Shown(difference.host.bytes()),
    ];
    push_line(out, "differs", &words)
}

fn push_differences(out: &mut Vec<u8>, told: &[Difference<'_>]) -> Result<(), AllocError>
    ensures { OnOk result
        (out.new.items ≡ out.old.items ++ flat_map report.difference_line told.now) }
{
    for difference in told {
        push_difference(out, difference)?;
    }
    Ok(())
}

// The version of a report: whether it has lines of what is reserved.
fn version_word(users: &[Reserved<'_>], groups: &[Reserved<'_>]) -> &'static str
    ensures { result.now ≡ report.report_version users.now groups.now }
{
    match (users, groups) {
        ([], []) => "2",
        _ => "3",
    }
}

// The lines of a report.
fn report_lines(
    alloc: Global,
    site: &Site<'_>,
    hosts: usize,
    users: &Figures,
    groups: &Figures,
    told: &[Difference<'_>],
) -> Result<Vec<u8>, AllocError>
    ensures { IfOk result
        (λ text. text.items ≡ report.report_lines site.now hosts users.now groups.now told.now) }
{
    let mut text = Vec::new(alloc);
    let version = version_word(site.users().reserved(), site.groups().reserved());
    push_line(
        &mut text,
        "unify",
        &[Word::Text("report"), Word::Text(version)],
    )?;
    push_line(&mut text, "hosts", &[Word::Number(hosts as u128)])?;
    push_names(&mut text, "users", users)?;
    push_names(&mut text, "groups", groups)?;
    push_change(&mut text, "user-fields", users.changed_files, users.files)?;
    push_change(
        &mut text,
        "group-fields",
        groups.changed_files,
        groups.files,
    )?;
    push_change(&mut text, "user-lines", users.changed_rows, users.rows)?;
    push_change(&mut text, "group-lines", groups.changed_rows, groups.rows)?;
    push_reserved_lines(&mut text, site)?;
    push_differences(&mut text, told)?;
    push_line(&mut text, "end", &[])?;
    Ok(text)
}

/// The report of a mapping of a site's users and one of its groups: how many hosts there are; for
/// each kind how many names are pinned, keep a number that they have on some host, or have a fresh
/// one; how many user fields of the files, and how many account rows, change; what no name is to
/// be given, and who reserves it, where something is; and each field in which a later host differs
/// from the first. Names are escaped.
///
/// Requires that the site was joined from these hosts, each lawful, that the counters were made for
/// it, and that there is one number for each name. Where the counters stand for files, the report
/// is that of these files.
///
/// A few passes over the names, with two scans of at most 64 rows and one bisection of the counters
/// for each, and what `differences` takes; memory in the length of the text besides. `AllocError`
/// where a growth was refused.
pub fn report_text(
    alloc: Global,
    hosts: &[Host<'_>],
    site: &Site<'_>,
    counts: &Counts,
    mappings: &Mappings,
) -> Result<Vec<u8>, AllocError>
    requires lawful { All IsLawfulHost hosts.now }
    requires joined { AreJoined hosts.now site.now }
    requires made { IsMadeFor site.now counts.now }
    requires for_site { AreForSite site.now mappings.now }
    ensures { IfOk result (λ text. (files : List Added) → StandsFor site.now counts.now files
        → text.items ≡ report.report_of hosts.now site.now files mappings.now) }
{
    let Mappings { users, groups } = mappings;
    let user_figures = figures_under(site.users(), counts.users(), counts.user_files(), users);
    let group_figures = figures_under(site.groups(), counts.groups(), counts.group_files(), groups);
    let told = differences(alloc, hosts, site)?;
    report_lines(
        alloc,
        site,
        hosts.len(),
        &user_figures,
        &group_figures,
        &told,
    )
}
