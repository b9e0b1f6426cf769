//! The check of a certificate.
ghost use Rattle.std.specs.Prelude.{◌≡◌, ◌<◌, ◌^◌, List, IfOk, IfErr, IfSome};
ghost use Rattle.idtext.specs.First.{Gives};
ghost use Rattle.hosts_join.specs.Lawful.{AreLawfulAccounts};
ghost use Rattle.ownership.specs.Costs.{site_cost};
ghost use Rattle.ownership.specs.Counts.{AreMadeFor, IsMadeFor, StandsFor};
ghost use Rattle.ownership.specs.Files.{Added};
ghost use Rattle.certcheck.specs.Certificate.{IsSide};
ghost use Rattle.certcheck.specs.Certified.{AreBest, AreCertified};
ghost use Rattle.certcheck.specs.Check.{answer, mappings_of};
ghost use Rattle.certcheck.specs.OneKind.{AreBounded, kind_answer};
ghost use Rattle.certcheck.specs.Told.{told};

use crate::cover::uncovered_pair;
use crate::names::missing_name;
use crate::numbers::repeated_number;
use crate::pools::{name_off_pin, name_outside};
use crate::sums::{mapping_weight, moved_files, y_sum, z_sum};
use crate::{Certificate, CheckFault, Side};
use hosts_join::{Names, Site, Which};
use idtext::Name;
use ownership::{Counts, KindCounts};
use std::alloc::Global;

/// The cost of the mapping of one kind, or the first fault.
fn check_kind<'a>(
    alloc: Global,
    kind: Which,
    names: &Names<'a>,
    counts: &KindCounts,
    side: &Side<'a>,
) -> Result<u64, CheckFault<'a>>
    requires made { AreMadeFor names.now.names counts.now }
    requires bounded { AreBounded names.now counts.now }
    ensures exact { Gives (λ moved. moved) told result
        (kind_answer kind names.now counts.now side.now) }
    ensures small { IfOk result (λ moved. moved < 2 ^ 63) }
    ensures lawful { AreLawfulAccounts names.now }
    ensures side { IsSide side.now }
{
    let rows = side.rows();
    let z = side.z();
    if let Some(name) = missing_name(names, rows) {
        return Err(CheckFault::NameMissing {
            kind,
            name: Name::new(name),
        });
    }
    if let Some(number) = repeated_number(alloc, rows)? {
        return Err(CheckFault::NumberTwice { kind, number });
    }
    if let Some(name) = name_outside(names, rows) {
        return Err(CheckFault::OutsidePool {
            kind,
            name: Name::new(name),
        });
    }
    if let Some(name) = name_off_pin(names, rows) {
        return Err(CheckFault::PinBroken {
            kind,
            name: Name::new(name),
        });
    }
    if let Some((name, number)) = uncovered_pair(names, counts, rows, z) {
        return Err(CheckFault::NotCovered {
            kind,
            name: Name::new(name),
            number,
        });
    }
    let sum = y_sum(names, rows) + z_sum(z);
    let weight = mapping_weight(names, counts, rows);
    if sum != weight {
        return Err(CheckFault::SumsDiffer { kind, sum, weight });
    }
    Ok(moved_files(names, counts, rows))
}

/// The cost of the certificate's mappings, where it certifies them: how many user fields and group
/// fields of the counted files they change. Requires that the counters were made for the site and
/// stand for some list of added files, as those of `Counting::finish` do.
///
/// A yes proves that no admissible pair of mappings costs less, and that among those of least cost
/// for a kind none changes fewer account rows of it, whoever wrote the certificate.
///
/// A number that a name has on no host weighs nothing for it, so no pool is walked. Each row of the
/// certificate takes four look-ups of its name by hash, a binary search in a pool, and an insertion
/// into a search tree; each name of the site four binary searches for its row, two among its
/// counters, and a scan of its hosts; and each account row of the site three binary searches and a
/// scan of the name's hosts. Memory is taken for the numbers of one kind. Sums are exact, in 128
/// bits.
///
/// # Errors
///
/// The first fault, in the order of `CheckFault`, for users and then for groups; or `Memory`.
pub fn check<'a>(
    alloc: Global,
    site: &Site<'a>,
    counts: &Counts,
    certificate: &Certificate<'a>,
) -> Result<u64, CheckFault<'a>>
    requires made { IsMadeFor site.now counts.now }
    requires stands { (files : List Added) × StandsFor site.now counts.now files }
    ensures exact { (files : List Added) → StandsFor site.now counts.now files
        → Gives (λ cost. cost) told result (answer site.now files certificate.now) }
    // Yes exactly where both kinds are certified.
    ensures accepted { IfOk result
        (λ _. (files : List Added) → StandsFor site.now counts.now files
        → AreCertified site.now files certificate.now) }
    ensures refused { IfErr result
        (λ e. IfSome (told e)
        (λ _. (files : List Added) → StandsFor site.now counts.now files
        → AreCertified site.now files certificate.now → ⊥)) }
    // What a yes proves.
    ensures best { IfOk result
        (λ _. (files : List Added) → StandsFor site.now counts.now files
        → AreBest site.now files certificate.now) }
    ensures cost { IfOk result
        (λ cost. (files : List Added) → StandsFor site.now counts.now files
        → cost ≡ site_cost site.now files (mappings_of site.now certificate.now)) }
{
    let users = check_kind(
        alloc,
        Which::User,
        site.users(),
        counts.users(),
        &certificate.users,
    )?;
    let groups = check_kind(
        alloc,
        Which::Group,
        site.groups(),
        counts.groups(),
        &certificate.groups,
    )?;
    Ok(users + groups)
}
