//! A site whose inventories were read: its merge, and the check of a certificate of it.

ghost use Rattle.std.specs.Prelude.{◌≡◌, List, [], length, Some, Ok, IfOk, slice_get};
ghost use Rattle.mtree_inv.specs.declared.entry.Entry.{Entry};
ghost use Rattle.hosts_join.specs.declared.host.Host.{Host};
ghost use Rattle.ownership.specs.Counts as counters;
ghost use Rattle.ownership.specs.Counts.{IsMadeFor};
ghost use Rattle.unify.specs.Whole.{IsWhole};
ghost use Rattle.unify.specs.Merging.{HoldsCounted, IsMerged};
ghost use Rattle.site_tables.specs.Begun.{AreTogether};
ghost use Rattle.unify.specs.Passes.{ended_in, read_in};
ghost use Rattle.unify.specs.PlanTurns.{IsFreshTurn};
ghost use Rattle.unify.specs.Reading.{WholeSite, added_from};
ghost use Rattle.unify.specs.RowFiles.{row_files};

use crate::checking::check_counted;
use crate::inventories::Inventories;
use crate::merging::{Merged, merge_counted};
use crate::plan_turn::{PlanTurn, new_turn, read_again_by};
use crate::row_files::no_files;
use crate::site::JoinedSite;
use crate::solved_pass::Solved;
use crate::text_log::TextLog;
use crate::turn::Turn;
use hosts_join::{Host, Site};
use ownership::{Counting, Counts};
use std::alloc::{AllocError, Global};
use unify_texts::Fault;

// How many files each name of the site owns, on whatever host.
fn counts_of(
    alloc: Global,
    inventories: &Inventories<'_>,
    site: &Site<'_>,
) -> Result<Counts, AllocError>
    requires together { AreTogether inventories.now.hosts site.now }
    requires none_left { ended_in inventories.now ≡ length inventories.now.hosts }
    ensures made { IfOk result (IsMadeFor site.now) }
    ensures counted { IfOk result
        (λ counts. (read : List (Host × List Entry)) → read_in inventories.now ≡ Ok read
        → counters.StandsFor site.now counts (added_from 0 read)) }
{
    let mut counting = Counting::new(alloc, site)?;
    for (index, rows) in inventories.passed.iter().enumerate() {
        let host = &inventories.hosts[index];
        counting.add_host(
            site,
            index as u32,
            host,
            rows.users.as_slice(),
            rows.groups.as_slice(),
        )?;
    }
    Ok(counting.finish())
}

// What is merged from the counters, and the turn of the first host in the second pass.
fn solve_counted(
    alloc: Global,
    hosts: &[Host<'_>],
    site: &Site<'_>,
    counts: &Counts,
) -> Result<(Merged, PlanTurn), AllocError>
    requires { (whole : WholeSite) × IsWhole whole
        × HoldsCounted whole hosts.now site.now counts.now }
    ensures merged { IfOk result
        (λ solved. (whole : WholeSite) → HoldsCounted whole hosts.now site.now counts.now
        → IsMerged whole solved.0) }
    ensures fresh { IfOk result (λ solved. IsFreshTurn solved.1) }
    ensures rows { IfOk result
        (λ solved. (host : Host) → slice_get hosts.now 0 ≡ Some host
        → solved.1.rows ≡ row_files host []) }
{
    let merged = merge_counted(alloc, hosts, site, counts)?;
    let rows = no_files(alloc, hosts, 0)?;
    let turn = new_turn(alloc, rows)?;
    Ok((merged, turn))
}

// What is merged of a site whose inventories were ended, and the turn of the first host in the
// second pass.
fn solve_site(alloc: Global, begun: &JoinedSite<'_>) -> Result<(Merged, PlanTurn), AllocError>
    requires together { AreTogether begun.now.inventories.hosts begun.now.site }
    requires none_left { ended_in begun.now.inventories ≡ length begun.now.inventories.hosts }
    ensures merged { IfOk result
        (λ solved. (read : List (Host × List Entry)) → read_in begun.now.inventories ≡ Ok read
        → IsMerged (record { hosts = read; joined = begun.now.site }) solved.0) }
    ensures fresh { IfOk result (λ solved. IsFreshTurn solved.1) }
    ensures rows { IfOk result
        (λ solved. (host : Host) → slice_get begun.now.inventories.hosts 0 ≡ Some host
        → solved.1.rows ≡ row_files host []) }
{
    let counts = counts_of(alloc, &begun.inventories, &begun.site)?;
    solve_counted(alloc, &begun.inventories.hosts, &begun.site, &counts)
}

impl<'a> JoinedSite<'a> {
    ghost use Rattle.std.specs.Prelude.{◌≡◌, List, length, Ok, MatchResult};
    ghost use Rattle.idtext.specs.First.{Gives};
    ghost use Rattle.mtree_inv.specs.declared.entry.Entry.{Entry};
    ghost use Rattle.hosts_join.specs.declared.host.Host.{Host};
    ghost use Rattle.certcheck.specs.Reading.{certificate_in};
    ghost use Rattle.unify_texts.specs.Told.{told};
    ghost use Rattle.unify.specs.Checking.{checked};
    ghost use Rattle.unify.specs.Told.{in_certificate};
    ghost use Rattle.site_tables.specs.Begun.{AreTogether};
    ghost use Rattle.unify.specs.Passes.{ended_in, read_in};
    ghost use Rattle.unify.specs.SecondPass.{IsSolvedFrom};

    /// Merges the site whose inventories were ended. Requires that no host is left, and that the
    /// accounts are those of the hosts.
    ///
    /// A refusal, which is want of memory, hands the same value back, and `solve` may be called
    /// again. Its time is near linear in the names and account rows except for the solver, which is
    /// near linear where few numbers are contested.
    pub fn solve(self) -> Result<Solved<'a>, JoinedSite<'a>>
        requires together { AreTogether self.inventories.hosts self.site }
        requires none_left { ended_in self.inventories ≡ length self.inventories.hosts }
        ensures { MatchResult result
            (λ solved. IsSolvedFrom self.entry.inventories self.entry.site solved)
            (λ back. back ≡ self.entry) }
    {
        let alloc = self.inventories.alloc;
        let Ok((merged, mut turn)) = solve_site(alloc, &self) else {
            return Err(self);
        };
        let JoinedSite { inventories, site } = self;
        let Inventories {
            hosts,
            passed,
            turn: last,
            log,
            ..
        } = inventories;
        let Turn { reader, .. } = last;
        read_again_by(&mut turn, reader);
        Ok(Solved {
            alloc,
            hosts,
            site,
            passed,
            merged,
            ended: 0,
            turn,
            first: log,
            log: TextLog::new(),
        })
    }

    /// What a certificate's text says of the site whose inventories were ended: how many owner and
    /// group fields its mappings change, where it proves that no admissible mappings change fewer.
    /// Requires that no host is left, and that the accounts are those of the hosts.
    ///
    /// It refuses with the first fault in this order: the certificate's text, by line; the check,
    /// users before groups. `Fault::Memory` is a growth that was refused. Near linear in the
    /// account rows, the rows' counters and the certificate's lines.
    pub fn check(&self, certificate: &'a [u8]) -> Result<u64, Fault<'a>>
        requires together { AreTogether self.now.inventories.hosts self.now.site }
        requires none_left { ended_in self.now.inventories ≡ length self.now.inventories.hosts }
        ensures { (read : List (Host × List Entry)) → read_in self.now.inventories ≡ Ok read
            → Gives (λ cost. cost) told result
            (checked (record { hosts = read; joined = self.now.site })
            (in_certificate (certificate_in certificate.now))) }
    {
        let alloc = self.inventories.alloc;
        let counts = counts_of(alloc, &self.inventories, &self.site)?;
        check_counted(alloc, &self.site, &counts, certificate)
    }
}
