//! A site whose inventories are to come.

ghost use Rattle.std.specs.Prelude.{◌≡◌, length, IfOk};
ghost use Rattle.idtext.specs.First.{Yields};
ghost use Rattle.unify_texts.specs.Told.{told};
ghost use Rattle.unify.specs.Begun.{IsBegun};
ghost use Rattle.site_tables.specs.Begun.{site_begun};

use crate::inventories::Inventories;
use hosts_join::{HostText, Site};
use site_tables::{JoinedHosts, SiteRules, join_tables};
use std::alloc::Global;
use unify_texts::Fault;

/// The inventories of a site's hosts, and the accounts over all hosts. It borrows the texts.
#[derive(Drop)]
pub struct JoinedSite<'a> {
    /// None of them has come as yet.
    pub inventories: Inventories<'a>,
    /// Each name with its accounts.
    pub site: Site<'a>,
}

/// Reads of a site what comes before the inventories, of which none has come as yet. It refuses
/// with the faults of [`join_tables`], in their order, or for want of memory, and costs what that
/// does.
pub fn begin_site<'a>(
    alloc: Global,
    host_texts: &'a [HostText],
    rules: &SiteRules<'a>,
) -> Result<JoinedSite<'a>, Fault<'a>>
    ensures begun { Yields IsBegun told result (site_begun host_texts.now rules.now) }
    ensures hosts { IfOk result (λ begun. length begun.inventories.hosts ≡ length host_texts.now) }
{
    let JoinedHosts { hosts, site } = join_tables(alloc, host_texts, rules)?;
    let inventories = Inventories::of(alloc, hosts)?;
    Ok(JoinedSite { inventories, site })
}
