//! The hosts whose files are searched for numbers without an account, where the keep text keeps
//! such numbers.

ghost use Rattle.std.specs.Prelude.{◌≡◌, ◌≤◌, length, map, IfOk};
ghost use Rattle.idtext.specs.First.{Gives};
ghost use Rattle.unify_texts.specs.Told.{told};
ghost use Rattle.site_tables.specs.Others.{keep_read};
ghost use Rattle.site_tables.specs.Survey as spec;

use crate::site::{check_list, load_tables};
use hosts_join::{Host, HostText, Runs};
use keep_text::{KeepFault, KeepText, read_keep};
use std::alloc::{AllocError, Global};
use unify_texts::Fault;

// Whether numbers without an account stay, of users or of groups.
fn keeps_unowned(keep: &KeepText<'_>) -> bool
    ensures { result ≡ spec.keeps_unowned keep.now }
{
    keep.users.unowned || keep.groups.unowned
}

// The host, which spares the listed ranges.
fn sparing_ranges<'a>(
    alloc: Global,
    keep: &KeepText<'_>,
    host: Host<'a>,
) -> Result<Host<'a>, AllocError>
    ensures { IfOk result (λ sparing. sparing ≡ spec.sparing_ranges keep.now host.entry) }
{
    let Host {
        name,
        ranges,
        users,
        groups,
        ..
    } = host;
    Ok(Host {
        name,
        ranges,
        users,
        groups,
        spared_users: Runs::of(alloc, keep.users.ranges.ranges())?,
        spared_groups: Runs::of(alloc, keep.groups.ranges.ranges())?,
    })
}

// The hosts, each of which spares the listed ranges.
fn all_sparing<'a>(
    alloc: Global,
    keep: &KeepText<'_>,
    hosts: Vec<Host<'a>>,
) -> Result<Vec<Host<'a>>, AllocError>
    ensures { IfOk result
        (λ sparing. sparing.items ≡ map (spec.sparing_ranges keep.now) hosts.entry.items) }
{
    let mut sparing = Vec::new(alloc);
    for host in hosts {
        sparing.push(sparing_ranges(alloc, keep, host)?)?;
    }
    Ok(sparing)
}

// The hosts whose files are looked through, where the keep text says this.
fn survey_hosts<'a>(
    alloc: Global,
    texts: &'a [HostText],
    keep: &KeepText<'_>,
) -> Result<Vec<Host<'a>>, Fault<'a>>
    ensures read { Gives (λ hosts. hosts.items) told result
        (spec.sparing_hosts texts.now keep.now) }
    ensures few { IfOk result (λ hosts. length hosts.items ≤ length texts.now) }
{
    if !keeps_unowned(keep) {
        return Ok(Vec::new(alloc));
    }
    check_list(texts)?;
    let hosts = load_tables(alloc, texts)?;
    Ok(all_sparing(alloc, keep, hosts)?)
}

/// The hosts whose files are to be looked through for numbers without an account, before the site
/// is read: all of them, where the keep text keeps such numbers, and else none. Each has the
/// accounts of its passwd and group, and spares the listed ranges.
///
/// Where all are, it refuses with the first fault of the host list, and then host by host of
/// login.defs, passwd, group and the primary groups; a keep text that is refused asks for none, and
/// is told when the site is read. `Fault::Memory` is a growth that was refused. One pass over the
/// keep text, and then over the tables.
pub fn begin_survey<'a>(
    alloc: Global,
    texts: &'a [HostText],
    keep: &[u8],
) -> Result<Vec<Host<'a>>, Fault<'a>>
    ensures read { Gives (λ hosts. hosts.items) told result
        (spec.surveyed_hosts texts.now (keep_read keep.now)) }
    ensures few { IfOk result (λ hosts. length hosts.items ≤ length texts.now) }
{
    match read_keep(alloc, keep) {
        Ok(keep) => survey_hosts(alloc, texts, &keep),
        Err(KeepFault::BadKeep(_)) => Ok(Vec::new(alloc)),
        Err(KeepFault::Memory) => Err(Fault::Memory),
    }
}
