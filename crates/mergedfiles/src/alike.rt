//! Users whose rows say the same on each host, of which nothing is told.
//!
//! They are found by going over the rows host by host, in the order of their files. To look each
//! row up by its name would take far longer: it is all over the memory.
ghost use Rattle.std.specs.Prelude.{◌≡◌, ℕ, ◌<◌, length, IfOk};
ghost use Rattle.mergedfiles.specs.Alike as spec;
ghost use Rattle.mergedfiles.specs.Alike.{Covers, CoversHost, CoversHosts, IsSaidBy, seen_at};
ghost use Rattle.mergedfiles.specs.Differences as differences;
ghost use Rattle.mergedfiles.specs.Rows.{UserRow};
ghost use Rattle.mergedfiles.specs.Together.{AreJoined};

use crate::differing::group_name;
use accounts::PasswdRow;
use hosts_join::{Host, Names, Site};
use std::alloc::{AllocError, Global};

/// What a user's row says: its fields, and its primary group by the name on its host.
#[derive(Clone, Copy)]
pub struct Said<'h, 'a> {
    row: &'h PasswdRow<'a>,
    group: &'a [u8],
}

/// What is known of the rows of a user that were seen so far.
#[derive(Clone, Copy)]
pub enum Sameness<'h, 'a> {
    /// None was seen.
    Unseen,
    /// Each says what this one says.
    Same(Said<'h, 'a>),
    /// One says something else than another.
    Differing,
}

/// Whether the fields of two rows, except for names and numbers, say the same.
fn fields_agree(first: &PasswdRow<'_>, row: &PasswdRow<'_>) -> bool
    ensures { result ≡ spec.fields_agree first.now row.now }
{
    row.password == first.password
        && row.comment == first.comment
        && row.home == first.home
        && row.shell == first.shell
}

/// Whether each field says what it says on the first.
fn says_same(first: &Said<'_, '_>, user: &Said<'_, '_>) -> bool
    ensures { result ≡ spec.says_same first.now user.now }
{
    fields_agree(first.row, user.row) && user.group == first.group
}

impl<'h, 'a> Sameness<'h, 'a> {
    /// Whether a row says something else than another.
    pub fn is_differing(&self) -> bool
        ensures { result ≡ spec.is_differing self.now }
    {
        match self {
            Sameness::Differing => true,
            Sameness::Unseen | Sameness::Same(_) => false,
        }
    }
}

/// What is known with one row more.
fn seen_with<'h, 'a>(seen: &Sameness<'h, 'a>, user: &Said<'h, 'a>) -> Sameness<'h, 'a>
    ensures covered { (row : UserRow) → IsSaidBy row user.now → Covers result row }
    ensures kept { (other : UserRow) → Covers seen.now other → Covers result other }
{
    match seen {
        Sameness::Unseen => Sameness::Same(*user),
        Sameness::Same(first) if says_same(first, user) => Sameness::Same(*first),
        Sameness::Same(_) | Sameness::Differing => Sameness::Differing,
    }
}

/// Notes a row of the user at an index.
fn note<'h, 'a>(seen: &mut Vec<Sameness<'h, 'a>>, index: u32, user: &Said<'h, 'a>)
    requires { index < length seen.old.items }
    ensures len { length seen.new.items ≡ length seen.old.items }
    ensures covered { (row : UserRow) → IsSaidBy row user.now
        → Covers (seen_at seen.new.items index) row }
    ensures kept { (i : ℕ) (other : UserRow) → Covers (seen_at seen.old.items i) other
        → Covers (seen_at seen.new.items i) other }
{
    let at = index as usize;
    seen[at] = seen_with(&seen[at], user);
}

/// A number of a group, and the name that the group with this number has on the host.
#[derive(Clone, Copy)]
struct Primary<'a> {
    gid: u32,
    name: &'a [u8],
}

/// The group of the next user, who mostly has that of the user before: then nothing is looked up.
fn next_primary<'a>(before: Primary<'a>, host: &Host<'a>, gid: u32) -> Primary<'a>
    requires { before.name.now ≡ differences.group_name host.now before.gid }
    ensures gid { result.gid ≡ gid }
    ensures name { result.name.now ≡ differences.group_name host.now gid }
{
    if before.gid == gid {
        return before;
    }
    Primary {
        gid,
        name: group_name(host, gid),
    }
}

/// Notes the rows of the host at an index.
fn note_host<'h, 'a>(
    seen: &mut Vec<Sameness<'h, 'a>>,
    names: &Names<'a>,
    index: u32,
    host: &'h Host<'a>,
)
    requires { length seen.old.items ≡ length names.now.names }
    ensures len { length seen.new.items ≡ length seen.old.items }
    ensures covered { CoversHost names.now.names seen.new.items index host.now }
    ensures kept { (i : ℕ) (other : UserRow) → Covers (seen_at seen.old.items i) other
        → Covers (seen_at seen.new.items i) other }
{
    let mut primary = Primary {
        gid: 0,
        name: group_name(host, 0),
    };
    for (at, row) in host.users.rows().iter().enumerate() {
        primary = next_primary(primary, host, row.gid);
        if let Some(user) = names.owner_of_row(index, row.uid, at) {
            let group = primary.name;
            note(seen, user, &Said { row, group });
        }
    }
}

/// What is known of the rows of each user, over all hosts. For each row one look-up by hash for its
/// group, where that is not the group of the row before, and 32 bytes a user.
pub fn all_seen<'h, 'a>(
    alloc: Global,
    hosts: &'h [Host<'a>],
    site: &Site<'a>,
) -> Result<Vec<Sameness<'h, 'a>>, AllocError>
    requires { AreJoined hosts.now site.now }
    ensures len { IfOk result (λ seen. length seen.items ≡ length site.now.users.names) }
    ensures covered { IfOk result
        (λ seen. CoversHosts site.now.users.names seen.items hosts.now) }
{
    let users = site.users();
    let mut seen = vec![in alloc; Sameness::Unseen; users.len() as usize]?;
    for index in 0..site.hosts() {
        note_host(&mut seen, users, index, &hosts[index as usize]);
    }
    Ok(seen)
}
