//! How many files each row of a host's tables owns.

ghost use Rattle.std.specs.Prelude.{◌≡◌, ◌+◌, ◌<◌, ◌≤◌, ◌++◌, ◌∷◌, [], List, length, set};
ghost use Rattle.std.specs.Prelude.{slice_get, slice_index_or, is_none, is_some, Some, true, false};
ghost use Rattle.std.specs.Prelude.{IfOk, IfSome, IfNone};
ghost use Rattle.mtree_inv.specs.declared.entry.Entry.{Entry};
ghost use Rattle.hosts_join.specs.declared.host.Host.{Host};
ghost use Rattle.site_tables.specs.Hosts.{owner_fault};
ghost use Rattle.unify.specs.Places.{ArePlaces, Owns};
ghost use Rattle.unify.specs.RowFiles.{row_files};

use hosts_join::Host;
use mtree_inv::Entry;
use reown_plan::OwnerRows;
use std::alloc::{AllocError, Global};
use std::marker::Model;

/// How many files each row of a host's passwd and of its group owns, in the order of the rows.
#[derive(Drop)]
pub struct RowFiles {
    pub users: Vec<u64>,
    pub groups: Vec<u64>,
}

impl Model for RowFiles {
    ghost use Rattle.unify.specs.RowFiles as spec;

    ghost Value = { spec.RowFiles };

    ghost view = { λ r. record { users = r.users.items; groups = r.groups.items } };
}

/// No file of the host at the index; nothing if no host is there. Memory in step with its rows.
pub fn no_files(alloc: Global, hosts: &[Host<'_>], index: usize) -> Result<RowFiles, AllocError>
    ensures { IfOk result (λ rows. (host : Host) → slice_get hosts.now index ≡ Some host
        → rows ≡ row_files host []) }
{
    match hosts.get(index) {
        Some(host) => Ok(RowFiles {
            users: Vec::from_elem(alloc, 0, host.users.rows().len())?,
            groups: Vec::from_elem(alloc, 0, host.groups.rows().len())?,
        }),
        None => Ok(RowFiles {
            users: Vec::new(alloc),
            groups: Vec::new(alloc),
        }),
    }
}

// Counts one file more at a place, if there is one.
fn add_one(files: &mut Vec<u64>, place: Option<u16>)
    requires within { IfSome place (λ at. at < length files.old.items) }
    requires room { IfSome place (λ at. slice_index_or files.old.items at 0 ≤ 2147483648) }
    ensures counted { IfSome place
        (λ at. files.new.items
        ≡ set files.old.items at (slice_index_or files.old.items at 0 + 1)) }
    ensures stays { IfNone place (files.new.items ≡ files.old.items) }
{
    if let Some(place) = place {
        files[usize::from(place)] += 1;
    }
}

/// An owner of files whose numbers a host allows, and the places of the rows that have them. A
/// second reading keeps thousands of these: it is as small as the rows of a table allow, of which
/// there are 65,536 at most.
#[derive(Clone, Copy, Default)]
pub struct OwnerPlaces {
    uid: u32,
    gid: u32,
    user: Option<u16>,
    group: Option<u16>,
}

// The place of a row, if there is one.
fn place_of_row(place: Option<usize>) -> Option<u16>
    requires { IfSome place (λ at. at < 65536) }
    ensures { result ≡ place }
{
    match place {
        Some(at) => Some(at as u16),
        None => None,
    }
}

impl OwnerPlaces {
    /// Whether they are those of a file's owner.
    pub fn are_of(&self, file: &Entry) -> bool
        ensures same { result ≡ true
            → (self.now.uid ≡ file.now.uid) × (self.now.gid ≡ file.now.gid) }
        ensures differ { result ≡ false
            → self.now.uid ≡ file.now.uid → self.now.gid ≡ file.now.gid → ⊥ }
    {
        self.uid == file.uid && self.gid == file.gid
    }

    /// The places of the rows, for a plan.
    pub fn rows(&self) -> OwnerRows {
        OwnerRows {
            user: usize::from(self.user.unwrap_or(0)),
            group: usize::from(self.group.unwrap_or(0)),
        }
    }
}

/// The places of the rows that own a file, if the host allows both of its numbers. Two look-ups by
/// hash, and a bisection for a number that has no row.
pub fn places_of(host: &Host<'_>, file: &Entry) -> Option<OwnerPlaces>
    ensures numbers { IfSome result
        (λ places. (places.uid ≡ file.now.uid) × (places.gid ≡ file.now.gid)) }
    ensures owned { is_some result ≡ is_none (owner_fault host.now [] file.now) }
    ensures owns { IfSome result (λ places. Owns host.now places file.now) }
    ensures places { IfSome result (ArePlaces host.now) }
{
    let user = host.users.place_of_number(file.uid);
    if user.is_none() && !host.spared_users.has(file.uid) {
        return None;
    }
    let group = host.groups.place_of_number(file.gid);
    if group.is_none() && !host.spared_groups.has(file.gid) {
        return None;
    }
    Some(OwnerPlaces {
        uid: file.uid,
        gid: file.gid,
        user: place_of_row(user),
        group: place_of_row(group),
    })
}

// The places of the rows that own a file, which mostly are those of the file before: then nothing
// is looked up, and nothing is written. Else they are kept for the next.
fn next_places(
    before: &mut Option<OwnerPlaces>,
    host: &Host<'_>,
    file: &Entry,
) -> Option<OwnerPlaces>
    requires { IfSome before.old (ArePlaces host.now) }
    ensures owned { is_some result ≡ is_none (owner_fault host.now [] file.now) }
    ensures owns { IfSome result (λ places. Owns host.now places file.now) }
    ensures before { IfSome before.new (ArePlaces host.now) }
{
    match before {
        Some(places) if places.are_of(file) => Some(*places),
        Some(_) | None => {
            let found = places_of(host, file);
            if found.is_some() {
                *before = found;
            }
            found
        }
    }
}

/// Counts a file more for the rows at these places. Requires that they are those of the rows that
/// own a file of a host whose files the rows count, and that these are at most 2^31.
pub fn count_at(rows: &mut RowFiles, places: &OwnerPlaces)
    requires { (host : Host) × (file : Entry) × (files : List Entry)
        × Owns host places.now file × (rows.old ≡ row_files host files)
        × (length files ≤ 2147483648) }
    ensures { (host : Host) (file : Entry) (files : List Entry) → Owns host places.now file
        → rows.old ≡ row_files host files → rows.new ≡ row_files host (files ++ file ∷ []) }
{
    add_one(&mut rows.users, places.user);
    add_one(&mut rows.groups, places.group);
}

/// Counts a file for the rows that own it, and says whether the host allows both of its numbers:
/// else nothing changes. Where it has the owner of the file before, nothing is looked up, and else
/// two look-ups by hash, and a bisection for a number that has no row.
pub fn count_file(
    rows: &mut RowFiles,
    before: &mut Option<OwnerPlaces>,
    host: &Host<'_>,
    file: &Entry,
) -> bool
    requires room { (files : List Entry) × (rows.old ≡ row_files host.now files)
        × (length files ≤ 2147483648) }
    requires before { IfSome before.old (ArePlaces host.now) }
    ensures owned { result ≡ is_none (owner_fault host.now [] file.now) }
    ensures counted { result ≡ true → (files : List Entry) → rows.old ≡ row_files host.now files
        → rows.new ≡ row_files host.now (files ++ file.now ∷ []) }
    ensures unowned { result ≡ false → rows.new ≡ rows.old }
    ensures before { IfSome before.new (ArePlaces host.now) }
{
    let Some(places) = next_places(before, host, file) else {
        return false;
    };
    count_at(rows, &places);
    true
}

/// Whether each row owns as many files in the one as in the other. One pass over both.
pub fn are_same(one: &RowFiles, other: &RowFiles) -> bool
    ensures same { result ≡ true → one.now ≡ other.now }
    ensures differ { result ≡ false → one.now ≡ other.now → ⊥ }
{
    one.users == other.users && one.groups == other.groups
}
