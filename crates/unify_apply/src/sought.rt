//! The users and groups whose numbers a plan changes, and whether a process has one of them, or may
//! take one.
ghost use Rattle.std.specs.Prelude.{◌≡◌, ◌==◌, ◌&&◌, ◌||◌, ℕ, not, nat_eq, IfOk, OnOk};
ghost use Rattle.std.specs.List.{list_any};
ghost use Rattle.std.specs.HashSet.{contains};
ghost use Rattle.idtext.specs.Words.{words};
ghost use Rattle.unify_apply.specs.Sought.{is_sought_user, is_sought_group, has_one, have_within};
ghost use Rattle.unify_apply.specs.Sought.{is_found, maps_one, runs_as_one, tell_range_with};
ghost use Rattle.unify_apply.specs.Sought.{tells_one, writes_one as writes, has_ended, tell_end};

use idtext::{Lines, Words, decimal};
use reown_plan::Record;
use std::alloc::{AllocError, Global};
use std::collections::HashSet;

/// The numbers of users and of groups that a plan changes, before and after.
#[derive(Drop)]
pub struct Sought {
    users: HashSet<u32>,
    groups: HashSet<u32>,
}

/// What the system tells of a process: the texts of its files in /proc/PID (proc(5)).
#[derive(Drop)]
pub struct Process {
    /// The files task/TID/status of its threads that have not ended, one after the other. Each
    /// thread may have numbers of its own; every line is looked at by itself, so that a number of
    /// any thread is found.
    pub status: Vec<u8>,
    /// The file uid_map, which all its threads share.
    pub uid_map: Vec<u8>,
    /// The file gid_map, which all its threads share.
    pub gid_map: Vec<u8>,
}

// Notes a number that is changed, and the one that is given for it.
fn note(numbers: &mut HashSet<u32>, before: u32, after: u32) -> Result<(), AllocError>
    ensures { OnOk result ((v : ℕ) → contains nat_eq numbers.new v
        ≡ (contains nat_eq numbers.old v
        || (not (before == after) && (before == v || after == v)))) }
{
    if before != after {
        numbers.insert(before)?;
        numbers.insert(after)?;
    }
    Ok(())
}

// The numbers of users that records change.
fn sought_users(alloc: Global, records: &[Record<'_>]) -> Result<HashSet<u32>, AllocError>
    ensures { IfOk result
        (λ users. (v : ℕ) → contains nat_eq users v ≡ is_sought_user records.now v) }
{
    let mut users: HashSet<u32> = HashSet::new(alloc);
    for planned in records {
        note(&mut users, planned.before.uid, planned.after.uid)?;
    }
    Ok(users)
}

// The numbers of groups that records change.
fn sought_groups(alloc: Global, records: &[Record<'_>]) -> Result<HashSet<u32>, AllocError>
    ensures { IfOk result
        (λ groups. (v : ℕ) → contains nat_eq groups v ≡ is_sought_group records.now v) }
{
    let mut groups: HashSet<u32> = HashSet::new(alloc);
    for planned in records {
        note(&mut groups, planned.before.gid, planned.after.gid)?;
    }
    Ok(groups)
}

// Whether a word writes one of these numbers.
fn writes_one(word: &[u8], numbers: &HashSet<u32>) -> bool
    ensures { result ≡ writes numbers.now.keys word.now }
{
    match decimal(word) {
        Some(number) => numbers.contains(&number),
        None => false,
    }
}

// Whether one of these words writes one of these numbers.
fn write_one(mut words: Words<'_>, numbers: &HashSet<u32>) -> bool
    ensures { result ≡ list_any (writes numbers.now.keys) words.entry }
{
    words.any(|word| writes_one(word, numbers))
}

// Whether a line begins with this word, and one after it writes one of these numbers.
fn has_number(line: &[u8], head: &[u8], numbers: &HashSet<u32>) -> bool
    ensures { result ≡ has_one head.now numbers.now.keys (words line.now) }
{
    let mut words = Words::new(line);
    match words.next() {
        Some(word) => word == head && write_one(words, numbers),
        None => false,
    }
}

// Whether a line of a status tells that its thread has ended.
fn tells_end(line: &[u8]) -> bool
    ensures { result ≡ tell_end (words line.now) }
{
    let mut words = Words::new(line);
    let Some(head) = words.next() else {
        return false;
    };
    let Some(state) = words.next() else {
        return false;
    };
    head == b"State:".as_slice() && (state == b"Z".as_slice() || state == b"X".as_slice())
}

/// Whether a text of /proc/PID/task/TID/status is that of a thread that has ended, and is there
/// until its parent takes note of it. One pass over it.
pub fn is_of_ended(status: &[u8]) -> bool
    ensures { result ≡ has_ended status.now }
{
    Lines::new(status).any(|line| tells_end(line))
}

// Whether one of these numbers is among so many from the first. All are looked at, however large
// the range is.
fn is_any_within(numbers: &HashSet<u32>, first: u32, count: u32) -> bool
    ensures { result ≡ have_within numbers.now.keys first count }
{
    let end = u64::from(first) + u64::from(count);
    numbers
        .iter()
        .any(|number| first <= *number && u64::from(*number) < end)
}

// Whether a line of a map tells a range that has one of these numbers.
fn tells_range_with(line: &[u8], numbers: &HashSet<u32>) -> bool
    ensures { result ≡ tell_range_with numbers.now.keys (words line.now) }
{
    let mut words = Words::new(line);
    let Some(_inside) = words.next() else {
        return false;
    };
    let Some(outside) = words.next() else {
        return false;
    };
    let Some(count) = words.next() else {
        return false;
    };
    match (decimal(outside), decimal(count)) {
        (Some(first), Some(count)) => is_any_within(numbers, first, count),
        _ => false,
    }
}

// Whether a map tells a range that has one of these numbers.
fn maps_number(map: &[u8], numbers: &HashSet<u32>) -> bool
    ensures { result ≡ maps_one numbers.now.keys map.now }
{
    Lines::new(map).any(|line| tells_range_with(line, numbers))
}

impl Sought {
    /// The numbers that records change, before and after. Two look-ups by hash for each record and
    /// kind, where the number is changed.
    pub fn of(alloc: Global, records: &[Record<'_>]) -> Result<Sought, AllocError>
        ensures users { IfOk result (λ sought. (v : ℕ)
            → contains nat_eq sought.users v ≡ is_sought_user records.now v) }
        ensures groups { IfOk result (λ sought. (v : ℕ)
            → contains nat_eq sought.groups v ≡ is_sought_group records.now v) }
    {
        let users = sought_users(alloc, records)?;
        let groups = sought_groups(alloc, records)?;
        Ok(Sought { users, groups })
    }

    // Whether a line of a status tells one of them.
    fn is_in_line(&self, line: &[u8]) -> bool
        ensures { result ≡ tells_one self.now.users.keys self.now.groups.keys line.now }
    {
        has_number(line, b"Uid:", &self.users)
            || has_number(line, b"Gid:", &self.groups)
            || has_number(line, b"Groups:", &self.groups)
    }

    // Whether a status tells one of them.
    fn is_in(&self, status: &[u8]) -> bool
        ensures { result ≡ runs_as_one self.now.users.keys self.now.groups.keys status.now }
    {
        Lines::new(status).any(|line| self.is_in_line(line))
    }

    /// Whether a process has one of them, or may take one. One pass over its texts, with a look-up
    /// by hash for each number of its status, and one pass over the numbers of a kind for each line
    /// of a map of that kind, but for those of the initial user namespace.
    pub fn is_of(&self, process: &Process) -> bool
        ensures { result ≡ is_found self.now.users.keys self.now.groups.keys
            process.now.status.items process.now.uid_map.items process.now.gid_map.items }
    {
        self.is_in(&process.status)
            || maps_number(&process.uid_map, &self.users)
            || maps_number(&process.gid_map, &self.groups)
    }
}
