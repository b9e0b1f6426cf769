//! A plan and its reader.
ghost use Rattle.std.specs.Prelude.{◌≡◌, ◌<◌};
ghost use Rattle.reown_plan.specs.declared.plan.PlanFault.TheVariants.{BadPlan, Memory};

use crate::mark::PlanMark;
use crate::places::{count_distinct, find_place, sorted_places};
use crate::read::read_head;
use crate::records::{behind_records, read_records};
use std::alloc::{AllocError, AllocFailed, Global};
use std::marker::Model;

/// The numbers of a file's user and group (chown(2)).
#[derive(Clone, Copy, Debug, PartialEq, Eq)]
pub struct Owner {
    /// The user's number, at most 4294967294 in a plan that was read.
    pub uid: u32,
    /// The group's number, with the same limit.
    pub gid: u32,
}

/// A file that gets a new owner: what it has, what it gets, and its path, a slice of the plan.
#[derive(Clone, Copy, Debug)]
pub struct Record<'a> {
    /// The owner that the file has before the plan is carried out.
    pub before: Owner,
    /// The owner that it gets.
    pub after: Owner,
    /// Its path in the inventory, as bytes.
    pub path: &'a [u8],
}

/// Why a text is no plan.
#[derive(Clone, Copy, Debug, PartialEq, Eq)]
pub enum PlanFault {
    /// 35: at this byte, counted from 0, begins the first header, record or end that is not lawful,
    /// or what stands after the end.
    BadPlan(usize),
    /// A growth was refused. It has no number.
    Memory,
}

/// A host's plan, whose paths are slices of its text.
#[derive(Drop)]
pub struct Plan<'a> {
    text: &'a [u8],
    host: &'a [u8],
    records: Vec<Record<'a>>,
    // The places of the records in the byte order of their paths.
    places: Vec<u32>,
}

impl<'a> Model for Plan<'a> {
    ghost use Rattle.std.specs.Prelude.{◌≡◌, map};
    ghost use Rattle.reown_plan.specs.PlanData.{PlanData, HaveDistinctPaths};

    ghost Value = { PlanData };

    ghost use Rattle.reown_plan.specs.Places.{paths_in, ArePlaces};
    ghost use Rattle.reown_plan.specs.Records.{record_of};
    ghost use Rattle.reown_plan.specs.Spelling.{spelling, IsHostName};

    ghost view = { λ p. record { host = p.host.now; records = map record_of p.records.items } };

    ghost invariant = { λ p. HaveDistinctPaths (map record_of p.records.items)
        × IsHostName p.host.now
        × (p.text.now
        ≡ spelling (record { host = p.host.now; records = map record_of p.records.items }))
        × ArePlaces (paths_in (map record_of p.records.items)) p.places.items };
}

ghost use Rattle.std.specs.Prelude.{◌++◌, map, length, position, List, ℕ, IfOk, IfErr, OnOk};
ghost use Rattle.std.specs.Prelude.{IfSome, MatchResult};
ghost use Rattle.std.specs.Str.{bytes_eq};
ghost use Rattle.reown_plan.specs.Fronts.{IsFront, BeginsNoRecord, IsFaultOf};
ghost use Rattle.reown_plan.specs.Mark.{mark_of};
ghost use Rattle.reown_plan.specs.Places.{paths_in, ArePlaces};
ghost use Rattle.reown_plan.specs.PlanData.{PlanData, HaveDistinctPaths};
ghost use Rattle.reown_plan.specs.Records.{record_of};
ghost use Rattle.reown_plan.specs.Spelling.{spelling, head, end, IsLawful, IsFaultAt};

impl From<AllocError> for PlanFault {
    ghost from_gives = { λ _ fault. fault ≡ Memory };

    fn from(_: AllocError) -> Self {
        PlanFault::Memory
    }
}

impl<T: Drop> From<AllocFailed<T>> for PlanFault {
    ghost from_gives = { λ _ fault. fault ≡ Memory };

    fn from(_: AllocFailed<T>) -> Self {
        PlanFault::Memory
    }
}

// The places of records whose paths differ. Else the fault is at the first that has the path of an
// earlier one.
//
// rest: what is after the header.
fn distinct_places(
    alloc: Global,
    text: &[u8],
    rest: &[u8],
    records: &[Record<'_>],
) -> Result<Vec<u32>, PlanFault>
    requires { (host : List ℕ) × (behind : List ℕ)
        × IsFront text.now host (map record_of records.now) behind
        × (text.now ≡ head host ++ rest.now) }
    ensures places { IfOk result
        (λ places. ArePlaces (paths_in (map record_of records.now)) places.items) }
    ensures distinct { OnOk result (HaveDistinctPaths (map record_of records.now)) }
    ensures fault { IfErr result (IsFaultOf text.now) }
{
    let places = sorted_places(alloc, records)?;
    let count = count_distinct(records, &places);
    if count < records.len() {
        let behind = behind_records(rest, count);
        return Err(PlanFault::BadPlan(text.len() - behind.len()));
    }
    Ok(places)
}

// Looks whether the end, and nothing else, is after the records.
fn check_end(text: &[u8], behind: &[u8], records: &[Record<'_>]) -> Result<(), PlanFault>
    requires front { (host : List ℕ)
        × IsFront text.now host (map record_of records.now) behind.now }
    requires distinct { HaveDistinctPaths (map record_of records.now) }
    requires all { BeginsNoRecord behind.now }
    ensures end { OnOk result (behind.now ≡ end) }
    ensures fault { IfErr result (IsFaultOf text.now) }
{
    if behind == b"end\n".as_slice() {
        return Ok(());
    }
    let known = if behind.starts_with(b"end\n".as_slice()) {
        4
    } else {
        0
    };
    Err(PlanFault::BadPlan(text.len() - behind.len() + known))
}

impl<'a> Plan<'a> {
    /// Reads a plan, whose paths are slices of its text. A text that is no plan is `BadPlan` with
    /// the byte at which the first header, record or end that is not lawful begins, or what stands
    /// after the end. One pass over the text, and one sort of the records by their paths, in
    /// place: for each record a few comparisons of paths for each binary digit of their number,
    /// whatever they are, since whoever names files chooses their paths. Where a path stands twice
    /// the text is read once more up to there.
    ///
    /// # Errors
    ///
    /// `BadPlan`; or `Memory` where a growth is refused, or the plan has more than 4,294,967,295
    /// records. Of memory a record takes 36 bytes.
    pub fn read(alloc: Global, text: &'a [u8]) -> Result<Plan<'a>, PlanFault>
        ensures spelled { IfOk result (λ plan. text.now ≡ spelling plan) }
        ensures lawful { IfOk result (λ plan. IsLawful plan) }
        ensures fault { IfErr result
            (λ fault. (offset : ℕ) → fault ≡ BadPlan offset → IsFaultAt text.now offset) }
        ensures complete { (plan : PlanData) → IsLawful plan → text.now ≡ spelling plan
            → MatchResult result (λ read. read ≡ plan) (λ fault. fault ≡ Memory) }
    {
        let Some((host, rest)) = read_head(text) else {
            return Err(PlanFault::BadPlan(0));
        };
        let read = read_records(alloc, rest)?;
        let places = distinct_places(alloc, text, rest, &read.records)?;
        check_end(text, read.behind, &read.records)?;
        Ok(Plan {
            text,
            host,
            records: read.records,
            places,
        })
    }

    /// The place of a path among those of its records, if it is one of them. It looks at the place
    /// `likely` first, for files that come in the order of the records; else it takes a comparison
    /// of paths for each binary digit of the number of records, whatever the paths are. No memory.
    pub fn place_of(&self, path: &[u8], likely: usize) -> Option<usize>
        ensures place { result ≡ position (bytes_eq path.now) (paths_in self.now.records) }
        ensures within { IfSome result (λ i. i < length self.now.records) }
    {
        match self.records.get(likely) {
            Some(planned) if planned.path == path => Some(likely),
            _ => find_place(&self.records, &self.places, path),
        }
    }

    /// The name of its host, a slice of the plan's text. Takes constant time and no memory.
    pub fn host(&self) -> &'a [u8]
        ensures { result.now ≡ self.now.host }
    {
        self.host
    }

    /// The mark of a tree on which it is done. One pass over its text, and no memory.
    pub fn mark(&self) -> PlanMark
        ensures { result ≡ mark_of self.now }
    {
        PlanMark::new(self.host, self.text)
    }

    /// Its records in order; their paths differ. Takes constant time and no memory.
    pub fn records(&self) -> &[Record<'a>]
        ensures records { map record_of result.now ≡ self.now.records }
        ensures distinct { HaveDistinctPaths self.now.records }
    {
        &self.records
    }
}
