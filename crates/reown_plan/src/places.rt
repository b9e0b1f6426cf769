//! Places of records in the order of the bytes of their paths. Whoever names files chooses their
//! paths, so that no look-up may cost more than a few comparisons, whatever the names are: that is
//! why no table of hashes is used here.
ghost use Rattle.std.specs.Prelude.{◌≡◌, ◌<◌, map, position, IfOk};
ghost use Rattle.std.specs.List.{range_with_len};
ghost use Rattle.std.specs.Str.{bytes_eq};
ghost use Rattle.reown_plan.specs.Records.{record_of};
ghost use Rattle.reown_plan.specs.Places.{paths_in, path_at, place_cmp, ArePlaces};
ghost use Rattle.reown_plan.specs.Places.{AreDistinctPaths, AreFirstDistinct};

use crate::Record;
use std::alloc::{AllocError, Global};
use std::cmp::Ordering;

// The path of the record at a place, the empty one where there is none.
fn path_of<'a>(records: &[Record<'a>], place: u32) -> &'a [u8]
    ensures { result.now ≡ path_at (paths_in (map record_of records.now)) place }
{
    match records.get(place as usize) {
        Some(planned) => planned.path,
        None => &[],
    }
}

// How two places compare.
fn compare(records: &[Record<'_>], one: u32, other: u32) -> Ordering
    ensures { result ≡ place_cmp (paths_in (map record_of records.now)) one other }
{
    let paths = path_of(records, one).cmp(path_of(records, other));
    paths.then(one.cmp(&other))
}

// The places of so many records, as they come.
fn all_places(alloc: Global, count: u32) -> Result<Vec<u32>, AllocError>
    ensures { IfOk result (λ places. places.items ≡ range_with_len 0 count) }
{
    let mut places = Vec::with_capacity(alloc, count as usize)?;
    for place in 0..count {
        places.push(place)?;
    }
    Ok(places)
}

/// The places of the records, in the byte order of their paths. One sort in place: for each a
/// comparison of paths for each binary digit of their number, and fewer where they come almost in
/// order. More than 4,294,967,295 records count as more than memory holds.
pub(crate) fn sorted_places(alloc: Global, records: &[Record<'_>]) -> Result<Vec<u32>, AllocError>
    ensures { IfOk result
        (λ places. ArePlaces (paths_in (map record_of records.now)) places.items) }
{
    let Ok(count) = u32::try_from(records.len()) else {
        return Err(AllocError);
    };
    let mut places = all_places(alloc, count)?;
    places.sort_unstable_by(|one, other| compare(records, *one, *other));
    Ok(places)
}

/// How many records from the first on have paths that differ. One pass over the places.
pub(crate) fn count_distinct(records: &[Record<'_>], places: &[u32]) -> usize
    requires { ArePlaces (paths_in (map record_of records.now)) places.now }
    ensures { AreFirstDistinct (paths_in (map record_of records.now)) result }
{
    let mut count = records.len();
    for k in 1..places.len() {
        let place = places[k];
        if path_of(records, places[k - 1]) == path_of(records, place) {
            count = count.min(place as usize);
        }
    }
    count
}

/// The place of a path among those of the records, by bisection: a comparison of paths for each
/// binary digit of their number at most.
pub(crate) fn find_place(records: &[Record<'_>], places: &[u32], path: &[u8]) -> Option<usize>
    requires distinct { AreDistinctPaths (paths_in (map record_of records.now)) }
    requires places { ArePlaces (paths_in (map record_of records.now)) places.now }
    ensures { result ≡ position (bytes_eq path.now) (paths_in (map record_of records.now)) }
{
    let mut low = 0;
    let mut high = places.len();
    while low < high {
        let middle = low + (high - low) / 2;
        let place = places[middle];
        match path_of(records, place).cmp(path) {
            Ordering::Less => low = middle + 1,
            Ordering::Equal => return Some(place as usize),
            Ordering::Greater => high = middle,
        }
    }
    None
}
