//! Where a cut is looked for among many, so that its number is found.
ghost use Rattle.std.specs.Prelude.{◌≡◌, ◌<◌, ℕ, suc, ◌+◌, ◌-◌, ◌*◌, ◌/◌, length, true, Some};
ghost use Rattle.std.specs.Prelude.{slice_get, IfOk, IfSome, IfNone, MatchOption, OnOk};
ghost use Rattle.mtree_inv.specs.Cuts.{Cut, AreDistinct, IsPlaceOf};
ghost use Rattle.mtree_inv.specs.Places.{hash_of as hash_of_cut, half, place_at};
ghost use Rattle.mtree_inv.specs.Places.{digest_of as digest_of_cut, IsKeyOf};
ghost use Rattle.mtree_inv.specs.Places.{all_hashes, most_probes, AreTaken, other_at, IsFoundAt};
ghost use Rattle.mtree_inv.specs.Places.{AreFound, KeepFound, KeepOthers};
ghost use Rattle.mtree_inv.specs.Probed.{IsAnswer};
ghost use Rattle.mtree_inv.specs.Following.{IsApart};

use crate::hashed_cut::HashedCut;
use crate::held_cuts::Rows;
use std::alloc::{AllocError, Global};
use std::collections::BTreeMap;
use std::hash::{DefaultHasher, Hasher};

// How many places are looked at for a cut.
pub(crate) const MOST_PROBES: usize = 16;

// Two to the half of the bits of a hash.
const HALF: u64 = 4294967296;

/// A place: half of the hash of a cut, and the cut's index counted from 1, or 0 where it is free.
#[derive(Clone, Copy, Drop)]
pub(crate) struct Place {
    hash: u32,
    number: u32,
}

const FREE: Place = Place { hash: 0, number: 0 };

/// A digest of a cut, and the cut.
pub(crate) type Key = (u64, u32, Vec<u8>);

/// The index of each cut that found no place free.
pub(crate) type Others = BTreeMap<Key, usize>;

// A number that tells almost all cuts from one another, whoever names the files. It takes longer.
#[tactic(auto, unfolding(crate::specs::Places::digest_of))]
fn digest_of(cut: &HashedCut<'_>) -> u64
    ensures { result ≡ digest_of_cut cut.now }
{
    let mut digest = DefaultHasher::new();
    digest.write_u32(cut.front());
    digest.write(cut.tail());
    digest.finish()
}

// What a cut is looked for by in the tree. The digest comes first, so that few cuts are compared.
fn key_of(alloc: Global, cut: &HashedCut<'_>) -> Result<Key, AllocError>
    ensures { IfOk result (λ key. IsKeyOf key cut.now) }
{
    let tail = Vec::from_slice(alloc, cut.tail())?;
    Ok((digest_of(cut), cut.front(), tail))
}

// The half of a hash that a place keeps.
fn half_of(hash: u64) -> u32
    ensures { result ≡ half hash }
{
    (hash / HALF) as u32
}

// The first place, of so many, where a cut with this hash is looked for: as far among the places as
// the hash is among all hashes. So it takes a product, where a remainder would take a division.
fn start_of(len: usize, hash: u64) -> usize
    requires { most_probes < len }
    ensures start { result ≡ hash * (len - most_probes) / all_hashes }
    ensures within { result + most_probes < len }
{
    let product = u128::from(hash) * (len - MOST_PROBES) as u128;
    (product >> 64) as usize
}

// Whether the cut at an index is this one.
fn is_at(rows: &Rows, index: usize, cut: &HashedCut<'_>) -> bool
    ensures yes { result ≡ true → slice_get rows.now index ≡ Some cut.now }
    ensures no { slice_get rows.now index ≡ Some cut.now → result ≡ true }
{
    match rows.get(index) {
        None => false,
        Some(other) => other.is(cut),
    }
}

// Whether the cut at an index has this hash.
fn has_hash(rows: &Rows, index: usize, hash: u64) -> bool
    ensures { (cut : Cut) → slice_get rows.now index ≡ Some cut → hash_of_cut cut ≡ hash
        → result ≡ true }
{
    match rows.get(index) {
        None => false,
        Some(cut) => cut.hash() == hash,
    }
}

/// What the places say of a cut.
#[derive(Clone, Copy, Drop)]
pub(crate) enum Probed {
    /// It is the one at this index.
    At(usize),
    /// It is nowhere. At this place it would stand, with this half of its hash. Where the last is
    /// true, no cut has its whole hash.
    Free(usize, u32, bool),
    /// All places where it might stand are taken: the tree has it, if it is anywhere. Where this
    /// is true, none of these places tells of a cut with its whole hash.
    Full(bool),
}

// Looks at the places of a cut, up to the first that is free.
pub(crate) fn look_at_places(rows: &Rows, places: &[Place], cut: &HashedCut<'_>) -> Probed
    requires { most_probes < length places.now }
    ensures { IsAnswer rows.now places.now cut.now result }
{
    let start = start_of(places.len(), cut.hash());
    let half = half_of(cut.hash());
    let mut is_alone = true;
    for probe in 0..MOST_PROBES {
        let place = places[start + probe];
        let Some(index) = place.number.checked_sub(1) else {
            return Probed::Free(start + probe, half, is_alone);
        };
        if place.hash == half && is_at(rows, index as usize, cut) {
            return Probed::At(index as usize);
        }
        if place.hash == half && has_hash(rows, index as usize, cut.hash()) {
            is_alone = false;
        }
    }
    Probed::Full(is_alone)
}

// Looks for a cut in the tree.
pub(crate) fn other(
    rows: &Rows,
    others: &Others,
    alloc: Global,
    cut: &HashedCut<'_>,
) -> Result<Option<usize>, AllocError>
    ensures found { IfOk result (λ found. IfSome found
        (λ i. slice_get rows.now i ≡ Some cut.now)) }
    ensures none { IfOk result (λ found. MatchOption found
        ((i : ℕ) → slice_get rows.now i ≡ Some cut.now
        → other_at others.now.entries cut.now ≡ Some i → ⊥) (λ _. Unit {0})) }
{
    let key = key_of(alloc, cut)?;
    match others.get(&key).copied() {
        Some(index) if is_at(rows, index, cut) => Ok(Some(index)),
        _ => Ok(None),
    }
}

// How many places are taken from a start on, or where the first free one is.
fn free_place(places: &[Place], start: usize) -> Option<usize>
    requires { start + most_probes < length places.now }
    ensures { MatchOption result (AreTaken places.now start most_probes)
        (λ at. (k : ℕ) × (k < most_probes) × (at ≡ start + k) × AreTaken places.now start k
        × ((place_at places.now at).number ≡ 0)) }
{
    for probe in 0..MOST_PROBES {
        if places[start + probe].number == 0 {
            return Some(start + probe);
        }
    }
    None
}

/// The index of a cut counted from 1, if it is a number that a place has.
pub(crate) fn number_at(index: usize) -> Option<u32>
    ensures { IfSome result (λ number. number ≡ suc index) }
{
    u32::try_from(index).ok()?.checked_add(1)
}

// Keeps where a cut is found.
fn settle(
    places: &mut [Place],
    others: &mut Others,
    alloc: Global,
    index: usize,
    cut: &HashedCut<'_>,
) -> Result<(), AllocError>
    requires { most_probes < length places.old }
    ensures settled { OnOk result
        (IsFoundAt places.new others.new.entries cut.now index) }
    ensures found { (i : ℕ) (one : Cut) → IsFoundAt places.old others.old.entries one i
        → (one ≡ cut.now → i ≡ index)
        → IsFoundAt places.new others.new.entries one i }
    ensures others { (i : ℕ) (one : Cut) → other_at others.old.entries one ≡ Some i
        → (one ≡ cut.now → i ≡ index)
        → other_at others.new.entries one ≡ Some i }
    ensures len { length places.new ≡ length places.old }
{
    let Some(number) = number_at(index) else {
        return Err(AllocError);
    };
    let start = start_of(places.len(), cut.hash());
    let Some(at) = free_place(places, start) else {
        others.insert(key_of(alloc, cut)?, index)?;
        return Ok(());
    };
    places[at] = Place {
        hash: half_of(cut.hash()),
        number,
    };
    Ok(())
}

// Finds a cut in the tree, or lets the tree know it as the one at the end of the list.
fn other_or_last(
    rows: &Rows,
    others: &mut Others,
    alloc: Global,
    cut: &HashedCut<'_>,
) -> Result<Option<usize>, AllocError>
    ensures known { IfOk result (λ known. IfSome known
        (λ i. slice_get rows.now i ≡ Some cut.now)) }
    ensures new { IfOk result (λ known. IfNone known
        (((i : ℕ) → slice_get rows.now i ≡ Some cut.now
        → other_at others.old.entries cut.now ≡ Some i → ⊥)
        × (other_at others.new.entries cut.now ≡ Some (length rows.now)))) }
    ensures others { KeepOthers rows.now others.old.entries others.new.entries }
{
    let key = key_of(alloc, cut)?;
    let index = others.entry(key)?.or_insert(rows.len());
    if is_at(rows, *index, cut) {
        return Ok(Some(*index));
    }
    *index = rows.len();
    Ok(None)
}

/// The index of a cut, or None where it is new: then it is found at the end of the list. The flag
/// stays only where each cut that is found in a place has a hash of its own.
pub(crate) fn find_or_settle(
    rows: &Rows,
    places: &mut [Place],
    others: &mut Others,
    are_apart: &mut bool,
    alloc: Global,
    cut: &HashedCut<'_>,
) -> Result<Option<usize>, AllocError>
    requires roomy { most_probes < length places.old }
    requires found { AreFound rows.now places.old others.old.entries }
    ensures place { IfOk result (IsPlaceOf rows.now cut.now) }
    ensures settled { IfOk result (λ known. IfNone known
        (IsFoundAt places.new others.new.entries cut.now (length rows.now))) }
    ensures found { AreFound rows.now places.new others.new.entries }
    ensures others { KeepOthers rows.now others.old.entries others.new.entries }
    ensures apart { are_apart.new ≡ true → (are_apart.old ≡ true) × IfOk result (λ known.
        IfNone known (IsApart rows.now others.new.entries cut.now)) }
    ensures len { length places.new ≡ length places.old }
{
    let Some(number) = number_at(rows.len()) else {
        return Err(AllocError);
    };
    match look_at_places(rows, places, cut) {
        Probed::At(index) => Ok(Some(index)),
        Probed::Free(at, hash, is_alone) => {
            places[at] = Place { hash, number };
            *are_apart &= is_alone;
            Ok(None)
        }
        Probed::Full(is_alone) => {
            *are_apart &= is_alone;
            other_or_last(rows, others, alloc, cut)
        }
    }
}

// Keeps where the cut at an index of the list is found.
fn settle_at(
    rows: &Rows,
    places: &mut [Place],
    others: &mut Others,
    alloc: Global,
    index: usize,
) -> Result<(), AllocError>
    requires roomy { most_probes < length places.old }
    requires distinct { AreDistinct rows.now }
    ensures settled { OnOk result ((cut : Cut) → slice_get rows.now index ≡ Some cut
        → IsFoundAt places.new others.new.entries cut index) }
    ensures found { KeepFound rows.now places.old others.old.entries places.new
        others.new.entries }
    ensures others { KeepOthers rows.now others.old.entries others.new.entries }
    ensures len { length places.new ≡ length places.old }
{
    match rows.get(index) {
        None => Ok(()),
        Some(cut) => settle(places, others, alloc, index, &cut),
    }
}

/// Leaves all places free. Nothing rests on it but time: a place that tells of no cut of the list
/// is passed over.
pub(crate) fn free_all(places: &mut [Place]) {
    for place in places {
        *place = FREE;
    }
}

// So many places, which tell of each cut of the list.
pub(crate) fn all_settled(
    rows: &Rows,
    others: &mut Others,
    alloc: Global,
    len: usize,
) -> Result<Vec<Place>, AllocError>
    requires roomy { most_probes < len }
    requires distinct { AreDistinct rows.now }
    ensures found { IfOk result
        (λ places. AreFound rows.now places.items others.new.entries) }
    ensures len { IfOk result (λ places. length places.items ≡ len) }
    ensures others { KeepOthers rows.now others.old.entries others.new.entries }
{
    let mut places = Vec::from_elem(alloc, FREE, len)?;
    for index in 0..rows.len() {
        settle_at(rows, &mut places, others, alloc, index)?;
    }
    Ok(places)
}
