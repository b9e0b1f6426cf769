//! Numbers that no name is to be given.

ghost use Rattle.std.specs.Prelude.{◌≡◌, ℕ, ◌<◌, ◌^◌, ◌||◌, map, not, None, Some, OnOk, IfOk};
ghost use Rattle.std.specs.Prelude.{IfErr, IfSome};
ghost use Rattle.hosts_join.specs.Pool.{AreAscending};
ghost use Rattle.hosts_join.specs.RangeLists.{lies_in_some};
ghost use Rattle.hosts_join.specs.Rules.{first_some, is_reserved, is_taken, pin_reserved};
ghost use Rattle.hosts_join.specs.Told.{told};
ghost use Rattle.hosts_join.specs.Views.{pair_of, pairs_of};

use crate::{Pair, Pool, SiteFault, Which};
use idtext::Name;
use logindefs::IdRange;
use std::alloc::{AllocError, Global};

// All numbers.
const ANY_NUMBER: IdRange = IdRange {
    low: 0,
    high: u32::MAX,
};

/// Who keeps a number from being given to a name.
#[derive(Drop)]
pub enum Reserver<'a> {
    /// A range that is listed to stay as it is.
    Range,
    /// This name, which is kept, has it on this host.
    Name { host: Name<'a>, name: Name<'a> },
    /// Files of this host have it, and no account does.
    Unowned { host: Name<'a> },
}

impl<'a> Reserver<'a> {
    /// The same once more: names are slices, so no byte is copied.
    fn copy(&self) -> Reserver<'a>
        ensures { result ≡ self.now }
    {
        match self {
            Reserver::Range => Reserver::Range,
            Reserver::Name { host, name } => Reserver::Name {
                host: Name::new(host.bytes()),
                name: Name::new(name.bytes()),
            },
            Reserver::Unowned { host } => Reserver::Unowned {
                host: Name::new(host.bytes()),
            },
        }
    }
}

/// Numbers that no name is to be given.
#[derive(Drop)]
pub struct Reserved<'a> {
    /// The numbers.
    pub numbers: IdRange,
    /// Who keeps them from being given.
    pub by: Reserver<'a>,
}

impl<'a> Reserved<'a> {
    /// The same once more: names are slices, so no byte is copied.
    fn copy(&self) -> Reserved<'a>
        ensures { result ≡ self.now }
    {
        Reserved {
            numbers: self.numbers,
            by: self.by.copy(),
        }
    }
}

/// A copy of what is reserved.
pub fn copy_reserved<'a>(
    alloc: Global,
    reserved: &[Reserved<'a>],
) -> Result<Vec<Reserved<'a>>, AllocError>
    ensures { IfOk result (λ copy. copy.items ≡ reserved.now) }
{
    let mut copy = Vec::new(alloc);
    for one in reserved {
        copy.push(one.copy())?;
    }
    Ok(copy)
}

/// The numbers of claims, each a range by itself.
fn claim_ranges(alloc: Global, claims: &[Pair<'_>]) -> Result<Vec<IdRange>, AllocError>
    ensures { IfOk result (λ ranges. ranges.items
        ≡ map (λ p. record { low = p.number; high = p.number }) claims.now) }
{
    claims
        .iter()
        .map(|claim| IdRange {
            low: claim.number,
            high: claim.number,
        })
        .collect(alloc)
}

/// The ranges and what is reserved, ascending by their low ends. One sort.
fn ascending_with(
    mut ranges: Vec<IdRange>,
    reserved: &[Reserved<'_>],
) -> Result<Vec<IdRange>, AllocError>
    ensures ascending { IfOk result (λ all. AreAscending all.items) }
    ensures numbers { IfOk result (λ all. (v : ℕ) → lies_in_some all.items v
        ≡ (lies_in_some ranges.items v || is_reserved reserved.now v)) }
{
    for one in reserved {
        ranges.push(one.numbers)?;
    }
    ranges.sort_unstable_by_key(|range| range.low);
    Ok(ranges)
}

/// The numbers of claims and those that are reserved, as ranges that ascend by their low ends.
pub fn given_away(
    alloc: Global,
    claims: &[Pair<'_>],
    reserved: &[Reserved<'_>],
) -> Result<Vec<IdRange>, AllocError>
    ensures ascending { IfOk result (λ ranges. AreAscending ranges.items) }
    ensures numbers { IfOk result (λ ranges. (v : ℕ) → lies_in_some ranges.items v
        ≡ (is_taken (pairs_of claims.now) v || is_reserved reserved.now v)) }
{
    let ranges = claim_ranges(alloc, claims)?;
    ascending_with(ranges, reserved)
}

/// The numbers that are not reserved.
fn free_numbers(alloc: Global, reserved: &[Reserved<'_>]) -> Result<Pool, AllocError>
    ensures { IfOk result (λ free. (v : ℕ) → v < 2 ^ 32
        → lies_in_some free v ≡ not (is_reserved reserved.now v)) }
{
    let ranges = ascending_with(Vec::new(alloc), reserved)?;
    Pool::of(alloc, ANY_NUMBER, ranges.as_slice())
}

/// The refusal of a claim at a reserved number, by the first that reserves it. A binary search over
/// the numbers that are not reserved; what is reserved is looked through only for a claim that is
/// refused.
fn reserved_fault<'a>(
    kind: Which,
    claim: &Pair<'a>,
    free: &Pool,
    reserved: &[Reserved<'a>],
) -> Option<SiteFault<'a>>
    requires { (v : ℕ) → v < 2 ^ 32 → lies_in_some free.now v ≡ not (is_reserved reserved.now v) }
    ensures { result ≡ pin_reserved kind reserved.now (pair_of claim.now) }
{
    if free.has(claim.number) {
        return None;
    }
    match reserved.iter().find(|one| one.numbers.has(claim.number)) {
        Some(first) => Some(SiteFault::PinReserved {
            kind,
            number: claim.number,
            name: Name::new(claim.name),
            by: first.copy(),
        }),
        None => None,
    }
}

/// Sees that no claim is at a reserved number. One sort of what is reserved.
pub fn check_reserved<'a>(
    alloc: Global,
    kind: Which,
    claims: &[Pair<'a>],
    reserved: &[Reserved<'a>],
) -> Result<(), SiteFault<'a>>
    ensures good { OnOk result
        (first_some (pin_reserved kind reserved.now) (pairs_of claims.now) ≡ None) }
    ensures fault { IfErr result (λ e. IfSome (told e)
        (λ f. first_some (pin_reserved kind reserved.now) (pairs_of claims.now) ≡ Some f)) }
{
    let free = free_numbers(alloc, reserved)?;
    for claim in claims {
        if let Some(fault) = reserved_fault(kind, claim, &free, reserved) {
            return Err(fault);
        }
    }
    Ok(())
}
