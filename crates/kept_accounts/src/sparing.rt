//! The numbers that a host spares without its kept rows.

ghost use Rattle.std.specs.Prelude.{◌≡◌, ◌++◌, IfOk, OnOk};
ghost use Rattle.kept_accounts.specs.Keeping.{keeps};
ghost use Rattle.kept_accounts.specs.Others as spec;

use crate::KeptKind;
use crate::reserving::{UnownedNumber, only};
use hosts_join::{Host, Kind, Runs};
use keep_text::Kept;
use logindefs::IdRange;
use std::alloc::{AllocError, Global};

// The listed ranges, and the numbers of kept names.
fn ranges_and_kept<K: Kind>(
    alloc: Global,
    kept: &KeptKind<'_>,
    keep: &Kept<'_>,
    host: &Host<'_>,
) -> Result<Vec<IdRange>, AllocError>
    ensures { IfOk result (λ ranges. ranges.items
        ≡ keep.now.ranges ++ spec.kept_numbers (keeps kept.now) (K.listed host.now)) }
{
    let mut ranges = Vec::from_slice(alloc, keep.ranges.ranges())?;
    for place in 0..K::count(host) {
        if kept.is_kept(K::name(host, place)) {
            ranges.push(only(K::number(host, place)))?;
        }
    }
    Ok(ranges)
}

// Appends those of the numbers that files have without an account that are the host's.
fn push_unowned_on(
    ranges: &mut Vec<IdRange>,
    host: &Host<'_>,
    unowned: &[UnownedNumber<'_>],
) -> Result<(), AllocError>
    ensures { OnOk result (ranges.new.items
        ≡ ranges.old.items ++ spec.unowned_on host.now unowned.now) }
{
    for found in unowned {
        if found.host.bytes() == host.name.bytes() {
            ranges.push(only(found.number))?;
        }
    }
    Ok(())
}

/// The numbers that a file of the host may have without a row of the kind in what is left of its
/// table: the listed ranges, the numbers of kept names, and, where the text keeps numbers without
/// an account, those of `unowned` that are the host's. One look-up by hash for each row, one look
/// through `unowned`, one sort of all those ranges, and memory in step with them.
pub fn spared<K: Kind>(
    alloc: Global,
    kept: &KeptKind<'_>,
    keep: &Kept<'_>,
    host: &Host<'_>,
    unowned: &[UnownedNumber<'_>],
) -> Result<Runs, AllocError>
    ensures { IfOk result (λ runs. runs ≡ spec.spared keep.now (keeps kept.now)
        (K.listed host.now) (spec.unowned_on host.now unowned.now)) }
{
    let mut ranges = ranges_and_kept::<K>(alloc, kept, keep, host)?;
    if keep.unowned {
        push_unowned_on(&mut ranges, host, unowned)?;
    }
    Runs::of(alloc, ranges.as_slice())
}
