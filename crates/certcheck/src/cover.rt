//! Whether y and z cover every free name with every number of its pool.
ghost use Rattle.std.specs.Prelude.{◌≡◌, ◌<◌, ◌^◌, length};
ghost use Rattle.std.specs.Option.{option_map};
ghost use Rattle.hosts_join.specs.Accounts.{place_of};
ghost use Rattle.ownership.specs.Counts.{AreMadeFor};
ghost use Rattle.ownership.specs.Weights.{told_weight};
ghost use Rattle.ownership.specs.Potentials.{AscendsByNumber};
ghost use Rattle.certcheck.specs.Views.{rows_of, row_of};
ghost use Rattle.certcheck.specs.Told.{pair_of};
ghost use Rattle.certcheck.specs.Check as spec;

use crate::CertRow;
use crate::lookup::{index_of, value_of};
use crate::numbers::lesser_number;
use hosts_join::Names;
use ownership::KindCounts;

/// What a number weighs for the name at an index.
pub fn weight(names: &Names<'_>, counts: &KindCounts, index: u32, number: u32) -> u128
    requires index { index < length names.now.names }
    requires made { AreMadeFor names.now.names counts.now }
    ensures weight { result ≡ told_weight names.now counts.now index number }
    ensures small { result < 2 ^ 88 }
{
    let file_weight = u128::from(names.all_lines()) + 1;
    file_weight * u128::from(counts.kept(index, number)) + u128::from(names.lines(index, number))
}

/// Whether the number is in the pool of the name at an index, and y and z are below its weight.
fn is_uncovered(
    names: &Names<'_>,
    counts: &KindCounts,
    z: &[(u32, u64)],
    index: u32,
    y: u64,
    number: u32,
) -> bool
    requires index { index < length names.now.names }
    requires made { AreMadeFor names.now.names counts.now }
    requires ascending { AscendsByNumber z.now }
    ensures { result ≡ spec.is_uncovered names.now (told_weight names.now counts.now) z.now index y
        number }
{
    names.pool(names.class(index)).has(number)
        && u128::from(y) + u128::from(value_of(z, number)) < weight(names, counts, index, number)
}

/// The least number of the pool of the name at an index that y and z do not cover. A number that
/// the name has on no host weighs nothing for it, so only the others are looked at.
fn uncovered_number(
    names: &Names<'_>,
    counts: &KindCounts,
    z: &[(u32, u64)],
    index: u32,
    y: u64,
) -> Option<u32>
    requires index { index < length names.now.names }
    requires made { AreMadeFor names.now.names counts.now }
    requires ascending { AscendsByNumber z.now }
    ensures { result ≡ spec.uncovered_at names.now (told_weight names.now counts.now) z.now index
        y }
{
    let mut least = None;
    for spot in names.spots(index) {
        if is_uncovered(names, counts, z, index, y, spot.number) {
            least = Some(lesser_number(least, spot.number));
        }
    }
    least
}

/// The least number of the pool of a row's name that y and z do not cover.
fn uncovered_in_row(
    names: &Names<'_>,
    counts: &KindCounts,
    z: &[(u32, u64)],
    row: &CertRow<'_>,
) -> Option<u32>
    requires made { AreMadeFor names.now.names counts.now }
    requires ascending { AscendsByNumber z.now }
    ensures { option_map (λ v. (row.now.name.now, v)) result
        ≡ spec.uncovered_in names.now (told_weight names.now counts.now) z.now (row_of row.now)
        (place_of names.now.names row.now.name.now) }
{
    match index_of(names, row.name) {
        Some(index) => uncovered_number(names, counts, z, index, row.y),
        None => None,
    }
}

/// The least name with a number that y and z do not cover, and the least such number.
pub fn uncovered_pair<'a>(
    names: &Names<'_>,
    counts: &KindCounts,
    rows: &[CertRow<'a>],
    z: &[(u32, u64)],
) -> Option<(&'a [u8], u32)>
    requires made { AreMadeFor names.now.names counts.now }
    requires ascending { AscendsByNumber z.now }
    ensures { pair_of result
        ≡ spec.uncovered names.now (told_weight names.now counts.now)
        (record { rows = rows_of rows.now; z = z.now }) }
{
    for row in rows {
        if let Some(number) = uncovered_in_row(names, counts, z, row) {
            return Some((row.name, number));
        }
    }
    None
}
