//! The sums of a certificate.
ghost use Rattle.std.specs.Prelude.{◌≡◌, ◌<◌, ◌^◌, sum, sum_by};
ghost use Rattle.ownership.specs.Counts.{AreMadeFor};
ghost use Rattle.ownership.specs.Weights.{told_weight};
ghost use Rattle.certcheck.specs.Certificate.{AreAscending, AreAllZ};
ghost use Rattle.ownership.specs.Potentials.{AscendsByNumber};
ghost use Rattle.certcheck.specs.Views.{rows_of};
ghost use Rattle.certcheck.specs.Check.{number_named, y_named, mapping_of, potentials_of};
ghost use Rattle.certcheck.specs.Check.{weight_by};
ghost use Rattle.certcheck.specs.OneKind.{AreBounded, told_cost};

use crate::CertRow;
use crate::cover::weight;
use crate::lookup::find_row;
use hosts_join::Names;
use ownership::KindCounts;

/// The number of a name, or 0 where it has no row.
fn number_of(rows: &[CertRow<'_>], name: &[u8]) -> u32
    requires { AreAscending (rows_of rows.now) }
    ensures { result ≡ number_named (rows_of rows.now) name.now }
{
    match find_row(rows, name) {
        Some(row) => row.number,
        None => 0,
    }
}

/// The y of a name, or 0 where it has no row.
fn y_of(rows: &[CertRow<'_>], name: &[u8]) -> u64
    requires { AreAscending (rows_of rows.now) }
    ensures { result ≡ y_named (rows_of rows.now) name.now }
{
    match find_row(rows, name) {
        Some(row) => row.y,
        None => 0,
    }
}

/// All y of the site's names together.
pub fn y_sum(names: &Names<'_>, rows: &[CertRow<'_>]) -> u128
    requires ascending { AreAscending (rows_of rows.now) }
    ensures sum { result ≡ sum (potentials_of names.now (rows_of rows.now)) }
    ensures small { result < 2 ^ 97 }
{
    let mut total: u128 = 0;
    for index in 0..names.len() {
        total += u128::from(y_of(rows, names.name(index)));
    }
    total
}

/// All z together.
pub fn z_sum(z: &[(u32, u64)]) -> u128
    requires ascending { AscendsByNumber z.now }
    requires lawful { AreAllZ z.now }
    ensures sum { result ≡ sum_by (λ e. e.1) z.now }
    ensures small { result < 2 ^ 97 }
{
    let mut total: u128 = 0;
    for (_, value) in z {
        total += u128::from(*value);
    }
    total
}

/// What the numbers of the free names weigh.
pub fn mapping_weight(names: &Names<'_>, counts: &KindCounts, rows: &[CertRow<'_>]) -> u128
    requires ascending { AreAscending (rows_of rows.now) }
    requires made { AreMadeFor names.now.names counts.now }
    ensures { result ≡ weight_by names.now (told_weight names.now counts.now)
        (mapping_of names.now (rows_of rows.now)) }
{
    let mut total: u128 = 0;
    for index in 0..names.len() {
        if names.class(index).is_free() {
            total += weight(names, counts, index, number_of(rows, names.name(index)));
        }
    }
    total
}

/// How many files do not keep their number.
pub fn moved_files(names: &Names<'_>, counts: &KindCounts, rows: &[CertRow<'_>]) -> u64
    requires ascending { AreAscending (rows_of rows.now) }
    requires made { AreMadeFor names.now.names counts.now }
    requires bounded { AreBounded names.now counts.now }
    ensures moved { result ≡ told_cost names.now counts.now
        (mapping_of names.now (rows_of rows.now)) }
    ensures small { result < 2 ^ 63 }
{
    let mut total: u64 = 0;
    for index in 0..names.len() {
        let number = number_of(rows, names.name(index));
        total += counts.total(index) - counts.kept(index, number);
    }
    total
}
