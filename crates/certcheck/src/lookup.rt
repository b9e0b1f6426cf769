//! Look-ups by name and by number.
ghost use Rattle.std.specs.Prelude.{◌≡◌, ◌<◌, IfSome, length};
ghost use Rattle.std.specs.Option.{option_map};
ghost use Rattle.certcheck.specs.Certificate.{AreAscending};
ghost use Rattle.ownership.specs.Potentials.{AscendsByNumber, value_at};
ghost use Rattle.certcheck.specs.Views.{row_of, rows_of};
ghost use Rattle.certcheck.specs.Check.{row_named};
ghost use Rattle.hosts_join.specs.Accounts.{place_of};

use crate::CertRow;
use hosts_join::Names;
use std::cmp::Ordering;

/// The index of a name of the site.
pub fn index_of(names: &Names<'_>, name: &[u8]) -> Option<u32>
    ensures index { result ≡ place_of names.now.names name.now }
    ensures within { IfSome result (λ i. i < length names.now.names) }
{
    names.find(name)
}

/// The row of a name.
pub fn find_row<'a>(rows: &[CertRow<'a>], name: &[u8]) -> Option<CertRow<'a>>
    requires { AreAscending (rows_of rows.now) }
    ensures { option_map row_of result ≡ row_named (rows_of rows.now) name.now }
{
    let mut low = 0;
    let mut high = rows.len();
    while low < high {
        let middle = low + (high - low) / 2;
        match rows[middle].name.cmp(name) {
            Ordering::Less => low = middle + 1,
            Ordering::Equal => return Some(rows[middle]),
            Ordering::Greater => high = middle,
        }
    }
    None
}

/// The z of a number, 0 where none is given.
pub fn value_of(z: &[(u32, u64)], number: u32) -> u64
    requires { AscendsByNumber z.now }
    ensures { result ≡ value_at z.now number }
{
    let mut low = 0;
    let mut high = z.len();
    while low < high {
        let middle = low + (high - low) / 2;
        let (at, value) = z[middle];
        if at == number {
            return value;
        }
        if at < number {
            low = middle + 1;
        } else {
            high = middle;
        }
    }
    0
}
