//! Whether a certificate has exactly the site's names.
ghost use Rattle.std.specs.Prelude.{◌≡◌, not, map, filter};
ghost use Rattle.hosts_join.specs.Lawful.{AreLawfulAccounts};
ghost use Rattle.hosts_join.specs.Rules.{is_name};
ghost use Rattle.certcheck.specs.Certificate.{AreAscending};
ghost use Rattle.certcheck.specs.Views.{rows_of};
ghost use Rattle.certcheck.specs.Told.{text_of};
ghost use Rattle.certcheck.specs.Check as spec;

use crate::CertRow;
use crate::lookup::{find_row, index_of};
use hosts_join::Names;

/// The lesser of two names, where there are two.
fn lesser<'a>(first: Option<&'a [u8]>, second: Option<&'a [u8]>) -> Option<&'a [u8]>
    ensures { text_of result ≡ spec.lesser (text_of first.entry) (text_of second.entry) }
{
    match (first, second) {
        (None, other) => other,
        (some, None) => some,
        (Some(one), Some(other)) => {
            if other.cmp(one).is_lt() {
                Some(other)
            } else {
                Some(one)
            }
        }
    }
}

/// The least name of the certificate that the site does not have.
fn unknown_name<'a>(names: &Names<'a>, rows: &[CertRow<'a>]) -> Option<&'a [u8]>
    ensures { text_of result
        ≡ spec.least_name
        (filter (λ n. not (is_name names.now.names n)) (map (λ r. r.name) (rows_of rows.now))) }
{
    let mut least = None;
    for row in rows {
        if index_of(names, row.name).is_none() {
            least = lesser(least, Some(row.name));
        }
    }
    least
}

/// The least name of the site that the certificate does not have.
fn unlisted_name<'a>(names: &Names<'a>, rows: &[CertRow<'a>]) -> Option<&'a [u8]>
    requires { AreAscending (rows_of rows.now) }
    ensures least { text_of result
        ≡ spec.least_name
        (filter (λ n. not (spec.is_listed (rows_of rows.now) n))
        (map (λ x. x.name) names.now.names)) }
    ensures lawful { AreLawfulAccounts names.now }
{
    let mut least = None;
    for index in 0..names.len() {
        let name = names.name(index);
        if find_row(rows, name).is_none() {
            least = lesser(least, Some(name));
        }
    }
    least
}

/// The least name that stands in exactly one of site and certificate.
pub fn missing_name<'a>(names: &Names<'a>, rows: &[CertRow<'a>]) -> Option<&'a [u8]>
    requires { AreAscending (rows_of rows.now) }
    ensures missing { text_of result ≡ spec.missing names.now (rows_of rows.now) }
    ensures lawful { AreLawfulAccounts names.now }
{
    lesser(unknown_name(names, rows), unlisted_name(names, rows))
}
