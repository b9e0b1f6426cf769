//! Whether the numbers of a certificate are those that names may get.
ghost use Rattle.std.specs.Prelude.{◌≡◌};
ghost use Rattle.std.specs.Option.{option_map};
ghost use Rattle.certcheck.specs.Views.{rows_of, row_of};
ghost use Rattle.certcheck.specs.Told.{text_of};
ghost use Rattle.certcheck.specs.Check as spec;

use crate::CertRow;
use crate::lookup::index_of;
use hosts_join::{Class, Names};

fn is_outside(names: &Names<'_>, row: &CertRow<'_>) -> bool
    ensures { result ≡ spec.is_row_outside names.now (row_of row.now) }
{
    match index_of(names, row.name) {
        Some(index) => {
            let class = names.class(index);
            class.is_free() && !names.pool(class).has(row.number)
        }
        None => false,
    }
}

/// The least free name whose number is not in its pool.
pub fn name_outside<'a>(names: &Names<'_>, rows: &[CertRow<'a>]) -> Option<&'a [u8]>
    ensures { text_of result
        ≡ option_map (λ r. r.name) (spec.outside names.now (rows_of rows.now)) }
{
    for row in rows {
        if is_outside(names, row) {
            return Some(row.name);
        }
    }
    None
}

fn breaks_pin(names: &Names<'_>, row: &CertRow<'_>) -> bool
    ensures { result ≡ spec.row_breaks_pin names.now (row_of row.now) }
{
    match index_of(names, row.name) {
        Some(index) => match names.class(index) {
            Class::Pinned(pin) => row.number != pin,
            Class::Regular | Class::System => false,
        },
        None => false,
    }
}

/// The least pinned name whose number is not its pin.
pub fn name_off_pin<'a>(names: &Names<'_>, rows: &[CertRow<'a>]) -> Option<&'a [u8]>
    ensures { text_of result ≡ option_map (λ r. r.name) (spec.broken names.now (rows_of rows.now)) }
{
    for row in rows {
        if breaks_pin(names, row) {
            return Some(row.name);
        }
    }
    None
}
