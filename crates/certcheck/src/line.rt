//! The lines of a certificate.
ghost use Rattle.std.specs.Prelude.{◌≡◌};
ghost use Rattle.std.specs.Option.{option_map};
ghost use Rattle.certcheck.specs.Reading as spec;
ghost use Rattle.certcheck.specs.Views.{row_of};
ghost use Rattle.certcheck.specs.Items.{item_view};

use crate::CertRow;
use crate::numeral::spelled_number;
use hosts_join::Which;
use idtext::{GREATEST_ID, is_lawful_name, split_at_last_space};

/// A line of a certificate.
#[derive(Clone, Copy, Debug)]
pub enum Item<'a> {
    Head,
    Row {
        kind: Which,
        row: CertRow<'a>,
    },
    Z {
        kind: Which,
        number: u32,
        value: u64,
    },
    End,
}

/// An account's number.
fn id(text: &[u8]) -> Option<u32>
    ensures { result ≡ spec.spelled_number 4294967294 text.now }
{
    let number = spelled_number(u64::from(GREATEST_ID), text)?;
    Some(number as u32)
}

/// NAME NUMBER Y.
fn row(text: &[u8]) -> Option<CertRow<'_>>
    ensures { option_map row_of result ≡ spec.row_in text.now }
{
    let (rest, y) = split_at_last_space(text)?;
    let (name, number) = split_at_last_space(rest)?;
    let number = id(number)?;
    let y = spelled_number(u64::MAX, y)?;
    if !is_lawful_name(name) {
        return None;
    }
    Some(CertRow { name, number, y })
}

/// NUMBER Z.
fn z(text: &[u8]) -> Option<(u32, u64)>
    ensures { result ≡ spec.z_in text.now }
{
    let (number, value) = split_at_last_space(text)?;
    let number = id(number)?;
    let value = spelled_number(u64::MAX, value)?;
    if value == 0 {
        return None;
    }
    Some((number, value))
}

fn row_item(kind: Which, row: Option<CertRow<'_>>) -> Option<Item<'_>>
    ensures { option_map item_view result ≡ spec.row_item kind (option_map row_of row.entry) }
{
    let row = row?;
    Some(Item::Row { kind, row })
}

fn z_item<'a>(kind: Which, z: Option<(u32, u64)>) -> Option<Item<'a>>
    ensures { option_map item_view result ≡ spec.z_item kind z }
{
    let (number, value) = z?;
    Some(Item::Z {
        kind,
        number,
        value,
    })
}

/// What a line says, where it is one of the lines of a certificate.
#[tactic(auto, unfolding(crate::specs::Reading::item_of))]
pub fn item_in(line: &[u8]) -> Option<Item<'_>>
    ensures { option_map item_view result ≡ spec.item_of line.now }
{
    if line == b"unify certificate 2".as_slice() {
        return Some(Item::Head);
    }
    if line == b"end".as_slice() {
        return Some(Item::End);
    }
    if let Some(rest) = line.strip_prefix(b"user ") {
        return row_item(Which::User, row(rest));
    }
    if let Some(rest) = line.strip_prefix(b"zuser ") {
        return z_item(Which::User, z(rest));
    }
    if let Some(rest) = line.strip_prefix(b"group ") {
        return row_item(Which::Group, row(rest));
    }
    if let Some(rest) = line.strip_prefix(b"zgroup ") {
        return z_item(Which::Group, z(rest));
    }
    None
}
