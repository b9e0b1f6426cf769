//! Certificate texts as they are read.
ghost use Rattle.std.specs.Prelude.{◌≡◌, [], None, Some, IfOk, IfErr, IfSome};
ghost use Rattle.idtext.specs.First.{Gives, first_fault};
ghost use Rattle.idtext.specs.Pieces.{lines as lines_of};
ghost use Rattle.std.specs.Option.{option_map};
ghost use Rattle.certcheck.specs.Items.{item_view};
ghost use Rattle.certcheck.specs.Reading as spec;
ghost use Rattle.certcheck.specs.Reading.{certificate_in, line_fault};
ghost use Rattle.certcheck.specs.LinesRead.{AreRead};
ghost use Rattle.certcheck.specs.Told.{line_told};

use crate::line::{Item, item_in};
use crate::reading::{Parts, may_follow, take_item};
use crate::{Certificate, CertificateFault, Side};
use idtext::Lines;
use std::alloc::Global;

/// What the lines of a text say, the last of them, and how many they are.
struct ReadLines<'a> {
    parts: Parts<'a>,
    last: Option<Item<'a>>,
    count: u64,
}

/// Reads the lines of a text, where none is wrong or out of place.
fn read_lines<'a>(alloc: Global, text: &'a [u8]) -> Result<ReadLines<'a>, CertificateFault>
    ensures fine { IfOk result (λ _. first_fault line_fault [] (lines_of text.now) ≡ None) }
    ensures parts { IfOk result (λ r. AreRead (lines_of text.now) r.parts r.last r.count) }
    ensures fault { IfErr result
        (λ e. IfSome (line_told e) (λ n. first_fault line_fault [] (lines_of text.now) ≡ Some n)) }
{
    let mut parts = Parts {
        users: Vec::new(alloc),
        users_z: Vec::new(alloc),
        groups: Vec::new(alloc),
        groups_z: Vec::new(alloc),
    };
    let mut before: Option<Item<'a>> = None;
    let mut number: u64 = 0;
    for line in Lines::new(text) {
        number = number.saturating_add(1);
        let Some(item) = item_in(line) else {
            return Err(CertificateFault::BadCertificate(number));
        };
        if !may_follow(before, &item) {
            return Err(CertificateFault::BadCertificate(number));
        }
        take_item(&mut parts, item)?;
        before = Some(item);
    }
    Ok(ReadLines {
        parts,
        last: before,
        count: number,
    })
}

/// Whether the last line of a text has no newline.
fn is_cut(text: &[u8]) -> bool
    ensures { result ≡ spec.is_cut text.now }
{
    !text.is_empty() && text[text.len() - 1] != b'\n'
}

/// Whether the last line is that of the end.
fn is_end(last: Option<Item<'_>>) -> bool
    ensures { result ≡ spec.is_end (option_map item_view last.entry) }
{
    matches!(last, Some(Item::End))
}

/// The certificate that a text says; its names are slices of the text.
///
/// # Errors
///
/// `BadCertificate` with the number of the first line that is wrong, out of place, missing or
/// without its newline; a missing line has the number after the last. A certificate has one
/// spelling, so no other text is read, and none begins another. One pass over the text, and memory
/// in step with its lines; `Memory` where that is refused.
pub fn read_certificate<'a>(
    alloc: Global,
    text: &'a [u8],
) -> Result<Certificate<'a>, CertificateFault>
    ensures { Gives (λ certificate. certificate) line_told result (certificate_in text.now) }
{
    let ReadLines { parts, last, count } = read_lines(alloc, text)?;
    if is_cut(text) {
        return Err(CertificateFault::BadCertificate(count));
    }
    if !is_end(last) {
        return Err(CertificateFault::BadCertificate(count.saturating_add(1)));
    }
    Ok(Certificate {
        users: Side::new(parts.users, parts.users_z),
        groups: Side::new(parts.groups, parts.groups_z),
    })
}
