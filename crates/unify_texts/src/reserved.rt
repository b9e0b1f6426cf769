//! What no name of a site is to be given.

ghost use Rattle.std.specs.Prelude.{◌≡◌, ◌++◌, OnOk, flat_map};
ghost use Rattle.std.specs.List.{list_any};
ghost use Rattle.unify_texts.specs.ReservedLines.{is_by_name, reserved_line, reserved_lines};

use crate::words::{Word, kind_word, push_line};
use hosts_join::{Reserved, Reserver, Site, Which};
use std::alloc::AllocError;

/// A line of who reserves numbers of a kind, and which they are.
fn push_reserved(out: &mut Vec<u8>, kind: Which, reserved: &Reserved<'_>) -> Result<(), AllocError>
    ensures { OnOk result (out.new.items ≡ out.old.items ++ reserved_line kind reserved.now) }
{
    let kind = Word::Text(kind_word(kind));
    let low = Word::Number(u128::from(reserved.numbers.low));
    match &reserved.by {
        Reserver::Range => {
            let high = Word::Number(u128::from(reserved.numbers.high));
            push_line(out, "reserved", &[kind, Word::Text("range"), low, high])
        }
        Reserver::Name { host, name } => {
            let host = Word::Shown(host.bytes());
            let name = Word::Shown(name.bytes());
            push_line(
                out,
                "reserved",
                &[kind, Word::Text("name"), host, name, low],
            )
        }
        Reserver::Unowned { host } => {
            let host = Word::Shown(host.bytes());
            push_line(out, "reserved", &[kind, Word::Text("unowned"), host, low])
        }
    }
}

fn push_each_reserved(
    out: &mut Vec<u8>,
    kind: Which,
    reserved: &[Reserved<'_>],
) -> Result<(), AllocError>
    ensures { OnOk result
        (out.new.items ≡ out.old.items ++ flat_map (reserved_line kind) reserved.now) }
{
    for one in reserved {
        push_reserved(out, kind, one)?;
    }
    Ok(())
}

/// Appends a line for what is reserved of users, and then of groups, each in its order.
pub fn push_reserved_lines(out: &mut Vec<u8>, site: &Site<'_>) -> Result<(), AllocError>
    ensures { OnOk result (out.new.items ≡ out.old.items ++ reserved_lines site.now) }
{
    push_each_reserved(out, Which::User, site.users().reserved())?;
    push_each_reserved(out, Which::Group, site.groups().reserved())
}

fn is_name(by: &Reserver<'_>) -> bool
    ensures { result ≡ is_by_name by.now }
{
    matches!(by, Reserver::Name { .. })
}

fn has_a_name(reserved: &[Reserved<'_>]) -> bool
    ensures { result ≡ list_any (λ r. is_by_name r.by) reserved.now }
{
    reserved.iter().any(|one| is_name(&one.by))
}

/// Whether some user or some group of the site is kept on some host, so that its names have no one
/// number on all hosts.
///
/// One pass over what is reserved. It takes no memory.
pub fn keeps_a_name(site: &Site<'_>) -> bool
    ensures { result ≡ Rattle.unify_texts.specs.ReservedLines.keeps_a_name site.now }
{
    has_a_name(site.users().reserved()) || has_a_name(site.groups().reserved())
}
