//! The line of a file of which something is found.
ghost use Rattle.std.specs.Prelude.{◌≡◌, ◌++◌, OnOk, option_copied};
ghost use Rattle.kept_names.specs.Telling.{details, group_change, group_text, kind_word, line_of};
ghost use Rattle.kept_names.specs.Telling.{numbers_text, owner_text, owners_text, user_change};
ghost use Rattle.kept_names.specs.Telling.{user_text};

use crate::finding::{Finding, What};
use crate::names::{Accounts, Renumbering, group_name, user_name};
use idtext::{push_escaped, push_number};
use mtree_inv::Entry;
use std::alloc::AllocError;

// Appends ` NAME NUMBER`, with a hyphen for a name that is not there. No account has a name that
// begins with one.
fn push_owner(line: &mut Vec<u8>, name: Option<&[u8]>, number: u32) -> Result<(), AllocError>
    ensures { OnOk result (line.new.items
        ≡ line.old.items ++ owner_text (option_copied name.entry) number) }
{
    line.push(b' ')?;
    match name {
        Some(name) => push_escaped(line, name)?,
        None => line.extend_from_slice(b"-")?,
    }
    line.push(b' ')?;
    push_number(line, u128::from(number))
}

// Appends a user, by these account files.
fn push_user(line: &mut Vec<u8>, accounts: &Accounts<'_>, uid: u32) -> Result<(), AllocError>
    ensures { OnOk result (line.new.items ≡ line.old.items ++ user_text accounts.now uid) }
{
    push_owner(line, user_name(accounts, uid), uid)
}

// Appends a group, by these account files.
fn push_group(line: &mut Vec<u8>, accounts: &Accounts<'_>, gid: u32) -> Result<(), AllocError>
    ensures { OnOk result (line.new.items ≡ line.old.items ++ group_text accounts.now gid) }
{
    push_owner(line, group_name(accounts, gid), gid)
}

// Appends ` user NAME UID` and ` group NAME GID` of a file, by these account files: those of the
// two that are asked for.
fn push_owners(
    line: &mut Vec<u8>,
    accounts: &Accounts<'_>,
    file: &Entry,
    user: bool,
    group: bool,
) -> Result<(), AllocError>
    ensures { OnOk result (line.new.items
        ≡ line.old.items ++ owners_text accounts.now file.now user group) }
{
    if user {
        line.extend_from_slice(b" user")?;
        push_user(line, accounts, file.uid)?;
    }
    if group {
        line.extend_from_slice(b" group")?;
        push_group(line, accounts, file.gid)?;
    }
    Ok(())
}

// Appends the user that a file had, with the new one after it, where it has another number now,
// which is given.
fn push_user_change(
    line: &mut Vec<u8>,
    renumbering: &Renumbering<'_>,
    file: &Entry,
    uid: Option<u32>,
) -> Result<(), AllocError>
    ensures { OnOk result (line.new.items
        ≡ line.old.items ++ user_change renumbering.now file.now uid) }
{
    if let Some(uid) = uid {
        line.extend_from_slice(b" user")?;
        push_user(line, &renumbering.before, file.uid)?;
        push_user(line, &renumbering.after, uid)?;
    }
    Ok(())
}

// Appends the group that a file had in the same way.
fn push_group_change(
    line: &mut Vec<u8>,
    renumbering: &Renumbering<'_>,
    file: &Entry,
    gid: Option<u32>,
) -> Result<(), AllocError>
    ensures { OnOk result (line.new.items
        ≡ line.old.items ++ group_change renumbering.now file.now gid) }
{
    if let Some(gid) = gid {
        line.extend_from_slice(b" group")?;
        push_group(line, &renumbering.before, file.gid)?;
        push_group(line, &renumbering.after, gid)?;
    }
    Ok(())
}

// Appends ` uid UID` and ` gid GID` of a file: those of the two that are asked for.
fn push_numbers(line: &mut Vec<u8>, file: &Entry, user: bool, group: bool) -> Result<(), AllocError>
    ensures { OnOk result (line.new.items ≡ line.old.items ++ numbers_text file.now user group) }
{
    if user {
        line.extend_from_slice(b" uid ")?;
        push_number(line, u128::from(file.uid))?;
    }
    if group {
        line.extend_from_slice(b" gid ")?;
        push_number(line, u128::from(file.gid))?;
    }
    Ok(())
}

// Appends what a line says of a file after its path.
fn push_details(
    line: &mut Vec<u8>,
    renumbering: &Renumbering<'_>,
    file: &Entry,
    what: What,
) -> Result<(), AllocError>
    ensures { OnOk result (line.new.items
        ≡ line.old.items ++ details renumbering.now file.now what) }
{
    match what {
        What::Missing => Ok(()),
        What::Changed { uid, gid } => {
            push_user_change(line, renumbering, file, uid)?;
            push_group_change(line, renumbering, file, gid)
        }
        What::New => push_owners(line, &renumbering.after, file, true, true),
        What::Unnamed { user, group } => push_numbers(line, file, user, group),
        What::Left { user, group } => push_owners(line, &renumbering.before, file, user, group),
    }
}

// The word of a kind.
fn word_of(what: What) -> &'static str
    ensures { result.now ≡ kind_word what }
{
    match what {
        What::Missing => "missing",
        What::Changed { .. } => "changed",
        What::New => "new",
        What::Unnamed { .. } => "unnamed",
        What::Left { .. } => "left",
    }
}

/// Appends the line of a file: the names of its owners are looked up by hash.
pub(crate) fn push_finding(
    lines: &mut Vec<u8>,
    renumbering: &Renumbering<'_>,
    finding: &Finding<'_>,
) -> Result<(), AllocError>
    ensures { OnOk result (lines.new.items
        ≡ lines.old.items ++ line_of renumbering.now finding.now) }
{
    lines.extend_from_slice(b"unify: ")?;
    lines.extend_from_slice(word_of(finding.what).as_bytes())?;
    lines.push(b' ')?;
    push_escaped(lines, finding.file.path.bytes())?;
    push_details(lines, renumbering, finding.file, finding.what)?;
    lines.extend_from_slice(b"\n")
}
