//! A host's own passwd and group with its new numbers, after passwd(5) and group(5).
ghost use Rattle.std.specs.Prelude.{◌≡◌, ◌<◌, ◌∷◌, ◌++◌, length, IfOk, OnOk, MatchOption};
ghost use Rattle.std.specs.List.{All};
ghost use Rattle.idtext.specs.Pieces.{fields_of};
ghost use Rattle.hosts_join.specs.Laws.{KnowsHost};
ghost use Rattle.ownership.specs.Mappings.{AreForSite};
ghost use Rattle.mergedfiles.specs.HostFiles as spec;
ghost use Rattle.mergedfiles.specs.HostFiles.{host_groups, host_users, number_field};
ghost use Rattle.mergedfiles.specs.Coming.{IsPlaced, IsPrimary, IsUnderWay};
ghost use Rattle.mergedfiles.specs.HostFiles.{renumbered_group, renumbered_line, renumbered_user};
ghost use Rattle.mergedfiles.specs.Texts as texts;

use crate::group::{push_field, push_number_field};
use accounts::PasswdRow;
use hosts_join::{Host, Names, Site};
use idtext::{cut, decimal, is_skipped};
use ownership::{Mapping, Mappings};
use std::alloc::{AllocError, Global};

/// The new number of a name, where it is a name of the site.
fn new_number(name: &[u8], names: &Names<'_>, mapping: &Mapping) -> Option<u32>
    requires { length mapping.now ≡ length names.now.names }
    ensures { result ≡ spec.new_number names.now mapping.now name.now }
{
    let index = names.find(name)?;
    Some(mapping.number(index))
}

/// The new number of the name of a row that was joined on the host at an index. The name is not
/// looked up: its number tells its place.
///
/// before: how many rows of the host stand before it
fn new_number_of_row(
    row: &PasswdRow<'_>,
    index: u32,
    before: usize,
    names: &Names<'_>,
    mapping: &Mapping,
) -> Option<u32>
    requires numbers { length mapping.now ≡ length names.now.names }
    requires placed { IsPlaced names.now index row.now }
    ensures { result ≡ spec.new_number names.now mapping.now row.now.name }
{
    let place = names.owner_of_row(index, row.uid, before)?;
    Some(mapping.number(place))
}

/// The rows of a host's passwd whose lines have not come, and how many have.
#[derive(Clone, Copy)]
struct ComingRows<'h, 'a> {
    rows: &'h [PasswdRow<'a>],
    before: usize,
}

/// The new number of a user, and the rows after that of the user.
#[derive(Clone, Copy)]
struct NextUser<'h, 'a> {
    number: Option<u32>,
    coming: ComingRows<'h, 'a>,
}

/// The new number of the user of the next line. Its row is mostly the next one: only where the text
/// is not that of the rows, or has users who were left out, the name is looked up.
fn next_user<'h, 'a>(
    coming: ComingRows<'h, 'a>,
    name: &[u8],
    index: u32,
    names: &Names<'_>,
    mapping: &Mapping,
) -> NextUser<'h, 'a>
    requires numbers { length mapping.now ≡ length names.now.names }
    requires placed { All (IsPlaced names.now index) coming.rows.now }
    ensures number { result.number ≡ spec.new_number names.now mapping.now name.now }
    ensures placed { All (IsPlaced names.now index) result.coming.rows.now }
{
    if let Some((row, behind)) = coming.rows.split_first() {
        if row.name == name {
            return NextUser {
                number: new_number_of_row(row, index, coming.before, names, mapping),
                coming: ComingRows {
                    rows: behind,
                    before: coming.before.saturating_add(1),
                },
            };
        }
    }
    NextUser {
        number: new_number(name, names, mapping),
        coming,
    }
}

/// The new number of the group that has, on the host, the number that a field holds.
fn new_primary(gid: &[u8], host: &Host<'_>, groups: &Names<'_>, mapping: &Mapping) -> Option<u32>
    requires { length mapping.now ≡ length groups.now.names }
    ensures { result ≡ spec.new_primary host.now groups.now mapping.now gid.now }
{
    let gid = decimal(gid)?;
    let group = host.groups.by_number(gid)?;
    new_number(group.name, groups, mapping)
}

/// A gid field, and the new number of the group that has this number on the host.
#[derive(Clone, Copy)]
struct Primary<'t> {
    gid: &'t [u8],
    number: Option<u32>,
}

/// That of the next user, which mostly has the group of the user before: then nothing is looked up.
fn next_primary<'t>(
    before: Primary<'t>,
    gid: &'t [u8],
    host: &Host<'_>,
    groups: &Names<'_>,
    mapping: &Mapping,
) -> Primary<'t>
    requires numbers { length mapping.now ≡ length groups.now.names }
    requires before { IsPrimary host.now groups.now mapping.now before }
    ensures gid { result.gid.now ≡ gid.entry.now }
    ensures number { result.number
        ≡ spec.new_primary host.now groups.now mapping.now gid.entry.now }
{
    if before.gid == gid {
        return before;
    }
    let number = new_primary(gid, host, groups, mapping);
    Primary { gid, number }
}

/// What is known while the lines of the passwd of the host at an index come: the primary group of
/// the user before, and the rows whose lines have not come.
#[derive(Clone, Copy)]
struct Coming<'t, 'h, 'a> {
    index: u32,
    primary: Primary<'t>,
    users: ComingRows<'h, 'a>,
}

/// Appends a number in the place of a field, or the field where there is no number; and the colon
/// after it.
fn push_new_field(text: &mut Vec<u8>, number: Option<u32>, field: &[u8]) -> Result<(), AllocError>
    ensures { OnOk result
        (text.new.items ≡ text.old.items ++ texts.field (number_field number field.now)) }
{
    match number {
        Some(number) => push_number_field(text, number),
        None => push_field(text, field),
    }
}

/// The fields of a user up to the gid, and the text after them: comment, home and shell.
#[derive(Clone, Copy)]
struct UserFields<'a> {
    name: &'a [u8],
    password: &'a [u8],
    uid: &'a [u8],
    gid: &'a [u8],
    rest: &'a [u8],
}

/// The fields of a line of passwd that has five or more.
fn user_fields(line: &[u8]) -> Option<UserFields<'_>>
    ensures { MatchOption result (length (fields_of line.now) < 5)
        (λ found. fields_of line.now ≡ found.name.now ∷ found.password.now ∷ found.uid.now
        ∷ found.gid.now ∷ fields_of found.rest.now) }
{
    let (name, rest) = cut(b':', line)?;
    let (password, rest) = cut(b':', rest)?;
    let (uid, rest) = cut(b':', rest)?;
    let (gid, rest) = cut(b':', rest)?;
    Some(UserFields {
        name,
        password,
        uid,
        gid,
        rest,
    })
}

/// The new numbers of a user and of its primary group, where they have one.
#[derive(Clone, Copy)]
struct NewNumbers {
    uid: Option<u32>,
    gid: Option<u32>,
}

/// The new numbers of the user of the next line. What is known of what comes is then what is known
/// after this line.
fn next_numbers<'t>(
    coming: &mut Coming<'t, '_, '_>,
    fields: &UserFields<'t>,
    host: &Host<'_>,
    site: &Site<'_>,
    mappings: &Mappings,
) -> NewNumbers
    requires for_site { AreForSite site.now mappings.now }
    requires coming { IsUnderWay host.now site.now mappings.now.groups coming.old }
    ensures uid { result.uid
        ≡ spec.new_number site.now.users mappings.now.users fields.now.name.now }
    ensures gid { result.gid
        ≡ spec.new_primary host.now site.now.groups mappings.now.groups fields.now.gid.now }
    ensures coming { IsUnderWay host.now site.now mappings.now.groups coming.new }
{
    let Mappings { users, groups } = mappings;
    let user = next_user(coming.users, fields.name, coming.index, site.users(), users);
    let primary = next_primary(coming.primary, fields.gid, host, site.groups(), groups);
    *coming = Coming {
        index: coming.index,
        primary,
        users: user.coming,
    };
    NewNumbers {
        uid: user.number,
        gid: primary.number,
    }
}

/// Appends a line of passwd with its new numbers. What is known of what comes is then what is known
/// after this line.
fn push_user_line<'t>(
    text: &mut Vec<u8>,
    line: &'t [u8],
    host: &Host<'_>,
    site: &Site<'_>,
    mappings: &Mappings,
    coming: &mut Coming<'t, '_, '_>,
) -> Result<(), AllocError>
    requires for_site { AreForSite site.now mappings.now }
    requires coming { IsUnderWay host.now site.now mappings.now.groups coming.old }
    ensures text { OnOk result (text.new.items ≡ text.old.items
        ++ renumbered_line (renumbered_user host.now site.now mappings.now) line.entry.now) }
    ensures coming { IsUnderWay host.now site.now mappings.now.groups coming.new }
{
    if is_skipped(line) {
        return text.extend_from_slice(line);
    }
    let Some(fields) = user_fields(line) else {
        return text.extend_from_slice(line);
    };
    let new = next_numbers(coming, &fields, host, site, mappings);
    push_field(text, fields.name)?;
    push_field(text, fields.password)?;
    push_new_field(text, new.uid, fields.uid)?;
    push_new_field(text, new.gid, fields.gid)?;
    text.extend_from_slice(fields.rest)
}

/// The passwd of the host at an index with its new numbers: in the line of each user the uid is
/// the new number of its name, and the gid is that of the group which has the old gid on the host,
/// both in decimal. Every other byte is as it was: the order of the lines, their other fields,
/// lines that the reader skips, and the line ends, also a missing last newline. The uid of a name
/// that is not of the site stays, and so does a gid that is of no group of the host: there are none
/// in a text that was read as the table of a host of the site that `check_primary` accepts.
/// Requires that the site knows the host by this index, as it does where it was joined from the
/// hosts, and that the mappings have one number for each user and for each group of the site.
///
/// Source: passwd(5). One pass over the text, without a look-up for a user where the text is that
/// of the host's table, else with one by hash, and with two more where its primary group is not
/// that of the user before. Memory for the new text alone.
///
/// # Errors
///
/// `AllocError` where memory is refused.
pub fn host_passwd_text(
    alloc: Global,
    text: &[u8],
    index: u32,
    host: &Host<'_>,
    site: &Site<'_>,
    mappings: &Mappings,
) -> Result<Vec<u8>, AllocError>
    requires known { KnowsHost site.now index host.now }
    requires for_site { AreForSite site.now mappings.now }
    ensures { IfOk result
        (λ new. new.items ≡ host_users host.now site.now mappings.now text.now) }
{
    let mut new = Vec::with_capacity(alloc, text.len())?;
    let mut rest = text;
    let mut coming = Coming {
        index,
        primary: Primary {
            gid: &[],
            number: None,
        },
        users: ComingRows {
            rows: host.users.rows(),
            before: 0,
        },
    };
    while let Some((line, more)) = cut(b'\n', rest) {
        push_user_line(&mut new, line, host, site, mappings, &mut coming)?;
        new.push(b'\n')?;
        rest = more;
    }
    push_user_line(&mut new, rest, host, site, mappings, &mut coming)?;
    Ok(new)
}

/// The fields of a group up to the gid, and the text after them: its users.
#[derive(Clone, Copy)]
struct GroupFields<'a> {
    name: &'a [u8],
    password: &'a [u8],
    gid: &'a [u8],
    rest: &'a [u8],
}

/// The fields of a line of group that has four or more.
fn group_fields(line: &[u8]) -> Option<GroupFields<'_>>
    ensures { MatchOption result (length (fields_of line.now) < 4)
        (λ found. fields_of line.now ≡
        found.name.now ∷ found.password.now ∷ found.gid.now ∷ fields_of found.rest.now) }
{
    let (name, rest) = cut(b':', line)?;
    let (password, rest) = cut(b':', rest)?;
    let (gid, rest) = cut(b':', rest)?;
    Some(GroupFields {
        name,
        password,
        gid,
        rest,
    })
}

/// Appends a line of group with its new number.
fn push_group_line(
    text: &mut Vec<u8>,
    line: &[u8],
    site: &Site<'_>,
    groups: &Mapping,
) -> Result<(), AllocError>
    requires { length groups.now ≡ length site.now.groups.names }
    ensures { OnOk result (text.new.items ≡ text.old.items
        ++ renumbered_line (renumbered_group site.now groups.now) line.now) }
{
    if is_skipped(line) {
        return text.extend_from_slice(line);
    }
    let Some(fields) = group_fields(line) else {
        return text.extend_from_slice(line);
    };
    let gid = new_number(fields.name, site.groups(), groups);
    push_field(text, fields.name)?;
    push_field(text, fields.password)?;
    push_new_field(text, gid, fields.gid)?;
    text.extend_from_slice(fields.rest)
}

/// A host's own group with its new numbers: in the line of each group the gid is the new number of
/// its name, in decimal. Every other byte is as it was: the order of the lines, their other fields
/// with the users as they stand, lines that the reader skips, and the line ends, also a missing
/// last newline. The gid of a name that is not of the site stays: there is none in a text that was
/// read as the table of a host of the site. Requires that the mapping has one number for each
/// group of the site.
///
/// Source: group(5). One pass over the text, with one look-up by hash for each group. Memory for
/// the new text alone.
///
/// # Errors
///
/// `AllocError` where memory is refused.
pub fn host_group_text(
    alloc: Global,
    text: &[u8],
    site: &Site<'_>,
    groups: &Mapping,
) -> Result<Vec<u8>, AllocError>
    requires { length groups.now ≡ length site.now.groups.names }
    ensures { IfOk result (λ new. new.items ≡ host_groups site.now groups.now text.now) }
{
    let mut new = Vec::with_capacity(alloc, text.len())?;
    let mut rest = text;
    while let Some((line, more)) = cut(b'\n', rest) {
        push_group_line(&mut new, line, site, groups)?;
        new.push(b'\n')?;
        rest = more;
    }
    push_group_line(&mut new, rest, site, groups)?;
    Ok(new)
}
