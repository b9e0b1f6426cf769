//! The rows of account files that were accepted, line by line: no table of them is made.

use idtext::{decimal, fields, is_skipped};

/// What a row of passwd(5) has of its user.
#[derive(Clone, Copy)]
pub(crate) struct UserLine<'a> {
    pub(crate) name: &'a [u8],
    pub(crate) uid: u32,
    pub(crate) comment: &'a [u8],
}

/// What a row of group(5) has of its group.
#[derive(Clone, Copy)]
pub(crate) struct GroupLine<'a> {
    pub(crate) name: &'a [u8],
    pub(crate) gid: u32,
    /// The list of its members.
    pub(crate) members: &'a [u8],
}

/// The row of a line of a passwd that was accepted, if it has one.
pub(crate) fn user_line(line: &[u8]) -> Option<UserLine<'_>> {
    if is_skipped(line) {
        return None;
    }
    let mut rest = fields(line);
    let name = rest.next()?;
    let _password = rest.next()?;
    let uid = decimal(rest.next()?)?;
    let _gid = rest.next()?;
    let comment = rest.next()?;
    Some(UserLine { name, uid, comment })
}

/// The row of a line of a group that was accepted, if it has one.
pub(crate) fn group_line(line: &[u8]) -> Option<GroupLine<'_>> {
    if is_skipped(line) {
        return None;
    }
    let mut rest = fields(line);
    let name = rest.next()?;
    let _password = rest.next()?;
    let gid = decimal(rest.next()?)?;
    let members = rest.next()?;
    Some(GroupLine { name, gid, members })
}
