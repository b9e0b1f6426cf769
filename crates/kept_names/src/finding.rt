//! What is found of one file.
ghost use Rattle.std.specs.Prelude.{◌≡◌, option_copied};
ghost use Rattle.kept_names.specs.Kept as kept;
ghost use Rattle.kept_names.specs.Kept.{left_of, loss_of, unnamed_of, new_of};

use crate::names::{Accounts, Renumbering, group_name, names_agree, user_name};
use crate::paths::Paths;
use mtree_inv::Entry;
use std::marker::Model;

/// What is found of a file.
#[derive(Clone, Copy, Debug, PartialEq, Eq)]
pub enum What {
    /// Of a file of the first inventory: the second does not have it.
    Missing,
    /// Of a file of the first inventory: in the second its user or its group is another by name.
    /// Of each that is, the number there; where neither name is known, the number is another.
    Changed { uid: Option<u32>, gid: Option<u32> },
    /// Of a file of the second inventory: the first does not have it.
    New,
    /// Of a file of the second inventory: whether no user, and whether no group, has its number
    /// by the new account files.
    Unnamed { user: bool, group: bool },
    /// Of a file of the second inventory that the first does not have: whether its user's number,
    /// and whether its group's, belonged to a name by the old account files and no longer does by
    /// the new ones.
    Left { user: bool, group: bool },
}

/// A file of which something is found.
#[derive(Drop)]
pub struct Finding<'f> {
    /// The file, as the first inventory has it where it is missing or changed, and else as the
    /// second has it.
    pub file: &'f Entry,
    /// What is found of it.
    pub what: What,
}

impl<'f> Model for Finding<'f> {
    ghost use Rattle.kept_names.specs.Kept.{Found};

    ghost Value = { Found };

    ghost view = { λ finding. record { file = finding.file.now; what = finding.what } };
}

// The number, unless names agree.
fn changed_to(agree: bool, number: u32) -> Option<u32>
    ensures { result ≡ kept.changed_to agree number }
{
    if agree { None } else { Some(number) }
}

// What has changed between a file's two owners.
fn change(renumbering: &Renumbering<'_>, file: &Entry, there: &Entry) -> Option<What>
    ensures { result ≡ kept.change renumbering.now file.now there.now }
{
    let was = &renumbering.before;
    let now = &renumbering.after;
    let users_agree = names_agree(
        user_name(was, file.uid),
        user_name(now, there.uid),
        file.uid,
        there.uid,
    );
    let groups_agree = names_agree(
        group_name(was, file.gid),
        group_name(now, there.gid),
        file.gid,
        there.gid,
    );
    if users_agree && groups_agree {
        return None;
    }
    Some(What::Changed {
        uid: changed_to(users_agree, there.uid),
        gid: changed_to(groups_agree, there.gid),
    })
}

/// Whether a file of the first inventory is missing or changed. Four look-ups of numbers by hash,
/// and one of its path in a search tree.
pub(crate) fn find_loss(
    renumbering: &Renumbering<'_>,
    after: &Paths<'_>,
    file: &Entry,
) -> Option<What>
    ensures { result ≡ loss_of renumbering.now after.now file.now }
{
    match after.file(file.path.bytes()) {
        None => Some(What::Missing),
        Some(there) => change(renumbering, file, there),
    }
}

/// Whether a file of the second inventory is new. A look-up of its path in a search tree.
pub(crate) fn find_new(before: &Paths<'_>, file: &Entry) -> Option<What>
    ensures { result ≡ new_of before.now file.now }
{
    match before.file(file.path.bytes()) {
        None => Some(What::New),
        Some(_) => None,
    }
}

/// Whether a file of the second inventory has a number that no account has. Two look-ups of numbers
/// by hash.
pub(crate) fn find_unnamed(accounts: &Accounts<'_>, file: &Entry) -> Option<What>
    ensures { result ≡ unnamed_of accounts.now file.now }
{
    let user = user_name(accounts, file.uid).is_none();
    let group = group_name(accounts, file.gid).is_none();
    if user || group {
        return Some(What::Unnamed { user, group });
    }
    None
}

// Whether a number that belonged to a name no longer does.
fn is_left(was: Option<&[u8]>, now: Option<&[u8]>) -> bool
    ensures { result ≡ kept.is_left (option_copied was.entry) (option_copied now.entry) }
{
    match (was, now) {
        (Some(was), Some(now)) => was != now,
        (Some(_), None) => true,
        (None, _) => false,
    }
}

/// Whether a file of the second inventory is new and has a number that belonged to a name and no
/// longer does. Four look-ups of numbers by hash, and one of its path in a search tree.
pub(crate) fn find_left(
    renumbering: &Renumbering<'_>,
    before: &Paths<'_>,
    file: &Entry,
) -> Option<What>
    ensures { result ≡ left_of renumbering.now before.now file.now }
{
    let was = &renumbering.before;
    let now = &renumbering.after;
    let user = is_left(user_name(was, file.uid), user_name(now, file.uid));
    let group = is_left(group_name(was, file.gid), group_name(now, file.gid));
    if !user && !group {
        return None;
    }
    match before.file(file.path.bytes()) {
        None => Some(What::Left { user, group }),
        Some(_) => None,
    }
}
