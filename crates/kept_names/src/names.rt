//! The names that account files give numbers.
ghost use Rattle.std.specs.Prelude.{◌≡◌, option_copied};
ghost use Rattle.hosts_join.specs.Kinds.{user_at, group_at};
ghost use Rattle.kept_names.specs.Kept.{agree};

use accounts::{GroupTable, PasswdTable};

/// The passwd and the group of a host.
#[derive(Drop)]
pub struct Accounts<'a> {
    /// The users of its passwd.
    pub users: PasswdTable<'a>,
    /// The groups of its group file.
    pub groups: GroupTable<'a>,
}

/// The accounts of a host before and after they got new numbers.
#[derive(Drop)]
pub struct Renumbering<'a> {
    /// The accounts that the first inventory was made under.
    pub before: Accounts<'a>,
    /// The accounts that the second inventory was made under.
    pub after: Accounts<'a>,
}

/// The name of the user with this number, if there is one. One hash look-up; takes no memory.
pub(crate) fn user_name<'t, 'a>(accounts: &'t Accounts<'a>, uid: u32) -> Option<&'t [u8]>
    ensures { option_copied result ≡ user_at accounts.now.users uid }
{
    let row = accounts.users.by_number(uid)?;
    Some(row.name)
}

/// The name of the group with this number, if there is one. One hash look-up; takes no memory.
pub(crate) fn group_name<'t, 'a>(accounts: &'t Accounts<'a>, gid: u32) -> Option<&'t [u8]>
    ensures { option_copied result ≡ group_at accounts.now.groups gid }
{
    let row = accounts.groups.by_number(gid)?;
    Some(row.name)
}

/// Whether an owner has the name that it had. One without a name has to keep its number, and to
/// have no name still.
pub(crate) fn names_agree(was: Option<&[u8]>, now: Option<&[u8]>, old: u32, new: u32) -> bool
    ensures { result ≡ agree (option_copied was.entry) (option_copied now.entry) old new }
{
    match (was, now) {
        (Some(was), Some(now)) => was == now,
        (None, None) => old == new,
        _ => false,
    }
}
