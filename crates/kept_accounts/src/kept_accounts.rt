//! What stays as it is on a site, of users and of groups.

ghost use Rattle.std.specs.Prelude.{◌≡◌, map, not, IfOk};
ghost use Rattle.kept_accounts.specs.Keeping.{IsKeeping, keeps, users_on, groups_on};
ghost use Rattle.kept_accounts.specs.Others.{other_rows, without};

use crate::kept_kind::KeptKind;
use crate::reserving::UnownedNumbers;
use crate::sparing::spared;
use accounts::{GroupTable, PasswdTable};
use hosts_join::{Groups, Host, Users};
use idtext::Name;
use keep_text::KeepText;
use std::alloc::{AllocError, Global};

/// What stays as it is on a site.
#[derive(Drop)]
pub struct KeptAccounts<'a> {
    /// Of users.
    pub users: KeptKind<'a>,
    /// Of groups.
    pub groups: KeptKind<'a>,
}

impl<'a> KeptAccounts<'a> {
    /// What a keep text says of these hosts: users and groups are judged each by themselves. Costs
    /// are those of [`KeptKind::of`] for both.
    pub fn of(alloc: Global, keep: &KeepText<'_>, hosts: &[Host<'a>]) -> Result<Self, AllocError>
        ensures users { IfOk result
            (λ kept. IsKeeping keep.now.users (users_on hosts.now) kept.users) }
        ensures groups { IfOk result
            (λ kept. IsKeeping keep.now.groups (groups_on hosts.now) kept.groups) }
    {
        let users = KeptKind::of::<Users>(alloc, &keep.users, hosts)?;
        let groups = KeptKind::of::<Groups>(alloc, &keep.groups, hosts)?;
        Ok(KeptAccounts { users, groups })
    }

    /// The host without its kept users and groups, where this was made from the same text: the
    /// other rows, in their order. It spares the numbers of listed ranges, those of its kept
    /// names, and, where the text keeps numbers without an account, those of `unowned` that are
    /// its own. Two look-ups by hash for each row, one sort for each kind of what is spared, and
    /// what [`PasswdTable::selected`] and [`GroupTable::selected`] take. Where the text keeps
    /// numbers without an account of a kind, all of that kind in `unowned` are looked through, and
    /// the name of each one's host is compared; so for all hosts of a site these are hosts times
    /// numbers.
    pub fn without_kept(
        &self,
        alloc: Global,
        keep: &KeepText<'_>,
        host: &Host<'a>,
        unowned: &UnownedNumbers<'_>,
    ) -> Result<Host<'a>, AllocError>
        ensures { IfOk result (λ others. others ≡ without keep.now (keeps self.now.users)
            (keeps self.now.groups) unowned.now host.now) }
    {
        let users = other_users(alloc, &self.users, &host.users)?;
        let groups = other_groups(alloc, &self.groups, &host.groups)?;
        let uids = &unowned.users;
        let gids = &unowned.groups;
        let spared_users = spared::<Users>(alloc, &self.users, &keep.users, host, uids)?;
        let spared_groups = spared::<Groups>(alloc, &self.groups, &keep.groups, host, gids)?;
        Ok(Host {
            name: Name::new(host.name.bytes()),
            ranges: host.ranges,
            users,
            groups,
            spared_users,
            spared_groups,
        })
    }
}

// Whether each user is not kept.
fn other_user_flags(
    alloc: Global,
    kept: &KeptKind<'_>,
    users: &PasswdTable<'_>,
) -> Result<Vec<bool>, AllocError>
    ensures { IfOk result
        (λ flags. flags.items ≡ map (λ row. not (keeps kept.now row.name)) users.now) }
{
    let rows = users.rows();
    rows.iter()
        .map(|user| !kept.is_kept(user.name))
        .collect(alloc)
}

// Whether each group is not kept.
fn other_group_flags(
    alloc: Global,
    kept: &KeptKind<'_>,
    groups: &GroupTable<'_>,
) -> Result<Vec<bool>, AllocError>
    ensures { IfOk result
        (λ flags. flags.items ≡ map (λ row. not (keeps kept.now row.name)) groups.now) }
{
    let rows = groups.rows();
    rows.iter()
        .map(|group| !kept.is_kept(group.name))
        .collect(alloc)
}

// The users that are not kept.
fn other_users<'a>(
    alloc: Global,
    kept: &KeptKind<'_>,
    users: &PasswdTable<'a>,
) -> Result<PasswdTable<'a>, AllocError>
    ensures { IfOk result
        (λ others. others ≡ other_rows (λ row. row.name) (keeps kept.now) users.now) }
{
    let flags = other_user_flags(alloc, kept, users)?;
    users.selected(alloc, &flags)
}

// The groups that are not kept.
fn other_groups<'a>(
    alloc: Global,
    kept: &KeptKind<'_>,
    groups: &GroupTable<'a>,
) -> Result<GroupTable<'a>, AllocError>
    ensures { IfOk result
        (λ others. others ≡ other_rows (λ row. row.name) (keeps kept.now) groups.now) }
{
    let flags = other_group_flags(alloc, kept, groups)?;
    groups.selected(alloc, &flags)
}
