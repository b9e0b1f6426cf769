//! The files that the words of `verify` name.

use crate::refused::refused;
use accounts::{GroupTable, PasswdTable, read_group, read_passwd};
use idtext::ByteString;
use kept_names::Accounts;
use mtree_inv::{Inventory, read_inventory};
use std::alloc::AllocError;
use unify_io::{FileFault, Part, read_file, warn};
use unify_texts::MOST_FILES;

/// The texts of a passwd and a group, with their paths.
#[derive(Drop)]
pub(crate) struct AccountTexts<'w> {
    passwd_path: &'w str,
    group_path: &'w str,
    passwd: ByteString,
    group: ByteString,
}

/// Reads a passwd and a group. What no word names is an empty path, which is no file's.
pub(crate) fn read_account_texts<'w>(
    rt: &HostRuntime,
    paths: &[&'w str],
) -> Result<AccountTexts<'w>, FileFault> {
    let passwd_path = paths.first().copied().unwrap_or("");
    let group_path = paths.get(1).copied().unwrap_or("");
    let passwd = read_file(rt, passwd_path)?;
    let group = read_file(rt, group_path)?;
    Ok(AccountTexts {
        passwd_path,
        group_path,
        passwd,
        group,
    })
}

// The users of a passwd.
fn users_of<'t>(
    rt: &HostRuntime,
    texts: &'t AccountTexts<'_>,
) -> Result<PasswdTable<'t>, FileFault> {
    match read_passwd(rt.alloc(), texts.passwd.bytes()) {
        Ok(users) => Ok(users),
        Err(error) => Err(refused(rt, texts.passwd_path, error)),
    }
}

// The groups of a group file.
fn groups_of<'t>(
    rt: &HostRuntime,
    texts: &'t AccountTexts<'_>,
) -> Result<GroupTable<'t>, FileFault> {
    match read_group(rt.alloc(), texts.group.bytes()) {
        Ok(groups) => Ok(groups),
        Err(error) => Err(refused(rt, texts.group_path, error)),
    }
}

/// The accounts of a passwd and a group.
pub(crate) fn read_accounts<'t>(
    rt: &HostRuntime,
    texts: &'t AccountTexts<'_>,
) -> Result<Accounts<'t>, FileFault> {
    let users = users_of(rt, texts)?;
    let groups = groups_of(rt, texts)?;
    Ok(Accounts { users, groups })
}

/// The inventory that a text is, which is told by a path where it is refused.
pub(crate) fn inventory_of(
    rt: &HostRuntime,
    path: &str,
    text: &[u8],
) -> Result<Inventory, FileFault> {
    match read_inventory(rt.alloc(), text, MOST_FILES) {
        Ok(inventory) => Ok(inventory),
        Err(error) => Err(refused(rt, path, error)),
    }
}

// Warns of an inventory at a path, where it has no files: a copy may have failed.
fn warn_of_none(rt: &HostRuntime, path: &str, inventory: &Inventory) -> Result<(), AllocError> {
    if !inventory.entries().is_empty() {
        return Ok(());
    }
    let name = Part::Name(path.as_bytes());
    warn(
        rt,
        &[Part::Text("inventory"), name, Part::Text("has no files")],
    )
}

/// The inventory at a path. It is warned of where it has no files.
pub(crate) fn read_mtree(rt: &HostRuntime, path: &str) -> Result<Inventory, FileFault> {
    let text = read_file(rt, path)?;
    let inventory = inventory_of(rt, path, text.bytes())?;
    warn_of_none(rt, path, &inventory)?;
    Ok(inventory)
}
