//! What is found of all files.
ghost use Rattle.std.specs.Prelude.{◌≡◌, ◌++◌, filter_map, IfOk};
ghost use Rattle.kept_names.specs.Kept.{findings, left_file, loss, new_file, unnamed};

use crate::finding::{Finding, find_left, find_loss, find_new, find_unnamed};
use crate::names::{Accounts, Renumbering};
use crate::paths::Paths;
use mtree_inv::{Entry, Inventory};
use std::alloc::{AllocError, Global};

// Appends what is found of the files of the first inventory.
fn push_losses<'f>(
    found: &mut Vec<Finding<'f>>,
    renumbering: &Renumbering<'_>,
    files: &'f [Entry],
    after: &Paths<'_>,
) -> Result<(), AllocError>
    ensures { IfOk result
        (λ _. found.new.items ≡ found.old.items
        ++ filter_map (loss renumbering.now after.now) files.now) }
{
    for file in files {
        if let Some(what) = find_loss(renumbering, after, file) {
            found.push(Finding { file, what })?;
        }
    }
    Ok(())
}

// Appends the files that are new.
fn push_new<'f>(
    found: &mut Vec<Finding<'f>>,
    before: &Paths<'_>,
    files: &'f [Entry],
) -> Result<(), AllocError>
    ensures { IfOk result
        (λ _. found.new.items ≡ found.old.items ++ filter_map (new_file before.now) files.now) }
{
    for file in files {
        if let Some(what) = find_new(before, file) {
            found.push(Finding { file, what })?;
        }
    }
    Ok(())
}

// Appends the files that have a number without a name.
fn push_unnamed<'f>(
    found: &mut Vec<Finding<'f>>,
    accounts: &Accounts<'_>,
    files: &'f [Entry],
) -> Result<(), AllocError>
    ensures { IfOk result
        (λ _. found.new.items ≡ found.old.items ++ filter_map (unnamed accounts.now) files.now) }
{
    for file in files {
        if let Some(what) = find_unnamed(accounts, file) {
            found.push(Finding { file, what })?;
        }
    }
    Ok(())
}

// Appends the files that are new and have a number that a name has left.
fn push_left<'f>(
    found: &mut Vec<Finding<'f>>,
    renumbering: &Renumbering<'_>,
    before: &Paths<'_>,
    files: &'f [Entry],
) -> Result<(), AllocError>
    ensures { IfOk result
        (λ _. found.new.items ≡ found.old.items
        ++ filter_map (left_file renumbering.now before.now) files.now) }
{
    for file in files {
        if let Some(what) = find_left(renumbering, before, file) {
            found.push(Finding { file, what })?;
        }
    }
    Ok(())
}

/// What is found of the files of two inventories, of which the first was made under the accounts
/// before a renumbering and the second under those after it: first each file of the first inventory
/// that the second does not have, or that is owned under another name there, then each file that
/// only the second has, then each file of the second with a number that no new account has, and
/// then each file that only the second has with a number that belonged to a name and no longer
/// does, each time in the order of its inventory.
///
/// Each path is put into a search tree once and looked up in the other's at most twice, with one
/// or two comparisons for each binary digit of the number of files, none of more bytes than the
/// path has, whatever the paths are: so time grows with the bytes of all paths, times that. Each
/// number is looked up by hash. It keeps references to each path and each file, and what it
/// tells.
///
/// # Errors
///
/// `AllocError` where memory is refused.
#[tactic(auto, unfolding(crate::specs::Kept::findings))]
pub fn find_changes<'f>(
    alloc: Global,
    renumbering: &Renumbering<'_>,
    before: &'f Inventory,
    after: &'f Inventory,
) -> Result<Vec<Finding<'f>>, AllocError>
    ensures exact { IfOk result
        (λ found. found.items ≡ findings renumbering.now before.now after.now) }
{
    let first = before.entries();
    let second = after.entries();
    let mut found = Vec::new(alloc);
    push_losses(&mut found, renumbering, first, &Paths::new(alloc, second)?)?;
    let known = Paths::new(alloc, first)?;
    push_new(&mut found, &known, second)?;
    push_unnamed(&mut found, &renumbering.after, second)?;
    push_left(&mut found, renumbering, &known, second)?;
    Ok(found)
}
