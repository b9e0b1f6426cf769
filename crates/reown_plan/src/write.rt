//! A plan from an inventory.
ghost use Rattle.std.specs.Prelude.{◌≡◌, ◌++◌, ◌<◌, length, is_ok, is_some, if◌then◌else◌, IfOk};
ghost use Rattle.reown_plan.specs.NewOwners.{HasNumbers};
ghost use Rattle.reown_plan.specs.OwnerChange.{line_of};
ghost use Rattle.reown_plan.specs.Target.{host_plan};
ghost use Rattle.reown_plan.specs.Spelling.{spelling};

use crate::{NewOwners, Owner, OwnerChange, OwnerRows, push_plan_end, push_plan_head};
use hosts_join::Host;
use mtree_inv::{Entry, Inventory};
use std::alloc::{AllocError, Global};

/// Appends the record of a file by the change of its owner, and nothing where the owner stays; true
/// exactly where a record was appended. The record has the owners of the change, whoever owns the
/// file.
///
/// `AllocError` where memory is refused; the text is then as before. One pass over the path where a
/// record is appended. No memory but that of the text.
pub fn push_plan_entry(
    text: &mut Vec<u8>,
    change: &OwnerChange,
    entry: &Entry,
) -> Result<bool, AllocError>
    ensures appended { IfOk result (λ appended. appended ≡ is_some change.now) }
    ensures text { text.new.items
        ≡ (if is_ok result
        then text.old.items ++ line_of change.now entry.now.path
        else text.old.items) }
{
    let Some(numbers) = &change.numbers else {
        return Ok(false);
    };
    numbers.push_record(text, entry.path.bytes())?;
    Ok(true)
}

/// The text of the plan of a host: a record for each file of its inventory that gets another owner,
/// in the order of the inventory. It is `push_plan_head`, `push_plan_entry` for each file, and
/// `push_plan_end`. Requires that the host is one of these, by its index, and that the mappings
/// have one number for each name of the site.
///
/// `AllocError` where memory is refused. Two look-ups by hash for each file, and memory in step
/// with the text.
pub fn plan_text(
    alloc: Global,
    hosts: &[Host<'_>],
    owners: &NewOwners<'_, '_>,
    inventory: &Inventory,
) -> Result<Vec<u8>, AllocError>
    requires here { owners.now.host < length hosts.now }
    requires numbers { HasNumbers owners.now }
    ensures { IfOk result
        (λ text. text.items
        ≡ spelling (host_plan hosts.now owners.now.site.now owners.now.mappings.now
        owners.now.host inventory.now)) }
{
    let mut text = Vec::new(alloc);
    push_plan_head(&mut text, hosts[owners.host as usize].name.bytes())?;
    for entry in inventory.entries() {
        let owner = Owner {
            uid: entry.uid,
            gid: entry.gid,
        };
        let change = OwnerChange::new(owners, owner, OwnerRows::default());
        push_plan_entry(&mut text, &change, entry)?;
    }
    push_plan_end(&mut text)?;
    Ok(text)
}
