//! The numbers of files that no account of their host has.

ghost use Rattle.std.specs.Prelude.{◌≡◌, ◌++◌, ◌∷◌, ℕ, List, [], Bool, filter, length, take};
ghost use Rattle.std.specs.Prelude.{OnErr, OnOk};
ghost use Rattle.mtree_inv.specs.Standing as standing;
ghost use Rattle.mtree_inv.specs.declared.entry.Entry.{Entry};
ghost use Rattle.hosts_join.specs.declared.host.Host.{Host};
ghost use Rattle.survey.specs.Surveying.{AreOf, HasNumbers};
ghost use Rattle.survey.specs.Unowned as spec;

use crate::number_set::NumberSet;
use hosts_join::Host;
use idtext::Name;
use kept_accounts::UnownedNumber;
use mtree_inv::{Entry, Reader};
use std::alloc::{AllocError, Global};

/// The numbers of both kinds that files of a host have, and no account of the host: each once, in
/// the order in which files have them first.
#[derive(Drop)]
pub struct NotedNumbers {
    pub users: NumberSet,
    pub groups: NumberSet,
}

/// No numbers, as where there are no files. Takes no memory.
pub fn no_numbers(alloc: Global) -> NotedNumbers
    ensures { (host : Host) → AreOf host [] result }
{
    NotedNumbers {
        users: NumberSet::new(alloc),
        groups: NumberSet::new(alloc),
    }
}

// Adds a number, where it is unowned.
fn add_if(numbers: &mut NumberSet, number: u32, is_unowned: bool) -> Result<(), AllocError>
    ensures { OnOk result ((test : ℕ → Bool) (others : List ℕ)
        → is_unowned ≡ test number → HasNumbers (spec.each_once (filter test others)) numbers.old
        → HasNumbers (spec.each_once (filter test (others ++ number ∷ []))) numbers.new) }
{
    if is_unowned {
        numbers.add(number)?;
    }
    Ok(())
}

// Adds those numbers of a file that are unowned. Two look-ups by hash, and one in the tree of
// those that were found for each number that is.
fn note_file(noted: &mut NotedNumbers, host: &Host<'_>, file: &Entry) -> Result<(), AllocError>
    ensures { OnOk result ((files : List Entry) → AreOf host.now files noted.old
        → AreOf host.now (files ++ file.now ∷ []) noted.new) }
{
    add_if(&mut noted.users, file.uid, !host.allows_uid(file.uid))?;
    add_if(&mut noted.groups, file.gid, !host.allows_gid(file.gid))
}

/// Adds the unowned numbers of the files that wait.
pub fn note_waiting(
    from: &mut Reader,
    noted: &mut NotedNumbers,
    host: &Host<'_>,
) -> Result<(), AllocError>
    ensures stays { OnOk result (from.new ≡ record from.old { waiting = [] }) }
    ensures stands { (text : List ℕ) → standing.StandsFor from.old text
        → standing.StandsFor from.new text }
    ensures noted { OnOk result ((files : List Entry) → AreOf host.now files noted.old
        → AreOf host.now (files ++ from.old.waiting) noted.new) }
{
    while let Some(file) = from.next_entry() {
        note_file(noted, host, &file)?;
        from.reuse(file);
    }
    Ok(())
}

// Appends numbers, each with the name of the host, also where memory runs out on the way.
fn push_each<'a>(
    found: &mut Vec<UnownedNumber<'a>>,
    host: &Host<'a>,
    numbers: &[u32],
) -> Result<(), AllocError>
    ensures pushed { OnOk result (found.new.items
        ≡ found.old.items ++ spec.on_host host.now numbers.now) }
    ensures kept { take (length found.old.items) found.new.items ≡ found.old.items }
{
    for number in numbers {
        found.push(UnownedNumber {
            host: Name::new(host.name.bytes()),
            number: *number,
        })?;
    }
    Ok(())
}

/// Appends numbers, each with the name of the host, or none where memory runs out.
pub fn push_numbers<'a>(
    found: &mut Vec<UnownedNumber<'a>>,
    host: &Host<'a>,
    numbers: &[u32],
) -> Result<(), AllocError>
    ensures pushed { OnOk result (found.new.items
        ≡ found.old.items ++ spec.on_host host.now numbers.now) }
    ensures kept { OnErr result (found.new.items ≡ found.old.items) }
{
    let before = found.len();
    let pushed = push_each(found, host, numbers);
    if pushed.is_err() {
        found.truncate(before);
    }
    pushed
}
