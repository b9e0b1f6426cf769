//! The files of a plan, counted by what is seen of them.
ghost use Rattle.std.specs.Prelude.{◌≡◌, ◌+◌, ◌^◌, ◌<◌, Some, map, IfOk, IfErr};
ghost use Rattle.reown_plan.specs.Records.{record_of};
ghost use Rattle.reown_files.specs.Counting.{Look, is_before, is_after, is_foreign, one, with_one};
ghost use Rattle.reown_files.specs.Counting.{files_of, IsCount, StopsCount};

use crate::{Disk, OpenFault, Seen};
use reown_plan::Record;

/// How many files of a plan are there, and with which owner; and how many of those there need more
/// than a change of it.
#[derive(Clone, Copy, Debug, PartialEq, Eq)]
pub struct OwnerCounts {
    /// Those that have their old owner.
    pub before: u64,
    /// Those that have their new one.
    pub after: u64,
    /// Those that are not there.
    pub missing: u64,
    /// Those that have another owner.
    pub foreign: u64,
    /// Regular ones with the set-user-ID or the set-group-ID bit, which a change of the owner
    /// clears.
    pub set_id: u64,
    /// Those with several names, each of which has to be in the plan.
    pub linked: u64,
}

impl OwnerCounts {
    // Counts a file that is there by its owner.
    fn count_owner(&mut self, planned: &Record, seen: Seen)
        requires { files_of self.old + 1 < 2 ^ 64 }
        ensures { let look : Look = (record_of planned.now, Some seen) in
            self.new ≡ record self.old {
              before = self.old.before + one (is_before look);
              after = self.old.after + one (is_after look);
              foreign = self.old.foreign + one (is_foreign look);
            } }
    {
        if seen.owner == planned.before {
            self.before += 1;
        } else if seen.owner == planned.after {
            self.after += 1;
        } else {
            self.foreign += 1;
        }
    }

    // Counts what such a file has besides.
    fn count_more(&mut self, seen: Seen)
        requires set_id { self.old.set_id + 1 < 2 ^ 64 }
        requires linked { self.old.linked + 1 < 2 ^ 64 }
        ensures { self.new ≡ record self.old {
          set_id = self.old.set_id + one seen.has_set_id;
          linked = self.old.linked + one seen.has_several_names;
        } }
    {
        if seen.has_set_id {
            self.set_id += 1;
        }
        if seen.has_several_names {
            self.linked += 1;
        }
    }

    // Counts the file of a record, by what was seen of it.
    fn count(&mut self, planned: &Record, seen: Option<Seen>)
        requires room { files_of self.old + 1 < 2 ^ 64 }
        requires set_id { self.old.set_id + 1 < 2 ^ 64 }
        requires linked { self.old.linked + 1 < 2 ^ 64 }
        ensures { self.new ≡ with_one (record_of planned.now, seen) self.old }
    {
        match seen {
            None => self.missing += 1,
            Some(seen) => {
                self.count_owner(planned, seen);
                self.count_more(seen);
            }
        }
    }
}

/// Looks at the file of each record once, in order, and counts what it sees. Nothing else is asked
/// of the disk, so nothing is changed. One pass.
///
/// # Errors
///
/// `File`: the first record whose file could not be looked at.
pub fn count_owners<D: Disk>(disk: &mut D, records: &[Record]) -> Result<OwnerCounts, OpenFault>
    ensures counted { IfOk result (λ counts. IsCount
        (map record_of records.now) (D.calls disk.old) (D.calls disk.new) counts) }
    ensures refused { IfErr result (λ fault. StopsCount
        (map record_of records.now) (D.calls disk.old) (D.calls disk.new) fault) }
{
    let mut owners = OwnerCounts {
        before: 0,
        after: 0,
        missing: 0,
        foreign: 0,
        set_id: 0,
        linked: 0,
    };
    for (i, planned) in records.iter().enumerate() {
        match disk.look(planned.path) {
            Ok(seen) => owners.count(planned, seen),
            Err(trouble) => return Err(OpenFault::File(i, trouble)),
        }
    }
    Ok(owners)
}
