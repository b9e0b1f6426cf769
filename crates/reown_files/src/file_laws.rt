//! Laws over what is asked of files, and over a count of them. Each is the contract of a function
//! that does nothing.
ghost use Rattle.std.specs.Prelude.{List};
ghost use Rattle.reown_plan.specs.PlanData.{PlanRecord};
ghost use Rattle.reown_files.specs.Calls.{Called};
ghost use Rattle.reown_files.specs.CountLaws.{FilesAreAllCounted};
ghost use Rattle.reown_files.specs.FileLaws.{OwnersAreLookedAt, FilesAreGivenBetweenLooks};
ghost use Rattle.reown_files.specs.FileLaws.{NamesAreAllCounted, NamesAreChecked};

/// Nothing is done with a file before a look has told it at the owner that is named. One that is
/// given another owner is told before and after that, as one file at its old and its new owner.
pub fn files_are_looked_at()
    ensures owners { OwnersAreLookedAt }
    ensures given { FilesAreGivenBetweenLooks }
{}

/// All names of a file are in the plan exactly where as many were counted as it has; and that is
/// looked at for each path by which a name of a file with several was counted.
pub fn names_are_all_counted()
    ensures counted { NamesAreAllCounted }
    ensures checked { NamesAreChecked }
{}

/// A count looks at the file of each record once, in order, and asks for nothing else. The files at
/// their old owner, at their new one, at another and not there add up to the records. A count that
/// stops tells the record whose file could not be looked at, after the files of those before it.
pub fn files_are_all_counted()
    ensures { (records : List PlanRecord) (old new : List Called)
        → FilesAreAllCounted records old new }
{}
