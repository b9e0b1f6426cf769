//! Laws over what this crate reads and prints. Each is the contract of a function that does
//! nothing.

ghost use Rattle.unify_apply.specs.AskedLaws.{DevicesByExample, EndsByExample, FitsTellTheHost};
ghost use Rattle.unify_apply.specs.AskedLaws.{JournalIsANumber, MapsByExample, NamesAreTold};
ghost use Rattle.unify_apply.specs.AskedLaws.{OneJournalIsOfThree, ProcessesAreFound};
ghost use Rattle.unify_apply.specs.AskedLaws.{RootIsEffective, SoughtGroupsMove, SoughtUsersMove};
ghost use Rattle.unify_apply.specs.Laws.{MarksStandBesidePlans, MountIsNearest, NoSecondWay};
ghost use Rattle.unify_apply.specs.Laws.{PathsAreTold, SlashIsTaken, SystemPathIsReadBack};
ghost use Rattle.unify_apply.specs.Laws.{BelowAreTold, SecondWayIsThere, StatusesAreTold};
ghost use Rattle.unify_apply.specs.Laws.{MarksTakeFourNames, WaysAreSeen};
ghost use Rattle.unify_apply.specs.Laws.{MountsAreReadBack, CountsAreReadBack, DoneIsReadBack};
ghost use Rattle.unify_apply.specs.MarkLaws.{MarksAreTold, ExampleOfOthers};
ghost use Rattle.unify_apply.specs.PreviewLaws.{PreviewsOnlyLook};

/// A path is below a directory exactly where it is the directory's, a slash and more, and in it
/// exactly where it is that or the directory's own. A slash at the end of a path is left out, and
/// any other byte there stays. Exactly the mounts whose paths are below a directory are counted
/// there, and the first of them is the one that is told.
pub fn paths_below_are_told()
    ensures paths { PathsAreTold }
    ensures slash { SlashIsTaken }
    ensures mounts { BelowAreTold }
{}

/// The mount that is found for a directory is the nearest and the last of those, and none is found
/// only where none holds it. Where no second way is found, no mount of its own file system below it
/// was seen to be one, and none at all below it where its own mount is not told; and where one is
/// found, it is a mount below it that is one, and of its own file system, if its own mount is told.
/// A mount is one exactly where the device number that was seen there is that of the directory, or
/// none was seen.
pub fn one_way_to_files()
    ensures nearest { MountIsNearest }
    ensures one_way { NoSecondWay }
    ensures refused { SecondWayIsThere }
    ensures seen { WaysAreSeen }
{}

/// The mark of a plan is where it is named, and else beside the plan: at its path with `.done`
/// after it.
pub fn marks_stand_beside_plans()
    ensures { MarksStandBesidePlans }
{}

/// The names that a plan may not have are that of its mark, and this with `.new`, `.modes` or
/// `.modes.new` after it; and no other.
pub fn marks_take_four_names()
    ensures { MarksTakeFourNames }
{}

/// A text is the mark of another plan exactly where it begins as marks do and is not this plan's
/// byte for byte, and of a third exactly where it is not that of the plan either which takes this
/// one back.
pub fn marks_are_told()
    ensures marks { MarksAreTold }
    ensures example { ExampleOfOthers }
{}

/// Where there is trouble before anything was changed, the status is 1 where what was found may not
/// be changed by the plan, or is of another one, and 3 where a call of the system failed, or found
/// another file than before.
pub fn statuses_are_told()
    ensures { StatusesAreTold }
{}

/// The mounts that the system writes are read back, in their order, with their paths.
pub fn mounts_are_read_back()
    ensures path { SystemPathIsReadBack }
    ensures mounts { MountsAreReadBack }
{}

/// What a count prints is read back: which number stands after each of the seven words; and so is
/// what tells that a plan was carried out: how many records it has, and the line `done`.
pub fn answers_are_read_back()
    ensures counts { CountsAreReadBack }
    ensures done { DoneIsReadBack }
{}

/// A directory may have one journal exactly where the mount that it is in is an ext3, an ext4 or an
/// xfs; and a journal is told by the number of a process, and by no text with another byte. The two
/// numbers of a device, by which it is looked up there, are those of five examples.
pub fn journals_are_told()
    ensures kind { OneJournalIsOfThree }
    ensures process { JournalIsANumber }
    ensures device { DevicesByExample }
{}

/// A machine's name is what the system tells, without the newline behind it. A machine is the host
/// of a plan exactly where its name is the host's, or begins with that and a dot, and no other host
/// is named; it is named so exactly where its name is another and that host is named; and else it
/// is another.
pub fn machines_are_told()
    ensures names { NamesAreTold }
    ensures fits { FitsTellTheHost }
{}

/// A status is that of root exactly where a line `Uid:` of it has the effective user 0.
pub fn root_is_told()
    ensures { RootIsEffective }
{}

/// A number of a user or of a group is looked for exactly where a record has it before and another
/// after, or the other way round. A process is found exactly where the statuses of its threads tell
/// one after `Uid:` or, of a group, after `Gid:` or `Groups:`, or one of its maps a range that has
/// one outside; and the map of the initial user namespace tells none. By example: a thread has
/// ended whose status tells that it is a zombie, or dead.
pub fn processes_are_told()
    ensures users { SoughtUsersMove }
    ensures groups { SoughtGroupsMove }
    ensures found { ProcessesAreFound }
    ensures maps { MapsByExample }
    ensures ended { EndsByExample }
{}

/// Where a run is tried, the disk below is asked what only looks: each such call as it is, for a
/// mark that is met whether it is there, and nothing for a call that changes, writes or syncs.
pub fn previews_only_look()
    ensures { PreviewsOnlyLook }
{}
