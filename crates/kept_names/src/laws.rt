//! What the findings mean. Each call does nothing: its contract is the law.
ghost use Rattle.kept_names.specs.Laws.{ChangedAreTold, LeftAreTold, MissingAreTold, NewAreTold};
ghost use Rattle.kept_names.specs.Laws.{NothingLostIsKept, UnnamedAreTold};
ghost use Rattle.kept_names.specs.LinesBack.{FindingsAreTellable, LinesAreReadBack};
ghost use Rattle.kept_names.specs.LinesBack.{TablesAreTellable};
ghost use Rattle.kept_names.specs.TellingLaws.{AllAreTold, CountsAddUp, CountsAreReadBack};
ghost use Rattle.kept_names.specs.TellingLaws.{EachIsCountedOnce, EachIsToldOnce, FirstAreTold};
ghost use Rattle.kept_names.specs.TellingLaws.{MoreAreReadBack, StatusIsElseOne, StatusTellsOrder};

/// No file is found missing or changed exactly where each file of the first inventory is in the
/// second, with a user and a group that the new account files name as the old ones named those
/// that it had; a number without a name is the same there, and still has no name.
pub fn names_are_kept()
    ensures { NothingLostIsKept }
{}

/// `Missing` is found of a file exactly where it is in the first inventory, and the second has no
/// file at its path.
pub fn missing_files_are_told()
    ensures { MissingAreTold }
{}

/// `Changed` is found of a file exactly where it is in the first inventory and one of its path in
/// the second, of which the user or the group no longer has the name that it had; and the numbers
/// that stand with it are those there, each exactly where that owner no longer has its name.
pub fn changed_files_are_told()
    ensures { ChangedAreTold }
{}

/// `New` is found of a file exactly where it is in the second inventory, and the first has no file
/// at its path.
pub fn new_files_are_told()
    ensures { NewAreTold }
{}

/// `Unnamed` is found of a file exactly where it is in the second inventory and its user or its
/// group has no name by the new account files; and each flag says so of its owner.
pub fn unnamed_files_are_told()
    ensures { UnnamedAreTold }
{}

/// `Left` is found of a file exactly where it is in the second inventory, the first has no file at
/// its path, and the number of its user or that of its group has a name by the old account files
/// and not this name by the new ones; and each flag says so of its owner.
pub fn left_numbers_are_told()
    ensures { LeftAreTold }
{}

/// The exit status is 0 exactly where each file of the first inventory is in the second, with the
/// user and the group names that it had, each file of the second has names by the new account
/// files, and no file that is new has a number that a name has left; else it is 1.
pub fn status_tells_order()
    ensures order { StatusTellsOrder }
    ensures other { StatusIsElseOne }
{}

/// Where as many lines may be told of each kind as there are findings, each finding has its line,
/// in their order, and nothing else is told.
pub fn all_lines_are_told()
    ensures { AllAreTold }
{}

/// Of each kind the first findings have a line each, as many as may be told. These lines stand in
/// the order of what is found. After them each kind that has more findings has a line with the
/// number of these, and nothing else is told. The number is read back, as long as 64 bits hold that
/// of all findings.
pub fn first_lines_are_told()
    ensures first { FirstAreTold }
    ensures more { MoreAreReadBack }
{}

/// Each file of the first inventory is counted once: as kept, missing or changed.
pub fn counts_add_up()
    ensures { CountsAddUp }
{}

/// Of each kind a file is told once, in the order of the inventory that it is in; and the number of
/// that kind is how many files are told.
pub fn each_finding_is_told_once()
    ensures told { EachIsToldOnce }
    ensures counted { EachIsCountedOnce }
{}

/// The text of any counts is read back: which number stands after each of the six words.
pub fn counts_are_read_back()
    ensures { CountsAreReadBack }
{}

/// The line of any finding is read back, where names are lawful and numbers are those of accounts:
/// its kind, its path, and the names and the numbers that it tells, the earlier before the later.
/// So it is with the names of accepted account files, and with what is found of lawful files, where
/// their paths are of bytes.
pub fn lines_are_read_back()
    ensures back { LinesAreReadBack }
    ensures names { TablesAreTellable }
    ensures found { FindingsAreTellable }
{}
