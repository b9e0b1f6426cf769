//! Laws of what is kept, each the contract of a call that does nothing.

ghost use Rattle.kept_accounts.specs.Laws.{EmptyTextKeepsNothing, KeepingDecides, NumbersDecide};
ghost use Rattle.kept_accounts.specs.Laws.{KeptNamesStay, KeptNumbersAreReserved};
ghost use Rattle.kept_accounts.specs.Laws.{UsersAreParted, GroupsAreParted, OthersAreLawful};
ghost use Rattle.kept_accounts.specs.Laws.{OtherUsersAgree, OtherGroupsAgree};
ghost use Rattle.kept_accounts.specs.Laws.{NamedAreLeftOrSpared, SparedAreReserved};
ghost use Rattle.kept_accounts.specs.Laws.{UnownedAreSpared, OnlyWhatStaysIsReserved};
ghost use Rattle.kept_accounts.specs.Laws.{HostSparesItsOwn};
ghost use Rattle.kept_accounts.specs.ReservingExample.{ReservingByExample};

/// By an empty keep text no name is kept and no number is reserved, and each host is as it was, and
/// spares no number, whichever numbers its files have without an account.
pub fn an_empty_text_keeps_nothing()
    ensures { EmptyTextKeepsNothing }
{}

/// What keeps the names that are kept of both kinds leaves of each host what the definition leaves,
/// and has the same numbers reserved.
pub fn keeping_decides_what_is_left()
    ensures { KeepingDecides }
{}

/// Whether a name is kept depends on the numbers that it has and on the text, and on nothing else.
pub fn numbers_decide_what_is_kept()
    ensures { NumbersDecide }
{}

/// A user name is kept exactly where some host has it and the text lists it for users, or some host
/// has it and each number that it has on a host lies in a range that the text lists for users; and
/// the same of groups.
pub fn kept_names_stay()
    ensures { KeptNamesStay }
{}

/// The number that a kept name has on a host is reserved, by that name there.
pub fn kept_numbers_are_reserved()
    ensures { KeptNumbersAreReserved }
{}

/// The kept rows of a table and the others are together its rows, each once.
pub fn rows_are_kept_or_others()
    ensures users { UsersAreParted }
    ensures groups { GroupsAreParted }
{}

/// A number that the table without its kept rows names is named the same by the full table. One
/// that the full table names is named so by the other one too, or its name is kept.
pub fn others_name_as_the_table()
    ensures users { OtherUsersAgree }
    ensures groups { OtherGroupsAgree }
{}

/// A host without its kept rows is lawful where the host is.
pub fn others_are_lawful()
    ensures { OthersAreLawful }
{}

/// Each number that a host without its kept rows spares is reserved.
pub fn spared_numbers_are_reserved()
    ensures { SparedAreReserved }
{}

/// Where the text keeps numbers without an account, one that files of a host have is spared by the
/// host without its kept rows, and it is reserved, by the files of that host.
pub fn unowned_numbers_are_spared()
    ensures { UnownedAreSpared }
{}

/// A number that a host's table names is named so by what is left of it, or the host spares it.
pub fn named_numbers_are_left_or_spared()
    ensures { NamedAreLeftOrSpared }
{}

/// A number is reserved exactly where it lies in a range that the text lists of the kind, or a kept
/// name has it on some host, or the text keeps numbers without an account and it is one of them.
pub fn only_what_stays_is_reserved()
    ensures { OnlyWhatStaysIsReserved }
{}

/// A host without its kept rows spares a number exactly where it lies in a range that the text
/// lists of the kind, or a kept name has it on this host, or the text keeps numbers without an
/// account and it is one of this host's.
pub fn a_host_spares_what_is_its_own()
    ensures { HostSparesItsOwn }
{}

/// On a site of two hosts, by example: what is reserved of users and of groups is first each listed
/// range, in the order of the lines, then host by host the numbers of the kept names, in the order
/// of the rows, each by the name on that host, and then the unowned numbers, by the files of their
/// hosts, as they were found.
pub fn reserving_by_example()
    ensures { ReservingByExample }
{}
