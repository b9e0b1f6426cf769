//! Laws of joined sites and of the merged texts, each the contract of a call that does nothing.
ghost use Rattle.std.specs.Prelude.{◌≡◌, ◌≢◌, ◌<◌, ℕ, List, [], length, Ok};
ghost use Rattle.hosts_join.specs.PinPairs.{PinPairs};
ghost use Rattle.hosts_join.specs.Rules.{account};
ghost use Rattle.hosts_join.specs.Site.{Joined, joined_site};
ghost use Rattle.hosts_join.specs.declared.host.Host.{Host};
ghost use Rattle.mergedfiles.specs.DifferingExample.{ExampleOfDiffering};
ghost use Rattle.mergedfiles.specs.FirstHosts.{FirstHostDecidesGroups, FirstHostDecidesUsers};
ghost use Rattle.mergedfiles.specs.FullTables.{FullGroupReadsBack, FullNamesAreKept};
ghost use Rattle.mergedfiles.specs.FullTables.{FullPasswdReadsBack, HostsJoinInFull};
ghost use Rattle.mergedfiles.specs.HostExample.{ExampleOfGroup, ExampleOfPasswd};
ghost use Rattle.mergedfiles.specs.HostReadBack.{HostGroupReadsBack, HostNamesAreKept};
ghost use Rattle.mergedfiles.specs.HostReadBack.{HostPasswdReadsBack};
ghost use Rattle.mergedfiles.specs.InPart.{AllIsInPart, GroupInPartReadsBack};
ghost use Rattle.mergedfiles.specs.InPart.{PasswdInPartReadsBack};
ghost use Rattle.mergedfiles.specs.JoinedUsers.{MergedUsersAreOfAllHosts};
ghost use Rattle.mergedfiles.specs.MergedExample.{ExampleOfMergedGroup, ExampleOfMergedPasswd};
ghost use Rattle.mergedfiles.specs.ReadBack.{MergedPasswdReadsBack, MergedGroupReadsBack};
ghost use Rattle.mergedfiles.specs.Rows.{users_named, groups_named};
ghost use Rattle.mergedfiles.specs.Together.{AreJoined};
ghost use Rattle.mergedfiles.specs.ToldDifferences.{DifferencesAreTold};

/// The site that hosts are joined to belongs to these hosts.
pub fn joined_together()
    ensures { (hosts : List Host) (pins : PinPairs) (site : Joined)
        → joined_site hosts pins ≡ Ok site → AreJoined hosts site }
{}

/// Some host has each name of a site, so that each name has a line in the merged files.
pub fn names_have_rows()
    ensures users { (hosts : List Host) (site : Joined) (i : ℕ) → AreJoined hosts site
        → i < length site.users.names → users_named (account site.users i).name hosts ≢ [] }
    ensures groups { (hosts : List Host) (site : Joined) (i : ℕ) → AreJoined hosts site
        → i < length site.groups.names → groups_named (account site.groups i).name hosts ≢ [] }
{}

/// The merged passwd reads back: each of its lines is the row of a user, with the new number of the
/// user, the new number of the primary group that the first host with this user gives it, and that
/// host's other fields. There is exactly one for each user name, and they ascend by number. Where
/// the text keeps the limits of a passwd file, these rows are its table.
pub fn merged_passwd_reads_back()
    ensures { MergedPasswdReadsBack }
{}

/// The merged group reads back: each of its lines is the row of a group, with its new number, the
/// password of the first host with this group, and its users on all hosts. There is exactly one for
/// each group name, and they ascend by number. Where the text keeps the limits of a group file,
/// these rows are its table.
pub fn merged_group_reads_back()
    ensures { MergedGroupReadsBack }
{}

/// An example of a merged passwd and a merged group, byte by byte: two hosts, by the texts of their
/// files, share a user and a group with a list on each; each line ends in a newline, the last one
/// too, numbers have no leading zeros, and one comma stands between each two users of a list.
pub fn merged_files_by_example()
    ensures passwd { ExampleOfMergedPasswd }
    ensures group { ExampleOfMergedGroup }
{}

/// The first host decides: the row that counts for a name, whose fields the merged passwd has for a
/// user and whose password the merged group has for a group, is that of the first host that has the
/// name. No host before it has one.
pub fn first_host_decides()
    ensures users { FirstHostDecidesUsers }
    ensures groups { FirstHostDecidesGroups }
{}

/// A user is among the users of a merged group exactly where some host lists it in its row of this
/// group, and each stands there once: those of the first hosts before all others, and those that a
/// host adds to them in the order of its own list.
///
/// Source: group(5).
pub fn merged_users_are_of_all_hosts()
    ensures { MergedUsersAreOfAllHosts }
{}

/// The merged passwd reads back, also where not all rows of each host were joined: as
/// `merged_passwd_reads_back` tells it, but that a gid is as on the first host where no group was
/// joined with it there.
pub fn passwd_in_part_reads_back()
    ensures { PasswdInPartReadsBack }
{}

/// The merged group reads back, also where not all rows of each host were joined, as
/// `merged_group_reads_back` tells it.
pub fn group_in_part_reads_back()
    ensures { GroupInPartReadsBack }
{}

/// A site that was joined from all rows of hosts that were read is one of which
/// `passwd_in_part_reads_back` and `group_in_part_reads_back` hold.
pub fn all_is_in_part()
    ensures { AllIsInPart }
{}

/// A host's own passwd reads back with its new numbers. Each line stands at the place that it
/// had: one that the reader skips is the same, byte by byte, and any other is read as the row
/// that it was, with the new number of its name as uid and, as gid, the new number of the group
/// that has the old gid on the host. If the text has a table, it is that of the host, row by row
/// so renumbered; it has one where it keeps the limits of a passwd file. It names the new number
/// of a user as the user that the old one was.
///
/// Source: passwd(5).
pub fn host_passwd_reads_back()
    ensures { HostPasswdReadsBack }
{}

/// A host's own group reads back with its new numbers. Each line stands at the place that it had:
/// one that the reader skips is the same, byte by byte, and any other is read as the row that it
/// was, with the new number of its name as gid and the same user list. If the text has a table,
/// it is that of the host, row by row so renumbered; it has one where it keeps the limits of a
/// group file. It names the new number of a group as the group that the old one was.
///
/// Source: group(5).
pub fn host_group_reads_back()
    ensures { HostGroupReadsBack }
{}

/// By the tables of a host's own passwd and group with their new numbers, the number that a plan
/// gives in place of an old one is the number of the same user, and of the same group, as the old
/// one is by the host's tables. A number that had no name has none, unless it is the new number of
/// one. Each user has the primary group that it had.
pub fn host_names_are_kept()
    ensures { HostNamesAreKept }
{}

/// A host's own passwd reads back with its new numbers, also where it has more rows than were
/// joined of the host. A row whose name the site does not have keeps its uid, and a gid that is of
/// no group that was joined stays; all else is as `host_passwd_reads_back` tells it. Requires that
/// no name of the site has the number of a row that is kept. The new rows name a new number as all
/// old rows named the number before it, and so they name none that they did not, unless it is a
/// new number of a name.
///
/// Source: passwd(5).
pub fn full_passwd_reads_back()
    ensures { FullPasswdReadsBack }
{}

/// A host's own group reads back with its new numbers, also where it has more rows than were
/// joined of the host: a row whose name the site does not have keeps its gid. All else is as
/// `full_passwd_reads_back` tells it of passwd.
///
/// Source: group(5).
pub fn full_group_reads_back()
    ensures { FullGroupReadsBack }
{}

/// A host of a numbered site is one of which nothing is kept, where its tables are all that was
/// joined of it. So what is told of full tables holds of every such host.
pub fn hosts_join_in_full()
    ensures { HostsJoinInFull }
{}

/// By the full tables of a host's own passwd and group with their new numbers, the number that a
/// plan gives in place of an old one is named as the old one was: by a name of the site, or by one
/// that is kept, whose numbers no plan changes. All else is as `host_names_are_kept` tells it.
pub fn full_names_are_kept()
    ensures { FullNamesAreKept }
{}

/// An example of a host's own passwd and group: two users exchange their numbers, and two groups;
/// comments, empty lines, the end of the text and the numbers of names that the site does not have
/// stay as they are, and leading zeros go.
pub fn host_files_by_example()
    ensures passwd { ExampleOfPasswd }
    ensures group { ExampleOfGroup }
{}

/// Exactly the differences of the hosts are told. One of a user tells a later host, on which the
/// field is another than on the first host that has the user; one of a group tells a later host, on
/// which the password is another than on the first host that has the group.
pub fn differences_are_told()
    ensures { DifferencesAreTold }
{}

/// Differences by example: three hosts, by the texts of their files, on which each field differs
/// somewhere, and all that is told of them, in order.
pub fn differences_by_example()
    ensures { ExampleOfDiffering }
{}
