//! Laws of what is read of a site's texts, and of which fault is told, each the contract of a call
//! that does nothing.
ghost use Rattle.site_tables.specs.FaultLaws.{GidsAreOfTheirFile, LinesAreOfTheirFile};
ghost use Rattle.site_tables.specs.FaultLaws.{UidsAreOfTheirFile, UsersWithoutGroupsAreTold};
ghost use Rattle.site_tables.specs.FileLaws.{FilesAreOfInventories, InventoryLinesAreTold};
ghost use Rattle.site_tables.specs.MapLaws.{CountedMapsAreWhole};
ghost use Rattle.site_tables.specs.SeenFaults.{KeepTextsShowTheirFaults};
ghost use Rattle.site_tables.specs.SiteLaws.{FirstFaultsBeforeCounts, FirstFaultsOfHosts};
ghost use Rattle.site_tables.specs.SiteLaws.{FirstFaultsOfSites, TakenCountsAreBegun};
ghost use Rattle.site_tables.specs.SiteLaws.{TakenSitesAreBegun};
ghost use Rattle.site_tables.specs.SurveyLaws.{FirstFaultsOfSurveys, FoundNumbersStandInOrder};
ghost use Rattle.site_tables.specs.SurveyLaws.{SurveyedTextsFindUnowned, SurveysFindUnowned};
ghost use Rattle.site_tables.specs.TextLaws.{BegunCountsAreOfTexts, BegunSitesAreOfTexts};
ghost use Rattle.site_tables.specs.TextLaws.{HostsAreOfTheirTexts};
ghost use Rattle.site_tables.specs.ToldLaws.{TextsTellTheirFaults};

/// A map is counted exactly where the names to which it gives a number are those of the hosts'
/// users, and of the hosts' groups, whose rows that a keep text leaves as they are count for none:
/// a name is in the map where some host has a row of that name, and nowhere else. Any other map
/// that is read is told as bad in the whole, at line 0.
pub fn counted_maps_are_whole()
    ensures { CountedMapsAreWhole }
{}

/// A line of login.defs, passwd or group is told exactly where it is of that host and that file:
/// its reader refuses its text with this code at this line, and those of the files before take
/// theirs. A user is told as one without a primary group exactly where the readers take these files
/// of the host, and it is the first user whose gid no group of the host has. A file is told as
/// unowned exactly where it is in the inventory with this path and number, which no account of the
/// host has and the host does not spare, and each file before it is allowed.
pub fn faults_name_their_file()
    ensures line { LinesAreOfTheirFile }
    ensures user { UsersWithoutGroupsAreTold }
    ensures uid { UidsAreOfTheirFile }
    ensures gid { GidsAreOfTheirFile }
{}

/// A host has these files exactly where its inventory is read as them and each is allowed: it has a
/// uid that a user of the host has or the host spares, and a gid that a group has or the host
/// spares. No file is left out. A line is told exactly where the reader refuses the inventory so,
/// of this host and of no other file; and nothing but a line and an unowned file is told. A survey,
/// and the lines that have come so far, have exactly the files that the reader gives, whichever
/// numbers these have, and tell nothing but a line. Want of memory is told as itself.
pub fn files_are_of_inventories()
    ensures files { FilesAreOfInventories }
    ensures lines { InventoryLinesAreTold }
{}

/// The texts of a host are accepted exactly where the host has its name, its login.defs is read as
/// its ranges, its passwd and its group as its tables, and each user's gid is that of a group.
pub fn hosts_are_of_their_texts()
    ensures { HostsAreOfTheirTexts }
{}

/// What a merge and a check start from is what the texts say. Each host has its name, the ranges of
/// its login.defs, and the rows of its passwd and its group whose names do not stay as they are by
/// the keep text; it spares exactly the numbers that stay on it. The accounts are the join of these
/// hosts by the pins of the pins text, whatever stays. Their names are exactly the names of the
/// hosts that do not stay, and the numbers that stay on some host, and no others, are reserved,
/// each by the range, the host and the name, or the host that kept_accounts names. A count starts
/// from the same hosts, with a map that the map text is read as and that has exactly their names.
pub fn begun_sites_are_of_texts()
    ensures sites { BegunSitesAreOfTexts }
    ensures counts { BegunCountsAreOfTexts }
{}

/// A merge and a check start from a site exactly where the host list is right, the files of each
/// host but its inventory are taken, the keep text and the pins text are read, and the accounts are
/// joined of these. Else the first fault is told, in this order: of the host list, of the hosts one
/// after the other, of the keep text, of the pins text, of the join. Of the hosts it is the fault
/// of the first that has one: the files of those before it are taken.
pub fn sites_are_begun_step_by_step()
    ensures begun { TakenSitesAreBegun }
    ensures hosts { FirstFaultsOfHosts }
    ensures refused { FirstFaultsOfSites }
{}

/// A count starts from hosts and a map exactly where the host list is right, the files of each host
/// but its inventory are taken, the keep text and the map text are read, and the map has exactly
/// the names of what the keep text leaves of the hosts. Else the first fault is told, in this
/// order: of the host list, of the hosts one after the other, of the keep text, of the map's text,
/// of its names.
pub fn counts_are_begun_step_by_step()
    ensures begun { TakenCountsAreBegun }
    ensures refused { FirstFaultsBeforeCounts }
{}

/// A survey finds a number of a kind exactly where some file of a host has it, no account of the
/// host's passwd, or group, has it, and it lies in no range that the keep text lists of the kind.
/// Where the text does not say `unowned`, it finds none. So it is of the inventories as they are
/// read in passes, and of those of the texts themselves. The numbers stand host by host, those of
/// each host in the order in which its files have them first, each once. A survey is refused only
/// where the text is taken and says `unowned`, and then with the first fault, in this order: of the
/// host list, of the hosts one after the other, of the inventories one after the other.
pub fn surveys_find_unowned()
    ensures passes { SurveysFindUnowned }
    ensures texts { SurveyedTextsFindUnowned }
    ensures order { FoundNumbersStandInOrder }
    ensures refused { FirstFaultsOfSurveys }
{}

/// What a part gives goes on as it is, and each of its faults is told by its own number, name and
/// details, in this order: those of the tables, the host list, the primary groups, the join, the
/// pins text and the keep text. None is told as another, or as want of memory.
pub fn texts_tell_their_faults()
    ensures { TextsTellTheirFaults }
{}

/// Of a fault that a keep text tells, contracts see the fault itself, or none where memory was
/// wanted.
pub fn keep_texts_show_their_faults()
    ensures { KeepTextsShowTheirFaults }
{}
