//! Laws of the definitions, each the contract of a call that does nothing.
ghost use Rattle.unify_laws.specs.Laws.{OwnersAgree, ReadSitesAreWhole, NothingSparedAllOwned};
ghost use Rattle.unify_laws.specs.Laws.{ReadHostsSpareNothing, EmptyKeepCountsAll, EmptyKeepIsNone};
ghost use Rattle.unify_laws.specs.Laws.{EmptyPinsAreNone, PassesReadTheSite, CostsAgree};
ghost use Rattle.unify_laws.specs.Laws.{SurveyedFilesAreAllowed};
ghost use Rattle.unify_laws.specs.Correct.{OutcomesAreCorrect, DoneKeepsPrintedNames};
ghost use Rattle.unify_laws.specs.Correct.{RunsKeepNames, NumbersTellNames};
ghost use Rattle.unify_laws.specs.Correct.{NamedFilesHaveTheirNames};
ghost use Rattle.unify_laws.specs.TwoPasses.{TwoPassesAreCorrect, SecondReadingIsCorrect};
ghost use Rattle.unify_laws.specs.TwoPasses.{SecondReadingIsRight, UnfinishedPlansAreNone};
ghost use Rattle.unify_laws.specs.HostTexts.{BegunSitesAreInFull, EmptyTextsKeepNoName};
ghost use Rattle.unify_laws.specs.HostTexts.{HostsKeepOwnFiles, ReadSitesAreInFull};
ghost use Rattle.unify_laws.specs.HostTexts.{TablesAreOfTexts};
ghost use Rattle.unify_laws.specs.KeptNumbers.{NoKeptNumberIsGiven, NoSurveyedNumberIsGiven};
ghost use Rattle.unify_laws.specs.KeptNumbers.{NoUnownedNumberIsGiven};
ghost use Rattle.unify_laws.specs.Reserved.{ReservedNumbersAreTellable};
ghost use Rattle.unify_laws.specs.RowCosts.{ChangedRowsAgree, NoMapChangesFewerRows};
ghost use Rattle.unify_laws.specs.SiteTexts.{GivenNumbersStandByTexts, NumbersStandByTexts};
ghost use Rattle.unify_laws.specs.SiteTexts.{ReadSitesAreOfTexts};
ghost use Rattle.unify_laws.specs.Agreeing.{PrintedCertificatesAreAccepted, PrintedMapsAreCounted};
ghost use Rattle.unify_laws.specs.Agreeing.{NoMapRewritesFewer, PrintedPlansAreRehearsed};
ghost use Rattle.unify_laws.specs.Agreeing.{PrintedPlansRewriteTheCost};

/// Every site that was read is whole: it has at most 64 hosts, whose names are lawful, whose rows
/// are some of those of a passwd and a group, whose tables are lawful, and whose inventories have
/// no path twice; the accounts over all hosts were joined from theirs with some pins, are lawful,
/// and leave what is reserved to no name; and each file has a user and a group by its host's own
/// tables, or numbers that the host spares, and as well by the accounts over all hosts, or reserved
/// numbers.
pub fn a_read_site_is_whole()
    ensures { ReadSitesAreWhole }
{}

/// Where no host spares a number each file has a user and a group, by its host's own tables and as
/// well by the accounts over all hosts; and the hosts of a site that was read with an empty keep
/// text spare none.
pub fn nothing_spared_all_owned()
    ensures owned { NothingSparedAllOwned }
    ensures read { ReadHostsSpareNothing }
{}

/// A site that was read is what its texts say: its hosts and its accounts as
/// `site_tables::begun_sites_are_of_texts` has them, and of each host exactly the files of its
/// inventory.
pub fn read_sites_are_of_texts()
    ensures { ReadSitesAreOfTexts }
{}

/// Each name of a site may have exactly the numbers at which it may stand by the texts, but for
/// those that are reserved: by each host's passwd, or group, and its login.defs, whatever of them
/// stays as it is, and by the pins text, whatever the keep text says. So a map that gives every
/// name of a site one distinct number, in its pool or at its pin, as that of a merge does, has a
/// number for exactly the users and the groups that some host has and that do not stay as they are,
/// and each is one at which its name may stand by the texts.
pub fn numbers_stand_by_texts()
    ensures may { NumbersStandByTexts }
    ensures given { GivenNumbersStandByTexts }
{}

/// A file has its owners among the accounts over all hosts exactly where it has them by its host's
/// own tables.
pub fn owners_agree()
    ensures { OwnersAgree }
{}

/// What a merge may answer for a site that was read is correct: the map that is printed gives
/// every name one distinct number, in its pool or at its pin, and the passwd and group that are
/// printed have exactly one row for each name, with its number; no other such mappings rewrite
/// fewer user and group fields, as the printed potentials prove; and while a host's plan is
/// carried out, however often stopped, every file of it has its old owner, or the names that it
/// had, by the map and by that passwd and group; once the plan has finished, every file has these
/// names. A uid or gid that had no name stays as it is, and is no name's.
pub fn outcomes_are_correct()
    ensures { OutcomesAreCorrect }
{}

/// Where the plans of a merge were carried out on trees in memory as far as any events lead,
/// refused or not, the files of a host that is done have the names that they had, by the printed
/// map and by the printed passwd and group, and those of any other host have these names or their
/// old owners. So have those of any tree that is safe and in step at the end of its printed plan
/// these names.
pub fn runs_keep_names()
    ensures runs { RunsKeepNames }
    ensures trees { DoneKeepsPrintedNames }
{}

/// Two files, on any hosts, that keep their names have one uid exactly where their users had one
/// name, and one gid exactly where their groups had one; numbers that had no name are one where
/// they were one.
pub fn numbers_tell_names()
    ensures { NumbersTellNames }
{}

/// A file that keeps its names, and had a user and a group, has the numbers that the map gives to
/// these.
pub fn named_files_have_their_names()
    ensures { NamedFilesHaveTheirNames }
{}

/// With an empty pins text a site reads as without one.
pub fn empty_pins_are_none()
    ensures { EmptyPinsAreNone }
{}

/// With an empty keep text a site reads as without one, and a count answers as without one.
pub fn an_empty_keep_is_none()
    ensures sites { EmptyKeepIsNone }
    ensures counts { EmptyKeepCountsAll }
{}

/// A site is read as its tables, and then, host by host, its inventories, so that two passes over
/// inventories that come in pieces read the same site.
pub fn passes_read_the_site()
    ensures { PassesReadTheSite }
{}

/// What was merged after a first pass over inventories in pieces is as correct as what one merge
/// answers, once its plans are those that a second pass over the same inventories appends, one for
/// each host.
pub fn two_passes_are_correct()
    ensures { TwoPassesAreCorrect }
{}

/// What was merged after a first pass, with the plans that a second pass appends, is what a merge
/// may answer for the files that came the second time, and correct for them: they need not be
/// those of the first pass, where each user and each group of each host owns as many.
pub fn second_reading_is_correct()
    ensures right { SecondReadingIsRight }
    ensures correct { SecondReadingIsCorrect }
{}

/// What was appended to a host's plan when the second reading of its inventory is refused is never
/// a plan, whatever of the inventory had come, so that no reader takes it for a whole one. Requires
/// that the name of the host is lawful, and that the mappings give numbers that an account may
/// have.
pub fn unfinished_plans_are_none()
    ensures { UnfinishedPlansAreNone }
{}

/// Where what was merged has the headline, each host's own passwd and group with their new numbers
/// are, line by line, those of the host except for the numbers of what was joined of it; each user
/// has the primary group that it had; and what the headline says of the host's plan holds with
/// these two in place of the merged ones, by the names that the host has in full. The texts are
/// those that the tables of the hosts were read from, each at the index of its host. Where no name
/// is kept, as with an empty keep text, all rows of each host were joined, and so every line has
/// the new numbers of its names.
pub fn hosts_keep_own_files()
    ensures keep { HostsKeepOwnFiles }
    ensures texts { TablesAreOfTexts }
    ensures begun { BegunSitesAreInFull }
    ensures read { ReadSitesAreInFull }
    ensures empty { EmptyTextsKeepNoName }
{}

/// The numbers that a survey finds are enough: where numbers without an account stay of a kind, no
/// file of a host is refused for one, by the rules that have these.
pub fn surveyed_files_are_allowed()
    ensures { SurveyedFilesAreAllowed }
{}

/// A map that gives every name of a site one distinct number, in its pool or at its pin, as that of
/// a merge does, gives no user a number that lies in a range which the keep text lists for users,
/// none that a kept name has on a host, and none that a file of an accepted inventory has and no
/// user of the file's host; where the text says `unowned users`, none that a file of the
/// inventories that were surveyed has so. The same holds of groups.
pub fn no_kept_number_is_given()
    ensures kept { NoKeptNumberIsGiven }
    ensures accepted { NoUnownedNumberIsGiven }
    ensures surveyed { NoSurveyedNumberIsGiven }
{}

/// What is reserved of a site that is accepted is such that the lines of the report tell it: what
/// `unify_texts::reserved_lines_read_back` asks holds of each merge. Where the keep text says so,
/// the numbers without an account are those that a survey finds, in whichever inventories. Requires
/// that the texts of passwd and group are of bytes, as all are that come from a file.
pub fn reserved_numbers_are_tellable()
    ensures { ReservedNumbersAreTellable }
{}

/// The cost of a map by its pairs and each host's own tables, which `count` answers, is that of its
/// mappings by the accounts over all hosts, which a merge and a check of a certificate answer.
pub fn costs_agree()
    ensures { CostsAgree }
{}

/// The account rows that the mappings of a site change are, by the map that says these, the rows of
/// each host's own passwd, or group, whose number the map changes. And of the maps that give each
/// name one distinct number, in its pool or at its pin, none that rewrites as many fields of a kind
/// as that of a merge changes fewer of these rows.
pub fn changed_rows_agree()
    ensures agree { ChangedRowsAgree }
    ensures fewest { NoMapChangesFewerRows }
{}

/// A check of the same texts accepts the certificate that a merge prints, and answers the cost that
/// the merge tells.
pub fn printed_certificates_are_accepted()
    ensures { PrintedCertificatesAreAccepted }
{}

/// A count of the map that a merge prints, over the same texts, answers the cost that the merge
/// tells.
pub fn printed_maps_are_counted()
    ensures { PrintedMapsAreCounted }
{}

/// No map of the hosts' names to distinct numbers, in their pools or at their pins, rewrites fewer
/// fields than the cost that a check of a certificate answers.
pub fn no_map_rewrites_fewer()
    ensures { NoMapRewritesFewer }
{}

/// A rehearsal of the plan that a merge prints for a host, over that host's inventory, answers how
/// many records it has.
pub fn printed_plans_are_rehearsed()
    ensures { PrintedPlansAreRehearsed }
{}

/// The cost that a merge tells is what the plans that it prints rewrite: these are read, and so
/// many of their records change the uid of their file, and so many the gid.
pub fn printed_plans_rewrite_the_cost()
    ensures { PrintedPlansRewriteTheCost }
{}
