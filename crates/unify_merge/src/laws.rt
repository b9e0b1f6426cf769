//! What holds of the files of a merge, and of what a command is given and answers.
ghost use Rattle.unify_merge.specs.AccountFiles.{AccountFilesGoByTexts};
ghost use Rattle.unify_merge.specs.ChangesTold.{ChangesAreTold};
ghost use Rattle.unify_merge.specs.CostTold.{MergesTellTheirCost};
ghost use Rattle.unify_merge.specs.EarlyEnds.{EarlyEndsLeaveAll, EarlyEndsLeaveFiles};
ghost use Rattle.unify_merge.specs.EarlyEnds.{RefusalsWriteNothing, RefusedFilesWriteNothing};
ghost use Rattle.unify_merge.specs.EarlyEnds.{TooLargeIsTooLarge, WholeFilesAreMerged};
ghost use Rattle.unify_merge.specs.GivenTexts.{BrokenMergesGoByGiven, ChecksGoByGiven};
ghost use Rattle.unify_merge.specs.GivenTexts.{CountsGoByGiven, MergesGoByGiven};
ghost use Rattle.unify_merge.specs.GivenTexts.{RefusedChecksGoByGiven, RefusedCountsGoByGiven};
ghost use Rattle.unify_merge.specs.GivenTexts.{RefusedMergesGoByGiven};
ghost use Rattle.unify_merge.specs.InTurn.{MergesLeaveReports, PlansComeInTurn, ReportIsLast};
ghost use Rattle.unify_merge.specs.InTurn.{ReportsStandWithAll};
ghost use Rattle.unify_merge.specs.InventoryLimit.{InventoryLimitByDigit};
ghost use Rattle.unify_merge.specs.InventoryLimit.{ReadingsAreWithinLimit};
ghost use Rattle.unify_merge.specs.LedgerLaws.{LedgersNoteFiles, LedgersNoteReadings};
ghost use Rattle.unify_merge.specs.LedgerLaws.{MergesAreSettled};
ghost use Rattle.unify_merge.specs.NamedFiles.{FilesHaveTheirNames};
ghost use Rattle.unify_merge.specs.ReadTexts.{BrokenMergesGoByRead, ChecksGoByRead};
ghost use Rattle.unify_merge.specs.ReadTexts.{CountsGoByRead, MergesGoByRead};
ghost use Rattle.unify_merge.specs.ReadTexts.{RefusedChecksGoByRead};
ghost use Rattle.unify_merge.specs.RehearsalsRead.{RefusedRehearsalsTellTheirFault};
ghost use Rattle.unify_merge.specs.RehearsalsRead.{RehearsalsReadToTheEnd};

/// Among the files of a merge, each name has its own text: passwd and group, unless a name is kept,
/// map, certificate and report those of the whole site; `plan.`, `passwd.` and `group.` with a
/// host's name after them the plan of that host and its own passwd and group with their new
/// numbers. Where a name is kept, no file is named passwd or group. No file has another name, and
/// no name stands twice, where the hosts were read from the texts.
pub fn files_have_their_names()
    ensures { FilesHaveTheirNames }
{}

/// After a merge no file is named passwd or group where a user or a group of some host stays as it
/// is, by the keep text and by the passwd and group of each host; and where none does, both files
/// stand.
pub fn account_files_go_by_texts()
    ensures { AccountFilesGoByTexts }
{}

/// After a merge its files were begun and no other since the clearing away, and all of them are
/// finished and settled. Of single calls: after a clearing away there is no file; one that is begun
/// and finished stands after those before it, with all bytes that were appended to it, and is not
/// settled; with one that is sealed all are.
pub fn ledgers_note_files()
    ensures merged { MergesAreSettled }
    ensures calls { LedgersNoteFiles }
{}

/// A reading of an inventory has all bytes of its pieces, one after the other, while it goes on and
/// when it has come to its end; then it stands after those before it. Nothing else is noted of it.
pub fn ledgers_note_readings()
    ensures { LedgersNoteReadings }
{}

/// An inventory that a command reads, or a survey before it, has at most 4294967295 bytes, and one
/// that is told to be too large has more.
pub fn inventory_limit_by_digit()
    ensures limit { InventoryLimitByDigit }
    ensures kept { ReadingsAreWithinLimit }
    ensures told { TooLargeIsTooLarge }
{}

/// A merge, a check and a count of files go by the very pins text and keep text that they are
/// given, and by the numbers without an account that a survey finds by this keep text: so it is of
/// what they have done, of why they stop, and of what a merge leaves that broke off.
pub fn commands_go_by_what_is_given()
    ensures merges { MergesGoByGiven }
    ensures refused_merges { RefusedMergesGoByGiven }
    ensures broken_merges { BrokenMergesGoByGiven }
    ensures checks { ChecksGoByGiven }
    ensures refused_checks { RefusedChecksGoByGiven }
    ensures counts { CountsGoByGiven }
    ensures refused_counts { RefusedCountsGoByGiven }
{}

/// A check and a count go by the inventories that they read: of each host once, in order, and no
/// other. The site that is checked, and the files that are counted, have of each host exactly the
/// files of the text that was read as its own; and a fault that a check tells, where all of them
/// are accepted, is what is answered of its certificate for these files. A merge reads so twice,
/// and what it merges is said of the files of the second readings. One that broke off had read so
/// once, and the first hosts again; what it leaves is said of the files of the last readings.
/// Whatever else is said of a site is said by the texts that were given.
pub fn commands_go_by_what_is_read()
    ensures checks { ChecksGoByRead }
    ensures refused_checks { RefusedChecksGoByRead }
    ensures counts { CountsGoByRead }
    ensures merges { MergesGoByRead }
    ensures broken_merges { BrokenMergesGoByRead }
{}

/// A merge tells as its cost what a count answers of the map that it leaves, and a check of the
/// certificate that it leaves, with the inventories that were read last.
pub fn merges_tell_their_cost()
    ensures { MergesTellTheirCost }
{}

/// A merge that ends early leaves the files of an earlier one as they were, unless the tables and
/// the rules were accepted, and the inventory of each host was read, to its end, and accepted. So
/// one that is refused leaves them, unless it tells that an inventory has changed. Of one that
/// broke off while it wrote, each file that is whole has the text that it has in this merge, at
/// most one more was begun, and none is settled.
pub fn early_ends_leave_files()
    ensures texts { EarlyEndsLeaveAll }
    ensures files { EarlyEndsLeaveFiles }
    ensures refused { RefusalsWriteNothing }
    ensures refused_files { RefusedFilesWriteNothing }
    ensures whole { WholeFilesAreMerged }
{}

/// Where a merge ends early because an inventory has changed between its readings, 41 is told, with
/// the host whose inventory it is. It has changed then: whatever may come after what was read of it
/// again, it is not accepted, or a user or a group of the host does not own as many of its files as
/// before. Those of the hosts before it are as they were.
pub fn changes_are_told()
    ensures { ChangesAreTold }
{}

/// A rehearsal answers for the whole inventory, which was read once, to its end. A fault that it
/// tells is that of the plan, and then nothing was read, or that of the whole inventory, or of any
/// that begins as this one did as far as it was read.
pub fn rehearsals_read_to_the_end()
    ensures answered { RehearsalsReadToTheEnd }
    ensures refused { RefusedRehearsalsTellTheirFault }
{}

/// The report is the last of the files of a merge: where it is among the first of them, in their
/// order, none is left. After a merge that succeeded it stands. One that broke off leaves a report
/// only where all of its files stand, and the inventory of each host was read again.
pub fn the_report_is_last()
    ensures order { ReportIsLast }
    ensures merged { MergesLeaveReports }
    ensures broken { ReportsStandWithAll }
{}

/// Where a merge broke off, no plan stands of a host whose inventory was not read again; and while
/// there is such a host, no host's own passwd or group.
pub fn plans_come_in_turn()
    ensures { PlansComeInTurn }
{}
