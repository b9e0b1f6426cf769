//! Laws of the passes, each the contract of a call that does nothing.
ghost use Rattle.unify.specs.CheckLaws.{CertifyingAreAccepted, FirstFaultsOfChecks};
ghost use Rattle.unify.specs.CountLaws.{ChangedFilesAreCounted, FirstFaultsOfCounts};
ghost use Rattle.unify.specs.KeptLaws.{OutcomesTellKeptNames};
ghost use Rattle.unify.specs.ReportLaws.{OutcomesAreReported};
ghost use Rattle.unify.specs.Rewritten.{PlansRewriteTheCost};
ghost use Rattle.unify.specs.SameCountLaws.{SameCountsAreByAccount};
ghost use Rattle.unify.specs.SeenFaults.{PartsShowTheirFaults};
ghost use Rattle.unify.specs.ToldLaws.{PartsTellTheirFaults};

/// An outcome says that a name is kept exactly where a user or a group of some host's passwd or
/// group stays as it is by the keep text. No one passwd and group is written then.
pub fn outcomes_tell_kept_names()
    ensures { OutcomesTellKeptNames }
{}

/// The report of an outcome is read, word by word, as the figures of its mappings, which have the
/// cost that is told, and as all that differs between the hosts and all that is reserved. Requires
/// that no name is empty, that names are of bytes, and that lines can tell what is reserved.
pub fn outcomes_are_reported()
    ensures { OutcomesAreReported }
{}

/// A certificate is accepted with a cost exactly where its mappings are admissible, its potentials
/// certify them, and this is what they cost. Else the first fault is told, in this order: of the
/// site, of the certificate's text, of the certificate's check.
pub fn checks_accept_what_certifies()
    ensures accepted { CertifyingAreAccepted }
    ensures refused { FirstFaultsOfChecks }
{}

/// A count answers how many files a map changes, whatever map it is, by users and by groups: those
/// whose user or group on their host has another number, or none, in the map. Else the first fault
/// is told, in this order: of the host list, of the hosts one after the other, of the keep text, of
/// the map's text, of its names, of the inventories one after the other.
pub fn changed_files_are_counted()
    ensures counted { ChangedFilesAreCounted }
    ensures refused { FirstFaultsOfCounts }
{}

/// That each account of a host owns as many files of two readings of an inventory means that as
/// many have the uid of each row of its passwd, and the gid of each row of its group, and no more:
/// files whose number has no account may come and go.
pub fn same_counts_are_by_account()
    ensures { SameCountsAreByAccount }
{}

/// What a part gives goes on as it is, and each of its faults is told by its own number, name and
/// details, in this order: those of a certificate, of its check, and of a plan. None is told as
/// another, or as want of memory.
pub fn parts_tell_their_faults()
    ensures { PartsTellTheirFaults }
{}

/// Of a fault that a certificate or its check tells, contracts see the fault itself, or none where
/// memory was wanted.
pub fn parts_show_their_faults()
    ensures { PartsShowTheirFaults }
{}

/// The cost of mappings of a site is what the plans of its hosts rewrite: so many records of these
/// plans change the uid of their file, and so many the gid.
pub fn plans_rewrite_the_cost()
    ensures { PlansRewriteTheCost }
{}
