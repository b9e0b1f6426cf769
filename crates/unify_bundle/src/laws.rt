//! What holds of the answers of commands.
ghost use Rattle.unify_bundle.specs.AnswersBack.{AcceptedIsRead, CostsAreRead, MergesAreOfFiles};
ghost use Rattle.unify_bundle.specs.AnswersBack.{MergesAreRead, MergesWithHostsAreRead};
ghost use Rattle.unify_bundle.specs.AnswersBack.{NumbersByExample, RecordsAreRead};
ghost use Rattle.unify_bundle.specs.GoingOut.{AnswersAreWritten, BundlesAreAnswered};
ghost use Rattle.unify_bundle.specs.GoingOut.{InputsAreTold, NoMoreIsTaken, NoReplyGoesOut};
ghost use Rattle.unify_bundle.specs.GoingOut.{RepliesGoOut};
ghost use Rattle.unify_bundle.specs.Lines.{accepted_line, cost_lines, records_lines};
ghost use Rattle.unify_bundle.specs.SiteRunLaws.{BeginAsInventories, LastAdvancesFinish};
ghost use Rattle.unify_bundle.specs.SiteRunLaws.{LastStopsUndo, SiteRunsFinish};
ghost use Rattle.unify_bundle.specs.TakenFiles.{ChecksHaveTheirCertificate, CountsHaveTheirMap};
ghost use Rattle.unify_bundle.specs.TakenFiles.{FilesHaveOneText, HostsHaveTheirFiles};
ghost use Rattle.unify_bundle.specs.TakenFiles.{MergesHaveTheirHosts, RehearsalsHaveTheirFiles};
ghost use Rattle.unify_bundle.specs.TakenFiles.{RulesHaveTheirFiles, SurveysRefuse};
ghost use Rattle.unify_bundle.specs.WordsAnswered.{AreWordsFor, BundleLimitByDigit};

/// What goes out for a command is read back, word by word and line by line: the two costs of a
/// count and of a merge, the cost of a certificate that is accepted, the number of records of a
/// plan that was rehearsed, and each of these by an example, byte by byte; and of a merge in a
/// bundle each file, by its name, with its lines, the own files of each host too. Such a merge has
/// no line but those that name a file, as the first does, and those of its text, which have a bar
/// in front.
pub fn answers_are_read_back()
    ensures costs { CostsAreRead }
    ensures accepted { AcceptedIsRead }
    ensures records { RecordsAreRead }
    ensures example { NumbersByExample }
    ensures merges { MergesAreRead }
    ensures hosts { MergesWithHostsAreRead }
    ensures bars { MergesAreOfFiles }
{}

/// Each file of a bundle is read where it belongs, and as an empty one where it is not there: those
/// of a host as the texts of that host, pins and keep text as the rules of the site, the keep text
/// also for the numbers without an account. By these, and by no other texts, the commands reply: a
/// count with the cost of the map, a check with what the certificate proves, a merge with a right
/// outcome for all the hosts, with their own files where these are asked for, and a rehearsal with
/// what the plan does on the inventory beside it; or each with its first fault.
pub fn bundle_files_are_taken()
    ensures texts { FilesHaveOneText }
    ensures hosts { HostsHaveTheirFiles }
    ensures rules { RulesHaveTheirFiles }
    ensures counts { CountsHaveTheirMap }
    ensures checks { ChecksHaveTheirCertificate }
    ensures merges { MergesHaveTheirHosts }
    ensures surveys { SurveysRefuse }
    ensures rehearsals { RehearsalsHaveTheirFiles }
{}

/// What goes out for a bundle is a reply of its command to its places, and for any other text its
/// first bad line. The lines of a reply go out as they are, with status 0, and a fault as its line
/// with the status of the fault, which is never 0. Where a read failed, or there is too much, that
/// is told in their place, and where memory is wanting, that may be. No more bytes of the input are
/// taken than `run_bundle` says.
pub fn replies_go_out()
    ensures replies { RepliesGoOut }
    ensures none { NoReplyGoesOut }
    ensures bundles { BundlesAreAnswered }
    ensures inputs { InputsAreTold }
    ensures taken { NoMoreIsTaken }
    ensures answers { AnswersAreWritten }
{}

/// What a command with arguments replies to what it found, field by field: the lines of what it
/// answers with status 0, or the line of the fault with its own status, which is never 0. It has no
/// reply for a failed call and an inventory that is too large, each of which is told exactly where
/// it was found, and for want of memory.
pub fn words_are_answered()
    ensures costs { AreWordsFor cost_lines }
    ensures accepted { AreWordsFor accepted_line }
    ensures records { AreWordsFor records_lines }
{}

/// With which trees `rehearse_site` begins, and which hosts it tells as done, by the events that it
/// was given. A host without any event stands as its inventory says. A host that advances and never
/// stops is done exactly where its advances are at least four more than the records of its plan.
/// After so many it is done whatever came before them, stops too. A host whose last event is a stop
/// is not done.
pub fn site_runs_finish()
    ensures begin { BeginAsInventories }
    ensures alone { SiteRunsFinish }
    ensures last { LastAdvancesFinish }
    ensures stopped { LastStopsUndo }
{}

/// A bundle has at most 268435456 bytes.
pub fn bundle_limit_by_digit()
    ensures { BundleLimitByDigit }
{}
