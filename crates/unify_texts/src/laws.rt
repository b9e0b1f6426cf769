//! Laws of the texts, each the contract of a call that does nothing.

ghost use Rattle.unify_texts.specs.BundleSpelling.{ReadsWhatIsSpelled, SpelledIsRead};
ghost use Rattle.unify_texts.specs.BundleSpelling.{FirstBadIsTold};
ghost use Rattle.unify_texts.specs.BundleWords.{FilesAreToldApart, FilesHaveTheirPlaces};
ghost use Rattle.unify_texts.specs.BundleWords.{WordsAreRead};
ghost use Rattle.unify_texts.specs.FaultExamples as example;
ghost use Rattle.unify_texts.specs.FaultExamples.{AreTold, StatusesGoByFaults};
ghost use Rattle.unify_texts.specs.FaultsTold.{FaultsAreTold};
ghost use Rattle.unify_texts.specs.Figures.{FiguresAddUp, FiguresCountTheirNames};
ghost use Rattle.unify_texts.specs.FiguresExample.{ExampleOfFigures};
ghost use Rattle.unify_texts.specs.KeptNames.{KeptNamesAreSeen};
ghost use Rattle.unify_texts.specs.LimitDigits.{LimitsByDigit};
ghost use Rattle.unify_texts.specs.MapExample.{ExampleOfMap};
ghost use Rattle.unify_texts.specs.MapForms.{AcceptedMapsMayStand, FirstBadMapLineIsTold};
ghost use Rattle.unify_texts.specs.MapForms.{MapsAreListed};
ghost use Rattle.unify_texts.specs.ReportBack.{ReportsReadBack};
ghost use Rattle.unify_texts.specs.ReportExample.{ExampleOfDiffering, ExampleOfPlain};
ghost use Rattle.unify_texts.specs.ReportExample.{ExampleOfUsers};
ghost use Rattle.unify_texts.specs.ReservedBack.{ReservedLinesReadBack};
ghost use Rattle.unify_texts.specs.WholeReport.{ReportsTellAll};
ghost use Rattle.unify_texts.specs.WrittenMap.{WrittenMapsArePins, WrittenMapsReadBack};

/// A text is read as a bundle exactly where its lines spell one, and as that one. Where they spell
/// none, the fault tells the first line that spells no bundle together with those before it.
pub fn bundles_are_spelled()
    ensures found { ReadsWhatIsSpelled }
    ensures read { SpelledIsRead }
    ensures refused { FirstBadIsTold }
{}

/// Each word of a bundle, letter by letter: `run` with a command's, `file` with a file's, `host`,
/// and the bar before a line of a file; which files may stand before the first host, by the
/// command, and which with a host; and that no file is taken for another.
pub fn bundle_words_are_read()
    ensures words { WordsAreRead }
    ensures files { FilesHaveTheirPlaces }
    ensures apart { FilesAreToldApart }
{}

/// In a map that is accepted, whoever wrote it, the names of users have exactly the numbers that
/// its lines of `user`, a space, a lawful name, a space and an id give them; and the same of groups
/// and `group`.
pub fn maps_are_listed()
    ensures { MapsAreListed }
{}

/// Each line of a map that is accepted says nothing, or gives a number to a name to which no
/// earlier line of its kind gives one. Of any other text the first line that is no such line is
/// told, counted from 1.
pub fn bad_map_lines_are_told()
    ensures accepted { AcceptedMapsMayStand }
    ensures refused { FirstBadMapLineIsTold }
{}

/// The map text that is written for mappings of a site is read as a map in which each name has its
/// number, and no other name has one.
pub fn written_maps_read_back()
    ensures { WrittenMapsReadBack }
{}

/// The map text that is written for mappings of a site is a pins text too, where it has no more
/// than 1,048,576 lines: it pins each user and each group to its number, in the order of its lines,
/// and reserves nothing.
pub fn written_maps_are_pins()
    ensures { WrittenMapsArePins }
{}

/// A written map by example, byte by byte: three users and two groups, whose names did not appear
/// in byte order.
pub fn written_map_by_example()
    ensures { ExampleOfMap }
{}

/// The lines that a report has of what is reserved are read, word by word, as exactly what they
/// were written for: of which kind, which numbers, and who reserves them, a host and a name byte
/// for byte. Requires that the numbers are such as an account may have, that a name, or a host with
/// files without an account, reserves one number, and that no name is empty.
pub fn reserved_lines_read_back()
    ensures { ReservedLinesReadBack }
{}

/// `keeps_a_name` is true exactly where, of users or of groups, some number is reserved by a name
/// that is kept on a host.
pub fn kept_names_are_seen()
    ensures { KeptNamesAreSeen }
{}

/// The figures of a report are read from its words: after `hosts` how many hosts there are; of the
/// users, and of the groups, how many there are, and after `pinned`, `kept` and `fresh` how many
/// are so; of the fields and of the lines of each kind how many change, and after `of` how many
/// there are. Requires that 64 bits hold the numbers of hosts, names, files and account rows.
pub fn reports_read_back()
    ensures { ReportsReadBack }
{}

/// In the lines of a report each field in which a later host differs from the first, and all that
/// is reserved, is told: the lines that begin with `differs` are read, word by word, as exactly the
/// differences of the site, and those that begin with `reserved` as exactly what is reserved, both
/// in their order. Requires what `reports_read_back` and `reserved_lines_read_back` do, and that no
/// name of a host, a user or a group is empty.
pub fn reports_tell_all()
    ensures { ReportsTellAll }
{}

/// Each name is pinned, keeps a number that it has on some host, or has a fresh one; so many names
/// are pinned, keep a number and have a fresh one as the figures tell; and all figures of six names
/// with eight rows and seven files, by example.
pub fn figures_add_up()
    ensures all { FiguresAddUp }
    ensures names { FiguresCountTheirNames }
    ensures example { ExampleOfFigures }
{}

/// Reports by example, byte by byte: one where nothing is reserved and nothing differs, one where a
/// range of users is reserved, and the number of a user that is kept, and one where a number of a
/// group is, and each field differs.
pub fn reports_by_example()
    ensures plain { ExampleOfPlain }
    ensures users { ExampleOfUsers }
    ensures differing { ExampleOfDiffering }
{}

/// The line of each fault by example, byte by byte: its number, its name, and its words in their
/// order.
pub fn fault_lines_by_example()
    ensures account_lines { AreTold example.account_lines }
    ensures inventory_lines { AreTold example.inventory_lines }
    ensures hosts { AreTold example.host_faults }
    ensures joining { AreTold example.joining_faults }
    ensures certificates { AreTold example.certificate_faults }
    ensures plans { AreTold example.plan_faults }
    ensures texts { AreTold example.text_faults }
{}

/// The exit status that goes with the number of a fault is 3 exactly for want of memory and for a
/// device's fault, 2 exactly for a bundle that is not lawful, 4 exactly where a certificate is
/// lawful and is rejected, and 1 for any other fault.
pub fn statuses_go_by_faults()
    ensures { StatusesGoByFaults }
{}

/// Where a contract speaks of the fault that an error tells, it is none for want of memory, and for
/// any other error the fault itself: of a line of a file, of a pins text, of hosts that are joined,
/// and of a command.
pub fn faults_are_told()
    ensures { FaultsAreTold }
{}

/// How large an input may be, digit by digit: an inventory has at most 16777216 files, and a line
/// at most 65535 bytes.
pub fn limits_by_digit()
    ensures { LimitsByDigit }
{}
