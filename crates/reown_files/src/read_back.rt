//! Laws over what this crate writes and reads. Each is the contract of a function that does
//! nothing.
ghost use Rattle.std.specs.Prelude.{ℕ, List};
ghost use Rattle.reown_plan.specs.declared.mark.PlanMark.{PlanMark};
ghost use Rattle.reown_files.specs.RootData.{RootData};
ghost use Rattle.reown_files.specs.Laws.{MarksAreMetAsSeen, ModesOfNoneAreLeft, ModesGoByTheMark};
ghost use Rattle.reown_files.specs.Laws.{ModesAreToldOfTheirPlan};
ghost use Rattle.reown_files.specs.Laws.{MarksAreReadBack, ModesAreReadBack, ModesAreOfOnePlan};
ghost use Rattle.reown_files.specs.Laws.{MarksEndOnePlan, ModesAreJudged, CutModesAreRefused};
ghost use Rattle.reown_files.specs.Laws.{MarksPutAreSeen, ModesPutAreRead, LinesAreOfMetFiles};
ghost use Rattle.reown_files.specs.Examples.{ExampleOfMark, ExampleOfModes, ExampleOfRead};

/// The mark that is written for a plan is read as the mark of that plan, and as that of no plan
/// that differs from it in its host, its length or its digest.
pub fn marks_are_read_back()
    ensures { MarksAreReadBack }
{}

/// The modes that a run writes down are read back by the next one of the same plan, and by none of
/// another, each with its file and in their order; and by the mark of that plan, and of no other,
/// they are known to be of a plan that has ended. Those of another plan that has not ended are
/// refused, and so are those of any plan that were cut.
pub fn modes_are_read_back()
    ensures plan { ModesAreOfOnePlan }
    ensures ended { MarksEndOnePlan }
    ensures entries { ModesAreReadBack }
    ensures judged { ModesAreJudged }
    ensures cut { CutModesAreRefused }
{}

/// What is put into the two files is what is read there. Where the file of the mark has the text
/// that was put for a plan, the mark is seen as that plan's and no other's, and met as it is seen.
/// Where that of the modes has the text that was put, each file has the mode that was written down
/// for it last, and it is told of that plan alone; and those that are written down are of the files
/// that were met at another owner than their new one, in their order. Where there is no file of the
/// modes, or one that another plan has put which has ended, no run of the plan is told and nothing
/// is taken. The file is put in a run of a plan whose mark was not there, and else removed.
pub fn files_that_were_put_are_read()
    ensures marks { MarksPutAreSeen }
    ensures met { MarksAreMetAsSeen }
    ensures modes { ModesPutAreRead }
    ensures lines { LinesAreOfMetFiles }
    ensures left { ModesOfNoneAreLeft }
    ensures told { (plan : PlanMark) (path : List ℕ) (root : RootData)
        → ModesAreToldOfTheirPlan plan path root }
    ensures by_mark { ModesGoByTheMark }
{}

/// The two files by example, byte by byte: a mark with its digest as `sha256sum` prints it, and
/// modes in octal digits, each with its file; and which mode is read of such lines for a file.
pub fn marks_and_modes_by_example()
    ensures mark { ExampleOfMark }
    ensures modes { ExampleOfModes }
    ensures read { ExampleOfRead }
{}
