//! Laws over the definition of lawful calls: what each has before it and after it. Each is the
//! contract of a function that does nothing.
ghost use Rattle.std.specs.Prelude.{List};
ghost use Rattle.reown_plan.specs.PlanData.{PlanRecord};
ghost use Rattle.reown_plan.specs.declared.mark.PlanMark.{PlanMark};
ghost use Rattle.reown_files.specs.Calls.{Called};
ghost use Rattle.reown_files.specs.InOrder.{ChangesAreForeseen, ModesAreSetAtOnce, MarksComeLast};
ghost use Rattle.reown_files.specs.InOrder.{KeptMarksAreSynced, NotesAreOfThePlan};

/// Before a file is given an owner, which a record has for it, the names of each file were seen to
/// be all in the plan, each was asked for the mode that an earlier run of this plan had lost, and
/// then the modes that this run may lose were written down.
pub fn changes_are_foreseen()
    ensures { ChangesAreForeseen }
{}

/// A mode that a change has taken is set again by the next call, and so is one that an earlier
/// run had lost; and no mode is set otherwise.
pub fn modes_are_set_at_once()
    ensures { (mark : PlanMark) (records : List PlanRecord) (later earlier : List Called)
        → ModesAreSetAtOnce mark records later earlier }
{}

/// The mark that is put is that of the plan, where each file was seen at its new owner and synced
/// after its last change, and no mode failed to be set; and a mark that was kept was synced or
/// met, and not put since.
pub fn marks_come_last()
    ensures put { MarksComeLast }
    ensures kept { KeptMarksAreSynced }
{}

/// Modes are asked for and written down for one plan, after those of an earlier run of it were
/// read, and before any file is given an owner.
pub fn notes_are_of_one_plan()
    ensures { (mark plan : PlanMark) (records : List PlanRecord) (later earlier : List Called)
        → NotesAreOfThePlan mark plan records later earlier }
{}
