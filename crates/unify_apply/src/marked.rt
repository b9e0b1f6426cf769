//! The mark of another plan, where the mark of a plan is to stand.
ghost use Rattle.std.specs.Prelude.{◌≡◌, IfOk, IfErr, true};
ghost use Rattle.reown_plan.specs.declared.plan.PlanFault.TheVariants.{Memory};
ghost use Rattle.reown_plan.specs.Mark.{mark_of};
ghost use Rattle.reown_plan.specs.Spelling.{IsLawful};
ghost use Rattle.reown_reverse.specs.Reverse.{reversed};
ghost use Rattle.reown_files.specs.Actions.{IsReadAtMost};
ghost use Rattle.unify_io.specs.declared.files.FileFault.TheVariants as file_faults;
ghost use Rattle.unify_apply.specs.Told.{is_of_other, is_of_third, IsThirdSeen};

use crate::run::Run;
use crate::told::no_plan;
use reown_files::{Root, Trouble, read_mark};
use reown_plan::{Plan, PlanFault, PlanMark};
use reown_reverse::reversed_text;
use std::alloc::Global;
use unify_io::{FileFault, Part, warn};

// What is said of a file that is the mark of another plan.
const OTHER_DONE: &str = "marks another plan as done; its passwd and group have to be installed \
    before this plan's inventory is made, or else take it back first";

// Whether a text is the mark of another plan than this one.
fn marks_other(alloc: Global, plan: &PlanMark, text: &[u8]) -> Result<bool, PlanFault>
    ensures told { IfOk result (λ is_other. is_other ≡ is_of_other plan.now text.now) }
    ensures refused { IfErr result (λ fault. fault ≡ Memory) }
{
    match read_mark(alloc, plan, text) {
        Ok(is_own) => Ok(!is_own),
        Err(Trouble::NotMark) => Ok(false),
        Err(_) => Err(PlanFault::Memory),
    }
}

// The mark of the plan that takes this one back.
#[tactic(auto, using(crate::proofs::ReverseMark::mark_back))]
fn mark_of_reverse(alloc: Global, plan: &Plan<'_>) -> Result<PlanMark, PlanFault>
    ensures mark { IsLawful plan.now → IfOk result (λ mark. mark ≡ mark_of (reversed plan.now)) }
    ensures refused { IsLawful plan.now → IfErr result (λ fault. fault ≡ Memory) }
{
    let text = reversed_text(alloc, plan)?;
    let back = Plan::read(alloc, &text)?;
    Ok(back.mark())
}

// Whether a text is the mark of a plan that is neither this one nor its reverse. The reverse is
// made only where the text is the mark of another plan.
fn marks_third(alloc: Global, plan: &Plan<'_>, text: &[u8]) -> Result<bool, PlanFault>
    ensures third { IsLawful plan.now
        → IfOk result (λ is_third. is_third ≡ is_of_third plan.now text.now) }
    ensures refused { IsLawful plan.now → IfErr result (λ fault. fault ≡ Memory) }
{
    if !marks_other(alloc, &plan.mark(), text)? {
        return Ok(false);
    }
    let back = mark_of_reverse(alloc, plan)?;
    marks_other(alloc, &back, text)
}

// Whether the file of the mark is the mark of a plan that is neither this one nor its reverse; one
// that cannot be read is none.
fn has_third_mark(alloc: Global, plan: &Plan<'_>, root: &mut Root<'_>) -> Result<bool, PlanFault>
    ensures seen { IsLawful plan.now → IfOk result (λ is_third. IsThirdSeen plan.now is_third
        root.old.mark_path root.old.actions root.new.actions) }
    ensures refused { IsLawful plan.now → IfErr result (λ fault. fault ≡ Memory) }
    ensures at_most { IsReadAtMost root.old.mark_path root.old.actions root.new.actions }
    ensures rest { root.new ≡ record root.old { actions = root.new.actions } }
{
    let Ok(Some(text)) = root.mark_text() else {
        return Ok(false);
    };
    marks_third(alloc, plan, &text)
}

// Tells that the file at this path is the mark of such a plan.
fn tell_third(rt: &HostRuntime, mark: &str) -> Result<(), FileFault>
    ensures { IfErr result (λ fault. fault ≡ file_faults.Memory) }
{
    let mark = Part::Name(mark.as_bytes());
    match warn(rt, &[Part::Text("file"), mark, Part::Text(OTHER_DONE)]) {
        Ok(()) => Ok(()),
        Err(_) => Err(FileFault::Memory),
    }
}

/// Warns where the file of the mark is the mark of a plan that is neither this one nor its reverse:
/// what that plan has given is another's by the old passwd. What else is wrong with the file is
/// told where the plan is opened. The file is read at most, and not where nothing is warned of. It
/// fails for want of memory alone.
pub fn warn_of_mark(run: Run<'_>, plan: &Plan<'_>, root: &mut Root<'_>) -> Result<(), FileFault>
    ensures refused { IsLawful plan.now → IfErr result (λ fault. fault ≡ file_faults.Memory) }
    ensures at_most { IsReadAtMost root.old.mark_path root.old.actions root.new.actions }
    ensures quiet { run.entry.quiet ≡ true → root.new ≡ root.old }
    ensures rest { root.new ≡ record root.old { actions = root.new.actions } }
{
    if run.quiet {
        return Ok(());
    }
    match has_third_mark(run.rt.alloc(), plan, root) {
        Ok(true) => tell_third(run.rt, run.paths.mark),
        Ok(false) => Ok(()),
        Err(fault) => Err(no_plan(run.rt, fault)),
    }
}
