//! A directory and the files of a plan below it, opened as a run opens them.
ghost use Rattle.std.specs.Prelude.{◌≡◌, [], IfOk};
ghost use Rattle.reown_plan.specs.Mark.{mark_of};
ghost use Rattle.reown_runner.specs.Halfway.{MayGoOn};
ghost use Rattle.reown_runner.specs.Tree.{cells_of};
ghost use Rattle.reown_files.specs.Opening.{MetFit};
ghost use Rattle.reown_files.specs.Real.{known_real};
ghost use Rattle.reown_files.specs.Replay.{replay};
ghost use Rattle.reown_files.specs.RootData.{IsPathFrom, is_absolute, modes_beside};
ghost use Rattle.reown_files.specs.Stages.{stage_in};

use crate::run::{Paths, Run};
use crate::told::{not_opened, root_refused};
use reown_files::{Disk, RealTree, Root};
use reown_plan::Plan;
use unify_io::FileFault;

/// Opens a directory, which no other command is at work below, with the mark of the plan where the
/// words of the command name it.
pub fn open_root<'w>(
    rt: &'w HostRuntime,
    paths: Paths<'w>,
    has_one_journal: bool,
) -> Result<Root<'w>, FileFault>
    ensures fresh { IfOk result (λ root. root.calls ≡ []) }
    ensures mark { IfOk result (λ root. IsPathFrom
        (is_absolute paths.entry.mark.now) paths.entry.mark.now root.mark_path) }
    ensures modes { IfOk result (λ root. root.modes_path ≡ modes_beside root.mark_path) }
{
    match Root::open(rt, paths.root, paths.mark) {
        Ok(mut root) => {
            if has_one_journal {
                root.trust_one_journal();
            }
            Ok(root)
        }
        Err(fault) => Err(root_refused(rt, paths, fault)),
    }
}

/// Opens the files of a plan on a disk, as an earlier run left them.
pub fn open_files<'p, 'a, D: Disk>(
    run: Run<'_>,
    plan: &'p Plan<'a>,
    disk: D,
) -> Result<RealTree<'p, 'a, D>, FileFault>
    requires { D.calls disk ≡ [] }
    ensures safe { IfOk result
        (λ tree. MayGoOn plan.now.records (cells_of (mark_of plan.now) (known_real tree))) }
    ensures fit { IfOk result (λ tree. MetFit
        (stage_in run.entry.was_begun (mark_of plan.now) (replay tree.calls))
        plan.now.records tree.calls) }
{
    let rt = run.rt;
    let found = RealTree::open(rt.alloc(), plan, run.was_begun, disk);
    run.style.clear(rt);
    match found {
        Ok(tree) => Ok(tree),
        Err(refused) => Err(not_opened(run, plan.records(), refused.fault)),
    }
}
