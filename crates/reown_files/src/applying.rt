//! A plan, carried out on a tree of real files.
ghost use Rattle.std.specs.Prelude.{◌≡◌, true, ℕ, List, IfErr, OnOk, IsOk};
ghost use Rattle.reown_runner.specs.declared.runner.RunFault.TheVariants.{Device};
ghost use Rattle.reown_runner.specs.Tree.{Image, IsImage, cells_of};
ghost use Rattle.reown_runner.specs.Safe.{IsSafe};
ghost use Rattle.reown_runner.specs.Halfway.{planned_in, MayGoOn};
ghost use Rattle.reown_runner.specs.Finished.{owner_after_plan};
ghost use Rattle.reown_plan.specs.Mark.{mark_of};
ghost use Rattle.reown_files.specs.Real.{known_real, HoldsReplay, IsLater};
ghost use Rattle.reown_files.specs.Lawful.{is_lawful};

use crate::{Disk, RealTree};
use reown_plan::Plan;
use reown_runner::{RunFault, Runner, done_means_done};

/// Carries a plan out on its files, from wherever an earlier run left them. For r records it makes
/// at most r + 3 writes and syncs, and each looks at its files again.
///
/// # Errors
///
/// `Device`: a call on the disk failed, or found a file otherwise than it was left.
/// `RealTree::failure` tells where and why. Each file is then at its old or its new owner, and a
/// tree that is opened anew goes on from there.
pub fn apply<'p, 'a, D: Disk>(
    plan: &'p Plan<'a>,
    tree: &mut RealTree<'p, 'a, D>,
) -> Result<(), RunFault>
    requires { MayGoOn plan.now.records (cells_of (mark_of plan.now) (known_real tree.old)) }
    ensures safe { IsSafe (planned_in plan.now.records) plan.now.records
        (cells_of (mark_of plan.now) (known_real tree.new)) }
    ensures done { OnOk result ((image : Image)
        → IsImage (cells_of (mark_of plan.now) (known_real tree.new)) image
        → (image.mark ≡ true) × ((path : List ℕ)
        → image.owner path
        ≡ owner_after_plan (planned_in plan.now.records) plan.now.records path)) }
    ensures device { IfErr result (λ fault. fault ≡ Device) }
    ensures finishes { tree.new.faults ≡ tree.old.faults → IsOk result }
    ensures later { IsLater tree.old tree.new }
    ensures lawful { is_lawful tree.new.mark tree.new.records tree.new.calls ≡ true }
    ensures replayed { HoldsReplay tree.new.faults tree.new.calls tree.new.tree }
{
    done_means_done();
    let done = Runner::new(plan).run(tree);
    tree.asks_only_the_plan();
    done
}
