//! Where and how often calls of a tree of real files have failed, and how many writes and syncs
//! were asked of it.
ghost use Rattle.std.specs.Prelude.{◌≡◌, ◌+◌, ◌^◌, ◌<◌, ◌≤◌, true, false, is_ok};
ghost use Rattle.reown_files.specs.Real.{FailsAt};
ghost use Rattle.reown_runner.specs.Tree.{counted};

use super::RealTree;
use crate::{Disk, Failure, Trouble};
use reown_runner::DeviceFault;

impl<'p, 'a, D: Disk> RealTree<'p, 'a, D> {
    // A call has failed.
    pub(super) fn fail(&mut self) -> DeviceFault
        requires { self.old.faults + 1 < 2 ^ 64 }
        ensures { self.new ≡ record self.old { faults = self.old.faults + 1 } }
    {
        self.faults += 1;
        DeviceFault
    }

    // A write or a sync was asked for.
    pub(super) fn count(&mut self)
        ensures { self.new ≡ record self.old { asked = counted self.old.asked } }
    {
        self.asked = self.asked.saturating_add(1);
    }

    // Whether a call may fail: not at the last count of failures.
    pub(super) fn may_fail(&self) -> bool
        ensures may { result ≡ true → self.now.faults + 1 < 2 ^ 64 }
        ensures may_not { result ≡ false → 2 ^ 64 ≤ self.now.faults + 1 }
    {
        self.faults < u64::MAX
    }

    // Whether this was done; where it was not, that it failed at this place, and why.
    pub(super) fn note(&mut self, place: Option<usize>, told: Result<(), Trouble>) -> bool
        ensures rest { self.new ≡ record self.old { failure = self.new.failure } }
        ensures told { result ≡ is_ok told }
        ensures failure { result ≡ false → FailsAt place self.new.failure }
    {
        match told {
            Ok(()) => true,
            Err(trouble) => {
                self.failure = Some(Failure { place, trouble });
                false
            }
        }
    }
}
