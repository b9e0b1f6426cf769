//! Why a command ended early that reads or writes files.

ghost use Rattle.std.specs.Prelude.{◌≡◌};
ghost use Rattle.unify_texts.specs.declared.fault.Fault.TheVariants.{Memory};
ghost use Rattle.unify_merge.specs.declared.fault.MergeFault.TheVariants.{Failed, Refused};

use crate::files::CallFailed;
use std::alloc::AllocError;
use unify_texts::Fault;

/// Why a merge ended early, or a check, a count, a rehearsal or a survey.
#[derive(Drop)]
pub enum MergeFault<'a> {
    /// This call on the files failed.
    Failed(CallFailed),
    /// The inventory that was read last has more than 4,294,967,295 bytes.
    TooLarge,
    /// What was read is refused, or a growth was.
    Refused(Fault<'a>),
}

impl<'a> From<CallFailed> for MergeFault<'a> {
    ghost from_gives = { λ failed e. e ≡ Failed failed };

    fn from(failed: CallFailed) -> MergeFault<'a> {
        MergeFault::Failed(failed)
    }
}

impl<'a> From<Fault<'a>> for MergeFault<'a> {
    ghost from_gives = { λ fault e. e ≡ Refused fault };

    fn from(fault: Fault<'a>) -> MergeFault<'a> {
        MergeFault::Refused(fault)
    }
}

impl<'a> From<AllocError> for MergeFault<'a> {
    ghost from_gives = { λ _ e. e ≡ Refused Memory };

    fn from(_error: AllocError) -> MergeFault<'a> {
        MergeFault::Refused(Fault::Memory)
    }
}
