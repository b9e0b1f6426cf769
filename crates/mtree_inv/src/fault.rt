//! Why a text is refused.
ghost use Rattle.std.specs.Prelude.{◌≡◌};

use idtext::TextCode;
use std::alloc::{AllocError, AllocFailed};

/// Why a line was not taken.
#[derive(Clone, Copy, Debug, PartialEq, Eq, Drop)]
pub(crate) enum LineFault {
    Memory,
    Code(TextCode),
}

impl From<AllocError> for LineFault {
    ghost use Rattle.mtree_inv.specs.declared.fault.LineFault.TheVariants.{Memory};

    ghost from_gives = { λ _ e. e ≡ Memory };

    fn from(_error: AllocError) -> Self {
        LineFault::Memory
    }
}

impl<T: Drop> From<AllocFailed<T>> for LineFault {
    ghost use Rattle.mtree_inv.specs.declared.fault.LineFault.TheVariants.{Memory};

    ghost from_gives = { λ _ e. e ≡ Memory };

    fn from(_error: AllocFailed<T>) -> Self {
        LineFault::Memory
    }
}

impl From<TextCode> for LineFault {
    ghost use Rattle.mtree_inv.specs.declared.fault.LineFault.TheVariants.{Code};

    ghost from_gives = { λ code e. e ≡ Code code };

    fn from(code: TextCode) -> Self {
        LineFault::Code(code)
    }
}
