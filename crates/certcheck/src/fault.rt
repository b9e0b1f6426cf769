//! Why a certificate is refused.
ghost use Rattle.std.specs.Prelude.{◌≡◌};
ghost use Rattle.certcheck.specs.declared.fault.CheckFault.TheVariants.{Memory};

use hosts_join::Which;
use idtext::Name;
use std::alloc::AllocError;

/// The first reason why a certificate is refused, or want of memory. Names are slices of the input,
/// and the least of several is the first in byte order.
#[derive(Drop)]
pub enum CheckFault<'a> {
    /// The least name that stands in exactly one of site and certificate.
    NameMissing {
        kind: Which,
        name: Name<'a>,
    },
    /// The least number that two names have.
    NumberTwice {
        kind: Which,
        number: u32,
    },
    /// The least free name whose number is not in its pool.
    OutsidePool {
        kind: Which,
        name: Name<'a>,
    },
    /// The least pinned name whose number is not its pin.
    PinBroken {
        kind: Which,
        name: Name<'a>,
    },
    /// The least name that has a number in its pool which weighs more than y and z together, and
    /// the least such number.
    NotCovered {
        kind: Which,
        name: Name<'a>,
        number: u32,
    },
    /// All y and z together, and what the numbers of the free names weigh together.
    SumsDiffer {
        kind: Which,
        sum: u128,
        weight: u128,
    },
    /// A growth was refused.
    Memory,
}

impl From<AllocError> for CheckFault<'_> {
    ghost from_gives = { λ _ e. e ≡ Memory };

    fn from(_: AllocError) -> Self {
        CheckFault::Memory
    }
}
