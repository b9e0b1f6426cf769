//! Carrying a plan out in memory: on a tree that is as an inventory tells, whose text is there or
//! comes in pieces.
#![tactic(auto)]

mod laws;
mod plan_rehearsal;
mod rehearsing;

pub use laws::{refusals_are_told, rehearsals_tell_files};
pub use plan_rehearsal::{Rehearsal, plan_at};
pub use rehearsing::rehearse;
