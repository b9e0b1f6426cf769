//! Carrying a plan out on a tree in memory, over texts.

ghost use Rattle.std.specs.Prelude.{Ok};
ghost use Rattle.idtext.specs.First.{Gives};
ghost use Rattle.unify_texts.specs.Told.{told};
ghost use Rattle.rehearsal.specs.Rehearsing.{Rehearses, rehearsed};

use crate::plan_rehearsal::{Rehearsal, plan_at};
use reown_plan::Plan;
use std::alloc::Global;
use unify_texts::Fault;

// Carries a plan out on a tree that is as the text of an inventory tells.
fn rehearse_plan<'a>(alloc: Global, plan: &Plan<'a>, mtree: &[u8]) -> Result<u32, Fault<'a>>
    ensures { Gives (λ n. n) told result (rehearsed (Ok plan.now) mtree.now) }
{
    let mut rehearsal = Rehearsal::new(alloc, plan)?;
    match rehearsal.piece(mtree) {
        Ok(()) => rehearsal.end(alloc),
        Err(fault) => Err(fault),
    }
}

/// Carries a plan out on a tree in memory that is as an inventory tells, and answers how many
/// records the plan has.
///
/// It refuses with the first fault in this order: the plan's text, by byte; the inventory's, by
/// line, told with the host of the plan; and the first record whose file is absent or is at neither
/// of its two owners. `Fault::Memory` is a growth that was refused.
///
/// It reads each text once, keeps the owners of the records' files, and looks the path of each
/// file of the inventory up once, and that of each record at most twice. A look-up takes one
/// comparison of paths in the order of the records, else one for each binary digit of their number
/// at most, whatever their names are.
pub fn rehearse<'a>(alloc: Global, plan: &'a [u8], mtree: &'a [u8]) -> Result<u32, Fault<'a>>
    ensures { Rehearses told plan.now mtree.now result }
{
    match plan_at(alloc, plan) {
        Ok(plan) => rehearse_plan(alloc, &plan, mtree),
        Err(fault) => Err(fault),
    }
}
