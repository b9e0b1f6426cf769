//! A plan whose run is cut off by a call of the device that fails, and then goes on.

use crate::tests::{ALL, FIRST, INVENTORY, PLAN, check, tree_of};
use reown_plan::Plan;
use reown_runner::{FailTree, Item, Place, RunFault, Runner, Tree};
use std::alloc::{AllocError, Global};
use std::process::Abort;
use std::test::Fail;

// How many calls pass before one that fails, how it does, where the runner is then, and which files
// are at their new owner.
type Failure = (usize, Item, Place, [bool; 6]);

const FAILURES: [Failure; 2] = [
    // write-done-then-failed: the mark and an owner are read.
    (2, Item::FailAfter, Place::Record(0), FIRST),
    // sync-fails-once
    (13, Item::FailBefore, Place::SyncOwners, ALL),
];

fn script_of(alloc: Global, passes: usize, last: Item) -> Result<Vec<Item>, AllocError> {
    let mut script = vec![in alloc; Item::Pass; passes]?;
    script.push(last)?;
    Ok(script)
}

fn failing_tree(alloc: Global, passes: usize, last: Item) -> Result<FailTree, Fail> {
    let script = script_of(alloc, passes, last)?;
    Ok(FailTree::new(tree_of(alloc, INVENTORY)?, script))
}

fn check_failure(rt: &impl Abort, plan: &Plan, tree: &mut FailTree, place: Place, new: [bool; 6]) {
    let mut runner = Runner::new(plan);
    assert!(rt; runner.run(tree) == Err(RunFault::Device));
    assert!(rt; runner.place() == place && tree.faults() == 1);
    check(rt, plan, tree, new, false);
    assert!(rt; runner.run(tree) == Ok(()));
    check(rt, plan, tree, ALL, true);
}

#[test]
fn failures(rt: HostRuntime) -> Result<(), Fail> {
    let plan = Plan::read(rt.alloc(), PLAN)?;
    for (passes, last, place, new) in FAILURES {
        let mut tree = failing_tree(rt.alloc(), passes, last)?;
        check_failure(&rt, &plan, &mut tree, place, new);
    }
    Ok(())
}
