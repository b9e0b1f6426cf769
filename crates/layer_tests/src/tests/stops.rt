//! A plan that stops after some advances, and that a new runner then carries out.

use crate::tests::{ALL, EVERY_OTHER, FIRST, INVENTORY, NONE, PLAN, check, tree_of};
use reown_plan::Plan;
use reown_runner::{Keep, MemTree, Place, Progress, Runner, Tree};
use std::alloc::Global;
use std::process::Abort;
use std::test::Fail;

// A stop after so many advances, which files it leaves at their new owner, and whether it leaves
// the tree marked.
type Stop = (Keep, usize, [bool; 6], bool);

const STOPS: [Stop; 7] = [
    // stop-after-first-write
    (Keep::Lost, 2, NONE, false),
    (Keep::All, 2, FIRST, false),
    // stop-before-sync
    (Keep::Lost, 7, NONE, false),
    // stop-alternate
    (Keep::Alternate, 7, EVERY_OTHER, false),
    // stop-mark-only
    (Keep::MarkOnly, 7, NONE, false),
    // mark-written-stop-mark-only
    (Keep::MarkOnly, 9, ALL, true),
    // mark-written-stop-lost
    (Keep::Lost, 9, ALL, false),
];

const KEEPS: [Keep; 4] = [Keep::All, Keep::Lost, Keep::Alternate, Keep::MarkOnly];

// Advances so many times, and stops.
fn stop(rt: &impl Abort, plan: &Plan, tree: &mut MemTree, keep: Keep, advances: usize) {
    tree.on_reopen(keep);
    let mut runner = Runner::new(plan);
    for _ in 0..advances {
        assert!(rt; runner.advance(tree).is_ok());
    }
    tree.reopen();
}

// A new runner carries the plan out. Where the tree is marked for it, it is done by its first
// advance.
fn finish(rt: &impl Abort, plan: &Plan, tree: &mut MemTree) {
    let marked = tree.is_marked(&plan.mark()) == Ok(true);
    let mut runner = Runner::new(plan);
    let first = runner.advance(tree);
    assert!(rt; (first == Ok(Progress::Done)) == marked && first.is_ok());
    assert!(rt; runner.run(tree) == Ok(()) && runner.place() == Place::Done);
    check(rt, plan, tree, ALL, true);
}

#[test]
fn stops(rt: HostRuntime) -> Result<(), Fail> {
    let plan = Plan::read(rt.alloc(), PLAN)?;
    check_stops(&rt, rt.alloc(), &plan)
}

fn check_stops(rt: &impl Abort, alloc: Global, plan: &Plan) -> Result<(), Fail> {
    for (keep, advances, new, marked) in STOPS {
        let mut tree = tree_of(alloc, INVENTORY)?;
        stop(rt, plan, &mut tree, keep, advances);
        check(rt, plan, &mut tree, new, marked);
        finish(rt, plan, &mut tree);
    }
    Ok(())
}

#[test]
fn stop_everywhere(rt: HostRuntime) -> Result<(), Fail> {
    let plan = Plan::read(rt.alloc(), PLAN)?;
    for keep in KEEPS {
        stop_at_each(&rt, rt.alloc(), &plan, keep)?;
    }
    Ok(())
}

// Stops after each number of advances.
fn stop_at_each(rt: &impl Abort, alloc: Global, plan: &Plan, keep: Keep) -> Result<(), Fail> {
    for advances in 0..11 {
        let mut tree = tree_of(alloc, INVENTORY)?;
        stop(rt, plan, &mut tree, keep, advances);
        finish(rt, plan, &mut tree);
    }
    Ok(())
}
