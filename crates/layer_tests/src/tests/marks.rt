//! Trees that are marked for a plan, for this one or another.

use crate::tests::{ALL, INVENTORY, NONE, PLAN, check, tree_of};
use reown_plan::Plan;
use reown_runner::{MemTree, Place, Progress, RunFault, Runner, Tree};
use std::alloc::Global;
use std::process::Abort;
use std::test::Fail;

// The plan that takes the other back: each owner turned.
const BACK: &[u8] = b"unify plan 1 a\n1002 100 1001 100 6 alice1\n1002 100 1001 100 6 alice2\n\
        1002 100 1001 100 6 alice3\n1002 100 1001 100 6 alice4\n1002 100 1001 100 6 alice5\n\
        1001 100 1002 100 4 bob1\nend\n";

fn carry_out(rt: &impl Abort, plan: &Plan, tree: &mut MemTree) {
    let mut runner = Runner::new(plan);
    assert!(rt; runner.run(tree) == Ok(()) && runner.place() == Place::Done);
}

// marked-for-another-plan: each plan begins anew where the other was done last.
#[test]
fn marked_for_another_plan(rt: HostRuntime) -> Result<(), Fail> {
    let plan = Plan::read(rt.alloc(), PLAN)?;
    let back = Plan::read(rt.alloc(), BACK)?;
    let mut tree = tree_of(rt.alloc(), INVENTORY)?;
    carry_out(&rt, &plan, &mut tree);
    check(&rt, &back, &mut tree, ALL, false);
    carry_out(&rt, &back, &mut tree);
    check(&rt, &plan, &mut tree, NONE, false);
    check(&rt, &back, &mut tree, NONE, true);
    carry_out(&rt, &plan, &mut tree);
    check(&rt, &plan, &mut tree, ALL, true);
    Ok(())
}

// An inventory of a tree that is marked for the plan, and what the first advance answers.
type Marked = (&'static [u8], Result<Progress, RunFault>);

const MARKED: [Marked; 5] = [
    // marked-all-old
    (INVENTORY, Err(RunFault::Unfinished(0))),
    // marked-one-old
    (
        b"/set gid=100 uid=1002\n./alice1\n./alice2\n./alice3\n./alice4\n./alice5\n./bob1\n",
        Err(RunFault::Unfinished(5)),
    ),
    // marked-one-missing
    (
        b"/set gid=100 uid=1002\n./alice1\n./alice2\n./alice4\n./alice5\n./bob1 uid=1001\n",
        Err(RunFault::Missing(2)),
    ),
    // marked-one-foreign
    (
        b"/set gid=100 uid=1002\n./alice1\n./alice2 uid=7\n./alice3\n./alice4\n./alice5\n\
            ./bob1 uid=1001\n",
        Err(RunFault::Foreign(1)),
    ),
    // marked-all-new
    (
        b"/set gid=100 uid=1002\n./alice1\n./alice2\n./alice3\n./alice4\n./alice5\n\
            ./bob1 uid=1001\n",
        Ok(Progress::Done),
    ),
];

#[test]
fn marked(rt: HostRuntime) -> Result<(), Fail> {
    let plan = Plan::read(rt.alloc(), PLAN)?;
    for (text, answer) in MARKED {
        check_marked(&rt, rt.alloc(), &plan, text, answer)?;
    }
    Ok(())
}

fn check_marked(
    rt: &impl Abort,
    alloc: Global,
    plan: &Plan,
    text: &[u8],
    answer: Result<Progress, RunFault>,
) -> Result<(), Fail> {
    let mut tree = tree_of(alloc, text)?;
    assert!(rt; tree.set_mark(&plan.mark()) == Ok(()));
    let mut runner = Runner::new(plan);
    assert!(rt; runner.advance(&mut tree) == answer);
    Ok(())
}
