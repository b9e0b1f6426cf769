//! Campaigns of two hosts that have each other's numbers: the plan of the second has no records.

use crate::tests::{ALL, INVENTORY, PLAN, check, tree_of};
use reown_plan::{Owner, Plan};
use reown_runner::{Campaign, DriveFault, Event, EventFault, FailTree, Item, RunFault, Tree};
use std::alloc::{AllocError, Global};
use std::process::Abort;
use std::test::Fail;

const SECOND_PLAN: &[u8] = b"unify plan 1 b\nend\n";

const SECOND_INVENTORY: &[u8] =
    b"/set gid=100\n./bob1 uid=1001\n./bob2 uid=1001\n./bob3 uid=1001\n./bob4 uid=1001\n\
        ./alice1 uid=1002\n./alice2 uid=1002\n./alice3 uid=1002\n";

// The files of the second host, with their users, which stay.
const SECOND_FILES: [(&[u8], u32); 7] = [
    (b"bob1", 1001),
    (b"bob2", 1001),
    (b"bob3", 1001),
    (b"bob4", 1001),
    (b"alice1", 1002),
    (b"alice2", 1002),
    (b"alice3", 1002),
];

// An advance of the first host, and one of the second.
const A: Event = Event::Advance(0);

const B: Event = Event::Advance(1);

fn both_plans(alloc: Global) -> Result<Vec<Plan<'static>>, Fail> {
    let mut plans = Vec::new(alloc);
    for text in [PLAN, SECOND_PLAN] {
        plans.push(Plan::read(alloc, text)?)?;
    }
    Ok(plans)
}

fn scripted_tree(alloc: Global, text: &[u8], items: &[Item]) -> Result<FailTree, Fail> {
    let script = Vec::from_slice(alloc, items)?;
    Ok(FailTree::new(tree_of(alloc, text)?, script))
}

// The trees of both hosts. The calls of the first fail as the items say, those of the second don't.
fn both_trees(alloc: Global, items: &[Item]) -> Result<Vec<FailTree>, Fail> {
    let mut trees = Vec::new(alloc);
    trees.push(scripted_tree(alloc, INVENTORY, items)?)?;
    trees.push(scripted_tree(alloc, SECOND_INVENTORY, &[])?)?;
    Ok(trees)
}

// A campaign of these plans on these trees.
fn campaign_of<'p, 'a>(
    rt: &impl Abort,
    alloc: Global,
    plans: &'p [Plan<'a>],
    trees: Vec<FailTree>,
) -> Result<Campaign<'p, 'a, FailTree>, Fail> {
    assert!(rt; trees.len() == plans.len());
    match Campaign::new(alloc, plans, trees) {
        Ok(campaign) => Ok(campaign),
        Err((error, trees)) => {
            drop(trees);
            Err(error.into())
        }
    }
}

// Each file of the second tree is as it was, and the tree is marked for its plan.
fn check_second(rt: &impl Abort, plan: &Plan, tree: &mut FailTree) {
    for (path, uid) in SECOND_FILES {
        assert!(rt; tree.owner(path) == Ok(Some(Owner { uid, gid: 100 })));
    }
    assert!(rt; tree.is_marked(&plan.mark()) == Ok(true));
}

fn check_both(rt: &impl Abort, plans: &[Plan<'_>], trees: &mut [FailTree]) {
    assert!(rt; plans.len() == 2 && trees.len() == 2);
    check(rt, &plans[0], &mut trees[0], ALL, true);
    check_second(rt, &plans[1], &mut trees[1]);
}

// The fourteen advances of both hosts: a bit that is set is one of the second host.
fn advances_of(alloc: Global, order: u32) -> Result<Vec<Event>, AllocError> {
    let mut events = Vec::new(alloc);
    for bit in 0..14u32 {
        events.push(Event::Advance((order >> bit) & 1))?;
    }
    Ok(events)
}

fn interleave(rt: &impl Abort, alloc: Global, plans: &[Plan<'_>], order: u32) -> Result<(), Fail> {
    let events = advances_of(alloc, order)?;
    let mut campaign = campaign_of(rt, alloc, plans, both_trees(alloc, &[])?)?;
    assert!(rt; campaign.drive(&events) == Ok(true));
    check_both(rt, plans, &mut campaign.into_trees());
    Ok(())
}

// Each of the 1001 orders in which four of the fourteen advances are of the second host.
#[test]
fn swap_campaign(rt: HostRuntime) -> Result<(), Fail> {
    let plans = both_plans(rt.alloc())?;
    for order in 0..16384u32 {
        if order.count_ones() == 4 {
            interleave(&rt, rt.alloc(), &plans, order)?;
        }
    }
    Ok(())
}

// Events that are driven one list after the other, with the answers.
type Drives = &'static [(&'static [Event], Result<bool, DriveFault>)];

const ALL_ADVANCES: &[Event] = &[A, A, A, A, A, A, A, A, A, A, B, B, B, B];

const ALL_BUT_TWO: &[Event] = &[A, A, A, A, A, A, A, A, B, B, B, B];

const DEVICE_FIRST: DriveFault = DriveFault {
    event: 0,
    fault: EventFault::Run(RunFault::Device),
};

const NO_HOST_FIRST: DriveFault = DriveFault {
    event: 0,
    fault: EventFault::NoSuchHost,
};

const NO_HOST_SECOND: DriveFault = DriveFault {
    event: 1,
    fault: EventFault::NoSuchHost,
};

// swap-campaign-late-stop
const LATE_STOP: Drives = &[
    (ALL_ADVANCES, Ok(true)),
    (&[Event::Stop(0)], Ok(false)),
    (&[A], Ok(true)),
];

// campaign-no-such-host: the event before the refused one has happened.
const NO_THIRD_HOST: Drives = &[
    (&[A, Event::Stop(2)], Err(NO_HOST_SECOND)),
    (ALL_BUT_TWO, Ok(false)),
    (&[A], Ok(true)),
];

// campaign-device-fault
const DEVICE_FAULT: Drives = &[(&[A], Err(DEVICE_FIRST)), (ALL_ADVANCES, Ok(true))];

// empty-campaign
const NO_HOST: Drives = &[(&[], Ok(true)), (&[A], Err(NO_HOST_FIRST))];

fn drive(rt: &impl Abort, campaign: &mut Campaign<FailTree>, drives: Drives) {
    for (events, answer) in drives {
        assert!(rt; campaign.drive(*events) == *answer);
    }
}

fn check_drives(
    rt: &impl Abort,
    alloc: Global,
    plans: &[Plan<'_>],
    items: &[Item],
    drives: Drives,
) -> Result<(), Fail> {
    let mut campaign = campaign_of(rt, alloc, plans, both_trees(alloc, items)?)?;
    drive(rt, &mut campaign, drives);
    Ok(())
}

#[test]
fn campaigns(rt: HostRuntime) -> Result<(), Fail> {
    let plans = both_plans(rt.alloc())?;
    check_drives(&rt, rt.alloc(), &plans, &[], LATE_STOP)?;
    check_drives(&rt, rt.alloc(), &plans, &[], NO_THIRD_HOST)?;
    check_drives(&rt, rt.alloc(), &plans, &[Item::FailBefore], DEVICE_FAULT)
}

#[test]
fn empty_campaign(rt: HostRuntime) -> Result<(), Fail> {
    let plans = Vec::new(rt.alloc());
    let mut campaign = campaign_of(&rt, rt.alloc(), &plans, Vec::new(rt.alloc()))?;
    drive(&rt, &mut campaign, NO_HOST);
    Ok(())
}
