//! Rehearsals of a whole site, which no command makes.
ghost use Rattle.std.specs.Prelude.{◌≡◌, ◌<◌, ◌↔◌, IsTrue};
ghost use Rattle.std.specs.List.{All};
ghost use Rattle.reown_runner.specs.Campaign.{host_of};

use crate::tests::hosts::swap_hosts;
use hosts_join::HostText;
use kept_accounts::UnownedNumbers;
use reown_plan::{Owner, Plan, PlanMark};
use reown_runner::{Event, Keep, MemTree, Tree};
use site_tables::{KeepRules, SiteRules};
use std::alloc::Global;
use std::process::Abort;
use std::test::Fail;
use unify_bundle::{SiteRun, rehearse_site};

const FILES_OF_A: &[&[u8]] = &[
    b"alice1", b"alice2", b"alice3", b"alice4", b"alice5", b"bob1",
];

const FILES_OF_B: &[&[u8]] = &[
    b"bob1", b"bob2", b"bob3", b"bob4", b"alice1", b"alice2", b"alice3",
];

// The users of a's files before and after the plan, and when its first record is done; and those of
// b's, which stay.
const OLD: &[u32] = &[1001, 1001, 1001, 1001, 1001, 1002];

const NEW: &[u32] = &[1002, 1002, 1002, 1002, 1002, 1001];

const FIRST_NEW: &[u32] = &[1002, 1001, 1001, 1001, 1001, 1002];

const OF_B: &[u32] = &[1001, 1001, 1001, 1001, 1002, 1002, 1002];

// An advance of a, and one of b.
const A: Event = Event::Advance(0);

const B: Event = Event::Advance(1);

const ALL_ADVANCES: &[Event] = &[A, A, A, A, A, A, A, A, A, A, B, B, B, B];

const WRITE_AND_STOP: &[Event] = &[A, A, Event::Stop(0)];

// What a stop keeps, the events, whether both hosts are done then, and the users of a's files.
type Course = (Keep, &'static [Event], bool, &'static [u32]);

const COURSES: [Course; 3] = [
    // site-rehearsed
    (Keep::Lost, ALL_ADVANCES, true, NEW),
    // site-stopped: a write that was not synced is lost, or is not, as the choice says.
    (Keep::Lost, WRITE_AND_STOP, false, OLD),
    (Keep::All, WRITE_AND_STOP, false, FIRST_NEW),
];

fn index_of(event: Event) -> usize
    ensures { result ≡ host_of event }
{
    match event {
        Event::Advance(host) => host as usize,
        Event::Stop(host) => host as usize,
    }
}

// Whether each event is for one of so many hosts.
fn are_for(events: &[Event], hosts: usize) -> bool
    ensures { IsTrue result ↔ All (λ event. host_of event < hosts) events.now }
{
    events.iter().all(|event| index_of(*event) < hosts)
}

// The rehearsal of hosts that nothing refuses.
fn rehearsed(
    alloc: Global,
    hosts: &[HostText],
    keep: Keep,
    events: &[Event],
) -> Result<SiteRun, Fail> {
    if !are_for(events, hosts.len()) {
        return Err(Fail::new("an event is for no host"));
    }
    let kept = KeepRules::new(b"", UnownedNumbers::none(alloc));
    match rehearse_site(alloc, hosts, &SiteRules::new(b"", kept), keep, events) {
        Ok(run) => Ok(run),
        Err(_) => Err(Fail::new("the site was refused")),
    }
}

// The mark of the plan that was printed for a host.
fn mark_of(alloc: Global, run: &SiteRun, host: usize) -> Result<PlanMark, Fail> {
    match run.outcome.plans.texts().get(host) {
        Some(text) => Ok(Plan::read(alloc, text.bytes())?.mark()),
        None => Err(Fail::new("a host has no plan")),
    }
}

// The users of a tree's files.
fn check_tree(rt: &impl Abort, tree: &mut MemTree, files: &[&[u8]], users: &[u32]) {
    for (path, uid) in files.iter().zip(users.iter()) {
        let owner = Owner {
            uid: *uid,
            gid: 100,
        };
        assert!(rt; tree.owner(*path) == Ok(Some(owner)));
    }
}

// A tree is marked for its host's plan exactly where that is done.
fn check(
    rt: &impl Abort,
    alloc: Global,
    run: &mut SiteRun,
    done: bool,
    users: &[u32],
) -> Result<(), Fail> {
    assert!(rt; run.done.as_slice() == [done, done].as_slice());
    let marks = [mark_of(alloc, run, 0)?, mark_of(alloc, run, 1)?];
    assert!(rt; run.trees.len() == 2);
    check_tree(rt, &mut run.trees[0], FILES_OF_A, users);
    check_tree(rt, &mut run.trees[1], FILES_OF_B, OF_B);
    assert!(rt; run.trees[0].is_marked(&marks[0]) == Ok(done));
    assert!(rt; run.trees[1].is_marked(&marks[1]) == Ok(done));
    Ok(())
}

#[test]
fn site_rehearsed(rt: HostRuntime) -> Result<(), Fail> {
    let hosts = swap_hosts(rt.alloc())?;
    check_courses(&rt, rt.alloc(), &hosts)
}

fn check_courses(rt: &impl Abort, alloc: Global, hosts: &[HostText]) -> Result<(), Fail> {
    for (keep, events, done, users) in COURSES {
        let mut run = rehearsed(alloc, hosts, keep, events)?;
        check(rt, alloc, &mut run, done, users)?;
    }
    Ok(())
}
