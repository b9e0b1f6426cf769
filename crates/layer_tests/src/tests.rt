//! Calls of the readers, and the runner's worked courses of a plan of six files. What a rehearsal
//! tells is shown by bundles.

mod campaigns;
mod failures;
mod keep_texts;
mod kept_on_hosts;
mod marks;
mod readers;
mod reserved_numbers;
mod stops;

use mtree_inv::read_inventory;
use reown_plan::{Owner, Plan};
use reown_runner::{MemTree, Tree};
use std::alloc::Global;
use std::process::Abort;
use std::test::Fail;

// Five files go from 1001 to 1002, and one the other way.
const PLAN: &[u8] = b"unify plan 1 a\n1001 100 1002 100 6 alice1\n1001 100 1002 100 6 alice2\n\
        1001 100 1002 100 6 alice3\n1001 100 1002 100 6 alice4\n1001 100 1002 100 6 alice5\n\
        1002 100 1001 100 4 bob1\nend\n";

const INVENTORY: &[u8] =
    b"/set gid=100\n./alice1 uid=1001\n./alice2 uid=1001\n./alice3 uid=1001\n./alice4 uid=1001\n\
        ./alice5 uid=1001\n./bob1 uid=1002\n";

// The files of the plan, with their old and new users.
const FILES: [(&[u8], u32, u32); 6] = [
    (b"alice1", 1001, 1002),
    (b"alice2", 1001, 1002),
    (b"alice3", 1001, 1002),
    (b"alice4", 1001, 1002),
    (b"alice5", 1001, 1002),
    (b"bob1", 1002, 1001),
];

// Which of the files are at their new owner.
const NONE: [bool; 6] = [false; 6];

const FIRST: [bool; 6] = [true, false, false, false, false, false];

const EVERY_OTHER: [bool; 6] = [true, false, true, false, true, false];

const ALL: [bool; 6] = [true; 6];

fn tree_of(alloc: Global, text: &[u8]) -> Result<MemTree, Fail> {
    let inventory = read_inventory(alloc, text, 16)?;
    Ok(MemTree::new(alloc, &inventory)?)
}

// Whether each file of the plan is at its new owner, and whether the tree is marked for it.
fn check<T: Tree>(rt: &impl Abort, plan: &Plan, tree: &mut T, new: [bool; 6], marked: bool) {
    for ((path, old_uid, new_uid), is_new) in FILES.iter().zip(new.iter()) {
        let uid = if *is_new { *new_uid } else { *old_uid };
        assert!(rt; tree.owner(path) == Ok(Some(Owner { uid, gid: 100 })));
    }
    assert!(rt; tree.is_marked(&plan.mark()) == Ok(marked));
}
