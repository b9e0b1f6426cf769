//! Keep texts, which no command shows.

use keep_text::{KeepFault, KeepText, read_keep};
use std::alloc::{AllocError, Global};
use std::test::Fail;

const EACH_KIND: &[u8] =
    b"#\nuser root\nuser a b \n\t\nusers 0 999\nusers 500 0600\n\ngroup root\ngroups 7 7\n\
        unowned groups";

// What a text says that has no fault, unless memory was refused.
fn read(alloc: Global, text: &[u8]) -> Result<KeepText<'_>, AllocError> {
    match read_keep(alloc, text) {
        Ok(keep) => Ok(keep),
        Err(_) => Err(AllocError),
    }
}

#[test]
fn keep_lines(rt: HostRuntime) -> Result<(), Fail> {
    let keep = read(rt.alloc(), EACH_KIND)?;
    assert_eq!(rt; keep.users.names.len(), 2);
    assert!(rt; keep.users.names.has(b"root") && keep.users.names.has(b"a b "));
    assert_eq!(rt; keep.groups.names.len(), 1);
    assert_eq!(rt; keep.users.ranges.ranges().len(), 2);
    assert!(rt; keep.users.ranges.has(0) && keep.users.ranges.has(999));
    assert!(rt; !keep.users.ranges.has(1000) && !keep.groups.ranges.has(8));
    assert!(rt; !keep.users.unowned && keep.groups.unowned);
    Ok(())
}

// The line of a text's fault, if it has one, unless memory was refused.
fn bad_line(alloc: Global, text: &[u8]) -> Result<Option<u64>, AllocError> {
    match read_keep(alloc, text) {
        Ok(_) => Ok(None),
        Err(KeepFault::BadKeep(line)) => Ok(Some(line)),
        Err(KeepFault::Memory) => Err(AllocError),
    }
}

// A text, and the line of its fault.
type Judged = (&'static [u8], Option<u64>);

const TEXTS: [Judged; 14] = [
    (b"", None),
    (b"user a\ngroup a\nusers 1 2\nusers 1 2\n", None),
    (b"users 4294967294 4294967294", None),
    (b"users 0 4294967295", Some(1)),
    (b"users 2 1", Some(1)),
    (b"users 1  2", Some(1)),
    (b"users 1", Some(1)),
    (b"user ", Some(1)),
    (b"user a:b", Some(1)),
    (b" user a", Some(1)),
    (b"user a\n#\nuser b\nuser a\n", Some(4)),
    (b"unowned users\nunowned users\n", Some(2)),
    (b"unowned users \n", Some(1)),
    (b"user a 1\nkeep\n", Some(2)),
];

#[test]
fn keep_faults(rt: HostRuntime) -> Result<(), Fail> {
    for (text, line) in TEXTS {
        assert_eq!(rt; bad_line(rt.alloc(), text)?, line);
    }
    Ok(())
}
