//! Two hosts that have each other's numbers: only the files of the first get new owners.

use hosts_join::HostText;
use idtext::ByteString;
use std::alloc::{AllocError, Global};

// A host's name, its passwd and its mtree, except for their last newline.
type Texts = (&'static [u8], &'static [u8], &'static [u8]);

const HOSTS: [Texts; 2] = [
    (
        b"a",
        b"alice:x:1001:100::/home/alice:/bin/sh\nbob:x:1002:100::/home/bob:/bin/sh",
        b"/set gid=100\n./alice1 uid=1001\n./alice2 uid=1001\n./alice3 uid=1001\n\
            ./alice4 uid=1001\n./alice5 uid=1001\n./bob1 uid=1002",
    ),
    (
        b"b",
        b"bob:x:1001:100::/home/bob:/bin/sh\nalice:x:1002:100::/home/alice:/bin/sh",
        b"/set gid=100\n./bob1 uid=1001\n./bob2 uid=1001\n./bob3 uid=1001\n./bob4 uid=1001\n\
            ./alice1 uid=1002\n./alice2 uid=1002\n./alice3 uid=1002",
    ),
];

// A host without a name and without texts.
fn empty_host(alloc: Global) -> HostText {
    HostText {
        name: ByteString::new(alloc),
        passwd: ByteString::new(alloc),
        group: ByteString::new(alloc),
        logindefs: ByteString::new(alloc),
        mtree: ByteString::new(alloc),
    }
}

// Gives a host a name, one group and the other texts, but no login.defs.
fn fill(
    alloc: Global,
    host: &mut HostText,
    (name, passwd, mtree): Texts,
) -> Result<(), AllocError> {
    host.name = ByteString::copy_of(alloc, name)?;
    host.passwd.push_line(passwd)?;
    host.group.push_line(b"users:x:100:")?;
    host.mtree.push_line(mtree)
}

/// The hosts a and b.
pub fn swap_hosts(alloc: Global) -> Result<Vec<HostText>, AllocError> {
    let mut hosts = Vec::new(alloc);
    for texts in HOSTS {
        let mut host = empty_host(alloc);
        fill(alloc, &mut host, texts)?;
        hosts.push(host)?;
    }
    Ok(hosts)
}
