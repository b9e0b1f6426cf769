//! What of one kind stays as it is on a site.

ghost use Rattle.std.specs.Prelude.{◌≡◌, ◌++◌, flat_map, IfOk, OnOk};
ghost use Rattle.kept_accounts.specs.Keeping.{IsKeeping, keeps};
ghost use Rattle.kept_accounts.specs.Reserving.{reserved_by, reserved_on};

use crate::kept_names::kept_names;
use crate::reserving::{UnownedNumber, by_name, push_ranges, push_unowned};
use hosts_join::{Host, Kind, Reserved, Runs};
use keep_text::{Kept, NameSet};
use std::alloc::{AllocError, Global};
use std::marker::Model;

/// What of one kind stays as it is on a site: the names that keep the numbers that they have.
#[derive(Drop)]
pub struct KeptKind<'a> {
    names: NameSet<'a>,
}

impl<'a> Model for KeptKind<'a> {
    ghost use Rattle.kept_accounts.specs.Keeping.{Keeping};

    ghost Value = { Keeping };

    ghost use Rattle.kept_accounts.specs.KindInside.{keeping_inside};

    ghost view = { keeping_inside };
}

impl<'a> KeptKind<'a> {
    /// What a keep text says of a kind, on these hosts. The listed ranges are sorted once; then it
    /// is two passes over the rows of the kind, with a few look-ups by hash and one by bisection
    /// for each. Memory in step with names and ranges; that of the ranges is given back.
    pub fn of<K: Kind>(
        alloc: Global,
        keep: &Kept<'_>,
        hosts: &[Host<'a>],
    ) -> Result<Self, AllocError>
        ensures { IfOk result (IsKeeping keep.now (flat_map K.listed hosts.now)) }
    {
        let runs = Runs::of(alloc, keep.ranges.ranges())?;
        let names = kept_names::<K>(alloc, keep, &runs, hosts)?;
        Ok(KeptKind { names })
    }

    /// Whether the name keeps, on each host, the number that it has there. One look-up by hash.
    pub fn is_kept(&self, name: &[u8]) -> bool
        ensures { result ≡ keeps self.now name.now }
    {
        self.names.has(name)
    }

    // Appends the numbers that kept names have on a host.
    fn push_kept<K: Kind>(
        &self,
        reserved: &mut Vec<Reserved<'a>>,
        host: &Host<'a>,
    ) -> Result<(), AllocError>
        ensures { OnOk result (reserved.new.items
            ≡ reserved.old.items ++ reserved_on (keeps self.now) K.listed host.now) }
    {
        for place in 0..K::count(host) {
            let name = K::name(host, place);
            if self.is_kept(name) {
                reserved.push(by_name(host, name, K::number(host, place)))?;
            }
        }
        Ok(())
    }

    /// The numbers that no name is to be given, where this was made from the same text and hosts:
    /// the listed ranges in the order of their lines; then, host by host and in the order of rows,
    /// the numbers of names that are kept; then, where the text says so, those of `unowned`. One
    /// look-up by hash for each row.
    pub fn reserved<K: Kind>(
        &self,
        alloc: Global,
        keep: &Kept<'_>,
        hosts: &[Host<'a>],
        unowned: &[UnownedNumber<'a>],
    ) -> Result<Vec<Reserved<'a>>, AllocError>
        ensures { IfOk result (λ reserved. reserved.items
            ≡ reserved_by (keeps self.now) K.listed keep.now hosts.now unowned.now) }
    {
        let mut reserved = Vec::new(alloc);
        push_ranges(&mut reserved, keep.ranges.ranges())?;
        for host in hosts {
            self.push_kept::<K>(&mut reserved, host)?;
        }
        if keep.unowned {
            push_unowned(&mut reserved, unowned)?;
        }
        Ok(reserved)
    }
}
