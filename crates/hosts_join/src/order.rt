//! Names in byte order.
ghost use Rattle.std.specs.Prelude.{◌≡◌, ◌<◌, ◌^◌, length, map, IfOk};
ghost use Rattle.std.specs.List.{All, range_with_len};
ghost use Rattle.hosts_join.specs.Heads.{HasItsHead, IsHeadOf, named};
ghost use Rattle.hosts_join.specs.Index.{accounts_in, ArePaired};
ghost use Rattle.hosts_join.specs.Order.{name_at, AreInByteOrder};
ghost use Rattle.hosts_join.specs.Views.{placed};

use crate::index::Index;
use std::alloc::{AllocError, Global};

/// A name with its head and its place, in the order in which a sort compares them.
type Headed<'a> = (u64, (&'a [u8], u32));

/// The first eight bytes of a name as one number, with zeros after a shorter name. Of two names
/// with unlike heads the one with the lower head is first in byte order, and no text is looked at.
fn head(name: &[u8]) -> u64
    ensures { IsHeadOf result name.now }
{
    let mut head = 0;
    let mut rest = name;
    for _ in 0..8_u32 {
        let (byte, others) = match rest.split_first() {
            Some((first, others)) => (*first, others),
            None => (0, rest),
        };
        head = head * 256 + u64::from(byte);
        rest = others;
    }
    head
}

/// The names with their heads and places.
fn names_with_places<'a>(alloc: Global, index: &Index<'a>) -> Result<Vec<Headed<'a>>, AllocError>
    requires paired { ArePaired index.now }
    requires few { length (accounts_in index.now) < 2 ^ 32 }
    ensures names { IfOk result (λ names. map placed (map named names.items)
        ≡ map (λ i. (name_at (accounts_in index.now) i, i))
        (range_with_len 0 (length (accounts_in index.now)))) }
    ensures heads { IfOk result (λ names. All HasItsHead names.items) }
{
    let mut names = Vec::with_capacity(alloc, index.len())?;
    for place in 0..index.len() {
        let name = index.name(place);
        names.push((head(name), (name, place as u32)))?;
    }
    Ok(names)
}

/// The places of names, by the names in byte order. One sort.
pub fn in_byte_order(alloc: Global, index: &Index<'_>) -> Result<Vec<u32>, AllocError>
    requires paired { ArePaired index.now }
    requires few { length (accounts_in index.now) < 2 ^ 32 }
    ensures { IfOk result (λ order. AreInByteOrder (accounts_in index.now) order.items) }
{
    let mut names = names_with_places(alloc, index)?;
    names.sort_unstable();
    let mut order = Vec::with_capacity(alloc, names.len())?;
    for (_, (_, place)) in &names {
        order.push(*place)?;
    }
    Ok(order)
}
