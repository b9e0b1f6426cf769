//! Names in order of their numbers.
ghost use Rattle.std.specs.Prelude.{◌≡◌, ◌<◌, length, IfOk};
ghost use Rattle.std.specs.List.{All};
ghost use Rattle.mergedfiles.specs.Order as order;

use ownership::Mapping;
use std::alloc::{AllocError, Global};

/// The indices of names, each with its number, ascending by number.
pub fn by_number(
    alloc: Global,
    count: u32,
    mapping: &Mapping,
) -> Result<Vec<(u32, u32)>, AllocError>
    requires { length mapping.now ≡ count }
    ensures order { IfOk result (λ found. found.items ≡ order.by_number mapping.now) }
    ensures within { IfOk result (λ found. All (λ p. p.0 < length mapping.now) found.items) }
{
    let mut found = Vec::with_capacity(alloc, mapping.len())?;
    for index in 0..count {
        found.push((index, mapping.number(index)))?;
    }
    found.sort_unstable_by_key(|account| account.1);
    Ok(found)
}
