//! Numbers that are given to two names.
ghost use Rattle.std.specs.Prelude.{◌≡◌, IfOk};
ghost use Rattle.hosts_join.specs.Rules.{clash_of};
ghost use Rattle.hosts_join.specs.Clash.{clash_seen};
ghost use Rattle.hosts_join.specs.Views.{pairs_of};

use crate::Pair;
use std::alloc::{AllocError, Global};
use std::collections::HashMap;

/// A number that is given to two names.
#[derive(Clone, Copy)]
pub struct Clash<'a> {
    /// The uid or gid.
    pub number: u32,
    /// The name that came first.
    pub first: &'a [u8],
    /// The other name.
    pub second: &'a [u8],
}

/// The first two names of the least number that is given to two names.
pub fn find_clash<'a>(alloc: Global, claims: &[Pair<'a>]) -> Result<Option<Clash<'a>>, AllocError>
    ensures { IfOk result (λ o. clash_seen o ≡ clash_of (pairs_of claims.now)) }
{
    let mut firsts: HashMap<u32, &'a [u8]> = HashMap::new(alloc);
    let mut least: Option<Clash<'a>> = None;
    for claim in claims {
        match firsts.get(&claim.number).copied() {
            Some(first) => {
                let clash = Clash {
                    number: claim.number,
                    first,
                    second: claim.name,
                };
                match least {
                    None => least = Some(clash),
                    Some(so_far) => {
                        if clash.number < so_far.number {
                            least = Some(clash);
                        }
                    }
                }
            }
            None => {
                firsts.insert(claim.number, claim.name)?;
            }
        }
    }
    Ok(least)
}
