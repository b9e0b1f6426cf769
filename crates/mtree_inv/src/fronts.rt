//! The fronts of paths, each kept once.
ghost use Rattle.std.specs.Prelude.{◌≡◌, ◌<◌, length, IfOk};
ghost use Rattle.mtree_inv.specs.Fronts.{block_len, AreFronts, GrowTo, IsCutOf, IsFrontAt};

use crate::cuts::{Cuts, no_cuts};
use crate::hashed_cut::HashedCut;
use crate::places::number_at;
use std::alloc::{AllocError, Global};
use std::marker::Model;

// How many bytes a front grows by.
const BLOCK_LEN: usize = 256;

/// The fronts of paths. A front is a whole number of blocks. Number 0 is the empty one, and each
/// other is one before it and a block more, so that it is kept as a number and one block, however
/// long it is.
#[derive(Drop)]
pub(crate) struct Fronts {
    cuts: Cuts,
}

impl Model for Fronts {
    ghost use Rattle.std.specs.Prelude.{ℕ, List};
    ghost use Rattle.mtree_inv.specs.Fronts.{fronts_in, AreFrontCuts};

    ghost Value = { List (List ℕ) };

    ghost view = { λ f. fronts_in f.cuts };

    ghost invariant = { λ f. AreFrontCuts f.cuts };
}

/// The empty front alone. Takes no memory.
pub(crate) fn empty_front(alloc: Global) -> Fronts
    ensures { AreFronts result }
{
    Fronts {
        cuts: no_cuts(alloc),
    }
}

// The number of the front that this front and the block after it make.
fn number_of(
    fronts: &mut Fronts,
    alloc: Global,
    front: u32,
    block: &[u8],
) -> Result<u32, AllocError>
    requires are { AreFronts fronts.old }
    requires kept { front < length fronts.old }
    requires block { length block.now ≡ block_len }
    ensures ok { IfOk result (IsFrontAt fronts.new (front, block.now)) }
    ensures fronts { AreFronts fronts.new }
    ensures grow { GrowTo fronts.old fronts.new }
{
    let last = fronts.cuts.len();
    if let Some(index) = fronts
        .cuts
        .find_or_push(alloc, &HashedCut::new(front, block))?
    {
        return number_at(index).ok_or(AllocError);
    }
    number_at(last).ok_or(AllocError)
}

/// Cuts a path. Fronts of it that are missing are added, and stay where memory is refused: then no
/// path may have them.
pub(crate) fn cut<'a>(
    fronts: &mut Fronts,
    alloc: Global,
    path: &'a [u8],
) -> Result<HashedCut<'a>, AllocError>
    requires { AreFronts fronts.old }
    ensures ok { IfOk result (λ found. IsCutOf fronts.new found path.now) }
    ensures fronts { AreFronts fronts.new }
    ensures grow { GrowTo fronts.old fronts.new }
{
    let mut front = 0;
    let mut rest = path;
    while rest.len() > BLOCK_LEN {
        let (block, behind) = rest.split_at(BLOCK_LEN);
        front = number_of(fronts, alloc, front, block)?;
        rest = behind;
    }
    Ok(HashedCut::new(front, rest))
}
