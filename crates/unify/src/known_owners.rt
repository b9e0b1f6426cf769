//! What was found of the owners of a host's files.

ghost use Rattle.std.specs.Prelude.{◌≡◌, ◌<◌, true, false, None, IfOk, IsSome};
ghost use Rattle.unify.specs.KnownOwners.{NoneIsKnown};

use crate::row_files::OwnerPlaces;
use mtree_inv::Entry;
use reown_plan::OwnerChange;
use std::alloc::{AllocError, Global};

// Of how many owners it is kept.
const MOST_KNOWN: usize = 8192;

/// An owner of files, the places of the rows that have it, and what its files get, where that was
/// found. In the memory of a machine it takes one line of a cache.
#[derive(Drop)]
pub struct KnownOwner {
    pub places: OwnerPlaces,
    pub change: Option<OwnerChange>,
}

impl KnownOwner {
    // Nothing is known yet.
    fn none() -> KnownOwner
        ensures { result.change ≡ None }
    {
        KnownOwner {
            places: OwnerPlaces::default(),
            change: None,
        }
    }

    /// Whether it is known, and that of a file.
    pub fn is_of(&self, file: &Entry) -> bool
        ensures same { result ≡ true
            → IsSome self.now.change × (self.now.places.uid ≡ file.now.uid)
            × (self.now.places.gid ≡ file.now.gid) }
        ensures differ { result ≡ false
            → IsSome self.now.change → self.now.places.uid ≡ file.now.uid
            → self.now.places.gid ≡ file.now.gid → ⊥ }
    {
        self.change.is_some() && self.places.are_of(file)
    }
}

/// Nothing is known yet of any owner. Memory for 8192 of them; `AllocError` where it is refused.
pub fn no_owners(alloc: Global) -> Result<Vec<KnownOwner>, AllocError>
    ensures { IfOk result (λ owners. NoneIsKnown owners.items) }
{
    let mut owners = Vec::with_capacity(alloc, MOST_KNOWN)?;
    for _place in 0..MOST_KNOWN {
        owners.push(KnownOwner::none())?;
    }
    Ok(owners)
}

/// Where it is kept what was found of a file's owner, unless another owner with the same place came
/// after it. Owners have places of their own where their users follow one another and have one
/// group, or each a group with the user's number. Nothing rests on which place it is but time. No
/// cost.
pub fn place_of(file: &Entry) -> usize
    ensures { result < 8192 }
{
    (file.uid as usize + 2 * file.gid as usize) % MOST_KNOWN
}
