//! A cut with its hash.
ghost use Rattle.std.specs.Prelude.{◌≡◌, true};
ghost use Rattle.mtree_inv.specs.Places.{hash_of as hash_of_cut};

use std::hash::{FoldHasher, Hasher};
use std::marker::Model;

// A number that tells most cuts from others. Whoever names files may make it the same for many.
#[tactic(auto, unfolding(crate::specs::Places::hash_of))]
fn hash_of(front: u32, tail: &[u8]) -> u64
    ensures { result ≡ hash_of_cut (front, tail.now) }
{
    let mut hasher = FoldHasher::default();
    hasher.write_u32(front);
    hasher.write(tail);
    hasher.finish()
}

/// A cut with its hash, which is made once, when the cut comes.
#[derive(Drop)]
pub(crate) struct HashedCut<'a> {
    front: u32,
    tail: &'a [u8],
    hash: u64,
}

impl<'a> Model for HashedCut<'a> {
    ghost use Rattle.std.specs.Prelude.{◌≡◌};
    ghost use Rattle.mtree_inv.specs.Cuts.{Cut};
    ghost use Rattle.mtree_inv.specs.Places.{hash_of};

    ghost Value = { Cut };

    ghost view = { λ c. (c.front, c.tail.now) };

    ghost invariant = { λ c. c.hash ≡ hash_of (c.front, c.tail.now) };
}

impl<'a> HashedCut<'a> {
    /// A cut, of which one pass makes the hash.
    pub(crate) fn new(front: u32, tail: &'a [u8]) -> Self
        ensures { result ≡ (front, tail.now) }
    {
        HashedCut {
            front,
            tail,
            hash: hash_of(front, tail),
        }
    }

    /// A cut whose hash was made before.
    pub(crate) fn with_hash(front: u32, tail: &'a [u8], hash: u64) -> Self
        requires { hash ≡ hash_of_cut (front, tail.now) }
        ensures { result ≡ (front, tail.now) }
    {
        HashedCut { front, tail, hash }
    }

    /// The number that its bytes come after.
    pub(crate) fn front(&self) -> u32
        ensures { result ≡ self.now.0 }
    {
        self.front
    }

    /// Its bytes.
    pub(crate) fn tail(&self) -> &'a [u8]
        ensures { result.now ≡ self.now.1 }
    {
        self.tail
    }

    /// Its hash.
    pub(crate) fn hash(&self) -> u64
        ensures { result ≡ hash_of_cut self.now }
    {
        self.hash
    }

    /// Whether the two are one cut.
    pub(crate) fn is(&self, other: &HashedCut<'_>) -> bool
        ensures yes { result ≡ true → self.now ≡ other.now }
        ensures no { self.now ≡ other.now → result ≡ true }
    {
        self.front == other.front && self.tail == other.tail
    }
}
