//! Hashes of cuts, each once, which are kept for a second reading.
ghost use Rattle.std.specs.Prelude.{◌≡◌, [], ◌∷◌, ◌++◌, true, length, slice_get, Some, IfOk};
ghost use Rattle.std.specs.BTreeMap.{values};
ghost use Rattle.mtree_inv.specs.Cuts.{Cut, IsNew};
ghost use Rattle.mtree_inv.specs.Places.{hash_of as hash_of_cut, Others as OthersNow};
ghost use Rattle.mtree_inv.specs.Following.{AreEachOnce, HaveHashes, AreApart, AreDifferentAt};

use crate::hashed_cut::HashedCut;
use crate::held_cuts::Rows;
use crate::places::Others;
use std::alloc::{AllocError, Global};
use std::collections::BTreeSet;
use std::marker::Model;

/// The hashes of cuts in their order. No two are the same, so each tells its cut from those before
/// it: where as many cuts have come with these hashes, a cut with the next is none of them.
#[derive(Drop)]
pub(crate) struct CutHashes {
    hashes: Vec<u64>,
}

impl Model for CutHashes {
    ghost use Rattle.std.specs.Prelude.{ℕ, List};
    ghost use Rattle.mtree_inv.specs.Following.{AreEachOnce};

    ghost Value = { List ℕ };

    ghost view = { λ c. c.hashes.items };

    ghost invariant = { λ c. AreEachOnce c.hashes.items };
}

/// No hash. Takes no memory.
pub(crate) fn no_hashes(alloc: Global) -> CutHashes
    ensures { result ≡ [] }
{
    CutHashes {
        hashes: Vec::new(alloc),
    }
}

impl CutHashes {
    /// How many hashes there are.
    pub(crate) fn len(&self) -> usize
        ensures { result ≡ length self.now }
    {
        self.hashes.len()
    }

    // Whether this hash stands at an index.
    fn is_at(&self, index: usize, hash: u64) -> bool
        ensures { result ≡ true → (slice_get self.now index ≡ Some hash) × AreEachOnce self.now }
    {
        self.hashes.get(index) == Some(&hash)
    }
}

/// Whether the cut that comes after these has the hash that is expected of it.
pub(crate) fn is_expected(rows: &Rows, expected: &CutHashes, cut: &HashedCut<'_>) -> bool
    ensures new { result ≡ true → HaveHashes rows.now expected.now
        → IsNew rows.now cut.now }
    ensures followed { result ≡ true → HaveHashes rows.now expected.now
        → HaveHashes (rows.now ++ cut.now ∷ []) expected.now }
    ensures apart { result ≡ true → HaveHashes rows.now expected.now → (others : OthersNow)
        → AreApart (rows.now ++ cut.now ∷ []) others }
{
    expected.is_at(rows.len(), cut.hash())
}

// The hash of the cut at an index.
fn hash_at(rows: &Rows, index: usize) -> u64
    ensures { (cut : Cut) → slice_get rows.now index ≡ Some cut → result ≡ hash_of_cut cut }
{
    match rows.get(index) {
        None => 0,
        Some(cut) => cut.hash(),
    }
}

// The hash of each cut.
fn all_hashes(rows: &Rows, alloc: Global) -> Result<Vec<u64>, AllocError>
    ensures hashes { IfOk result (λ hashes. HaveHashes rows.now hashes.items) }
    ensures len { IfOk result (λ hashes. length hashes.items ≡ length rows.now) }
{
    let mut hashes = Vec::with_capacity(alloc, rows.len())?;
    for index in 0..rows.len() {
        hashes.push(hash_at(rows, index))?;
    }
    Ok(hashes)
}

// The indices of the cuts that the tree has.
fn indices_of(others: &Others, alloc: Global) -> Result<Vec<usize>, AllocError>
    ensures { IfOk result (λ indices. indices.items ≡ values others.now) }
{
    others.values().copied().collect(alloc)
}

// Whether the hashes at these indices differ.
fn differ_at(hashes: &[u64], indices: &[usize], alloc: Global) -> Result<bool, AllocError>
    ensures { IfOk result (λ differ. differ ≡ true → AreDifferentAt hashes.now indices.now) }
{
    let mut seen: BTreeSet<u64> = BTreeSet::new(alloc);
    for index in indices {
        if let Some(hash) = hashes.get(*index) {
            if !seen.insert(*hash)? {
                return Ok(false);
            }
        }
    }
    Ok(true)
}

/// The hashes of these cuts, or none where two are the same. Of two that are the same, both cuts
/// have to be in the tree: so only of those that it has the hashes are compared here.
pub(crate) fn hashes_of(
    rows: &Rows,
    others: &Others,
    alloc: Global,
) -> Result<CutHashes, AllocError>
    requires { AreApart rows.now others.now.entries }
{
    let hashes = all_hashes(rows, alloc)?;
    let indices = indices_of(others, alloc)?;
    if differ_at(&hashes, &indices, alloc)? {
        Ok(CutHashes { hashes })
    } else {
        Ok(no_hashes(alloc))
    }
}
