//! Cuts one after another, with their bytes in one buffer.
ghost use Rattle.std.specs.Prelude.{◌≡◌, ◌≤◌, [], ◌++◌, ◌∷◌, length, slice_get, Some, MatchOption};
ghost use Rattle.std.specs.Prelude.{is_ok, if◌then◌else◌};
ghost use Rattle.mtree_inv.specs.HeldCuts.{start_at};

use crate::hashed_cut::HashedCut;
use std::alloc::{AllocError, Global};
use std::marker::Model;

/// The number of a cut's front, where its bytes end, and its hash.
#[derive(Clone, Copy, Drop)]
pub(crate) struct Row {
    front: u32,
    end: u32,
    hash: u64,
}

/// Cuts in the order in which they came. Each has its bytes in the buffer, behind those of the one
/// before, and 16 more. The bytes of all are 4,294,967,295 at most, as those of an inventory are.
#[derive(Drop)]
pub(crate) struct Rows {
    bytes: Vec<u8>,
    rows: Vec<Row>,
}

impl Model for Rows {
    ghost use Rattle.std.specs.Prelude.{List};
    ghost use Rattle.mtree_inv.specs.Cuts.{Cut};
    ghost use Rattle.mtree_inv.specs.HeldCuts.{cuts_in, AreHeld};

    ghost Value = { List Cut };

    ghost view = { λ r. cuts_in r.bytes.items 0 r.rows.items };

    ghost invariant = { λ r. AreHeld r.bytes.items 0 r.rows.items };
}

// Where the bytes of the row with this number begin.
fn start_of(rows: &[Row], number: usize) -> usize
    requires { number ≤ length rows.now }
    ensures { result ≡ start_at 0 rows.now number }
{
    match number.checked_sub(1) {
        None => 0,
        Some(before) => rows[before].end as usize,
    }
}

/// No cut. Takes no memory.
pub(crate) fn no_rows(alloc: Global) -> Rows
    ensures { result ≡ [] }
{
    Rows {
        bytes: Vec::new(alloc),
        rows: Vec::new(alloc),
    }
}

impl Rows {
    /// How many cuts there are.
    pub(crate) fn len(&self) -> usize
        ensures { result ≡ length self.now }
    {
        self.rows.len()
    }

    /// The cut at this index.
    pub(crate) fn get(&self, number: usize) -> Option<HashedCut<'_>>
        ensures { MatchOption result (length self.now ≤ number)
            (λ cut. slice_get self.now number ≡ Some cut) }
    {
        let row = self.rows.get(number)?;
        let start = start_of(&self.rows, number);
        let (_, behind) = self.bytes.split_at(start);
        let (tail, _) = behind.split_at(row.end as usize - start);
        Some(HashedCut::with_hash(row.front, tail, row.hash))
    }

    /// Leaves no cut, and keeps the memory.
    pub(crate) fn clear(&mut self)
        ensures { self.new ≡ [] }
    {
        self.bytes.clear();
        self.rows.clear();
    }

    /// Appends a cut. Refused as memory is where the bytes of all would be more than they may be.
    pub(crate) fn push(&mut self, cut: &HashedCut<'_>) -> Result<(), AllocError>
        ensures { self.new ≡ (if is_ok result then self.old ++ cut.now ∷ [] else self.old) }
    {
        let tail = cut.tail();
        let Ok(end) = u32::try_from(self.bytes.len() + tail.len()) else {
            return Err(AllocError);
        };
        self.rows.reserve(1)?;
        self.bytes.extend_from_slice(tail)?;
        self.rows.push_reserved(Row {
            front: cut.front(),
            end,
            hash: cut.hash(),
        });
        Ok(())
    }
}
