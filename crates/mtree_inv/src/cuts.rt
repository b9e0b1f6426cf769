//! Cuts of paths, each once.
ghost use Rattle.std.specs.Prelude.{◌≡◌, ◌<◌, [], false, true, length, OnOk};
ghost use Rattle.mtree_inv.specs.Cuts.{AreDistinct};
ghost use Rattle.mtree_inv.specs.Places.{most_probes, AreFound, KeepOthers};

use crate::cut_hashes::{CutHashes, hashes_of, is_expected, no_hashes};
use crate::hashed_cut::HashedCut;
use crate::held_cuts::{Rows, no_rows};
use crate::places::{
    MOST_PROBES, Others, Place, Probed, all_settled, find_or_settle, free_all, look_at_places,
    other,
};
use std::alloc::{AllocError, Global};
use std::collections::BTreeMap;
use std::marker::Model;

// How many places there are at least.
const FEWEST_PLACES: usize = 272;

// Whether there are hardly any places, or at most two for each cut that the tree does not have.
fn is_crowded(cuts: usize, places: usize) -> bool
    ensures { result ≡ false → most_probes < places }
{
    places <= MOST_PROBES || places / 2 <= cuts
}

// How many places so many cuts want: three in four are free at first.
fn places_for(cuts: usize) -> usize
    ensures { most_probes < result }
{
    cuts.saturating_mul(4).saturating_add(FEWEST_PLACES)
}

// Sees to it that few enough places are taken for one cut more. What the tree has is not counted,
// so that cuts of one hash make no table grow. Some of it stands in places too, since the table has
// grown: at most all cuts that there were then, for each of which it has four places. So up to half
// of the places may be taken by cuts that are counted, and up to three quarters by all.
fn make_room(
    rows: &Rows,
    places: &mut Vec<Place>,
    others: &mut Others,
    alloc: Global,
) -> Result<(), AllocError>
    requires distinct { AreDistinct rows.now }
    requires found { AreFound rows.now places.old.items others.old.entries }
    ensures found { AreFound rows.now places.new.items others.new.entries }
    ensures others { KeepOthers rows.now others.old.entries others.new.entries }
    ensures roomy { OnOk result (most_probes < length places.new.items) }
{
    let placed = rows.len().saturating_sub(others.len());
    if is_crowded(placed, places.len()) {
        *places = all_settled(rows, others, alloc, places_for(rows.len()))?;
    }
    Ok(())
}

// Sees to it that the cuts are found, where hashes were followed so far and places told of none.
fn stop_following(
    rows: &Rows,
    places: &mut Vec<Place>,
    others: &mut Others,
    follows: &mut bool,
    alloc: Global,
) -> Result<(), AllocError>
    requires distinct { AreDistinct rows.now }
    requires found { follows.old ≡ false → AreFound rows.now places.old.items others.old.entries }
    ensures found { follows.new ≡ false
        → AreFound rows.now places.new.items others.new.entries }
    ensures follows { follows.new ≡ true → follows.old ≡ true }
    ensures others { KeepOthers rows.now others.old.entries others.new.entries }
    ensures stops { OnOk result (follows.new ≡ false) }
{
    if *follows {
        let len = places_for(rows.len()).max(places.len());
        *places = all_settled(rows, others, alloc, len)?;
        *follows = false;
    }
    Ok(())
}

/// Cuts, each once, in the order in which they came. Each is a number and bytes: of a path, the
/// number of its front and what stands after that.
///
/// Whoever names files chooses their paths, and may so bring it about that a table of hashes has
/// many cuts where it looks for each. So only 16 places are looked at, and what finds none of them
/// free stands in a search tree, where no look-up costs more than a few comparisons. They are of
/// digests first, which hardly ever are the same for two, so that few bytes are compared.
///
/// Where hashes are expected that are all different, each cut that comes with the next of them is
/// new, and no place is looked at. The first that has another is looked for in places, and so are
/// all that come after it: then all cuts so far have to find theirs.
#[derive(Drop)]
pub(crate) struct Cuts {
    rows: Rows,
    places: Vec<Place>,
    others: Others,
    expected: CutHashes,
    // Whether each cut so far had the hash that was expected of it. Places tell of none then.
    follows: bool,
    // True only where no two cuts have one hash, unless the tree has both.
    are_apart: bool,
}

impl Model for Cuts {
    ghost use Rattle.std.specs.Prelude.{List};
    ghost use Rattle.mtree_inv.specs.Cuts.{Cut};
    ghost use Rattle.mtree_inv.specs.Following.{AreKept};

    ghost Value = { List Cut };

    ghost view = { λ c. c.rows };

    ghost invariant = { λ c. AreKept c.rows c.places.items c.others.entries c.expected
        c.follows c.are_apart };
}

/// No cut. Takes no memory.
pub(crate) fn no_cuts(alloc: Global) -> Cuts
    ensures { result ≡ [] }
{
    Cuts {
        rows: no_rows(alloc),
        places: Vec::new(alloc),
        others: BTreeMap::new(alloc),
        expected: no_hashes(alloc),
        follows: false,
        are_apart: true,
    }
}

impl Cuts {
    ghost use Rattle.std.specs.Prelude.{◌≡◌, length, IfOk, OnErr};
    ghost use Rattle.mtree_inv.specs.Cuts.{IsPlaceOf, with_cut};

    /// How many cuts there are.
    pub(crate) fn len(&self) -> usize
        ensures { result ≡ length self.now }
    {
        self.rows.len()
    }

    /// Leaves no cut, and keeps the memory. Cuts of these hashes are expected then.
    pub(crate) fn restart(&mut self, expected: CutHashes)
        ensures { self.new ≡ [] }
    {
        self.rows.clear();
        self.others.clear();
        free_all(&mut self.places);
        self.follows = expected.len() > 0;
        self.expected = expected;
        self.are_apart = true;
    }

    /// The hashes of the cuts so far, or none where two of them may be the same.
    pub(crate) fn hashes(&self, alloc: Global) -> Result<CutHashes, AllocError> {
        if self.are_apart {
            hashes_of(&self.rows, &self.others, alloc)
        } else {
            Ok(no_hashes(alloc))
        }
    }

    /// The index of a cut, or None where it is new.
    pub(crate) fn find(
        &mut self,
        alloc: Global,
        cut: &HashedCut<'_>,
    ) -> Result<Option<usize>, AllocError>
        ensures place { IfOk result (IsPlaceOf self.old cut.now) }
        ensures cuts { self.new ≡ self.old }
    {
        stop_following(
            &self.rows,
            &mut self.places,
            &mut self.others,
            &mut self.follows,
            alloc,
        )?;
        if self.places.len() <= MOST_PROBES {
            return Ok(None);
        }
        match look_at_places(&self.rows, &self.places, cut) {
            Probed::At(index) => Ok(Some(index)),
            Probed::Free(_, _, _) => Ok(None),
            Probed::Full(_) => other(&self.rows, &self.others, alloc, cut),
        }
    }

    /// The index of a cut, or None where it is new: then it is appended.
    pub(crate) fn find_or_push(
        &mut self,
        alloc: Global,
        cut: &HashedCut<'_>,
    ) -> Result<Option<usize>, AllocError>
        ensures place { IfOk result (IsPlaceOf self.old cut.now) }
        ensures cuts { IfOk result
            (λ known. self.new ≡ with_cut self.old cut.now known) }
        ensures err { OnErr result (self.new ≡ self.old) }
    {
        if self.follows && is_expected(&self.rows, &self.expected, cut) {
            self.rows.push(cut)?;
            return Ok(None);
        }
        stop_following(
            &self.rows,
            &mut self.places,
            &mut self.others,
            &mut self.follows,
            alloc,
        )?;
        make_room(&self.rows, &mut self.places, &mut self.others, alloc)?;
        match find_or_settle(
            &self.rows,
            &mut self.places,
            &mut self.others,
            &mut self.are_apart,
            alloc,
            cut,
        )? {
            Some(index) => Ok(Some(index)),
            None => {
                self.rows.push(cut)?;
                Ok(None)
            }
        }
    }
}
