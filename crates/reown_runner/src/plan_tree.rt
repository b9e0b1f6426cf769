//! A tree in memory that has just the files of a plan's records.
ghost use Rattle.std.specs.Prelude.{◌≡◌, ◌++◌, ◌∷◌, [], ◌<◌, List, length, position, IfOk, IfSome};
ghost use Rattle.std.specs.Prelude.{Some, None, ⊤, slice_set, replicate};
ghost use Rattle.std.specs.Str.{bytes_eq};
ghost use Rattle.mtree_inv.specs.declared.entry.Entry.{Entry};
ghost use Rattle.reown_plan.specs.Places.{paths_in};
ghost use Rattle.reown_runner.specs.PlanTree.{known_files, found_among, with_noted};
ghost use Rattle.reown_runner.specs.PlanTree.{readable_files};
ghost use Rattle.reown_runner.specs.Tree.{counted};

use crate::{DeviceFault, Tree};
use mtree_inv::Entry;
use reown_plan::{Owner, Plan, PlanMark};
use std::alloc::{AllocError, Global};
use std::marker::Model;

/// The files of a plan's records as a tree in memory, for a run that no stop cuts off: what is
/// written is there, and nothing is ever pending. It never fails. A path is looked up among those
/// of the records, which the plan lends: the one that was found last, or the one after it in the
/// order of the records, takes two comparisons of paths, another one for each binary digit of their
/// number besides at most, whatever the paths are. Of memory a record takes 12 bytes.
#[derive(Drop)]
pub struct PlanTree<'p, 'a> {
    plan: &'p Plan<'a>,
    owners: Vec<Option<Owner>>,
    mark: Option<PlanMark>,
    asked: u64,
    // The place that was found last: the next path may be the one there, or the one after it.
    last: usize,
}

impl<'p, 'a> Model for PlanTree<'p, 'a> {
    ghost use Rattle.std.specs.Prelude.{◌≡◌, length};
    ghost use Rattle.reown_plan.specs.PlanData.{HaveDistinctPaths};
    ghost use Rattle.reown_plan.specs.Places.{paths_in};
    ghost use Rattle.reown_runner.specs.PlanTree.{FilesOfPlan};

    ghost Value = { FilesOfPlan };

    ghost view = { λ t. record {
      paths = paths_in t.plan.now.records;
      owners = t.owners.items;
      mark = t.mark;
      asked = t.asked;
    } };

    ghost invariant = { λ t. (length t.owners.items ≡ length t.plan.now.records)
        × HaveDistinctPaths t.plan.now.records };
}

// So many files, none of which is there.
fn no_owners(alloc: Global, count: usize) -> Result<Vec<Option<Owner>>, AllocError>
    ensures { IfOk result (λ owners. owners.items ≡ replicate count None) }
{
    let mut owners = Vec::with_capacity(alloc, count)?;
    for _ in 0..count {
        owners.push(None)?;
    }
    Ok(owners)
}

impl<'p, 'a> PlanTree<'p, 'a> {
    /// A tree of a plan none of whose files is there as yet. Time in step with the records.
    ///
    /// # Errors
    ///
    /// `AllocError` where memory is refused.
    pub fn new(alloc: Global, plan: &'p Plan<'a>) -> Result<Self, AllocError>
        ensures { IfOk result (λ tree. tree ≡ found_among [] (paths_in plan.now.records)) }
    {
        let owners = no_owners(alloc, plan.records().len())?;
        Ok(PlanTree {
            plan,
            owners,
            mark: None,
            asked: 0,
            last: 0,
        })
    }

    /// Notes a file of an inventory: it is there, where it is one of the plan's. Of two with one
    /// path the first counts. One look-up, and no memory.
    pub fn note(&mut self, file: &Entry)
        ensures noted { self.new ≡ with_noted file.now self.old }
        ensures found { (files : List Entry) → self.old ≡ found_among files self.old.paths
            → self.new ≡ found_among (files ++ file.now ∷ []) self.old.paths }
    {
        let Some(place) = self.place_of(file.path.bytes()) else {
            return;
        };
        if self.owners[place].is_none() {
            self.owners[place] = Some(Owner {
                uid: file.uid,
                gid: file.gid,
            });
        }
    }

    // The place of a path among those of the records.
    fn place_of(&mut self, path: &[u8]) -> Option<usize>
        ensures place { result ≡ position (bytes_eq path.now) self.old.paths }
        ensures within { IfSome result (λ place. place < length self.old.owners) }
        ensures same { self.new ≡ self.old }
    {
        let likely = match self.plan.records().get(self.last) {
            Some(planned) if planned.path == path => self.last,
            _ => self.last.saturating_add(1),
        };
        let place = self.plan.place_of(path, likely)?;
        self.last = place;
        Some(place)
    }

    // Writes an owner over what is there.
    fn write(&mut self, place: usize, owner: Owner)
        requires { place < length self.old.owners }
        ensures { self.new
            ≡ record self.old {
              owners = slice_set self.old.owners place (Some owner);
              asked = counted self.old.asked;
            } }
    {
        self.owners[place] = Some(owner);
        self.asked = self.asked.saturating_add(1);
    }
}

impl Tree for PlanTree<'_, '_> {
    ghost known = { known_files };

    ghost follows = { λ _ _. ⊤ };

    fn owner(&mut self, path: &[u8]) -> Result<Option<Owner>, DeviceFault> {
        match self.place_of(path) {
            None => Ok(None),
            Some(place) => Ok(self.owners[place]),
        }
    }

    fn set_owner(&mut self, path: &[u8], owner: Owner) -> Result<(), DeviceFault> {
        let place = self.place_of(path).unwrap();
        self.write(place, owner);
        Ok(())
    }

    fn is_marked(&mut self, plan: &PlanMark) -> Result<bool, DeviceFault> {
        Ok(self.mark.is_some_and(|mark| mark == *plan))
    }

    fn set_mark(&mut self, plan: &PlanMark) -> Result<(), DeviceFault> {
        self.mark = Some(*plan);
        self.asked = self.asked.saturating_add(1);
        Ok(())
    }

    fn sync(&mut self) -> Result<(), DeviceFault> {
        self.asked = self.asked.saturating_add(1);
        Ok(())
    }

    fn reopen(&mut self) {}

    fn faults(&self) -> u64 {
        0
    }

    ghost readable = { readable_files };

    ghost rests = { λ _. tt };

    ghost goes_on = { λ _ _ _ _ _. tt };
}
