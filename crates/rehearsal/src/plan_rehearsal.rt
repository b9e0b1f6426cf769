//! A plan that is carried out on a tree in memory, as an inventory tells that comes in pieces.

ghost use Rattle.std.specs.Prelude.{◌≡◌, ◌≤◌, ◌++◌, ℕ, List, [], length, map, Some, Ok, Err, IfOk};
ghost use Rattle.std.specs.Prelude.{IfErr, IfSome, IsSome, MatchResult, OnOk, option_map};
ghost use Rattle.idtext.specs.Faults.{fault_told};
ghost use Rattle.idtext.specs.First.{Gives, first_fault, unless};
ghost use Rattle.mtree_inv.specs.Standing as reader;
ghost use Rattle.mtree_inv.specs.declared.entry.Entry.{Entry};
ghost use Rattle.reown_plan.specs.Places.{paths_in};
ghost use Rattle.reown_plan.specs.PlanData.{PlanData};
ghost use Rattle.reown_plan.specs.Reading.{ReadsAs};
ghost use Rattle.reown_plan.specs.Records.{record_of};
ghost use Rattle.reown_runner.specs.PlanTree.{found_among};
ghost use Rattle.unify_texts.specs.Told.{told};
ghost use Rattle.unify_texts.specs.declared.fault.Fault.TheVariants.{BadPlan, Line};
ghost use Rattle.rehearsal.specs.PlanRehearsal.{StandsFor, IsRefusedBy};
ghost use Rattle.rehearsal.specs.Rehearsing.{record_fault, rehearsed};
ghost use Rattle.rehearsal.specs.RunFaults.{run_told};

use idtext::{ByteString, ReadError};
use mtree_inv::Reader;
use reown_plan::{Plan, PlanFault, Record};
use reown_runner::{PlanTree, RunFault, Runner};
use std::alloc::{AllocError, Global};
use unify_texts::{Fault, FileName, MOST_FILES, file_fault};

/// The plan of a text, its fault told by the byte at which it is. Takes what `Plan::read` takes.
pub fn plan_at<'a>(alloc: Global, text: &'a [u8]) -> Result<Plan<'a>, Fault<'a>>
    ensures { MatchResult result (λ plan. ReadsAs text.now (Ok plan))
        (λ fault. IfSome (told fault)
        (λ f. (offset : ℕ) × (f ≡ BadPlan offset) × ReadsAs text.now (Err offset))) }
{
    match Plan::read(alloc, text) {
        Ok(plan) => Ok(plan),
        Err(PlanFault::BadPlan(offset)) => Err(Fault::BadPlan(offset as u64)),
        Err(PlanFault::Memory) => Err(Fault::Memory),
    }
}

// A fault of the inventory, told with the host of the plan.
fn inventory_fault<'a>(host: &'a [u8], fault: ReadError) -> Fault<'a>
    ensures { told result
        ≡ option_map (λ f. Line host.now FileName.Mtree f.code f.line) (fault_told fault) }
{
    match fault {
        ReadError::Fault(fault) => file_fault(host, FileName::Mtree, fault),
        ReadError::Memory => Fault::Memory,
    }
}

// Notes the files that wait.
fn note_waiting(from: &mut Reader, tree: &mut PlanTree<'_, '_>)
    ensures stays { from.new ≡ record from.old { waiting = [] } }
    ensures stands { (text : List ℕ) → reader.StandsFor from.old text
        → reader.StandsFor from.new text }
    ensures noted { (files : List Entry) (paths : List (List ℕ))
        → tree.old ≡ found_among files paths
        → tree.new ≡ found_among (files ++ from.old.waiting) paths }
{
    while let Some(file) = from.next_entry() {
        tree.note(&file);
        from.reuse(file);
    }
}

// The fault of a run, told with a copy of its record's path.
fn run_fault<'a>(
    alloc: Global,
    records: &[Record<'_>],
    fault: RunFault,
) -> Result<Fault<'a>, AllocError>
    requires { IsSome (run_told (map record_of records.now) fault) }
    ensures { IfOk result
        (λ told_fault. run_told (map record_of records.now) fault ≡ Some told_fault) }
{
    match fault {
        RunFault::Device => Ok(Fault::Device),
        RunFault::Missing(i) => Ok(Fault::Missing(ByteString::copy_of(alloc, records[i].path)?)),
        RunFault::Unfinished(i) => Ok(Fault::Unfinished(ByteString::copy_of(
            alloc,
            records[i].path,
        )?)),
        RunFault::Foreign(i) => Ok(Fault::Foreign(ByteString::copy_of(alloc, records[i].path)?)),
    }
}

// Carries a plan out on its files, which are as an inventory tells.
fn carry_out<'a>(
    alloc: Global,
    plan: &Plan<'a>,
    tree: &mut PlanTree<'_, '_>,
) -> Result<u32, Fault<'a>>
    requires { (files : List Entry) × (length files ≤ 16777216)
        × (tree.old ≡ found_among files (paths_in plan.now.records)) }
    ensures { (files : List Entry) → tree.old ≡ found_among files (paths_in plan.now.records)
        → Gives (λ n. n) told result
        (unless (first_fault (record_fault files) [] plan.now.records)
        (length plan.now.records)) }
{
    let records = plan.records();
    let mut runner = Runner::new(plan);
    match runner.run(tree) {
        Ok(()) => Ok(records.len() as u32),
        Err(fault) => Err(run_fault(alloc, records, fault)?),
    }
}

/// A rehearsal of a plan, whose inventory comes in pieces, however it is cut. The inventory is read
/// by mtree(5) and the profile that the page of `mtree_inv` states, of at most 16,777,216 files.
///
/// It keeps the owner of each record's file, of which a record takes 12 bytes, and what the reader
/// keeps; no text, and no other file.
#[derive(Drop)]
pub struct Rehearsal<'p, 'a> {
    plan: &'p Plan<'a>,
    reader: Reader,
    tree: PlanTree<'p, 'a>,
}

impl<'p, 'a> Rehearsal<'p, 'a> {
    /// A rehearsal of a plan, of whose inventory nothing has come. Time in step with the records.
    pub fn new(alloc: Global, plan: &'p Plan<'a>) -> Result<Self, AllocError>
        ensures { IfOk result (λ rehearsal. StandsFor rehearsal plan.now []) }
    {
        let tree = PlanTree::new(alloc, plan)?;
        Ok(Rehearsal {
            plan,
            reader: Reader::new(alloc, MOST_FILES),
            tree,
        })
    }

    /// Takes the next piece of the inventory. It refuses where the whole logical lines so far have
    /// a fault, with the first. After that it is of no use. Requires that no call before was
    /// refused, and that the inventory was not ended.
    ///
    /// One pass over the piece, and for each file one look-up among the records' paths: a
    /// comparison where the files come in the order of the records, else one for each binary digit
    /// of the number of records at most, whatever the paths are.
    pub fn piece(&mut self, bytes: &[u8]) -> Result<(), Fault<'a>>
        requires { (plan : PlanData) × (text : List ℕ) × StandsFor self.old plan text }
        ensures refused { IfErr result
            (λ e. (plan : PlanData) (text : List ℕ) → StandsFor self.old plan text
            → IfSome (told e) (IsRefusedBy plan (text ++ bytes.now))) }
        ensures stands { OnOk result
            ((plan : PlanData) (text : List ℕ) → StandsFor self.old plan text
            → StandsFor self.new plan (text ++ bytes.now)) }
    {
        match self.reader.feed(bytes) {
            Ok(()) => {
                note_waiting(&mut self.reader, &mut self.tree);
                Ok(())
            }
            Err(fault) => Err(inventory_fault(self.plan.host(), fault)),
        }
    }

    /// Takes the end of the inventory, carries the plan out, and answers how many records it has.
    /// It refuses with the first fault of the inventory, or with the first record whose file is
    /// absent or is at neither of its two owners. After either answer it is of no use. Requires
    /// what `piece` requires.
    ///
    /// The path of each record is looked up at most twice more, in the order of the records.
    pub fn end(&mut self, alloc: Global) -> Result<u32, Fault<'a>>
        requires { (plan : PlanData) × (text : List ℕ) × StandsFor self.old plan text }
        ensures { (plan : PlanData) (text : List ℕ) → StandsFor self.old plan text
            → Gives (λ n. n) told result (rehearsed (Ok plan) text) }
    {
        match self.reader.finish() {
            Ok(()) => {
                note_waiting(&mut self.reader, &mut self.tree);
                carry_out(alloc, self.plan, &mut self.tree)
            }
            Err(fault) => Err(inventory_fault(self.plan.host(), fault)),
        }
    }
}
