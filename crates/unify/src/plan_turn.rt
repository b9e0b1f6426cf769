//! The inventory of one host a second time, in pieces, and its plan.

ghost use Rattle.std.specs.Prelude.{◌≡◌, ◌+◌, ◌≤◌, ◌++◌, ◌∷◌, ℕ, List, [], length, All, true};
ghost use Rattle.std.specs.Prelude.{if◌then◌else◌, is_ok, is_none, slice_get, Some, None, Err};
ghost use Rattle.std.specs.Prelude.{IfErr, IfOk, IfSome, OnOk, OnErr};
ghost use Rattle.mtree_inv.specs.Standing as standing;
ghost use Rattle.mtree_inv.specs.declared.entry.Entry.{Entry};
ghost use Rattle.hosts_join.specs.declared.host.Host.{Host};
ghost use Rattle.idtext.specs.First.{first_fault};
ghost use Rattle.reown_plan.specs.Spelling.{head, lines, end};
ghost use Rattle.unify_texts.specs.declared.fault.Fault.{Fault};
ghost use Rattle.unify.specs.declared.plan_turn.Stop.TheVariants as stop;
ghost use Rattle.site_tables.specs.Hosts.{owner_fault};
ghost use Rattle.unify.specs.PlanTurns.{IsFreshTurn, TellsFiles, TellsLines, stop_of};
ghost use Rattle.unify.specs.PlannedHosts.{AreKnownOf, EndsOf, GivesOf, GoesOnOf, IsKnownOf};
ghost use Rattle.unify.specs.Places.{Owns};
ghost use Rattle.unify.specs.PlannedHosts.{IsOfSite, TurnsOf, plan_for};
ghost use Rattle.unify.specs.RowFiles.{row_files};

use crate::known_owners::{KnownOwner, no_owners, place_of};
use crate::merging::Merged;
use crate::row_files::{RowFiles, are_same, count_at, no_files, places_of};
use crate::turn::begin_next;
use hosts_join::{Host, Site};
use idtext::ReadError;
use mtree_inv::{Entry, Reader};
use reown_plan::{NewOwners, Owner, OwnerChange, push_plan_end, push_plan_entry, push_plan_head};
use std::alloc::{AllocError, Global};
use unify_texts::MOST_FILES;

/// Why a second reading ended early.
#[derive(Clone, Copy, Debug, PartialEq, Eq)]
pub enum Stop {
    /// The inventory is not as it was.
    Changed,
    /// Memory was refused.
    Memory,
}

impl From<AllocError> for Stop {
    ghost from_gives = { λ _ s. s ≡ stop.Memory };

    fn from(_error: AllocError) -> Stop {
        Stop::Memory
    }
}

impl From<ReadError> for Stop {
    ghost from_gives = { λ error s. s ≡ stop_of error };

    fn from(error: ReadError) -> Stop {
        match error {
            ReadError::Fault(_) => Stop::Changed,
            ReadError::Memory => Stop::Memory,
        }
    }
}

/// The reader of a host's inventory, how many of its files each row of the host's tables owns, what
/// was found of their owners, whether its plan has its header, and why the reading ended early, if
/// it did.
#[derive(Drop)]
pub struct PlanTurn {
    pub reader: Reader,
    pub rows: RowFiles,
    pub known: Vec<KnownOwner>,
    pub is_begun: bool,
    pub stop: Option<Stop>,
}

/// The host whose plan is appended, and what it goes by.
#[derive(Clone, Copy)]
pub struct PlannedHost<'a, 's> {
    pub host: &'a Host<'s>,
    /// Its index in the site.
    pub index: u32,
    pub site: &'a Site<'s>,
    /// The files get owners by its mappings.
    pub merged: &'a Merged,
}

/// The turn of a host of whose second inventory nothing has come. Memory for what is found of
/// owners; `AllocError` where it is refused.
pub fn new_turn(alloc: Global, rows: RowFiles) -> Result<PlanTurn, AllocError>
    ensures fresh { IfOk result IsFreshTurn }
    ensures rows { IfOk result (λ turn. turn.rows ≡ rows) }
{
    Ok(PlanTurn {
        reader: Reader::new(alloc, MOST_FILES),
        rows,
        known: no_owners(alloc)?,
        is_begun: false,
        stop: None,
    })
}

/// Has the reader of the first pass read this one, and expect the inventories that it has read.
/// Takes no memory.
pub fn read_again_by(turn: &mut PlanTurn, reader: Reader)
    ensures fresh { IsFreshTurn turn.old → IsFreshTurn turn.new }
    ensures rows { turn.new.rows ≡ turn.old.rows }
{
    turn.reader = reader;
    turn.reader.rewind(MOST_FILES);
}

// Appends the header of the plan, unless it has it.
fn begin_plan(turn: &mut PlanTurn, host: &Host<'_>, plan: &mut Vec<u8>) -> Result<(), AllocError>
    ensures turn { turn.new
        ≡ (if is_ok result then record turn.old { is_begun = true } else turn.old) }
    ensures plan { plan.new.items
        ≡ (if is_ok result
        then (if turn.old.is_begun then plan.old.items else plan.old.items ++ head host.now.name)
        else plan.old.items) }
{
    if !turn.is_begun {
        push_plan_head(plan, host.name.bytes())?;
        turn.is_begun = true;
    }
    Ok(())
}

// Finds what the files of a file's owner get, unless that is known; false where the host does not
// allow the owner.
fn find_owner(known: &mut KnownOwner, whose: &PlannedHost<'_, '_>, file: &Entry) -> bool
    requires known { IsKnownOf whose.now known.old }
    requires of_site { IsOfSite whose.now }
    ensures known { IsKnownOf whose.now known.new }
    ensures owned { result ≡ is_none (owner_fault whose.now.host.now [] file.now) }
    ensures found { result ≡ true
        → Owns whose.now.host.now known.new.places file.now
        × GivesOf whose.now file.now known.new.change }
{
    if known.is_of(file) {
        return true;
    }
    let Some(places) = places_of(whose.host, file) else {
        return false;
    };
    let owners = NewOwners {
        host: whose.index,
        site: whose.site,
        mappings: &whose.merged.mappings,
    };
    let owner = Owner {
        uid: file.uid,
        gid: file.gid,
    };
    known.places = places;
    known.change = Some(OwnerChange::new(&owners, owner, places.rows()));
    true
}

// Counts a file of the host, and appends its record.
fn plan_file(
    rows: &mut RowFiles,
    known: &mut KnownOwner,
    whose: &PlannedHost<'_, '_>,
    file: &Entry,
    plan: &mut Vec<u8>,
) -> Result<(), Stop>
    requires room { (files : List Entry) × (rows.old ≡ row_files whose.now.host.now files)
        × (length files ≤ 2147483648) }
    requires owner { IsKnownOf whose.now known.old }
    requires of_site { IsOfSite whose.now }
    ensures owner { IsKnownOf whose.now known.new }
    ensures owned { OnOk result (owner_fault whose.now.host.now [] file.now ≡ None) }
    ensures counted { OnOk result
        ((files : List Entry) → rows.old ≡ row_files whose.now.host.now files
        → rows.new ≡ row_files whose.now.host.now (files ++ file.now ∷ [])) }
    ensures plan { plan.new.items
        ≡ (if is_ok result then plan.old.items
        ++ lines (plan_for whose.now (file.now ∷ []))
        else plan.old.items) }
    ensures changed { result ≡ Err stop.Changed → (fault : Fault)
        × (owner_fault whose.now.host.now [] file.now ≡ Some fault) }
{
    if !find_owner(known, whose, file) {
        return Err(Stop::Changed);
    }
    count_at(rows, &known.places);
    if let Some(change) = &known.change {
        push_plan_entry(plan, change, file)?;
    }
    Ok(())
}

// Counts the files that wait, and appends their records, up to the first that the host does not
// allow.
fn plan_waiting(
    turn: &mut PlanTurn,
    whose: &PlannedHost<'_, '_>,
    plan: &mut Vec<u8>,
) -> Result<(), Stop>
    requires room { (files : List Entry) × (turn.old.rows ≡ row_files whose.now.host.now files)
        × (length files + length turn.old.reader.waiting ≤ 2147483648) }
    requires owners { AreKnownOf whose.now turn.old.known.items }
    requires of_site { IsOfSite whose.now }
    ensures turn { OnOk result
        (turn.new
        ≡ record turn.old {
          reader = record turn.old.reader { waiting = [] };
          rows = turn.new.rows;
          known = turn.new.known;
        }) }
    ensures owners { OnOk result (AreKnownOf whose.now turn.new.known.items) }
    ensures stands { OnOk result
        ((text : List ℕ) → standing.StandsFor turn.old.reader text
        → standing.StandsFor turn.new.reader text) }
    ensures owned { OnOk result
        (All (λ f. owner_fault whose.now.host.now [] f ≡ None) turn.old.reader.waiting) }
    ensures counted { OnOk result
        ((files : List Entry) → turn.old.rows ≡ row_files whose.now.host.now files
        → turn.new.rows ≡ row_files whose.now.host.now (files ++ turn.old.reader.waiting)) }
    ensures planned { (done : List Entry) × (left : List Entry)
        × (turn.old.reader.waiting ≡ done ++ left)
        × (plan.new.items ≡ plan.old.items
        ++ lines (plan_for whose.now done))
        × OnOk result (left ≡ []) }
    ensures changed { result ≡ Err stop.Changed → (fault : Fault)
        × (first_fault (owner_fault whose.now.host.now) [] turn.old.reader.waiting ≡ Some fault) }
{
    while let Some(file) = turn.reader.next_entry() {
        plan_file(
            &mut turn.rows,
            &mut turn.known[place_of(&file)],
            whose,
            &file,
            plan,
        )?;
        turn.reader.reuse(file);
    }
    Ok(())
}

// Reads the next piece after what was read.
fn read_on(
    turn: &mut PlanTurn,
    whose: &PlannedHost<'_, '_>,
    bytes: &[u8],
    plan: &mut Vec<u8>,
) -> Result<(), Stop>
    requires goes { (text : List ℕ) × (planned : List ℕ)
        × TurnsOf whose.now turn.old text planned }
    requires of_site { IsOfSite whose.now }
    ensures told { (text planned : List ℕ) → TurnsOf whose.now turn.old text planned
        → TellsLines whose.now.host.now (text ++ bytes.now) result }
    ensures stands { (text planned : List ℕ) → TurnsOf whose.now turn.old text planned
        → (more : List ℕ)
        × (plan.new.items ≡ plan.old.items ++ more)
        × GoesOnOf whose.now turn.new (text ++ bytes.now) result
        (planned ++ more) }
    ensures begun { OnOk result (turn.new.is_begun ≡ true) }
{
    begin_plan(turn, whose.host, plan)?;
    turn.reader.feed(bytes)?;
    plan_waiting(turn, whose, plan)
}

/// Takes the next piece of the second inventory of the host, and appends to the
/// host's plan. `Stop::Changed` is answered exactly where the whole lines so far have a fault, or a
/// file that the host does not allow. After it stopped it always answers the same, and nothing
/// changes. What is appended until then is a prefix of a plan without its `end` line. After the
/// first piece the plan has its header.
///
/// One pass over the piece, with a few look-ups by hash for each file of whose owner nothing is
/// known.
pub fn feed_plan(
    turn: &mut PlanTurn,
    whose: &PlannedHost<'_, '_>,
    bytes: &[u8],
    plan: &mut Vec<u8>,
) -> Result<(), Stop>
    requires goes { turn.old.stop ≡ None → (text : List ℕ) × (planned : List ℕ)
        × TurnsOf whose.now turn.old text planned }
    requires of_site { IsOfSite whose.now }
    ensures told { (text planned : List ℕ) → TurnsOf whose.now turn.old text planned
        → TellsLines whose.now.host.now (text ++ bytes.now) result }
    ensures stands { (text planned : List ℕ) → TurnsOf whose.now turn.old text planned
        → (more : List ℕ)
        × (plan.new.items ≡ plan.old.items ++ more)
        × GoesOnOf whose.now turn.new (text ++ bytes.now) result
        (planned ++ more) }
    ensures begun { OnOk result (turn.new.is_begun ≡ true) }
    ensures stopped { IfErr result (λ s. turn.new.stop ≡ Some s) }
    ensures again { IfSome turn.old.stop
        (λ s. (result ≡ Err s) × (turn.new ≡ turn.old) × (plan.new ≡ plan.old)) }
{
    if let Some(stop) = turn.stop {
        return Err(stop);
    }
    let read = read_on(turn, whose, bytes, plan);
    if let Err(stop) = read {
        turn.stop = Some(stop);
    }
    read
}

// Reads the end after what was read, and compares how many files each row owns with the first
// pass.
fn read_end(
    turn: &mut PlanTurn,
    whose: &PlannedHost<'_, '_>,
    first: &RowFiles,
    plan: &mut Vec<u8>,
) -> Result<(), Stop>
    requires goes { (text : List ℕ) × (planned : List ℕ)
        × TurnsOf whose.now turn.old text planned }
    requires of_site { IsOfSite whose.now }
    ensures told { (text planned : List ℕ) (were : List Entry)
        → TurnsOf whose.now turn.old text planned
        → first.now ≡ row_files whose.now.host.now were
        → TellsFiles whose.now.host.now were text result }
    ensures stands { (text planned : List ℕ) → TurnsOf whose.now turn.old text planned
        → (more : List ℕ)
        × (plan.new.items ≡ plan.old.items ++ more)
        × EndsOf whose.now text result (planned ++ more) }
{
    begin_plan(turn, whose.host, plan)?;
    turn.reader.finish()?;
    plan_waiting(turn, whose, plan)?;
    if are_same(first, &turn.rows) {
        Ok(())
    } else {
        Err(Stop::Changed)
    }
}

/// Takes the end of the second inventory of the host, and appends what is left of
/// the host's plan but its `end` line. `Stop::Changed` is answered exactly where the whole text has
/// a fault, or a file that the host does not allow, or counts that are not those of the first pass.
/// After it stopped it always answers the same, and nothing changes. What is appended until then is
/// a prefix of a plan without its `end` line.
pub fn finish_plan(
    turn: &mut PlanTurn,
    whose: &PlannedHost<'_, '_>,
    first: &RowFiles,
    plan: &mut Vec<u8>,
) -> Result<(), Stop>
    requires goes { turn.old.stop ≡ None → (text : List ℕ) × (planned : List ℕ)
        × TurnsOf whose.now turn.old text planned }
    requires of_site { IsOfSite whose.now }
    ensures told { (text planned : List ℕ) (were : List Entry)
        → TurnsOf whose.now turn.old text planned
        → first.now ≡ row_files whose.now.host.now were
        → TellsFiles whose.now.host.now were text result }
    ensures stands { (text planned : List ℕ) → TurnsOf whose.now turn.old text planned
        → (more : List ℕ)
        × (plan.new.items ≡ plan.old.items ++ more)
        × EndsOf whose.now text result (planned ++ more) }
    ensures stopped { IfErr result (λ s. turn.new.stop ≡ Some s) }
    ensures again { IfSome turn.old.stop
        (λ s. (result ≡ Err s) × (turn.new ≡ turn.old) × (plan.new ≡ plan.old)) }
{
    if let Some(stop) = turn.stop {
        return Err(stop);
    }
    let read = read_end(turn, whose, first, plan);
    if let Err(stop) = read {
        turn.stop = Some(stop);
    }
    read
}

/// Appends the `end` line to a plan, and begins the turn of the host at the next index, if there is
/// one. Where memory is refused turn and plan are as before.
pub fn next_turn(
    alloc: Global,
    turn: &mut PlanTurn,
    hosts: &[Host<'_>],
    next: usize,
    plan: &mut Vec<u8>,
) -> Result<(), AllocError>
    ensures fresh { OnOk result (IsFreshTurn turn.new) }
    ensures rows { OnOk result
        ((host : Host) → slice_get hosts.now next ≡ Some host → turn.new.rows ≡ row_files host []) }
    ensures failed { OnErr result (turn.new ≡ turn.old) }
    ensures plan { plan.new.items
        ≡ (if is_ok result then plan.old.items ++ end else plan.old.items) }
{
    let rows = no_files(alloc, hosts, next)?;
    let known = no_owners(alloc)?;
    push_plan_end(plan)?;
    begin_next(&mut turn.reader, next < hosts.len());
    turn.rows = rows;
    turn.known = known;
    turn.is_begun = false;
    turn.stop = None;
    Ok(())
}
