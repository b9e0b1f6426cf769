//! The inventory of one host, which comes in pieces and whose files are counted.

ghost use Rattle.std.specs.Prelude.{◌≡◌, ◌+◌, ◌≤◌, ◌++◌, ℕ, List, [], length, Some, None, IfSome};
ghost use Rattle.std.specs.Prelude.{IfNone, IfErr, OnOk, false};
ghost use Rattle.idtext.specs.First.{Gives};
ghost use Rattle.mtree_inv.specs.Standing as standing;
ghost use Rattle.mtree_inv.specs.declared.entry.Entry.{Entry};
ghost use Rattle.unify_texts.specs.declared.fault.Fault.{Fault};
ghost use Rattle.unify_texts.specs.declared.fault.Fault.TheVariants.{Memory};
ghost use Rattle.unify_texts.specs.Told.{told};
ghost use Rattle.site_tables.specs.Hosts.{files_of, lines_of};
ghost use Rattle.unify.specs.Passes.{is_read, IsFaultOf, IsToldAs, TellsFault};
ghost use Rattle.unify.specs.RowFiles.{row_files};
ghost use Rattle.unify.specs.Turns.{AreCounted, IsAccepted, TurnsFor, met_by, owner_told};

use crate::row_files::{RowFiles, count_file};
use hosts_join::Host;
use mtree_inv::{Entry, Reader};
use site_tables::{ownership_fault, read_fault};
use std::alloc::Global;
use unify_texts::{Fault, MOST_FILES};

/// The reader of a host's inventory, how many of its files each row of the host's tables owns, and
/// the first file that the host does not allow.
#[derive(Drop)]
pub struct Turn {
    pub reader: Reader,
    pub rows: RowFiles,
    pub unowned: Option<Entry>,
}

/// The turn of a host of whose inventory nothing has come. Takes no memory.
pub fn new_turn(alloc: Global, rows: RowFiles) -> Turn
    ensures { (host : Host) → rows ≡ row_files host [] → TurnsFor host result [] }
{
    Turn {
        reader: Reader::new(alloc, MOST_FILES),
        rows,
        unowned: None,
    }
}

/// Makes a reader ready for the next inventory, with the memory that it has. Where none is left it
/// gives that back, but for the hashes that it keeps.
pub fn begin_next(reader: &mut Reader, is_left: bool)
    ensures stands { standing.StandsFor reader.new [] }
    ensures most { reader.new.most ≡ 16777216 }
    ensures fault { reader.new.fault ≡ None }
    ensures going { reader.new.is_finished ≡ false }
    ensures waiting { reader.new.waiting ≡ [] }
    ensures files { reader.new.files ≡ [] }
{
    if is_left {
        reader.restart(MOST_FILES);
    } else {
        reader.give_back(MOST_FILES);
    }
}

// The fault of a file that the host does not allow, or want of memory for its path. Two look-ups
// by hash, and a bisection for a number that has no account.
fn tell_owner<'a>(alloc: Global, host: &Host<'a>, unowned: &Option<Entry>) -> Fault<'a>
    ensures { IsToldAs (owner_told host.now unowned.now) result }
{
    let Some(entry) = unowned else {
        return Fault::Memory;
    };
    match ownership_fault(alloc, host, entry) {
        Ok(Some(fault)) => fault,
        Ok(None) => Fault::Memory,
        Err(_) => Fault::Memory,
    }
}

// Drops the files that wait.
fn drain(reader: &mut Reader)
    ensures stays { reader.new ≡ record reader.old { waiting = [] } }
    ensures stands { (text : List ℕ) → standing.StandsFor reader.old text
        → standing.StandsFor reader.new text }
{
    while let Some(_) = reader.next_entry() {}
}

// Counts the files that wait, up to the first that the host does not allow.
fn count_waiting(host: &Host<'_>, from: &mut Reader, rows: &mut RowFiles) -> Option<Entry>
    requires { (files : List Entry) × (rows.old ≡ row_files host.now files)
        × (length files + length from.old.waiting ≤ 2147483648) }
    ensures stays { from.new ≡ record from.old { waiting = [] } }
    ensures stands { (text : List ℕ) → standing.StandsFor from.old text
        → standing.StandsFor from.new text }
    ensures counted { (files : List Entry) → AreCounted host.now rows.old None files
        → AreCounted host.now rows.new result (files ++ from.old.waiting) }
{
    let mut before = None;
    while let Some(entry) = from.next_entry() {
        if !count_file(rows, &mut before, host, &entry) {
            drain(from);
            return Some(entry);
        }
        from.reuse(entry);
    }
    None
}

// Counts the files that wait, unless there was one before that the host does not allow.
fn count_new(turn: &mut Turn, host: &Host<'_>)
    requires { IfNone turn.old.unowned
        ((files : List Entry) × (turn.old.rows ≡ row_files host.now files)
        × (length files + length turn.old.reader.waiting ≤ 2147483648)) }
    ensures stays { turn.new.reader ≡ record turn.old.reader { waiting = [] } }
    ensures stands { (text : List ℕ) → standing.StandsFor turn.old.reader text
        → standing.StandsFor turn.new.reader text }
    ensures counted { (files : List Entry)
        → AreCounted host.now turn.old.rows turn.old.unowned files
        → AreCounted host.now turn.new.rows turn.new.unowned (files ++ turn.old.reader.waiting) }
{
    if let Some(_) = &turn.unowned {
        drain(&mut turn.reader);
        return;
    }
    turn.unowned = count_waiting(host, &mut turn.reader, &mut turn.rows);
}

/// Takes the next piece of the inventory of the host. The answer is the first fault of the whole
/// lines so far, and no file that the host does not allow is told. A new fault is the one that is
/// met. After a fault it is always that one, or want of memory to tell it.
///
/// One pass over the piece, with two look-ups by hash for each file whose owner is not that of the
/// file before.
pub fn feed_turn<'a>(
    alloc: Global,
    turn: &mut Turn,
    host: &Host<'a>,
    bytes: &[u8],
) -> Result<(), Fault<'a>>
    requires { met_by host.now turn.old ≡ None → (text : List ℕ) × TurnsFor host.now turn.old text }
    ensures told { (text : List ℕ) → TurnsFor host.now turn.old text
        → Gives (λ _. tt) told result (is_read (lines_of host.now (text ++ bytes.now))) }
    ensures stands { OnOk result
        ((text : List ℕ) → TurnsFor host.now turn.old text
        → TurnsFor host.now turn.new (text ++ bytes.now)) }
    ensures met { IfNone (met_by host.now turn.old)
        (IfErr result (λ e. met_by host.now turn.new ≡ Some e)) }
    ensures failed { IfErr result
        (λ e. (f : Fault) × (met_by host.now turn.new ≡ Some f) × IsToldAs f e) }
    ensures again { IfSome (met_by host.now turn.old)
        (λ f. TellsFault f result × (turn.new ≡ turn.old)) }
{
    if turn.reader.is_finished() {
        return Err(tell_owner(alloc, host, &turn.unowned));
    }
    if let Err(fault) = turn.reader.feed(bytes) {
        return Err(read_fault(host, fault));
    }
    count_new(turn, host);
    Ok(())
}

/// Takes the end of the inventory of the host. The answer is the first fault of the whole text, and
/// else the first file that the host does not allow; one of them, or want of memory, is what is
/// met. After a fault it is always that one, or want of memory to tell it. After `Ok` the turn is
/// over, and every further call would be answered with want of memory.
pub fn end_turn<'a>(alloc: Global, turn: &mut Turn, host: &Host<'a>) -> Result<(), Fault<'a>>
    requires { met_by host.now turn.old ≡ None → (text : List ℕ) × TurnsFor host.now turn.old text }
    ensures told { (text : List ℕ) → TurnsFor host.now turn.old text
        → Gives (λ _. tt) told result
        (is_read (files_of (record { host = host.now; mtree = text }))) }
    ensures accepted { OnOk result
        ((text : List ℕ) → TurnsFor host.now turn.old text → IsAccepted host.now turn.new text) }
    ensures ended { OnOk result (met_by host.now turn.new ≡ Some Memory) }
    ensures none { OnOk result (turn.new.unowned ≡ None) }
    ensures met { (text : List ℕ) → TurnsFor host.now turn.old text
        → IfErr result (λ _. IfSome (met_by host.now turn.new) (IsFaultOf host.now text)) }
    ensures failed { IfErr result
        (λ e. (f : Fault) × (met_by host.now turn.new ≡ Some f) × IsToldAs f e) }
    ensures again { IfSome (met_by host.now turn.old)
        (λ f. TellsFault f result × (turn.new ≡ turn.old)) }
{
    if turn.reader.is_finished() {
        return Err(tell_owner(alloc, host, &turn.unowned));
    }
    if let Err(fault) = turn.reader.finish() {
        return Err(read_fault(host, fault));
    }
    count_new(turn, host);
    if let Some(_) = &turn.unowned {
        return Err(tell_owner(alloc, host, &turn.unowned));
    }
    Ok(())
}
