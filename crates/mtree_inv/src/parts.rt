//! A walk over the bytes of a text.
ghost use Rattle.std.specs.Prelude.{◌≡◌, ◌<◌, ◌+◌, length, slice_index, false, Some, MatchOption};
ghost use Rattle.std.specs.Prelude.{IfSome, OnErr, option_map};
ghost use Rattle.idtext.specs.Faults.{fault_told};
ghost use Rattle.idtext.specs.First.{Gives};
ghost use Rattle.idtext.specs.declared.faults.TextCode.TheVariants.{LineTooLong};
ghost use Rattle.mtree_inv.specs.Machine.{step};
ghost use Rattle.mtree_inv.specs.Parts.{HasNoNewline};
ghost use Rattle.mtree_inv.specs.Reading.{clip, clipped_kind};
ghost use Rattle.mtree_inv.specs.Standing.{GrowAlike};
ghost use Rattle.mtree_inv.specs.Views.{code_told, listed};
ghost use Rattle.mtree_inv.specs.Walked.{kept_of, waiting_of};

use crate::cut_hashes::CutHashes;
use crate::entry::Entry;
use crate::fault::LineFault;
use crate::open_line::{Ends, OpenLine, ends_in_backslash};
use crate::walk::Walk;
use idtext::{MOST_LINE_BYTES, ReadError, TextCode, TextFault};
use memchr::memchr;
use std::alloc::Global;

// Where the first newline stands, if there is one.
fn newline_at(bytes: &[u8]) -> Option<usize>
    ensures first { MatchOption result (HasNoNewline (length bytes.now) bytes.now)
        (λ at. HasNoNewline at bytes.now × (slice_index bytes.now at ≡ 10)) }
    ensures within { IfSome result (λ at. at < length bytes.now) }
    ensures fits { IfSome result (λ at. at + 1 < 18446744073709551616) }
{
    memchr(b'\n', bytes)
}

// A line that is too long.
fn too_long(number: u64) -> ReadError
    ensures { fault_told result ≡ Some (record { code = LineTooLong; line = number }) }
{
    ReadError::Fault(TextFault {
        code: TextCode::LineTooLong,
        line: number,
    })
}

// The fault of a logical line whose first line has this number.
fn fault_at(number: u64, fault: LineFault) -> ReadError
    ensures { fault_told result
        ≡ option_map (λ code. record { code = code; line = number }) (code_told fault) }
{
    match fault {
        LineFault::Memory => ReadError::Memory,
        LineFault::Code(code) => ReadError::Fault(TextFault { code, line: number }),
    }
}

// Goes over one logical line, unless it is too long.
#[tactic(auto, unfolding(crate::specs::Machine::step))]
fn take_unless_long(walk: &mut Walk, alloc: Global, text: &[u8]) -> Result<(), LineFault>
    ensures exact { Gives (λ _. kept_of walk.new) code_told result
        (step walk.old.files.most (kept_of walk.old) (clipped_kind (clip text.now) false)) }
    ensures grow { GrowAlike (listed walk.old.files.table) (listed walk.new.files.table)
        (waiting_of walk.old) (waiting_of walk.new) }
    ensures err { OnErr result (listed walk.new.files.table ≡ listed walk.old.files.table) }
    ensures most { walk.new.files.most ≡ walk.old.files.most }
{
    if text.len() > MOST_LINE_BYTES {
        return Err(LineFault::Code(TextCode::LineTooLong));
    }
    walk.line(alloc, text)
}

/// A reader that has met no fault.
#[derive(Drop)]
pub(crate) struct Parts {
    pub(crate) alloc: Global,
    pub(crate) walk: Walk,
    pub(crate) in_progress: OpenLine,
}

impl Parts {
    ghost use Rattle.std.specs.Prelude.{◌≡◌, ◌<◌, ◌+◌, [], ◌∷◌, drop, length, slice_index, false};
    ghost use Rattle.std.specs.Prelude.{Some, OnErr, MatchResult, MatchOption};
    ghost use Rattle.idtext.specs.First.{Gives};
    ghost use Rattle.mtree_inv.specs.Machine.{step};
    ghost use Rattle.mtree_inv.specs.Logical.{ends_in_backslash as is_ended_in_backslash};
    ghost use Rattle.mtree_inv.specs.OpenLines.{open_line};
    ghost use Rattle.mtree_inv.specs.Reading.{clipped_kind, is_joining, with_newline, with_run};
    ghost use Rattle.mtree_inv.specs.Reading.{read_bytes, last_read, finished, start};
    ghost use Rattle.mtree_inv.specs.Standing.{GrowAlike};
    ghost use Rattle.mtree_inv.specs.Walked.{kept_of};
    ghost use Rattle.idtext.specs.Faults.{fault_told};
    ghost use Rattle.mtree_inv.specs.Parts.{most_of, files_of_parts, waiting_in, reading_of};
    ghost use Rattle.mtree_inv.specs.Parts.{at_line, HasNoNewline, TakenTo, FailedTo};

    pub(crate) fn new(alloc: Global, most: u32) -> Self
        ensures reading { reading_of result ≡ start }
        ensures waiting { waiting_in result ≡ [] }
        ensures most { most_of result ≡ most }
    {
        Parts {
            alloc,
            walk: Walk::new(alloc, most),
            in_progress: OpenLine::new(alloc),
        }
    }

    /// Nothing of the next text has come, whose paths are expected to have these hashes.
    pub(crate) fn restart(&mut self, most: u32, expected: CutHashes)
        ensures reading { reading_of self.new ≡ start }
        ensures waiting { waiting_in self.new ≡ [] }
        ensures most { most_of self.new ≡ most }
    {
        self.walk.restart(self.alloc, most, expected);
        self.in_progress = OpenLine::new(self.alloc);
    }

    /// The hashes of the paths of the text so far, if there are at most so many.
    pub(crate) fn hashes(&self, most: usize) -> CutHashes {
        self.walk.hashes(self.alloc, most)
    }

    // Takes the line in progress, which is whole or cut.
    #[tactic(auto, unfolding(crate::specs::Machine::step))]
    fn take_line(&mut self, is_cut: bool) -> Result<(), ReadError>
        ensures exact { Gives (λ _. kept_of self.new.walk) fault_told result
            (at_line self.old.in_progress.first
            (step (most_of self.old) (kept_of self.old.walk)
            (clipped_kind (reading_of self.old).open_line.joined is_cut))) }
        ensures line { self.new.in_progress ≡ self.old.in_progress }
        ensures grow { GrowAlike (files_of_parts self.old) (files_of_parts self.new)
            (waiting_in self.old) (waiting_in self.new) }
        ensures err { OnErr result (files_of_parts self.new ≡ files_of_parts self.old) }
        ensures most { most_of self.new ≡ most_of self.old }
    {
        let number = self.in_progress.first;
        if self.in_progress.is_too_long {
            return Err(too_long(number));
        }
        if is_cut {
            return Err(ReadError::Fault(TextFault {
                code: TextCode::CutContinuation,
                line: number,
            }));
        }
        match self.walk.line(self.alloc, &self.in_progress.bytes) {
            Ok(()) => Ok(()),
            Err(fault) => Err(fault_at(number, fault)),
        }
    }

    // Takes a newline.
    fn newline(&mut self) -> Result<(), ReadError>
        ensures taken { TakenTo (files_of_parts self.new) (reading_of self.new) result
            (with_newline (most_of self.old) (reading_of self.old)) }
        ensures grow { GrowAlike (files_of_parts self.old) (files_of_parts self.new)
            (waiting_in self.old) (waiting_in self.new) }
        ensures most { most_of self.new ≡ most_of self.old }
    {
        if self.in_progress.joins() {
            self.in_progress.join();
            return Ok(());
        }
        let taken = self.take_line(false);
        if taken.is_ok() {
            self.in_progress.restart();
        }
        taken
    }

    // Takes a whole line that came in one piece, and its newline. It need not be kept.
    fn take_whole(&mut self, line: &[u8]) -> Result<(), ReadError>
        requires joins { is_joining self.old.in_progress.ends ≡ false }
        requires none { (open_line self.old.in_progress).joined ≡ Some [] }
        requires plain { is_ended_in_backslash line.now ≡ false }
        ensures taken { TakenTo (files_of_parts self.new) (reading_of self.new) result
            (with_newline (most_of self.old) (with_run (reading_of self.old) line.now)) }
        ensures grow { GrowAlike (files_of_parts self.old) (files_of_parts self.new)
            (waiting_in self.old) (waiting_in self.new) }
        ensures most { most_of self.new ≡ most_of self.old }
    {
        match take_unless_long(&mut self.walk, self.alloc, line) {
            Ok(()) => {
                self.in_progress.restart();
                Ok(())
            }
            Err(fault) => Err(fault_at(self.in_progress.first, fault)),
        }
    }

    // Takes what stands before a newline, with no other among it, and the newline.
    fn take_ended(&mut self, line: &[u8]) -> Result<(), ReadError>
        ensures taken { TakenTo (files_of_parts self.new) (reading_of self.new) result
            (with_newline (most_of self.old) (with_run (reading_of self.old) line.now)) }
        ensures grow { GrowAlike (files_of_parts self.old) (files_of_parts self.new)
            (waiting_in self.old) (waiting_in self.new) }
        ensures most { most_of self.new ≡ most_of self.old }
    {
        if self.in_progress.is_clear() && !ends_in_backslash(line) {
            return self.take_whole(line);
        }
        if self.in_progress.take(line).is_err() {
            return Err(ReadError::Memory);
        }
        self.newline()
    }

    // Takes the bytes up to the first newline, which stands at an index, and that newline.
    fn take_to(&mut self, rest: &[u8], at: usize) -> Result<(), ReadError>
        requires within { at < length rest.now }
        requires first { HasNoNewline at rest.now }
        requires newline { slice_index rest.now at ≡ 10 }
        ensures taken { MatchResult result
            (λ _. read_bytes (most_of self.old) (reading_of self.old) rest.now
            ≡ read_bytes (most_of self.old) (reading_of self.new) (drop (at + 1) rest.now))
            (λ e. FailedTo (files_of_parts self.new) e
            (read_bytes (most_of self.old) (reading_of self.old) rest.now)) }
        ensures grow { GrowAlike (files_of_parts self.old) (files_of_parts self.new)
            (waiting_in self.old) (waiting_in self.new) }
        ensures most { most_of self.new ≡ most_of self.old }
    {
        let (line, _) = rest.split_at(at);
        match self.take_ended(line) {
            Ok(()) => Ok(()),
            Err(fault) => Err(fault),
        }
    }

    /// Takes the next piece of the text.
    pub(crate) fn take_piece(&mut self, piece: &[u8]) -> Result<(), ReadError>
        ensures taken { TakenTo (files_of_parts self.new) (reading_of self.new) result
            (read_bytes (most_of self.old) (reading_of self.old) piece.now) }
        ensures grow { GrowAlike (files_of_parts self.old) (files_of_parts self.new)
            (waiting_in self.old) (waiting_in self.new) }
        ensures most { most_of self.new ≡ most_of self.old }
    {
        let mut rest = piece;
        while let Some(at) = newline_at(rest) {
            self.take_to(rest, at)?;
            let (_, behind) = rest.split_at(at + 1);
            rest = behind;
        }
        match self.in_progress.take(rest) {
            Ok(()) => Ok(()),
            Err(_) => Err(ReadError::Memory),
        }
    }

    // Takes the line in progress where the text ends.
    fn take_last(&mut self) -> Result<(), ReadError>
        ensures taken { TakenTo (files_of_parts self.new) (reading_of self.new) result
            (last_read (most_of self.old) (reading_of self.old)) }
        ensures grow { GrowAlike (files_of_parts self.old) (files_of_parts self.new)
            (waiting_in self.old) (waiting_in self.new) }
        ensures most { most_of self.new ≡ most_of self.old }
    {
        match self.in_progress.ends {
            Ends::Nothing => Ok(()),
            Ends::Byte => self.take_line(false),
            Ends::Joined => self.take_line(true),
            Ends::Backslash => self.take_line(true),
        }
    }

    /// Takes the end of the text.
    pub(crate) fn take_end(&mut self) -> Result<(), ReadError>
        ensures taken { TakenTo (files_of_parts self.new) (reading_of self.new) result
            (finished (most_of self.old) (reading_of self.old)) }
        ensures grow { GrowAlike (files_of_parts self.old) (files_of_parts self.new)
            (waiting_in self.old) (waiting_in self.new) }
        ensures most { most_of self.new ≡ most_of self.old }
    {
        self.take_last()?;
        if self.walk.lacks_end() {
            return Err(ReadError::Fault(TextFault {
                code: TextCode::CutInventory,
                line: self.in_progress.current,
            }));
        }
        Ok(())
    }

    /// The next file to hand out.
    pub(crate) fn take(&mut self) -> Option<Entry>
        ensures reading { reading_of self.new ≡ reading_of self.old }
        ensures most { most_of self.new ≡ most_of self.old }
        ensures next { MatchOption result ((waiting_in self.old ≡ []) × (waiting_in self.new ≡ []))
            (λ entry. waiting_in self.old ≡ entry ∷ waiting_in self.new) }
    {
        self.walk.take()
    }

    /// Keeps the memory of a path that was handed out, for one to come.
    pub(crate) fn reuse(&mut self, path: Vec<u8>)
        ensures reading { reading_of self.new ≡ reading_of self.old }
        ensures files { self.new.walk.files ≡ self.old.walk.files }
    {
        self.walk.reuse(path);
    }
}
