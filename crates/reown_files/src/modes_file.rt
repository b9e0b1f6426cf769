//! The modes that a run of a plan may lose, as a file beside the mark. A change of its owner clears
//! the set-user-ID and the set-group-ID bit of a file (chown(2)), and the next call sets them back:
//! this is for a stop between the two. It is there, with or without modes, from before the first
//! change until the mark is synced, so that a plan which was begun is known by it.
ghost use Rattle.std.specs.Prelude.{◌≡◌, ◌<◌, ◌≤◌, ◌+◌, ◌++◌, ◌↔◌, ◌⊎◌, ◌||◌};
ghost use Rattle.std.specs.Prelude.{not, [], ◌∷◌, if◌then◌else◌, List, ℕ, Option, Some, None};
ghost use Rattle.std.specs.Prelude.{IfOk, IfErr, IfSome, IsTrue, OnOk, OnErr, Ok, Err};
ghost use Rattle.std.specs.Prelude.{is_ok, false, true, length, take};
ghost use Rattle.std.specs.Option.{option_copied};
ghost use Rattle.std.specs.String.{string_bytes};
ghost use Rattle.reown_files.specs.declared.answers.Trouble.TheVariants.{NotModes, Memory};
ghost use Rattle.reown_files.specs.declared.answers.Trouble.TheVariants.{TooManyModes};
ghost use Rattle.reown_files.specs.Actions.{FileRead, FileRemoved, modes_put};
ghost use Rattle.reown_files.specs.Actions.{IsReadAtMost, IsModesReadAtMost, IsModesPutAtMost};
ghost use Rattle.reown_files.specs.Looks as looks;
ghost use Rattle.reown_files.specs.OneFile.{HasLost};
ghost use Rattle.idtext.specs.Escapes.{unescaped, has_bad_escape};
ghost use Rattle.reown_files.specs.MarkText as spec;
ghost use Rattle.reown_files.specs.ModesNoted.{entry_of};
ghost use Rattle.reown_files.specs.RootData.{modes_beside};
ghost use Rattle.reown_files.specs.Trees.{mode_noted_for, HasModesOf, IsTold, AreRead};

use crate::Trouble;
use crate::actions::ActionLog;
use crate::mark_file::{HEAD as MARK_HEAD, MarkFile, push_plan};
use crate::walk::{Found, Kind, SET_ID};
use crate::whole_file::{path_with, put_whole, read_whole, remove_file, sync_name};
use idtext::{Character, Lines, first_character, push_escaped};
use reown_plan::PlanMark;
use std::alloc::{AllocError, Global};
use std::collections::BTreeMap;

/// What the file of the modes that a run may lose has after the path of the mark.
pub const MODES_BEHIND: &str = ".modes";

// How it begins, and its last line.
const HEAD: &[u8] = b"unify modes 1 ";

const END: &[u8] = b"end\n";

// The most bytes of it that are read. No more are written.
const MOST_BYTES: u64 = 1_073_741_824;

/// Whether a file is a regular one that has such a bit.
pub fn has_set_id(found: &Found) -> bool
    ensures { result ≡ looks.has_set_id found.now }
{
    found.kind == Kind::Regular && found.mode & SET_ID != 0
}

/// Whether a file lacks bits of this mode that a change of its owner clears. One whose mode differs
/// otherwise was given that by somebody else.
pub fn has_lost(found: &Found, mode: u32) -> bool
    ensures { IsTrue result ↔ HasLost found.now mode }
{
    found.kind == Kind::Regular && found.mode != mode && (found.mode | (mode & SET_ID)) == mode
}

// ---- what stands in it

// An octal digit of a mode.
fn digit(value: u32) -> u8
    requires { value < 8 }
    ensures { result ≡ 48 + value }
{
    b'0' + value as u8
}

// Appends a mode, as four octal digits.
fn push_mode(text: &mut Vec<u8>, mode: u32) -> Result<(), AllocError>
    ensures pushed { OnOk result (text.new.items ≡ text.old.items ++ spec.mode_text mode) }
    ensures kept { OnErr result (text.new.items ≡ text.old.items) }
{
    text.extend_from_slice(&[
        digit(mode / 512 % 8),
        digit(mode / 64 % 8),
        digit(mode / 8 % 8),
        digit(mode % 8),
    ])
}

// Appends the line of a file, or a part of it where memory runs out on the way.
fn push_part(text: &mut Vec<u8>, path: &[u8], mode: u32) -> Result<(), AllocError>
    ensures pushed { OnOk result
        (text.new.items ≡ text.old.items ++ spec.line_text path.now mode) }
    ensures kept { take (length text.old.items) text.new.items ≡ text.old.items }
{
    push_mode(text, mode)?;
    text.push(b' ')?;
    push_escaped(text, path)?;
    text.extend_from_slice(b"\n")
}

// Appends the line of a file, all of it or nothing.
fn push_line(text: &mut Vec<u8>, path: &[u8], mode: u32) -> Result<(), AllocError>
    ensures { text.new.items ≡ (if is_ok result
        then text.old.items ++ spec.line_text path.now mode else text.old.items) }
{
    let before = text.len();
    let pushed = push_part(text, path, mode);
    if pushed.is_err() {
        text.truncate(before);
    }
    pushed
}

// Its first line.
fn head_of(alloc: Global, plan: &PlanMark) -> Result<Vec<u8>, AllocError>
    ensures { IfOk result (λ text. text.items ≡ spec.head_text plan.now) }
{
    let mut text = Vec::from_slice(alloc, HEAD)?;
    push_plan(&mut text, plan)?;
    Ok(text)
}

// All of it, with these lines of files, where it is not too long to be read back.
fn modes_text(alloc: Global, plan: &PlanMark, lines: &[u8]) -> Result<Vec<u8>, Trouble>
    ensures text { IfOk result (λ text. text.items ≡ spec.modes_text plan.now lines.now) }
    ensures read_back { IfOk result (λ text. length text.items ≤ 1073741824) }
    ensures refused { IfErr result (λ trouble. (trouble ≡ Memory) ⊎ (trouble ≡ TooManyModes)) }
{
    let mut text = head_of(alloc, plan)?;
    text.extend_from_slice(lines)?;
    text.extend_from_slice(END)?;
    if text.len() as u64 > MOST_BYTES {
        return Err(Trouble::TooManyModes);
    }
    Ok(text)
}

// The number of an octal digit.
fn digit_of(byte: u8) -> Option<u32>
    ensures value { result ≡ spec.octal_digit byte }
    ensures small { IfSome result (λ digit. digit < 8) }
{
    if b'0' <= byte && byte <= b'7' {
        Some(u32::from(byte - b'0'))
    } else {
        None
    }
}

// The mode that four octal digits are.
fn mode_of(word: &[u8]) -> Option<u32>
    ensures { result ≡ spec.mode_read word.now }
{
    let [first, second, third, fourth] = word else {
        return None;
    };
    let high = digit_of(*first)? * 8 + digit_of(*second)?;
    let low = digit_of(*third)? * 8 + digit_of(*fourth)?;
    Some(high * 64 + low)
}

// The path of a line.
fn path_of(alloc: Global, text: &[u8]) -> Result<Vec<u8>, Trouble>
    ensures { IfOk result
        (λ path. (path.items ≡ unescaped text.now) × (has_bad_escape text.now ≡ false)) }
{
    let mut path = Vec::new(alloc);
    let mut rest = text;
    while let Some((found, next)) = first_character(rest) {
        match found {
            Character::Plain(byte) | Character::Escape(byte) => path.extend_from_slice(&[byte])?,
            Character::Bad => return Err(Trouble::NotModes),
        }
        rest = next;
    }
    Ok(path)
}

// The mode of a file, as a run wrote it down.
#[derive(Drop)]
struct Noted {
    path: Vec<u8>,
    mode: u32,
}

// What the line of a file says.
fn read_line(alloc: Global, line: &[u8]) -> Result<Noted, Trouble>
    ensures { IfOk result (λ noted. spec.line_read line.now ≡ Some (entry_of noted)) }
{
    if line.len() < 5 || line[4] != b' ' {
        return Err(Trouble::NotModes);
    }
    let Some(mode) = mode_of(&line[..4]) else {
        return Err(Trouble::NotModes);
    };
    let path = path_of(alloc, &line[5..])?;
    Ok(Noted { path, mode })
}

// The modes that the lines of files say, by path; of several lines of one file the last counts.
// Whoever names files may choose the paths, so they stand in a search tree: no look-up takes more
// than a few comparisons, whatever the names are.
fn read_lines(alloc: Global, text: &[u8]) -> Result<BTreeMap<Vec<u8>, u32>, Trouble>
    ensures { IfOk result (λ modes. HasModesOf text.now modes.entries) }
{
    let mut modes = BTreeMap::new(alloc);
    for line in Lines::new(text) {
        let Noted { path, mode } = read_line(alloc, line)?;
        modes.insert(path, mode)?;
    }
    Ok(modes)
}

// The lines of files in a text that is whole, where its first line is this one; none where it is
// another plan's.
fn lines_of<'t>(text: &'t [u8], head: &[u8]) -> Result<Option<&'t [u8]>, Trouble>
    ensures lines { IfOk result
        (λ lines. spec.lines_in head.now text.now ≡ Some (option_copied lines)) }
    ensures refused { IfErr result
        (λ trouble. (trouble ≡ NotModes) × (spec.lines_in head.now text.now ≡ None)) }
{
    if !text.starts_with(HEAD) {
        return Err(Trouble::NotModes);
    }
    let Some(body) = text.strip_suffix(END) else {
        return Err(Trouble::NotModes);
    };
    if !body.ends_with(b"\n") {
        return Err(Trouble::NotModes);
    }
    Ok(body.strip_prefix(head))
}

// Whether the text of a mark is that of the plan which this text of modes is of.
fn has_ended(mark: &[u8], text: &[u8]) -> bool
    ensures { result ≡ spec.has_ended mark.now text.now }
{
    let Some(plan) = mark.strip_prefix(MARK_HEAD) else {
        return false;
    };
    let Some(rest) = text.strip_prefix(HEAD) else {
        return false;
    };
    plan.ends_with(b"\n") && rest.starts_with(plan)
}

// The lines of files that the plan with this first line goes by, where the file of the mark has
// this text. A plan that was begun is carried out to its end before another one is begun: where
// another one has not ended, its modes are refused, and else they are none of this one's.
fn judge<'t>(text: &'t [u8], head: &[u8], mark: &[u8]) -> Result<Option<&'t [u8]>, Trouble>
    ensures lines { IfOk result
        (λ lines. spec.modes_judged head.now mark.now text.now ≡ Ok (option_copied lines)) }
    ensures refused { IfErr result
        (λ trouble. spec.modes_judged head.now mark.now text.now ≡ Err trouble) }
{
    let lines = lines_of(text, head)?;
    if lines.is_none() && !has_ended(mark, text) {
        return Err(Trouble::OtherPlan);
    }
    Ok(lines)
}

// ---- the file

/// The file of the modes that a run may lose, beside the mark.
#[derive(Drop)]
pub struct ModesFile<'w> {
    rt: &'w HostRuntime,
    pub path: String,
    /// The plan that an earlier run of it wrote modes down for, and those.
    pub plan: Option<PlanMark>,
    pub noted: BTreeMap<Vec<u8>, u32>,
    /// Whether the mark of this run's plan was there, which has nothing to change then.
    pub was_done: bool,
    /// The lines of the files that this run may lose modes of.
    pub lines: Vec<u8>,
    /// Whether this run may have put the file there.
    pub is_put: bool,
}

impl<'w> ModesFile<'w> {
    /// The file beside a mark.
    pub fn beside(rt: &'w HostRuntime, mark: &str) -> Result<ModesFile<'w>, Trouble>
        ensures lines { IfOk result (λ modes. modes.lines.items ≡ []) }
        ensures unread { IfOk result (λ modes. modes.plan ≡ None) }
        ensures path { IfOk result
            (λ modes. string_bytes modes.path ≡ modes_beside mark.now) }
        ensures not_put { IfOk result
            (λ modes. (modes.was_done ≡ false) × (modes.is_put ≡ false)) }
    {
        Ok(ModesFile {
            rt,
            path: path_with(rt, mark, MODES_BEHIND)?,
            plan: None,
            noted: BTreeMap::new(rt.alloc()),
            was_done: false,
            lines: Vec::new(rt.alloc()),
            is_put: false,
        })
    }

    /// Adds the line of a file that is to be given an owner, where it is a regular one with a bit
    /// that this clears.
    pub fn add(&mut self, path: &[u8], found: &Found) -> Result<(), Trouble>
        ensures added { OnOk result (self.new.lines.items ≡ self.old.lines.items
            ++ (if looks.has_set_id found.now
            then spec.line_text path.now found.now.mode else [])) }
        ensures none { OnErr result (self.new.lines.items ≡ self.old.lines.items) }
        ensures rest { self.new ≡ record self.old { lines = self.new.lines } }
    {
        if has_set_id(found) {
            push_line(&mut self.lines, path, found.mode)?;
        }
        Ok(())
    }

    // Reads a text that is there, and answers whether it is of this plan. The modes in it are noted
    // where its mark was not there.
    fn read_text(&mut self, plan: &PlanMark, text: &[u8], beside: &[u8]) -> Result<bool, Trouble>
        ensures read { IfOk result (λ own. IsTold plan.now
            (spec.modes_judged (spec.head_text plan.now) beside.now text.now) self.old.was_done own
            self.old.plan self.old.noted.entries self.new.plan self.new.noted.entries) }
        ensures same { OnErr result (self.new ≡ self.old) }
        ensures rest { self.new
            ≡ record self.old { plan = self.new.plan; noted = self.new.noted } }
    {
        let head = head_of(self.rt.alloc(), plan)?;
        let Some(lines) = judge(text, &head, beside)? else {
            return Ok(false);
        };
        if self.was_done {
            return Ok(true);
        }
        self.noted = read_lines(self.rt.alloc(), lines)?;
        self.plan = Some(*plan);
        Ok(true)
    }

    // The same, beside what stands in the file of the mark.
    fn read_beside(
        &mut self,
        plan: &PlanMark,
        text: &[u8],
        mark: &MarkFile<'_>,
        log: &mut ActionLog,
    ) -> Result<bool, Trouble>
        ensures read { IfOk result (λ own. (beside : Option (List ℕ))
            × (log.new.actions ≡ FileRead (string_bytes mark.now.path) beside ∷ log.old.actions)
            × IsTold plan.now (spec.lines_told plan.now beside (Some text.now))
            self.old.was_done own self.old.plan self.old.noted.entries
            self.new.plan self.new.noted.entries) }
        ensures at_most { OnErr result
            (IsReadAtMost (string_bytes mark.now.path) log.old.actions log.new.actions) }
        ensures same { OnErr result (self.new ≡ self.old) }
        ensures rest { self.new
            ≡ record self.old { plan = self.new.plan; noted = self.new.noted } }
    {
        match mark.text(log)? {
            Some(beside) => self.read_text(plan, text, &beside),
            None => self.read_text(plan, text, b""),
        }
    }

    /// Reads what an earlier run of this plan wrote down, and answers whether one did; none is lost
    /// where its mark is there. A file that is cut, or has no modes, is refused, and so is that of
    /// another plan which has not ended; that of one which has is none of this one's.
    pub fn read(
        &mut self,
        plan: &PlanMark,
        is_marked: bool,
        mark: &MarkFile<'_>,
        log: &mut ActionLog,
    ) -> Result<bool, Trouble>
        ensures read { IfOk result (λ begun. AreRead
            (string_bytes mark.now.path) (string_bytes self.old.path) plan.now is_marked begun
            log.old.actions log.new.actions
            self.old.plan self.old.noted.entries self.new.plan self.new.noted.entries) }
        ensures at_most { OnErr result (IsModesReadAtMost
            (string_bytes mark.now.path) (string_bytes self.old.path)
            log.old.actions log.new.actions) }
        ensures same { OnErr result
            ((self.new.plan ≡ self.old.plan) × (self.new.noted ≡ self.old.noted)) }
        ensures rest { self.new ≡ record self.old {
          plan = self.new.plan;
          noted = self.new.noted;
          was_done = is_marked;
        } }
    {
        self.was_done = is_marked;
        let text = read_whole(
            self.rt,
            self.path.as_str(),
            MOST_BYTES,
            Trouble::NotModes,
            log,
        )?;
        match text {
            Some(text) => self.read_beside(plan, &text, mark, log),
            None => Ok(false),
        }
    }

    /// The mode that was read for a file of this plan.
    pub fn noted(&self, plan: &PlanMark, path: &[u8]) -> Option<u32>
        ensures { result ≡ mode_noted_for self.now.plan self.now.noted.entries plan.now path.now }
    {
        match self.plan {
            Some(read) if read == *plan => self.noted.get(path).copied(),
            _ => None,
        }
    }

    /// Writes down for this plan the modes that the run may lose, be they none, in place of what
    /// was there, whole and synced; where the plan's mark was there, removes that instead. What
    /// would be too long to be read back is refused, and nothing is written.
    pub fn put(&mut self, plan: &PlanMark, log: &mut ActionLog) -> Result<(), Trouble>
        ensures put { OnOk result (log.new.actions
            ≡ modes_put (string_bytes self.old.path) self.old.was_done
            (spec.modes_text plan.now self.old.lines.items) log.old.actions) }
        ensures read_back { OnOk result (self.old.was_done ≡ false
            → length (spec.modes_text plan.now self.old.lines.items) ≤ 1073741824) }
        ensures at_most { OnErr result (IsModesPutAtMost (string_bytes self.old.path)
            self.old.was_done (spec.modes_text plan.now self.old.lines.items)
            log.old.actions log.new.actions) }
        ensures is_put { OnOk result (self.new.is_put ≡ self.old.is_put || not self.old.was_done) }
        ensures rest { self.new ≡ record self.old { is_put = self.new.is_put } }
    {
        if self.was_done {
            return remove_file(self.rt, self.path.as_str(), log);
        }
        let text = modes_text(self.rt.alloc(), plan, &self.lines)?;
        self.is_put = true;
        put_whole(self.rt, self.path.as_str(), &text, log)?;
        sync_name(self.rt, self.path.as_str(), log)
    }

    /// Removes the file, where this run has put it there.
    pub fn forget(&mut self, log: &mut ActionLog) -> Result<(), Trouble>
        ensures forgotten { OnOk result (log.new.actions ≡ (if self.old.is_put
            then FileRemoved (string_bytes self.old.path) ∷ log.old.actions
            else log.old.actions)) }
        ensures undone { OnErr result (log.new.actions ≡ log.old.actions) }
        ensures asked { OnErr result (self.old.is_put ≡ true) }
        ensures rest { self.new ≡ record self.old { is_put = false } }
    {
        if !self.is_put {
            return Ok(());
        }
        self.is_put = false;
        match remove_file(self.rt, self.path.as_str(), log) {
            Err(Trouble::System(number)) => Err(Trouble::OfModes(number)),
            told => told,
        }
    }
}
