//! The keep text: what stays as it is on each host. The format is this project's own.

ghost use Rattle.std.specs.Prelude.{◌≡◌, IfOk, true};
ghost use Rattle.idtext.specs.First.{Gives};
ghost use Rattle.keep_text.specs.KeepTexts.{is_new, keep_of, keep_told, may_stand, nothing_kept};
ghost use Rattle.keep_text.specs.KeepTaken.{with_line, with_said};
ghost use Rattle.keep_text.specs.declared.keep_text.KeepFault.TheVariants as fault;

use crate::keep_line::{KeepLine, Said, keep_line};
use crate::name_set::NameSet;
use crate::range_list::RangeList;
use hosts_join::Which;
use idtext::Lines;
use std::alloc::{AllocError, Global};

/// What a keep text says of users, or of groups.
#[derive(Drop)]
pub struct Kept<'a> {
    /// The names that keep, on each host, the number that they have there, in the order of their
    /// lines.
    pub names: NameSet<'a>,
    /// The ranges whose numbers stay as they are, in the order of their lines. None is empty; they
    /// may share numbers.
    pub ranges: RangeList,
    /// Whether numbers without an account stay as they are.
    pub unowned: bool,
}

/// What a keep text says. Names are slices of the text.
#[derive(Drop)]
pub struct KeepText<'a> {
    /// What it says of users.
    pub users: Kept<'a>,
    /// What it says of groups.
    pub groups: Kept<'a>,
}

/// Why a keep text was refused, or want of memory.
#[derive(Clone, Copy, Debug, PartialEq, Eq)]
pub enum KeepFault {
    /// The line, counted from 1, may not stand there.
    BadKeep(u64),
    /// A growth was refused.
    Memory,
}

impl From<AllocError> for KeepFault {
    ghost from_gives = { λ _ e. e ≡ fault.Memory };

    fn from(_: AllocError) -> Self {
        KeepFault::Memory
    }
}

impl<'a> Kept<'a> {
    // Nothing is kept.
    fn new(alloc: Global) -> Self
        ensures { result ≡ nothing_kept }
    {
        Kept {
            names: NameSet::new(alloc),
            ranges: RangeList::new(alloc),
            unowned: false,
        }
    }

    // Takes what a line says, and answers whether it may be said.
    fn take(&mut self, said: Said<'a>) -> Result<bool, AllocError>
        ensures new { IfOk result (λ new. new ≡ is_new self.old said.entry) }
        ensures taken { IfOk result
            (λ new. new ≡ true → self.new ≡ with_said self.old said.entry) }
    {
        match said {
            Said::Name(name) => self.names.add(name.bytes()),
            Said::Range(range) => {
                self.ranges.push(range)?;
                Ok(true)
            }
            Said::Unowned => {
                let new = !self.unowned;
                self.unowned = true;
                Ok(new)
            }
        }
    }
}

// Takes a line, and answers whether it may stand there.
fn take_line<'a>(keep: &mut KeepText<'a>, line: KeepLine<'a>) -> Result<bool, AllocError>
    ensures good { IfOk result (λ good. good ≡ may_stand keep.old line.entry) }
    ensures taken { IfOk result (λ good. good ≡ true → keep.new ≡ with_line keep.old line.entry) }
{
    match line {
        KeepLine::Skipped => Ok(true),
        KeepLine::Wrong => Ok(false),
        KeepLine::Given {
            which: Which::User,
            said,
        } => keep.users.take(said),
        KeepLine::Given {
            which: Which::Group,
            said,
        } => keep.groups.take(said),
    }
}

/// Reads a keep text: what stays as it is on each host, for users and for groups. Its lines are
///
/// - `user NAME` and `group NAME`: the name keeps, on each host, the number that it has there. NAME
///   is all that stands after the first space; it is a lawful name, and may hold spaces.
/// - `users LOW HIGH` and `groups LOW HIGH`: the numbers from LOW to HIGH stay as they are. Both
///   are ids, LOW is no greater than HIGH, and one space stands between. Ranges may share numbers.
/// - `unowned users` and `unowned groups`: numbers that no account of the host has stay as they
///   are.
/// - lines that say nothing: blank ones, and those that begin with `#`.
///
/// Refused with `BadKeep`, at its line, counted from 1, is the first line that is none of these,
/// that lists a name a second time for its kind, or that says `unowned` of a kind a second time:
/// who says one thing twice meant another, as groups by the second of two `unowned users`. At
/// 18446744073709551615 the number of lines stays. `Memory` where a growth was refused. The empty
/// text keeps nothing.
///
/// Source: this project's own format. One pass over the text, with two look-ups by hash for each
/// name, and memory in step with the lines that say something.
pub fn read_keep<'a>(alloc: Global, text: &'a [u8]) -> Result<KeepText<'a>, KeepFault>
    ensures { Gives (λ keep. keep) keep_told result (keep_of text.now) }
{
    let mut keep = KeepText {
        users: Kept::new(alloc),
        groups: Kept::new(alloc),
    };
    let mut number: u64 = 0;
    for line in Lines::new(text) {
        number = number.saturating_add(1);
        if !take_line(&mut keep, keep_line(line))? {
            return Err(KeepFault::BadKeep(number));
        }
    }
    Ok(keep)
}
