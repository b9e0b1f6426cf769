//! The pins text.

ghost use Rattle.std.specs.Prelude.{◌≡◌, ◌≤◌, ◌++◌, ◌∷◌, [], IfOk, OnOk, true};
ghost use Rattle.idtext.specs.First.{Gives};
ghost use Rattle.hosts_join.specs.PairLines.{user_pair, group_pair};
ghost use Rattle.hosts_join.specs.PinsText.{pins_of, pins_on, pins_told, is_new_pin, may_stand};
ghost use Rattle.hosts_join.specs.PinsInside.{IsPinTable, IsDraft, IsIdLine, drafted};

use crate::fault::PinsFault;
use crate::{PairLine, PairTable, Reserved, Which, pair_line};
use idtext::Lines;
use indexmap::IndexSet;
use std::alloc::{AllocError, Global};
use std::marker::Model;

// The most lines of a pins text, skipped ones too.
const MOST_LINES: u64 = 1048576;

/// The pins of both kinds: names, of the site or not, with the numbers that they are to have. Names
/// are slices of the pins text. In each kind names differ and numbers differ, and no number is
/// above 4294967294. Beside them stand, for each kind, the numbers that no name is to be given.
#[derive(Drop)]
pub struct Pins<'a> {
    users: PairTable<'a>,
    groups: PairTable<'a>,
    reserved_users: Vec<Reserved<'a>>,
    reserved_groups: Vec<Reserved<'a>>,
}

impl<'a> Model for Pins<'a> {
    ghost use Rattle.hosts_join.specs.PinPairs.{PinPairs};

    ghost Value = { PinPairs };

    ghost use Rattle.hosts_join.specs.PinsInside.{pins_in, ArePinsInside};

    ghost view = { pins_in };

    ghost invariant = { ArePinsInside };
}

// The pins of one kind so far, and the set of their numbers.
struct PinTable<'a> {
    pairs: PairTable<'a>,
    numbers: IndexSet<u32>,
}

// Written out, so that the proof of a function that lets a table go has one call there.
impl Drop for PinTable<'_> {
    fn drop(self) {
        let PinTable { pairs, numbers } = self;
        drop(pairs);
        drop(numbers);
    }
}

impl<'a> PinTable<'a> {
    fn new(alloc: Global) -> Self
        ensures table { IsPinTable result }
        ensures empty { result.pairs ≡ [] }
    {
        PinTable {
            pairs: PairTable::new(alloc),
            numbers: IndexSet::new(alloc),
        }
    }

    // Adds a name with its number, and answers whether both are new. Where one is not, the table is
    // of no more use.
    fn add(&mut self, name: &'a [u8], number: u32) -> Result<bool, AllocError>
        requires table { IsPinTable self.old }
        requires id { number ≤ 4294967294 }
        ensures new { IfOk result (λ new. new ≡ is_new_pin self.old.pairs name.now number) }
        ensures pairs { IfOk result (λ new. new ≡ true → self.new.pairs
            ≡ self.old.pairs ++ record { name = name.now; number = number } ∷ []) }
        ensures table { IfOk result (λ new. new ≡ true → IsPinTable self.new) }
    {
        let (_, new) = self.numbers.insert_full(number)?;
        if !new {
            return Ok(false);
        }
        self.pairs.add(name, number)
    }

    // The pins, without the set.
    fn into_pairs(self) -> PairTable<'a>
        ensures { result ≡ self.entry.pairs }
    {
        let PinTable { pairs, numbers } = self;
        drop(numbers);
        pairs
    }
}

// The pins of both kinds so far.
#[derive(Drop)]
struct Draft<'a> {
    users: PinTable<'a>,
    groups: PinTable<'a>,
}

// Takes what a line says, and answers whether the line may stand there.
fn take_line<'a>(draft: &mut Draft<'a>, line: PairLine<'a>) -> Result<bool, AllocError>
    requires draft { IsDraft draft.old }
    requires id { IsIdLine line }
    ensures good { IfOk result (λ good. good ≡ may_stand (drafted draft.old) line.entry) }
    ensures users { IfOk result (λ good. good ≡ true
        → draft.new.users.pairs ≡ draft.old.users.pairs ++ user_pair line.entry) }
    ensures groups { IfOk result (λ good. good ≡ true
        → draft.new.groups.pairs ≡ draft.old.groups.pairs ++ group_pair line.entry) }
    ensures draft { IfOk result (λ good. good ≡ true → IsDraft draft.new) }
{
    match line {
        PairLine::Skipped => Ok(true),
        PairLine::Wrong => Ok(false),
        PairLine::Given {
            which: Which::User,
            name,
            number,
        } => draft.users.add(name.bytes(), number),
        PairLine::Given {
            which: Which::Group,
            name,
            number,
        } => draft.groups.add(name.bytes(), number),
    }
}

// Takes the lines of a text.
fn take_lines<'a>(draft: &mut Draft<'a>, text: &'a [u8]) -> Result<(), PinsFault>
    requires draft { IsDraft draft.old }
    requires empty { drafted draft.old ≡ pins_on [] }
    ensures pins { Gives (λ _. drafted draft.new) pins_told result (pins_of text.now) }
    ensures draft { OnOk result (IsDraft draft.new) }
{
    let mut number: u64 = 0;
    for line in Lines::new(text) {
        number += 1;
        if number > MOST_LINES {
            return Err(PinsFault::BadPins(number));
        }
        if !take_line(draft, pair_line(line))? {
            return Err(PinsFault::BadPins(number));
        }
    }
    Ok(())
}

impl<'a> Pins<'a> {
    ghost use Rattle.hosts_join.specs.PinPairs.{ArePins};

    /// Reads a pins text: lines `user NAME NUMBER` and `group NAME NUMBER`, where NAME is what
    /// stands between the first and the last space, blank lines, and lines that begin with `#`. The
    /// empty text has no pins. No text reserves numbers.
    ///
    /// Refused with `BadPins`, at its line, counted from 1, is the first line that is none of
    /// these, that gives a name or a number a second time in its kind, or that is past the
    /// 1,048,576th; `Memory` where a growth was refused. One pass over the text, with a few
    /// look-ups by hash for each line, and memory in step with the pins.
    pub fn read(alloc: Global, text: &'a [u8]) -> Result<Self, PinsFault>
        ensures { Gives (λ pins. pins) pins_told result (pins_of text.now) }
    {
        let mut draft = Draft {
            users: PinTable::new(alloc),
            groups: PinTable::new(alloc),
        };
        take_lines(&mut draft, text)?;
        let Draft { users, groups } = draft;
        Ok(Pins {
            users: users.into_pairs(),
            groups: groups.into_pairs(),
            reserved_users: Vec::new(alloc),
            reserved_groups: Vec::new(alloc),
        })
    }

    /// The same pins, with these numbers reserved of each kind, in place of those that were: a join
    /// gives them to no name, and refuses a pin at one. The ranges may share numbers. No cost.
    pub fn with_reserved(self, users: Vec<Reserved<'a>>, groups: Vec<Reserved<'a>>) -> Pins<'a>
        ensures { result ≡ record self.entry {
          reserved_users = users.entry.items;
          reserved_groups = groups.entry.items;
        } }
    {
        let Pins {
            users: user_pins,
            groups: group_pins,
            reserved_users: _,
            reserved_groups: _,
        } = self;
        Pins {
            users: user_pins,
            groups: group_pins,
            reserved_users: users,
            reserved_groups: groups,
        }
    }

    /// The pins of users, in the order of their lines.
    pub(crate) fn user_pins(&self) -> &PairTable<'a>
        ensures pairs { result.now ≡ self.now.users }
        ensures lawful { ArePins self.now.users }
    {
        &self.users
    }

    /// The pins of groups, in the order of their lines.
    pub(crate) fn group_pins(&self) -> &PairTable<'a>
        ensures pairs { result.now ≡ self.now.groups }
        ensures lawful { ArePins self.now.groups }
    {
        &self.groups
    }

    /// The reserved numbers of users.
    pub(crate) fn reserved_users(&self) -> &[Reserved<'a>]
        ensures { result.now ≡ self.now.reserved_users }
    {
        self.reserved_users.as_slice()
    }

    /// The reserved numbers of groups.
    pub(crate) fn reserved_groups(&self) -> &[Reserved<'a>]
        ensures { result.now ≡ self.now.reserved_groups }
    {
        self.reserved_groups.as_slice()
    }
}
