//! The file group, after group(5).
#![tactic(auto)]

ghost use Rattle.std.specs.Prelude.{◌≡◌, ◌≢◌, [], ◌∷◌, ℕ, Some, length, filter, not, ◌==◌, find};
ghost use Rattle.std.specs.Prelude.{position, option_copied, nat_eq, bytes_eq, List, MatchOption};
ghost use Rattle.std.specs.Prelude.{IfOk};
ghost use Rattle.std.specs.Iterator.{YieldsFirstRef, item_count};
ghost use Rattle.idtext.specs.Faults.{fault_told};
ghost use Rattle.idtext.specs.First.{Gives};
ghost use Rattle.idtext.specs.Pieces.{fields_of};
ghost use Rattle.accounts.specs.Known.{known_of};
ghost use Rattle.accounts.specs.Laws.{IsGroupTable};
ghost use Rattle.accounts.specs.Selected.{those};
ghost use Rattle.accounts.specs.Tables.{group_table};
ghost use Rattle.accounts.specs.Rows.{Group, group_from, group_line, members_of};

use crate::index::Index;
use crate::lines::keeps;
use crate::table::{Row, Rows, read_rows, select_rows};
use idtext::{Pieces, ReadError, TextCode, TextFault, decimal, fields, is_lawful_name};
use std::alloc::{AllocError, Global};
use std::marker::Model;

/// A row of group: the four fields of one line, after group(5). Its texts are slices of the file,
/// with no copy.
#[derive(Drop)]
pub struct GroupRow<'a> {
    /// The number of the line, counted from 1; skipped lines count too.
    pub line: u64,
    /// The group's name.
    pub name: &'a [u8],
    /// The password field, which may be empty.
    pub password: &'a [u8],
    /// The group's number, at most 4294967294.
    pub gid: u32,
    /// The user list as it stands: names between commas, possibly none.
    pub members: &'a [u8],
}

impl<'a> Model for GroupRow<'a> {
    ghost Value = { Group };

    ghost view = { λ row. record {
      line = row.line;
      name = row.name.now;
      password = row.password.now;
      gid = row.gid;
      members = row.members.now;
    } };
}

impl<'a> Row<'a> for GroupRow<'a> {
    ghost line_of = { group_line };

    ghost name_of = { λ row. row.name };

    ghost number_of = { λ row. row.gid };

    fn read(number: u64, line: &'a [u8]) -> Result<Option<Self>, TextFault> {
        line_of(number, line)
    }

    fn name(&self) -> &'a [u8] {
        self.name
    }

    fn number(&self) -> u32 {
        self.gid
    }

    fn copied(&self) -> Self {
        GroupRow {
            line: self.line,
            name: self.name,
            password: self.password,
            gid: self.gid,
            members: self.members,
        }
    }
}

// The texts of a row.
#[derive(Clone, Copy)]
struct GroupFields<'a> {
    name: &'a [u8],
    password: &'a [u8],
    gid: &'a [u8],
    members: &'a [u8],
}

// The four fields of a line.
fn four_fields(line: &[u8]) -> Option<GroupFields<'_>>
    ensures { MatchOption result (length (fields_of line.now) ≢ 4) (λ found. fields_of line.now ≡
        found.name.now ∷ found.password.now ∷ found.gid.now ∷ found.members.now ∷ []) }
{
    let mut rest = fields(line);
    let found = GroupFields {
        name: rest.next()?,
        password: rest.next()?,
        gid: rest.next()?,
        members: rest.next()?,
    };
    if rest.next().is_some() {
        return None;
    }
    Some(found)
}

// The row of a line that is kept.
fn row_of(number: u64, line: &[u8]) -> Result<GroupRow<'_>, TextFault>
    ensures { Gives (λ row. row) (λ fault. Some fault) result
        (group_from number (fields_of line.now)) }
{
    let refused = |code| TextFault { code, line: number };
    let Some(found) = four_fields(line) else {
        return Err(refused(TextCode::BadFields));
    };
    if !is_lawful_name(found.name) {
        return Err(refused(TextCode::BadName));
    }
    let Some(gid) = decimal(found.gid) else {
        return Err(refused(TextCode::BadNumber));
    };
    Ok(GroupRow {
        line: number,
        name: found.name,
        password: found.password,
        gid,
        members: found.members,
    })
}

// The row of a line, if it has one, or what is wrong with the line.
#[tactic(auto, unfolding(crate::specs::Rows::group_line))]
fn line_of(number: u64, line: &[u8]) -> Result<Option<GroupRow<'_>>, TextFault>
    ensures { Gives (λ row. row) (λ fault. Some fault) result (group_line number line.now) }
{
    if !keeps(number, line)? {
        return Ok(None);
    }
    Ok(Some(row_of(number, line)?))
}

/// The rows of group. Names are lawful and distinct; gids are distinct and at most 4294967294;
/// there are at most 65,536 rows. It keeps an entry in each of two hash sets for each row, and no
/// text.
pub struct GroupTable<'a> {
    rows: Vec<GroupRow<'a>>,
    index: Index<'a>,
}

// Written out, so that the proof of a function that lets a table go has one call there.
impl Drop for GroupTable<'_> {
    fn drop(self) {
        let GroupTable { rows, index } = self;
        drop(rows);
        drop(index);
    }
}

impl<'a> Model for GroupTable<'a> {
    ghost Value = { List Group };

    ghost view = { λ it. it.rows.items };

    ghost invariant = { λ it. (it.index ≡ known_of (λ row. row.name) (λ row. row.gid) it.rows.items)
        × IsGroupTable it.rows.items };
}

impl<'a> GroupTable<'a> {
    /// The rows, in the order of the file. Constant time; takes no memory.
    pub fn rows(&self) -> &[GroupRow<'a>]
        ensures rows { result.now ≡ self.now }
        ensures table { IsGroupTable self.now }
    {
        self.rows.as_slice()
    }

    /// The row with this name, or none. One hash look-up; takes no memory.
    pub fn by_name(&self, name: &[u8]) -> Option<&GroupRow<'a>>
        ensures { option_copied result ≡ find (λ row. bytes_eq name.now row.name) self.now }
    {
        let place = self.index.index_of_name(name)?;
        Some(&self.rows[place])
    }

    /// The row with this gid, or none. One hash look-up; takes no memory.
    pub fn by_number(&self, gid: u32) -> Option<&GroupRow<'a>>
        ensures { option_copied result ≡ find (λ row. nat_eq gid row.gid) self.now }
    {
        let place = self.place_of_number(gid)?;
        Some(&self.rows[place])
    }

    /// The place of the row with this gid among the rows, or none. One hash look-up; takes no
    /// memory.
    pub fn place_of_number(&self, gid: u32) -> Option<usize>
        ensures place { result ≡ position (λ row. nat_eq gid row.gid) self.now }
        ensures table { IsGroupTable self.now }
    {
        self.index.index_of_number(gid)
    }

    /// The table of those rows whose flag is set, in their order and with the numbers of their
    /// lines: flags stand in the order of the rows, and a row beyond them counts as not set. One
    /// pass, with two hash look-ups for each row that is taken; no text is copied. `AllocError`
    /// where a growth was refused.
    pub fn selected(&self, alloc: Global, flags: &[bool]) -> Result<GroupTable<'a>, AllocError>
        ensures those { IfOk result (λ table. table ≡ those flags.now self.now) }
        ensures table { IfOk result (λ table. IsGroupTable table) }
    {
        let rows = select_rows(alloc, self.rows.as_slice(), flags)?;
        let Rows { list, index } = rows;
        Ok(GroupTable { rows: list, index })
    }
}

/// Reads group, after group(5): the rows of its lines, or its first fault.
///
/// Lines that are empty, only white space, or begin with `#` are skipped. The checks of a line, in
/// order:
///
/// - `TooManyLines`: it is line 65,537.
/// - `LineTooLong`: it has over 65,535 bytes, also where it would be skipped.
/// - `CompatLine`: it begins with `+` or `-`.
/// - `BadFields`: it does not have exactly four fields between colons.
/// - `BadName`: the name is not lawful.
/// - `BadNumber`: the gid is not one or more decimal digits of a value of at most 4294967294.
/// - `NameTwice`: an earlier row has the name.
/// - `SharedNumber`: an earlier row has the gid.
///
/// The fault is that of the first line that fails, with the line's number. `Memory` is answered
/// only where a growth was refused. One pass over the text with two hash look-ups a row; the rows
/// are slices of the text, which is not copied.
#[tactic(auto, unfolding(crate::specs::Tables::group_table))]
pub fn read_group(alloc: Global, text: &[u8]) -> Result<GroupTable<'_>, ReadError>
    ensures exact { Gives (λ table. table) fault_told result (group_table text.now) }
    ensures table { IfOk result (λ table. IsGroupTable table) }
{
    let rows = read_rows(alloc, text)?;
    let Rows { list, index } = rows;
    Ok(GroupTable { rows: list, index })
}

impl<'a> GroupRow<'a> {
    /// The users of the group, as its list names them, in order: what stands between the commas,
    /// without empty items.
    /// Source: group(5). A name may stand twice, and need not be in passwd. Takes no memory; going
    /// over all of them is one pass over the list.
    #[tactic(auto, unfolding(crate::specs::Rows::members_of))]
    pub fn members(&self) -> Members<'a>
        ensures { result ≡ members_of self.now.members }
    {
        Members {
            rest: Pieces::new(b',', self.members),
        }
    }
}

/// The users of a group that are still to come, each a slice of the file.
#[derive(Drop)]
pub struct Members<'a> {
    rest: Pieces<'a>,
}

impl<'a> Model for Members<'a> {
    ghost Value = { List (List ℕ) };

    ghost view = { λ it. filter (λ name. not (length name == 0)) it.rest };
}

impl<'a> Iterator for Members<'a> {
    type Item = &'a [u8];

    ghost next_gives = { YieldsFirstRef (λ rest. rest) };

    ghost remaining = { item_count (λ rest. rest) };

    fn next(&mut self) -> Option<&'a [u8]> {
        while let Some(name) = self.rest.next() {
            if !name.is_empty() {
                return Some(name);
            }
        }
        None
    }
}
