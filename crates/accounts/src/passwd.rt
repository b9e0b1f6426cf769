//! The file passwd, after passwd(5).
#![tactic(auto)]

ghost use Rattle.std.specs.Prelude.{◌≡◌, ◌≢◌, [], ◌∷◌, Some, length, find, position, option_copied};
ghost use Rattle.std.specs.Prelude.{nat_eq, bytes_eq, List, MatchOption, IfOk};
ghost use Rattle.idtext.specs.Faults.{fault_told};
ghost use Rattle.idtext.specs.First.{Gives};
ghost use Rattle.idtext.specs.Pieces.{fields_of};
ghost use Rattle.accounts.specs.Known.{known_of};
ghost use Rattle.accounts.specs.Laws.{IsPasswdTable, HaveLawfulGids};
ghost use Rattle.accounts.specs.Selected.{those};
ghost use Rattle.accounts.specs.Tables.{passwd_table};
ghost use Rattle.accounts.specs.Rows.{Passwd, passwd_from, passwd_line};

use crate::index::Index;
use crate::lines::keeps;
use crate::table::{Row, Rows, read_rows, select_rows};
use idtext::{ReadError, TextCode, TextFault, decimal, fields, is_lawful_name};
use std::alloc::{AllocError, Global};
use std::marker::Model;

/// A row of passwd: the seven fields of one line, after passwd(5). Its texts are slices of the
/// file, with no copy.
#[derive(Drop)]
pub struct PasswdRow<'a> {
    /// The number of the line, counted from 1; skipped lines count too.
    pub line: u64,
    /// The login name.
    pub name: &'a [u8],
    /// The password field, which may be empty.
    pub password: &'a [u8],
    /// The user's number, at most 4294967294.
    pub uid: u32,
    /// The number of the primary group, at most 4294967294.
    pub gid: u32,
    /// The comment, often the full name; may be empty.
    pub comment: &'a [u8],
    /// The home directory, which may be empty.
    pub home: &'a [u8],
    /// The login shell, which may be empty.
    pub shell: &'a [u8],
}

impl<'a> Model for PasswdRow<'a> {
    ghost Value = { Passwd };

    ghost view = { λ row. record {
      line = row.line;
      name = row.name.now;
      password = row.password.now;
      uid = row.uid;
      gid = row.gid;
      comment = row.comment.now;
      home = row.home.now;
      shell = row.shell.now;
    } };
}

impl<'a> Row<'a> for PasswdRow<'a> {
    ghost line_of = { passwd_line };

    ghost name_of = { λ row. row.name };

    ghost number_of = { λ row. row.uid };

    fn read(number: u64, line: &'a [u8]) -> Result<Option<Self>, TextFault> {
        line_of(number, line)
    }

    fn name(&self) -> &'a [u8] {
        self.name
    }

    fn number(&self) -> u32 {
        self.uid
    }

    fn copied(&self) -> Self {
        PasswdRow {
            line: self.line,
            name: self.name,
            password: self.password,
            uid: self.uid,
            gid: self.gid,
            comment: self.comment,
            home: self.home,
            shell: self.shell,
        }
    }
}

// The texts of a row.
#[derive(Clone, Copy)]
struct PasswdFields<'a> {
    name: &'a [u8],
    password: &'a [u8],
    uid: &'a [u8],
    gid: &'a [u8],
    comment: &'a [u8],
    home: &'a [u8],
    shell: &'a [u8],
}

// The seven fields of a line.
fn seven_fields(line: &[u8]) -> Option<PasswdFields<'_>>
    ensures { MatchOption result (length (fields_of line.now) ≢ 7) (λ found. fields_of line.now ≡
        found.name.now ∷ found.password.now ∷ found.uid.now ∷ found.gid.now ∷ found.comment.now
        ∷ found.home.now ∷ found.shell.now ∷ []) }
{
    let mut rest = fields(line);
    let found = PasswdFields {
        name: rest.next()?,
        password: rest.next()?,
        uid: rest.next()?,
        gid: rest.next()?,
        comment: rest.next()?,
        home: rest.next()?,
        shell: rest.next()?,
    };
    if rest.next().is_some() {
        return None;
    }
    Some(found)
}

// The row of a line that is kept.
fn row_of(number: u64, line: &[u8]) -> Result<PasswdRow<'_>, TextFault>
    ensures { Gives (λ row. row) (λ fault. Some fault) result
        (passwd_from number (fields_of line.now)) }
{
    let refused = |code| TextFault { code, line: number };
    let Some(found) = seven_fields(line) else {
        return Err(refused(TextCode::BadFields));
    };
    if !is_lawful_name(found.name) {
        return Err(refused(TextCode::BadName));
    }
    let Some(uid) = decimal(found.uid) else {
        return Err(refused(TextCode::BadNumber));
    };
    let Some(gid) = decimal(found.gid) else {
        return Err(refused(TextCode::BadNumber));
    };
    Ok(PasswdRow {
        line: number,
        name: found.name,
        password: found.password,
        uid,
        gid,
        comment: found.comment,
        home: found.home,
        shell: found.shell,
    })
}

// The row of a line, if it has one, or what is wrong with the line.
#[tactic(auto, unfolding(crate::specs::Rows::passwd_line))]
fn line_of(number: u64, line: &[u8]) -> Result<Option<PasswdRow<'_>>, TextFault>
    ensures { Gives (λ row. row) (λ fault. Some fault) result (passwd_line number line.now) }
{
    if !keeps(number, line)? {
        return Ok(None);
    }
    Ok(Some(row_of(number, line)?))
}

/// The rows of passwd. Names are lawful and distinct; uids are distinct; uids and gids are at most
/// 4294967294; there are at most 65,536 rows. It keeps an entry in each of two hash sets for each
/// row, and no text.
pub struct PasswdTable<'a> {
    rows: Vec<PasswdRow<'a>>,
    index: Index<'a>,
}

// Written out, so that the proof of a function that lets a table go has one call there.
impl Drop for PasswdTable<'_> {
    fn drop(self) {
        let PasswdTable { rows, index } = self;
        drop(rows);
        drop(index);
    }
}

impl<'a> Model for PasswdTable<'a> {
    ghost Value = { List Passwd };

    ghost view = { λ it. it.rows.items };

    ghost invariant = { λ it.
        (it.index ≡ known_of (λ row. row.name) (λ row. row.uid) it.rows.items)
        × IsPasswdTable it.rows.items × HaveLawfulGids it.rows.items };
}

impl<'a> PasswdTable<'a> {
    /// The rows, in the order of the file. Constant time; takes no memory.
    pub fn rows(&self) -> &[PasswdRow<'a>]
        ensures rows { result.now ≡ self.now }
        ensures table { IsPasswdTable self.now }
        ensures primary_groups { HaveLawfulGids self.now }
    {
        self.rows.as_slice()
    }

    /// The row with this name, or none. One hash look-up; takes no memory.
    pub fn by_name(&self, name: &[u8]) -> Option<&PasswdRow<'a>>
        ensures { option_copied result ≡ find (λ row. bytes_eq name.now row.name) self.now }
    {
        let place = self.index.index_of_name(name)?;
        Some(&self.rows[place])
    }

    /// The row with this uid, or none. One hash look-up; takes no memory.
    pub fn by_number(&self, uid: u32) -> Option<&PasswdRow<'a>>
        ensures { option_copied result ≡ find (λ row. nat_eq uid row.uid) self.now }
    {
        let place = self.place_of_number(uid)?;
        Some(&self.rows[place])
    }

    /// The place of the row with this uid among the rows, or none. One hash look-up; takes no
    /// memory.
    pub fn place_of_number(&self, uid: u32) -> Option<usize>
        ensures place { result ≡ position (λ row. nat_eq uid row.uid) self.now }
        ensures table { IsPasswdTable self.now }
    {
        self.index.index_of_number(uid)
    }

    /// The table of those rows whose flag is set, in their order and with the numbers of their
    /// lines: flags stand in the order of the rows, and a row beyond them counts as not set. One
    /// pass, with two hash look-ups for each row that is taken; no text is copied. `AllocError`
    /// where a growth was refused.
    pub fn selected(&self, alloc: Global, flags: &[bool]) -> Result<PasswdTable<'a>, AllocError>
        ensures those { IfOk result (λ table. table ≡ those flags.now self.now) }
        ensures table { IfOk result (λ table. IsPasswdTable table) }
        ensures primary_groups { IfOk result (λ table. HaveLawfulGids table) }
    {
        let rows = select_rows(alloc, self.rows.as_slice(), flags)?;
        let Rows { list, index } = rows;
        Ok(PasswdTable { rows: list, index })
    }
}

/// Reads passwd, after passwd(5): the rows of its lines, or its first fault.
///
/// Lines that are empty, only white space, or begin with `#` are skipped. The checks of a line, in
/// order:
///
/// - `TooManyLines`: it is line 65,537.
/// - `LineTooLong`: it has over 65,535 bytes, also where it would be skipped.
/// - `CompatLine`: it begins with `+` or `-`.
/// - `BadFields`: it does not have exactly seven fields between colons.
/// - `BadName`: the name is not lawful.
/// - `BadNumber`: the uid or the gid is not one or more decimal digits of a value of at most
///   4294967294.
/// - `NameTwice`: an earlier row has the name.
/// - `SharedNumber`: an earlier row has the uid.
///
/// The fault is that of the first line that fails, with the line's number. `Memory` is answered
/// only where a growth was refused. One pass over the text with two hash look-ups a row; the rows
/// are slices of the text, which is not copied.
#[tactic(auto, unfolding(crate::specs::Tables::passwd_table))]
pub fn read_passwd(alloc: Global, text: &[u8]) -> Result<PasswdTable<'_>, ReadError>
    ensures exact { Gives (λ table. table) fault_told result (passwd_table text.now) }
    ensures table { IfOk result (λ table. IsPasswdTable table) }
    ensures primary_groups { IfOk result (λ table. HaveLawfulGids table) }
{
    let rows = read_rows(alloc, text)?;
    let Rows { list, index } = rows;
    Ok(PasswdTable { rows: list, index })
}
