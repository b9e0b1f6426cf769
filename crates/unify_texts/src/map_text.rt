//! The map text. The format is this project's own.

ghost use Rattle.std.specs.Prelude.{◌≡◌, ◌++◌, IfOk, OnOk, length, flat_map};
ghost use Rattle.idtext.specs.First.{Gives};
ghost use Rattle.unify_texts.specs.WrittenMap as written;
ghost use Rattle.unify_texts.specs.Told.{told};
ghost use Rattle.hosts_join.specs.Lawful.{AreLawfulAccounts};
ghost use Rattle.ownership.specs.Mappings.{AreForSite};
ghost use Rattle.hosts_join.specs.PairLines.{user_pair, group_pair};
ghost use Rattle.unify_texts.specs.Maps.{map_of, is_good_after};

use crate::fault::Fault;
use crate::words::{Word, kind_word, push_line};
use hosts_join::{Names, PairLine, PairTable, Site, Which, pair_line};
use idtext::Lines;
use ownership::{Mapping, Mappings};
use std::alloc::{AllocError, Global};

/// How many bytes are set aside for a line of a map text.
const LINE_BYTES: usize = 16;

/// The pairs of names and numbers of a map text.
#[derive(Drop)]
pub struct MapText<'a> {
    /// The users and their numbers, in the order of their lines; no name twice.
    pub users: PairTable<'a>,
    /// The groups and their numbers, in the order of their lines; no name twice.
    pub groups: PairTable<'a>,
}

/// Takes what a line says, and answers whether the line may stand there.
fn take_line<'a>(map: &mut MapText<'a>, line: PairLine<'a>) -> Result<bool, AllocError>
    ensures good { IfOk result (λ good. good ≡ is_good_after map.old line.entry) }
    ensures users { IfOk result
        (λ good. good ≡ Rattle.std.specs.Prelude.true
        → map.new.users ≡ map.old.users ++ user_pair line.entry) }
    ensures groups { IfOk result
        (λ good. good ≡ Rattle.std.specs.Prelude.true
        → map.new.groups ≡ map.old.groups ++ group_pair line.entry) }
{
    match line {
        PairLine::Skipped => Ok(true),
        PairLine::Wrong => Ok(false),
        PairLine::Given {
            which: Which::User,
            name,
            number,
        } => map.users.add(name.bytes(), number),
        PairLine::Given {
            which: Which::Group,
            name,
            number,
        } => map.groups.add(name.bytes(), number),
    }
}

/// Reads a map text: the pairs of each kind, in the order of their lines, or `BadMap` with its
/// first bad line.
///
/// A line is bad where it is neither skipped nor a lawful pair, or where its name stands before it
/// for the same kind. A number may come twice. Goes over the text once, with two look-ups by hash
/// for each pair; takes memory in the number of pairs, and the names are slices of the text.
/// `Memory` where a growth was refused.
pub fn read_map<'a>(alloc: Global, text: &'a [u8]) -> Result<MapText<'a>, Fault<'a>>
    ensures { Gives (λ map. map) told result (map_of text.now) }
{
    let mut map = MapText {
        users: PairTable::new(alloc),
        groups: PairTable::new(alloc),
    };
    let mut number: u64 = 0;
    for line in Lines::new(text) {
        number = number.saturating_add(1);
        if !take_line(&mut map, pair_line(line))? {
            return Err(Fault::BadMap(number));
        }
    }
    Ok(map)
}

/// Appends a line for each name of a kind, in byte order.
fn push_numbers(
    out: &mut Vec<u8>,
    kind: Which,
    names: &Names<'_>,
    mapping: &Mapping,
) -> Result<(), AllocError>
    requires lawful { AreLawfulAccounts names.now }
    requires len { length mapping.now ≡ length names.now.names }
    ensures { OnOk result
        (out.new.items ≡ out.old.items
        ++ flat_map (written.map_line kind) (written.numbered names.now mapping.now)) }
{
    for index in names.in_byte_order() {
        let name = Word::Raw(names.name(*index));
        let number = Word::Number(u128::from(mapping.number(*index)));
        push_line(out, kind_word(kind), &[name, number])?;
    }
    Ok(())
}

/// The map text of mappings of a site's users and groups: a line `user NAME NUMBER` for each user,
/// in byte order of the names, and then a line `group NAME NUMBER` for each group alike. Requires
/// one number for each name. It is read back by [`read_map`] as these numbers.
///
/// Time and memory in the length of the lines. `AllocError` where a growth was refused.
pub fn write_map(alloc: Global, site: &Site<'_>, mappings: &Mappings) -> Result<Vec<u8>, AllocError>
    requires { AreForSite site.now mappings.now }
    ensures { IfOk result (λ text. text.items ≡ written.map_text site.now mappings.now) }
{
    let lines = site.users().len() as usize + site.groups().len() as usize;
    let mut text = Vec::with_capacity(alloc, LINE_BYTES * lines)?;
    push_numbers(&mut text, Which::User, site.users(), &mappings.users)?;
    push_numbers(&mut text, Which::Group, site.groups(), &mappings.groups)?;
    Ok(text)
}
