//! The inventory of a text.
ghost use Rattle.std.specs.Prelude.{◌≡◌, ◌≤◌, length, MatchResult, IfOk};
ghost use Rattle.idtext.specs.declared.faults.ReadError.TheVariants.{Memory};
ghost use Rattle.idtext.specs.First.{Gives};
ghost use Rattle.mtree_inv.specs.Inventory.{inventory};
ghost use Rattle.idtext.specs.Faults.{fault_told};

use crate::entry::Entry;
use crate::reader::Reader;
use idtext::ReadError;
use std::alloc::Global;
use std::marker::Model;

/// The files of an mtree text, each path once, in order of first appearance.
#[derive(Drop)]
pub struct Inventory {
    entries: Vec<Entry>,
}

impl Model for Inventory {
    ghost use Rattle.std.specs.Prelude.{List};
    ghost use Rattle.mtree_inv.specs.declared.entry.Entry.{Entry};
    ghost use Rattle.mtree_inv.specs.Files.{AreFiles};

    ghost Value = { List Entry };

    ghost view = { λ i. i.entries.items };

    ghost invariant = { λ i. AreFiles i.entries.items };
}

impl Inventory {
    ghost use Rattle.std.specs.Prelude.{◌≡◌};
    ghost use Rattle.mtree_inv.specs.Files.{AreFiles};

    /// Its files. No two have one path; a path has 1 to 65,535 bytes without NUL, and a number is
    /// at most 4294967294. Takes no memory.
    pub fn entries(&self) -> &[Entry]
        ensures files { result.now ≡ self.now }
        ensures lawful { AreFiles self.now }
    {
        &self.entries
    }
}

// What the reader has to hand out.
fn all_entries(alloc: Global, mut reader: Reader) -> Result<Vec<Entry>, ReadError>
    ensures { MatchResult result (λ entries. entries.items ≡ reader.waiting) (λ e. e ≡ Memory) }
{
    let mut entries = Vec::new(alloc);
    while let Some(entry) = reader.next_entry() {
        if entries.push(entry).is_err() {
            return Err(ReadError::Memory);
        }
    }
    Ok(entries)
}

/// Reads the inventory of a whole mtree text, of at most `most` files, by mtree(5) and the profile
/// that this crate's page states.
///
/// The answer is `ReadError::Fault` exactly where the text has a fault, with the first: by line,
/// and on one line `LineTooLong`, `CutContinuation`, `CutInventory`, `BadCommand`, `DotDotAbove`,
/// `BadPath`, `BadNumber`, `NoUid`, `NoGid`, `OwnersDiffer`, `TooManyEntries`, in this order; and
/// after all lines `CutInventory`, at the line after the last newline. The line is counted from
/// 1, and of lines that are joined it is the first. `ReadError::Memory` says that memory was
/// refused.
///
/// It takes the time of one `Reader::feed`. Each path stands in memory whole, and there may be far
/// more of them than of the text, where directories stand in directories; until the call returns,
/// there is also what a `Reader` keeps.
pub fn read_inventory(alloc: Global, text: &[u8], most: u32) -> Result<Inventory, ReadError>
    ensures exact { Gives (λ inventory. inventory) fault_told result (inventory most text.now) }
    ensures few { IfOk result (λ inventory. length inventory ≤ most) }
{
    let mut reader = Reader::new(alloc, most);
    if let Err(fault) = reader.feed(text) {
        return Err(fault);
    }
    reader.finish()?;
    let entries = all_entries(alloc, reader)?;
    Ok(Inventory { entries })
}
