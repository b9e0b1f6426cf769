//! The numbers of a record, printed.
ghost use Rattle.std.specs.Prelude.{◌≡◌, ◌+◌, ◌≤◌, ◌++◌, ◌∷◌, [], is_ok, if◌then◌else◌};
ghost use Rattle.std.specs.Prelude.{length, drop};
ghost use Rattle.reown_plan.specs.Spelling.{number};
ghost use Rattle.reown_plan.specs.OwnerChange.{numbers};

use crate::Owner;
use idtext::push_parts;
use itoa::write_digits;
use std::alloc::AllocError;
use std::marker::Model;

// The four numbers of two owners as a record has them, with a space after each. A number of 32
// bits has ten digits at most.
#[derive(Drop)]
pub(crate) struct PrintedNumbers {
    length: u8,
    // They are the first bytes, so that what is mostly read of them stands together.
    bytes: [u8; 44],
}

impl Model for PrintedNumbers {
    ghost use Rattle.std.specs.Prelude.{List, ℕ, ◌≤◌, take};

    ghost Value = { List ℕ };

    ghost view = { λ n. take n.length n.bytes };

    ghost invariant = { λ n. n.length ≤ 44 };
}

// Writes a number and the space after it, so that they end at an index, and tells where they
// start.
fn write_number(value: u64, bytes: &mut [u8], end: usize) -> usize
    requires { (length (number value) ≤ end) × (end ≤ length bytes.old) }
    ensures start { result + length (number value) ≡ end }
    ensures written { drop result bytes.new ≡ number value ++ drop end bytes.old }
{
    bytes[end - 1] = b' ';
    write_digits(value, bytes, end - 1)
}

// The same of the two numbers of an owner.
fn write_owner(uid: u32, gid: u32, bytes: &mut [u8; 44], end: usize) -> usize
    requires { (22 ≤ end) × (end ≤ 44) }
    ensures start { end ≤ result + 22 }
    ensures within { result ≤ end }
    ensures written { drop result bytes.new ≡ number uid ++ number gid ++ drop end bytes.old }
{
    let middle = write_number(u64::from(gid), bytes, end);
    write_number(u64::from(uid), bytes, middle)
}

// The same of a length, at the end of the bytes.
fn write_length(length: usize, bytes: &mut [u8; 21]) -> usize
    ensures within { result ≤ 21 }
    ensures written { drop result bytes.new ≡ number length }
{
    write_number(length as u64, bytes, 21)
}

impl PrintedNumbers {
    // Those of files that have the first owner and get the other. Takes constant time, and no
    // memory.
    pub(crate) fn new(before: Owner, after: Owner) -> PrintedNumbers
        ensures { result ≡ numbers before after }
    {
        let mut written = [0; 44];
        let middle = write_owner(after.uid, after.gid, &mut written, 44);
        let start = write_owner(before.uid, before.gid, &mut written, middle);
        let length = 44 - start;
        let mut bytes = [0; 44];
        bytes[..length].copy_from_slice(&written[start..]);
        PrintedNumbers {
            length: length as u8,
            bytes,
        }
    }

    // Appends the record of a file with this path. `AllocError` where memory is refused; the text
    // is then as before. One pass over the path.
    pub(crate) fn push_record(&self, text: &mut Vec<u8>, path: &[u8]) -> Result<(), AllocError>
        ensures { text.new.items
            ≡ (if is_ok result
            then text.old.items ++ self.now ++ number (length path.now) ++ path.now ++ 10 ∷ []
            else text.old.items) }
    {
        let mut length = [0; 21];
        let start = write_length(path.len(), &mut length);
        push_parts(
            text,
            &[
                &self.bytes[..usize::from(self.length)],
                &length[start..],
                path,
                b"\n".as_slice(),
            ],
        )
    }
}
