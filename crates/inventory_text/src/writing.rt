//! The lines of an inventory after its first one.
ghost use Rattle.std.specs.Prelude.{◌≡◌, ◌++◌, is_ok, if◌then◌else◌};
ghost use Rattle.inventory_text.specs.Writing.{ended, end_line, entry_line};

use crate::kind::FileKind;
use crate::parts::push_with_escaped;
use idtext::push_parts;
use itoa::Buffer;
use std::alloc::AllocError;

/// Appends the line of a file: its path from the starting directory, any bytes, with each of them
/// visible, and its kind and its owner's numbers.
/// [`inventories_read_back`](crate::inventories_read_back) says of which paths and numbers the
/// line is read back. One pass over the path.
///
/// # Errors
///
/// Where memory is refused; the text is then as it was.
pub fn push_entry(
    text: &mut Vec<u8>,
    path: &[u8],
    uid: u32,
    gid: u32,
    kind: FileKind,
) -> Result<(), AllocError>
    ensures { text.new.items
        ≡ (if is_ok result then text.old.items ++ ended (entry_line path.now uid gid kind)
        else text.old.items) }
{
    let mut uid_digits = Buffer::new();
    let mut gid_digits = Buffer::new();
    push_with_escaped(
        text,
        b"./",
        path,
        &[
            b" type=".as_slice(),
            kind.word(),
            b" uid=".as_slice(),
            uid_digits.format(uid).as_bytes(),
            b" gid=".as_slice(),
            gid_digits.format(gid).as_bytes(),
            b"\n".as_slice(),
        ],
    )
}

/// Appends the last line, a comment with the number of files before it. It takes a few steps.
///
/// # Errors
///
/// Where memory is refused; the text is then as it was.
pub fn push_end(text: &mut Vec<u8>, count: u64) -> Result<(), AllocError>
    ensures { text.new.items
        ≡ (if is_ok result then text.old.items ++ ended (end_line count) else text.old.items) }
{
    let mut digits = Buffer::new();
    push_parts(
        text,
        &[
            b"# end ".as_slice(),
            digits.format(count).as_bytes(),
            b"\n".as_slice(),
        ],
    )
}
