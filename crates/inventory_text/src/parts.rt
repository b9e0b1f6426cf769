//! Texts that are made of parts, one of which is escaped.
ghost use Rattle.std.specs.Prelude.{◌≡◌, ◌++◌, OnOk, is_ok, if◌then◌else◌, length, take, flat_map};
ghost use Rattle.idtext.specs.Escapes.{escaped};

use idtext::{push_escaped, push_parts};
use std::alloc::AllocError;

// Appends a front, some bytes escaped and the parts after them, also where memory runs out on
// the way.
fn push_each(
    out: &mut Vec<u8>,
    front: &[u8],
    bytes: &[u8],
    parts: &[&[u8]],
) -> Result<(), AllocError>
    ensures pushed { OnOk result
        (out.new.items ≡ out.old.items
        ++ (front.now ++ (escaped bytes.now ++ flat_map (λ part. part.now) parts.now))) }
    ensures kept { take (length out.old.items) out.new.items ≡ out.old.items }
{
    out.extend_from_slice(front)?;
    push_escaped(out, bytes)?;
    push_parts(out, parts)
}

// Appends a front, some bytes escaped and the parts after them, or nothing where memory runs out.
pub(crate) fn push_with_escaped(
    out: &mut Vec<u8>,
    front: &[u8],
    bytes: &[u8],
    parts: &[&[u8]],
) -> Result<(), AllocError>
    ensures { out.new.items
        ≡ (if is_ok result then out.old.items
        ++ (front.now ++ (escaped bytes.now ++ flat_map (λ part. part.now) parts.now))
        else out.old.items) }
{
    let before = out.len();
    let pushed = push_each(out, front, bytes, parts);
    if pushed.is_err() {
        out.truncate(before);
    }
    pushed
}
