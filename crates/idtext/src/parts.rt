//! Texts that are made of parts.
ghost use Rattle.std.specs.Prelude.{◌≡◌, ◌++◌, OnOk, is_ok, if◌then◌else◌, length, take, flat_map};

use std::alloc::AllocError;

// Appends each part, also where memory runs out on the way.
fn push_each_part(out: &mut Vec<u8>, parts: &[&[u8]]) -> Result<(), AllocError>
    ensures pushed { OnOk result
        (out.new.items ≡ out.old.items ++ flat_map (λ part. part.now) parts.now) }
    ensures kept { take (length out.old.items) out.new.items ≡ out.old.items }
{
    for part in parts {
        out.extend_from_slice(part)?;
    }
    Ok(())
}

/// Appends the parts one after the other. `AllocError` where memory is refused; the text is then as
/// it was. One pass over the parts.
pub fn push_parts(out: &mut Vec<u8>, parts: &[&[u8]]) -> Result<(), AllocError>
    ensures { out.new.items
        ≡ (if is_ok result then out.old.items ++ flat_map (λ part. part.now) parts.now
        else out.old.items) }
{
    let before = out.len();
    let pushed = push_each_part(out, parts);
    if pushed.is_err() {
        out.truncate(before);
    }
    pushed
}
