//! A plan's text.
ghost use Rattle.std.specs.Prelude.{◌≡◌, ◌++◌, is_ok, if◌then◌else◌};
ghost use Rattle.reown_plan.specs.Spelling.{head, line, end};
ghost use Rattle.reown_plan.specs.Records.{record_of};

use crate::Record;
use crate::numbers::PrintedNumbers;
use idtext::push_parts;
use std::alloc::AllocError;

/// Appends the first line of a host's plan. `AllocError` where memory runs out; the text is then as
/// before. One pass over the name.
pub fn push_plan_head(text: &mut Vec<u8>, host: &[u8]) -> Result<(), AllocError>
    ensures { text.new.items
        ≡ (if is_ok result then text.old.items ++ head host.now else text.old.items) }
{
    push_parts(text, &[b"unify plan 1 ".as_slice(), host, b"\n".as_slice()])
}

/// Appends one record. `AllocError` where memory runs out; the text is then as before. One pass
/// over the path.
pub fn push_record(text: &mut Vec<u8>, planned: &Record<'_>) -> Result<(), AllocError>
    ensures { text.new.items
        ≡ (if is_ok result then text.old.items ++ line (record_of planned.now)
        else text.old.items) }
{
    PrintedNumbers::new(planned.before, planned.after).push_record(text, planned.path)
}

/// Appends the last line. `AllocError` where memory runs out; the text is then as before. Takes
/// constant time except for growth.
pub fn push_plan_end(text: &mut Vec<u8>) -> Result<(), AllocError>
    ensures { text.new.items ≡ (if is_ok result then text.old.items ++ end else text.old.items) }
{
    text.extend_from_slice(b"end\n".as_slice())
}
