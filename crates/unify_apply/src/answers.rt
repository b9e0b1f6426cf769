//! What the command prints on standard output.
ghost use Rattle.std.specs.Prelude.{◌≡◌, ◌++◌, IfOk, OnOk};
ghost use Rattle.unify_apply.specs.Answers.{count_line, done_text, counts_text as text_of_counts};

use idtext::push_number;
use reown_files::OwnerCounts;
use std::alloc::{AllocError, Global};

// Appends a word and how many there are of it.
fn push_count(text: &mut Vec<u8>, word: &str, count: u64) -> Result<(), AllocError>
    ensures { OnOk result (text.new.items ≡ text.old.items ++ count_line (word.now, count)) }
{
    text.extend_from_slice(word.as_bytes())?;
    text.push(b' ')?;
    push_number(text, u128::from(count))?;
    text.extend_from_slice(b"\n")
}

/// The two lines that tell a plan that was carried out. `AllocError` where memory is refused.
pub fn records_text(alloc: Global, records: usize) -> Result<Vec<u8>, AllocError>
    ensures { IfOk result (λ text. text.items ≡ done_text records) }
{
    let mut text = Vec::new(alloc);
    push_count(&mut text, "records", records as u64)?;
    text.extend_from_slice(b"done\n")?;
    Ok(text)
}

/// The seven lines of a count. `AllocError` where memory is refused.
pub fn counts_text(alloc: Global, counts: OwnerCounts, mounts: usize) -> Result<Vec<u8>, AllocError>
    ensures { IfOk result (λ text. text.items ≡ text_of_counts counts mounts) }
{
    let mut text = Vec::new(alloc);
    push_count(&mut text, "before", counts.before)?;
    push_count(&mut text, "after", counts.after)?;
    push_count(&mut text, "missing", counts.missing)?;
    push_count(&mut text, "foreign", counts.foreign)?;
    push_count(&mut text, "set-id", counts.set_id)?;
    push_count(&mut text, "linked", counts.linked)?;
    push_count(&mut text, "mounts", mounts as u64)?;
    Ok(text)
}
