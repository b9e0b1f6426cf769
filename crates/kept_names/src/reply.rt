//! What the command `verify` tells of what is found.
ghost use Rattle.std.specs.Prelude.{◌≡◌, ◌++◌, IfOk, OnOk};
ghost use Rattle.kept_names.specs.Kept.{findings};
ghost use Rattle.kept_names.specs.Telling as telling;
ghost use Rattle.kept_names.specs.Telling.{count_line, counts_of, first_lines, found_text};
ghost use Rattle.kept_names.specs.Telling.{more_line, more_of};
ghost use Rattle.kept_names.specs.Tally.{counts_by, more_lines, tally_of};

use crate::changes::find_changes;
use crate::finding::{Finding, What};
use crate::lines::push_finding;
use crate::names::Renumbering;
use crate::tally::Tally;
use idtext::push_number;
use mtree_inv::Inventory;
use std::alloc::{AllocError, Global};

/// What goes out, and the exit status.
#[derive(Drop)]
pub struct VerifyReply {
    /// For standard output: how many files are kept, and how many are found of each kind.
    pub output: Vec<u8>,
    /// For standard error: the lines of the files that are found.
    pub errors: Vec<u8>,
    /// 0 where no file is missing, changed or unnamed, nor has a number that was left, and else 1.
    pub status: u8,
}

// Appends the lines of the first files of each kind, so many at most, and tells how many files
// there are of each.
fn push_first(
    lines: &mut Vec<u8>,
    renumbering: &Renumbering<'_>,
    found: &[Finding<'_>],
    most: usize,
) -> Result<Tally, AllocError>
    ensures { IfOk result (λ tally. (tally ≡ tally_of found.now)
        × (lines.new.items ≡ lines.old.items ++ first_lines renumbering.now most found.now)) }
{
    let mut tally = Tally::new();
    for finding in found {
        if tally.number(finding.what) < most {
            push_finding(lines, renumbering, finding)?;
        }
        tally.count(finding.what);
    }
    Ok(tally)
}

// Appends that there are so many more files of a kind.
fn push_more_line(lines: &mut Vec<u8>, word: &str, number: usize) -> Result<(), AllocError>
    ensures { OnOk result (lines.new.items ≡ lines.old.items ++ more_line word.now number) }
{
    lines.extend_from_slice(b"unify: more ")?;
    lines.extend_from_slice(word.as_bytes())?;
    lines.extend_from_slice(b": ")?;
    push_number(lines, number as u128)?;
    lines.push(b'\n')?;
    Ok(())
}

// Appends how many files of a kind no line was told of, where so many are told at most.
fn push_more(lines: &mut Vec<u8>, most: usize, word: &str, number: usize) -> Result<(), AllocError>
    ensures { OnOk result (lines.new.items ≡ lines.old.items ++ more_of most word.now number) }
{
    if number <= most {
        return Ok(());
    }
    push_more_line(lines, word, number - most)
}

// Appends this for each kind.
fn push_rest(lines: &mut Vec<u8>, most: usize, tally: &Tally) -> Result<(), AllocError>
    ensures { OnOk result (lines.new.items ≡ lines.old.items ++ more_lines most tally.now) }
{
    push_more(lines, most, "missing", tally.missing)?;
    push_more(lines, most, "changed", tally.changed)?;
    push_more(lines, most, "new", tally.new)?;
    push_more(lines, most, "unnamed", tally.unnamed)?;
    push_more(lines, most, "left", tally.left)
}

// Appends a word and a number as a line.
fn push_count(text: &mut Vec<u8>, word: &str, count: usize) -> Result<(), AllocError>
    ensures { OnOk result (text.new.items ≡ text.old.items ++ count_line (word.now, count)) }
{
    text.extend_from_slice(word.as_bytes())?;
    text.push(b' ')?;
    push_number(text, count as u128)?;
    text.extend_from_slice(b"\n")
}

// How many files there are of each kind, of so many in the first inventory.
fn counts_text(alloc: Global, files: usize, tally: &Tally) -> Result<Vec<u8>, AllocError>
    ensures { IfOk result (λ text. text.items
        ≡ telling.counts_text (counts_by files tally.now)) }
{
    let mut text = Vec::new(alloc);
    push_count(&mut text, "kept", tally.kept(files))?;
    push_count(&mut text, "missing", tally.missing)?;
    push_count(&mut text, "changed", tally.changed)?;
    push_count(&mut text, "new", tally.new)?;
    push_count(&mut text, "unnamed", tally.unnamed)?;
    push_count(&mut text, "left", tally.left)?;
    Ok(text)
}

// The exit status: new files alone are no fault.
fn status_of(found: &[Finding<'_>]) -> u8
    ensures { result ≡ telling.status_of found.now }
{
    for finding in found {
        if !matches!(finding.what, What::New) {
            return 1;
        }
    }
    0
}

/// What `verify` tells of the files of two inventories, of which the first was made under the
/// accounts before a renumbering and the second under those after it: on standard output how many
/// there are, and on standard error the lines of the first `most` of each kind, in the order of
/// [`find_changes`], and after all of them how many more there are of each kind.
///
/// It takes what [`find_changes`] takes, and what it tells.
///
/// # Errors
///
/// `AllocError` where memory is refused.
pub fn verify_reply(
    alloc: Global,
    renumbering: &Renumbering<'_>,
    before: &Inventory,
    after: &Inventory,
    most: usize,
) -> Result<VerifyReply, AllocError>
    ensures output { IfOk result (λ reply. reply.output.items
        ≡ telling.counts_text (counts_of renumbering.now before.now after.now)) }
    ensures errors { IfOk result (λ reply. reply.errors.items
        ≡ found_text renumbering.now most (findings renumbering.now before.now after.now)) }
    ensures status { IfOk result (λ reply. reply.status
        ≡ telling.status_of (findings renumbering.now before.now after.now)) }
{
    let found = find_changes(alloc, renumbering, before, after)?;
    let mut errors = Vec::new(alloc);
    let tally = push_first(&mut errors, renumbering, &found, most)?;
    push_rest(&mut errors, most, &tally)?;
    let output = counts_text(alloc, before.entries().len(), &tally)?;
    Ok(VerifyReply {
        output,
        errors,
        status: status_of(&found),
    })
}
