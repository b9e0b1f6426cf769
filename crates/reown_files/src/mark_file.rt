//! The mark of a plan, as a file.
ghost use Rattle.std.specs.Prelude.{◌≡◌, ◌⊎◌, ◌++◌, ◌<◌, ◌∷◌, Some, None};
ghost use Rattle.std.specs.Prelude.{IfOk, IfErr, OnOk, OnErr};
ghost use Rattle.std.specs.String.{string_bytes};
ghost use Rattle.reown_files.specs.declared.answers.Trouble.TheVariants.{Memory, NotMark};
ghost use Rattle.reown_files.specs.Actions.{FileRead, TextPut, NameSynced};
ghost use Rattle.reown_files.specs.Actions.{IsMarkRead, IsReadAtMost, new_beside};
ghost use Rattle.reown_files.specs.ActionsCode.{text_in};
ghost use Rattle.reown_files.specs.MarkText as spec;

use crate::Trouble;
use crate::actions::ActionLog;
use crate::whole_file::{put_whole, read_whole, sync_name};
use idtext::push_number;
use reown_plan::PlanMark;
use std::alloc::{AllocError, Global};

/// How it begins.
pub const HEAD: &[u8] = b"unify applied 1 ";

// The most bytes of it that are read.
const MOST_BYTES: u64 = 4096;

// Appends the name of a host that has zero bytes after it.
fn push_host(text: &mut Vec<u8>, host: &[u8; 64]) -> Result<(), AllocError>
    ensures { OnOk result (text.new.items ≡ text.old.items ++ spec.host_text host.now) }
{
    for byte in host {
        if *byte != 0 {
            text.push(*byte)?;
        }
    }
    Ok(())
}

// A digit to the base 16.
fn digit(value: u8) -> u8
    requires { value < 16 }
    ensures { result ≡ spec.hex_digit value }
{
    if value < 10 {
        b'0' + value
    } else {
        b'a' + (value - 10)
    }
}

// Appends the bytes of a digest, two digits each.
fn push_digest(text: &mut Vec<u8>, digest: &[u8; 32]) -> Result<(), AllocError>
    ensures { OnOk result (text.new.items ≡ text.old.items ++ spec.hex_text digest.now) }
{
    for byte in digest {
        text.extend_from_slice(&[digit(*byte / 16), digit(*byte % 16)])?;
    }
    Ok(())
}

/// Appends what a plan is known by, to the end of a line: its host, the length of its text, and the
/// digest of that.
pub fn push_plan(text: &mut Vec<u8>, plan: &PlanMark) -> Result<(), AllocError>
    ensures { OnOk result (text.new.items ≡ text.old.items ++ spec.plan_text plan.now) }
{
    push_host(text, &plan.host)?;
    text.push(b' ')?;
    push_number(text, u128::from(plan.length))?;
    text.push(b' ')?;
    push_digest(text, &plan.digest)?;
    text.extend_from_slice(b"\n")
}

// What stands in it.
fn mark_text(alloc: Global, plan: &PlanMark) -> Result<Vec<u8>, AllocError>
    ensures { IfOk result (λ text. text.items ≡ spec.mark_text plan.now) }
{
    let mut text = Vec::from_slice(alloc, HEAD)?;
    push_plan(&mut text, plan)?;
    Ok(text)
}

/// Whether a text is the mark of this plan; that of another plan is not. One pass over it.
///
/// # Errors
///
/// `NotMark` where the text is no mark, or `Memory`.
pub fn read_mark(alloc: Global, plan: &PlanMark, text: &[u8]) -> Result<bool, Trouble>
    ensures read { IfOk result (λ is_own. spec.mark_read plan.now text.now ≡ Some is_own) }
    ensures refused { IfErr result (λ trouble. (trouble ≡ Memory)
        ⊎ ((trouble ≡ NotMark) × (spec.mark_read plan.now text.now ≡ None))) }
{
    if !text.starts_with(HEAD) {
        return Err(Trouble::NotMark);
    }
    let own = mark_text(alloc, plan)?;
    Ok(text == own.as_slice())
}

/// The file that tells that a plan was carried out, at a path of the administrator's.
#[derive(Drop)]
pub struct MarkFile<'w> {
    rt: &'w HostRuntime,
    pub path: String,
}

impl<'w> MarkFile<'w> {
    /// The file at a path.
    pub fn at(rt: &'w HostRuntime, path: String) -> MarkFile<'w>
        ensures { result.path ≡ path }
    {
        MarkFile { rt, path }
    }

    /// What stands in it, if it is there, whatever plan that is of.
    pub fn text(&self, log: &mut ActionLog) -> Result<Option<Vec<u8>>, Trouble>
        ensures read { IfOk result (λ text. log.new.actions
            ≡ FileRead (string_bytes self.now.path) (text_in text) ∷ log.old.actions) }
        ensures undone { OnErr result (log.new.actions ≡ log.old.actions) }
    {
        read_whole(
            self.rt,
            self.path.as_str(),
            MOST_BYTES,
            Trouble::NotMark,
            log,
        )
    }

    /// Whether it is there, and this plan's. A file that is no mark is refused; that of another
    /// plan is none of this one.
    pub fn is_there(&self, plan: &PlanMark, log: &mut ActionLog) -> Result<bool, Trouble>
        ensures seen { IfOk result (λ set. IsMarkRead
            (string_bytes self.now.path) plan.now set log.old.actions log.new.actions) }
        ensures at_most { OnErr result (IsReadAtMost
            (string_bytes self.now.path) log.old.actions log.new.actions) }
    {
        match self.text(log)? {
            Some(text) => read_mark(self.rt.alloc(), plan, &text),
            None => Ok(false),
        }
    }

    /// Puts this plan's there, whole or not at all.
    pub fn put(&self, plan: &PlanMark, log: &mut ActionLog) -> Result<(), Trouble>
        ensures put { OnOk result (log.new.actions
            ≡ TextPut (new_beside (string_bytes self.now.path)) (string_bytes self.now.path)
            (spec.mark_text plan.now) ∷ log.old.actions) }
        ensures undone { OnErr result (log.new.actions ≡ log.old.actions) }
    {
        let text = mark_text(self.rt.alloc(), plan)?;
        put_whole(self.rt, self.path.as_str(), &text, log)
    }

    /// Waits until its name has reached the device.
    pub fn sync(&self, log: &mut ActionLog) -> Result<(), Trouble>
        ensures synced { OnOk result
            (log.new.actions ≡ NameSynced (string_bytes self.now.path) ∷ log.old.actions) }
        ensures undone { OnErr result (log.new.actions ≡ log.old.actions) }
    {
        sync_name(self.rt, self.path.as_str(), log)
    }
}
