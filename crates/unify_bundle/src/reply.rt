//! What goes out for a command: its lines or its fault, with the exit status.

ghost use Rattle.std.specs.Prelude.{◌≡◌, Some, Ok, Err, IfOk};
ghost use Rattle.unify_texts.specs.Told.{told};
ghost use Rattle.unify_bundle.specs.Lines.{cost_lines, accepted_line};
ghost use Rattle.unify_bundle.specs.Output.{counted, checked, answered};
ghost use Rattle.unify_bundle.specs.Replies.{reply_of};

use crate::texts::{check, count};
use hosts_join::HostText;
use idtext::push_number;
use site_tables::{KeepRules, SiteRules};
use std::alloc::{AllocError, Global};
use unify::Cost;
use unify_texts::{Fault, fault_line};

/// What goes out, and the exit status.
#[derive(Drop)]
pub struct Reply {
    /// The lines that tell the answer or the fault.
    pub text: Vec<u8>,
    /// 0 where the command did what it was called for.
    pub status: u8,
}

/// The line that tells a fault, with its status, unless memory is wanting.
pub fn refused(alloc: Global, fault: &Fault<'_>) -> Result<Reply, AllocError>
    ensures { IfOk result (λ reply. (told fault.now ≡ Some fault.now)
        × (reply_of reply ≡ answered (Err fault.now))) }
{
    if matches!(fault, Fault::Memory) {
        return Err(AllocError);
    }
    Ok(Reply {
        text: fault_line(alloc, fault)?,
        status: fault.status(),
    })
}

// The two lines that tell a cost.
fn cost_text(alloc: Global, cost: Cost) -> Result<Vec<u8>, AllocError>
    ensures { IfOk result (λ text. text.items ≡ cost_lines cost) }
{
    let mut text = Vec::from_slice(alloc, b"user-fields ")?;
    push_number(&mut text, u128::from(cost.users))?;
    text.extend_from_slice(b"\ngroup-fields ")?;
    push_number(&mut text, u128::from(cost.groups))?;
    text.push(b'\n')?;
    Ok(text)
}

/// What goes out for a cost: its two lines. An error is a growth that was refused.
pub fn cost_reply(alloc: Global, cost: Cost) -> Result<Reply, AllocError>
    ensures { IfOk result (λ reply. reply_of reply ≡ answered (Ok (cost_lines cost))) }
{
    Ok(Reply {
        text: cost_text(alloc, cost)?,
        status: 0,
    })
}

/// What goes out for a count of these hosts with what is to stay and this map: the two lines, or
/// the fault line with its status. An error is a growth that was refused. It takes what `count`
/// takes, and a line.
pub fn count_reply(
    alloc: Global,
    hosts: &[HostText],
    keep: &KeepRules<'_>,
    map: &[u8],
) -> Result<Reply, AllocError>
    ensures { IfOk result
        (λ reply. reply_of reply ≡ answered (counted hosts.now keep.now map.now)) }
{
    match count(alloc, hosts, keep, map) {
        Ok(cost) => cost_reply(alloc, cost),
        Err(fault) => refused(alloc, &fault),
    }
}

// The line that tells an accepted certificate.
fn accepted_text(alloc: Global, cost: u64) -> Result<Vec<u8>, AllocError>
    ensures { IfOk result (λ text. text.items ≡ accepted_line cost) }
{
    let mut text = Vec::from_slice(alloc, b"accepted ")?;
    push_number(&mut text, u128::from(cost))?;
    text.push(b'\n')?;
    Ok(text)
}

/// What goes out for an accepted certificate: its line. An error is a growth that was refused.
pub fn accepted_reply(alloc: Global, cost: u64) -> Result<Reply, AllocError>
    ensures { IfOk result (λ reply. reply_of reply ≡ answered (Ok (accepted_line cost))) }
{
    Ok(Reply {
        text: accepted_text(alloc, cost)?,
        status: 0,
    })
}

/// What goes out for a check of a certificate of these hosts with these rules: its line, or the
/// fault line with its status. An error is a growth that was refused. It takes what `check` takes,
/// and a line.
pub fn check_reply(
    alloc: Global,
    hosts: &[HostText],
    rules: &SiteRules<'_>,
    certificate: &[u8],
) -> Result<Reply, AllocError>
    ensures { IfOk result
        (λ reply. reply_of reply ≡ answered (checked hosts.now rules.now certificate.now)) }
{
    match check(alloc, hosts, rules, certificate) {
        Ok(cost) => accepted_reply(alloc, cost),
        Err(fault) => refused(alloc, &fault),
    }
}
