//! What goes out for a rehearsal.

ghost use Rattle.std.specs.Prelude.{◌≡◌, IfOk, Ok};
ghost use Rattle.unify_bundle.specs.Lines.{records_lines};
ghost use Rattle.unify_bundle.specs.Output.{Answers, IsRehearsalTold, answered};
ghost use Rattle.unify_bundle.specs.Replies.{reply_of};

use crate::reply::{Reply, refused};
use idtext::push_number;
use rehearsal::rehearse;
use std::alloc::{AllocError, Global};

// The two lines that tell a plan that was carried out.
fn records_text(alloc: Global, records: u32) -> Result<Vec<u8>, AllocError>
    ensures { IfOk result (λ text. text.items ≡ records_lines records) }
{
    let mut text = Vec::from_slice(alloc, b"records ")?;
    push_number(&mut text, u128::from(records))?;
    text.extend_from_slice(b"\ndone\n")?;
    Ok(text)
}

/// What goes out for a plan that was carried out: its two lines. An error is a growth that was
/// refused.
pub fn records_reply(alloc: Global, records: u32) -> Result<Reply, AllocError>
    ensures { IfOk result (λ reply. reply_of reply ≡ answered (Ok (records_lines records))) }
{
    Ok(Reply {
        text: records_text(alloc, records)?,
        status: 0,
    })
}

/// What goes out for a rehearsal of a plan on an inventory: its two lines, or the fault line with
/// its status. An error is a growth that was refused. It takes what `rehearse` takes, and a line.
pub fn rehearse_reply(alloc: Global, plan: &[u8], mtree: &[u8]) -> Result<Reply, AllocError>
    ensures { IfOk result (λ reply. Answers (IsRehearsalTold plan.now mtree.now) (reply_of reply)) }
{
    match rehearse(alloc, plan, mtree) {
        Ok(records) => records_reply(alloc, records),
        Err(fault) => refused(alloc, &fault),
    }
}
