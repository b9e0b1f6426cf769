//! Commands over files, each with the reply that tells what it found.

ghost use Rattle.std.specs.Prelude.{◌≡◌, IfErr, IfOk, OnErr};
ghost use Rattle.idtext.specs.First.{Gives};
ghost use Rattle.unify_merge.specs.Failures.{failure_after};
ghost use Rattle.unify_merge.specs.FirstReading.{ReadsOnly};
ghost use Rattle.unify_merge.specs.Rehearse.{HasRehearsed, StopsRehearsal};
ghost use Rattle.unify_merge.specs.Surveyed.{HasCheckedFiles, HasCountedFiles, HasMergedFiles};
ghost use Rattle.unify_merge.specs.Surveyed.{LeavesFiles, StopsCheckFiles, StopsCountFiles};
ghost use Rattle.unify_merge.specs.Surveyed.{StopsMergeFiles};
ghost use Rattle.unify_bundle.specs.declared.answers.NoReply.TheVariants.{Memory};
ghost use Rattle.unify_bundle.specs.Lines.{accepted_line, cost_lines, records_lines};
ghost use Rattle.unify_bundle.specs.Replies.{cause, refusal, reply_of, reply_to};

use crate::rehearsal_reply::records_reply;
use crate::reply::{Reply, accepted_reply, cost_reply, refused};
use hosts_join::HostText;
use std::alloc::{AllocError, Global};
use unify::Cost;
use unify_merge::{
    CallFailed, MergeFault, MergeFiles, ReadFiles, check_files, count_files, merge_files,
    rehearse_files,
};

/// Why what a command found has no reply.
#[derive(Clone, Copy, Debug, PartialEq, Eq)]
pub enum NoReply {
    /// This call on the files failed.
    Failed(CallFailed),
    /// The inventory that was read last has more than 4,294,967,295 bytes.
    TooLarge,
    /// A growth was refused.
    Memory,
}

impl From<AllocError> for NoReply {
    ghost from_gives = { λ _ why. why ≡ Memory };

    fn from(_error: AllocError) -> NoReply {
        NoReply::Memory
    }
}

/// What a command on files found, and the reply that tells it.
#[derive(Drop)]
pub struct FilesAnswer<'a, T> {
    /// What the command found, or why it ended early.
    pub found: Result<T, MergeFault<'a>>,
    /// What tells it.
    pub reply: Result<Reply, NoReply>,
}

// The reply that tells why a command ended early.
fn refusal_reply(alloc: Global, fault: &MergeFault<'_>) -> Result<Reply, NoReply>
    ensures { Gives reply_of cause result (refusal fault.now) }
{
    match fault {
        MergeFault::Refused(fault) => Ok(refused(alloc, fault)?),
        MergeFault::TooLarge => Err(NoReply::TooLarge),
        MergeFault::Failed(failed) => Err(NoReply::Failed(*failed)),
    }
}

// The reply that tells a cost, or why there is none.
fn reply_to_cost(alloc: Global, found: &Result<Cost, MergeFault<'_>>) -> Result<Reply, NoReply>
    ensures { Gives reply_of cause result (reply_to cost_lines found.now) }
{
    match found {
        Ok(cost) => Ok(cost_reply(alloc, *cost)?),
        Err(fault) => refusal_reply(alloc, fault),
    }
}

// The reply that tells an accepted certificate, or why it is not.
fn reply_to_accepted(alloc: Global, found: &Result<u64, MergeFault<'_>>) -> Result<Reply, NoReply>
    ensures { Gives reply_of cause result (reply_to accepted_line found.now) }
{
    match found {
        Ok(cost) => Ok(accepted_reply(alloc, *cost)?),
        Err(fault) => refusal_reply(alloc, fault),
    }
}

// The reply that tells a plan that was carried out, or why it was not.
fn reply_to_records(alloc: Global, found: &Result<u32, MergeFault<'_>>) -> Result<Reply, NoReply>
    ensures { Gives reply_of cause result (reply_to records_lines found.now) }
{
    match found {
        Ok(records) => Ok(records_reply(alloc, *records)?),
        Err(fault) => refusal_reply(alloc, fault),
    }
}

/// What [`merge_files`] finds and writes, with its reply: the two lines of the cost, or the line of
/// the fault, with the exit status. It takes what that call takes, and memory for the lines; where
/// that is refused, what was found stands without a reply.
pub fn merge_answer<'a, F: MergeFiles>(
    alloc: Global,
    files: &mut F,
    hosts: &'a [HostText],
    pins: &'a [u8],
    keep: &'a [u8],
) -> FilesAnswer<'a, Cost>
    ensures merged { IfOk result.found
        (HasMergedFiles hosts.now pins.now keep.now (F.ledger files.old) (F.ledger files.new)) }
    ensures stopped { IfErr result.found
        (StopsMergeFiles hosts.now pins.now keep.now (F.ledger files.old) (F.ledger files.new)) }
    ensures calls { F.failure files.new ≡ failure_after result.found (F.failure files.old) }
    ensures left { OnErr result.found
        (LeavesFiles hosts.now pins.now keep.now (F.ledger files.old) (F.ledger files.new)) }
    ensures told { Gives reply_of cause result.reply (reply_to cost_lines result.found) }
{
    let found = merge_files(alloc, files, hosts, pins, keep);
    let reply = reply_to_cost(alloc, &found);
    FilesAnswer { found, reply }
}

/// What [`count_files`] finds, with its reply: the two lines of the cost, or the line of the fault,
/// with the exit status. It takes what that call takes, and memory for the lines.
pub fn count_answer<'a, F: ReadFiles>(
    alloc: Global,
    files: &mut F,
    hosts: &'a [HostText],
    keep: &'a [u8],
    map: &'a [u8],
) -> FilesAnswer<'a, Cost>
    ensures counted { IfOk result.found
        (HasCountedFiles hosts.now keep.now map.now (F.ledger files.old) (F.ledger files.new)) }
    ensures stopped { IfErr result.found
        (StopsCountFiles hosts.now keep.now map.now (F.ledger files.old) (F.ledger files.new)) }
    ensures calls { F.failure files.new ≡ failure_after result.found (F.failure files.old) }
    ensures reads { ReadsOnly (F.ledger files.old) (F.ledger files.new) }
    ensures told { Gives reply_of cause result.reply (reply_to cost_lines result.found) }
{
    let found = count_files(alloc, files, hosts, keep, map);
    let reply = reply_to_cost(alloc, &found);
    FilesAnswer { found, reply }
}

/// What [`check_files`] finds, with its reply: the line of an accepted certificate, or that of the
/// fault, with the exit status. It takes what that call takes, and memory for the line.
pub fn check_answer<'a, F: ReadFiles>(
    alloc: Global,
    files: &mut F,
    hosts: &'a [HostText],
    pins: &'a [u8],
    keep: &'a [u8],
    certificate: &'a [u8],
) -> FilesAnswer<'a, u64>
    ensures checked { IfOk result.found
        (HasCheckedFiles hosts.now pins.now keep.now certificate.now (F.ledger files.old)
        (F.ledger files.new)) }
    ensures stopped { IfErr result.found
        (StopsCheckFiles hosts.now pins.now keep.now certificate.now (F.ledger files.old)
        (F.ledger files.new)) }
    ensures calls { F.failure files.new ≡ failure_after result.found (F.failure files.old) }
    ensures reads { ReadsOnly (F.ledger files.old) (F.ledger files.new) }
    ensures told { Gives reply_of cause result.reply (reply_to accepted_line result.found) }
{
    let found = check_files(alloc, files, hosts, pins, keep, certificate);
    let reply = reply_to_accepted(alloc, &found);
    FilesAnswer { found, reply }
}

/// What [`rehearse_files`] finds, with its reply: the two lines of a plan that was carried out, or
/// the line of the fault, with the exit status. It takes what that call takes, and memory for the
/// lines.
pub fn rehearse_answer<'a, F: ReadFiles>(
    alloc: Global,
    files: &mut F,
    plan: &'a [u8],
) -> FilesAnswer<'a, u32>
    ensures rehearsed { IfOk result.found
        (HasRehearsed plan.now (F.ledger files.old) (F.ledger files.new)) }
    ensures stopped { IfErr result.found
        (StopsRehearsal plan.now (F.ledger files.old) (F.ledger files.new)) }
    ensures calls { F.failure files.new ≡ failure_after result.found (F.failure files.old) }
    ensures reads { ReadsOnly (F.ledger files.old) (F.ledger files.new) }
    ensures told { Gives reply_of cause result.reply (reply_to records_lines result.found) }
{
    let found = rehearse_files(alloc, files, plan);
    let reply = reply_to_records(alloc, &found);
    FilesAnswer { found, reply }
}
