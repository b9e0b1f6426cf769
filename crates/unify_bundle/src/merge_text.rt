//! What goes out for a merge: each text that it writes, as a file of a bundle.

ghost use Rattle.std.specs.Prelude.{◌≡◌, ◌++◌, OnOk, IfOk, flat_map, codes};
ghost use Rattle.idtext.specs.Pieces.{lines};
ghost use Rattle.unify_merge.specs.Merge.{account_files};
ghost use Rattle.unify_merge.specs.SecondReading.{plan_files};
ghost use Rattle.unify_bundle.specs.Lines.{barred, file_lines, merge_lines, named_lines};
ghost use Rattle.unify_bundle.specs.Lines.{site_lines};
ghost use Rattle.unify_bundle.specs.Output.{Answers, IsMergeTold, IsMergeWithHostsTold};
ghost use Rattle.unify_bundle.specs.Replies.{reply_of};

use crate::reply::{Reply, refused};
use crate::texts::{merge, merge_hosts};
use hosts_join::HostText;
use idtext::{ByteString, Lines};
use site_tables::SiteRules;
use std::alloc::{AllocError, Global};
use unify::{NamedText, Outcome, SiteFiles};

// Appends a line of a file: after a bar, and with its newline.
fn push_barred(out: &mut Vec<u8>, line: &[u8]) -> Result<(), AllocError>
    ensures { OnOk result (out.new.items ≡ out.old.items ++ barred line.now) }
{
    out.push(b'|')?;
    out.extend_from_slice(line)?;
    out.push(b'\n')?;
    Ok(())
}

// Appends the lines of a text, each after a bar, in one pass over it.
fn push_text(out: &mut Vec<u8>, text: &[u8]) -> Result<(), AllocError>
    ensures { OnOk result (out.new.items ≡ out.old.items ++ flat_map barred (lines text.now)) }
{
    for line in Lines::new(text) {
        push_barred(out, line)?;
    }
    Ok(())
}

// Appends a file: its name and the lines of its text.
fn push_file(out: &mut Vec<u8>, name: &[u8], text: &ByteString) -> Result<(), AllocError>
    ensures { OnOk result (out.new.items ≡ out.old.items ++ file_lines name.now text.now) }
{
    out.extend_from_slice(b"file ")?;
    out.extend_from_slice(name)?;
    out.push(b'\n')?;
    push_text(out, text.bytes())
}

// Appends the one passwd and the one group, unless a name is kept.
fn push_accounts(out: &mut Vec<u8>, outcome: &Outcome) -> Result<(), AllocError>
    ensures { OnOk result
        (out.new.items ≡ out.old.items ++ named_lines (account_files outcome.now)) }
{
    if outcome.keeps_names {
        return Ok(());
    }
    push_file(out, b"passwd", &outcome.passwd)?;
    push_file(out, b"group", &outcome.group)
}

// Appends the plan of a host, as the file plan.NAME.
fn push_plan(out: &mut Vec<u8>, host: &HostText, plan: &ByteString) -> Result<(), AllocError>
    ensures { OnOk result
        (out.new.items ≡ out.old.items ++ file_lines (codes "plan." ++ host.now.name) plan.now) }
{
    out.extend_from_slice(b"file plan.")?;
    out.extend_from_slice(host.name.bytes())?;
    out.push(b'\n')?;
    push_text(out, plan.bytes())
}

// Appends the plan of each host.
fn push_plans(out: &mut Vec<u8>, hosts: &[HostText], plans: &[ByteString]) -> Result<(), AllocError>
    ensures { OnOk result
        (out.new.items ≡ out.old.items ++ named_lines (plan_files hosts.now plans.now)) }
{
    for (host, plan) in hosts.iter().zip(plans) {
        push_plan(out, host, plan)?;
    }
    Ok(())
}

// The files of an outcome, after one another.
fn outcome_text(alloc: Global, hosts: &[HostText], outcome: &Outcome) -> Result<Vec<u8>, AllocError>
    ensures { IfOk result (λ text. text.items ≡ merge_lines hosts.now outcome.now) }
{
    let mut text = Vec::new(alloc);
    push_accounts(&mut text, outcome)?;
    push_file(&mut text, b"map", &outcome.map)?;
    push_file(&mut text, b"certificate", &outcome.certificate)?;
    push_file(&mut text, b"report", &outcome.report)?;
    push_plans(&mut text, hosts, outcome.plans.texts())?;
    Ok(text)
}

// Appends files, after one another.
fn push_files(out: &mut Vec<u8>, files: &[NamedText]) -> Result<(), AllocError>
    ensures { OnOk result (out.new.items ≡ out.old.items ++ named_lines files.now) }
{
    for file in files {
        push_file(out, file.name.bytes(), &file.text)?;
    }
    Ok(())
}

// The files of an outcome, and after them each host's own.
fn site_text(alloc: Global, hosts: &[HostText], files: &SiteFiles) -> Result<Vec<u8>, AllocError>
    ensures { IfOk result (λ text. text.items ≡ site_lines hosts.now files.now) }
{
    let mut text = outcome_text(alloc, hosts, &files.outcome)?;
    push_files(&mut text, &files.own)?;
    Ok(text)
}

/// What goes out for a merge of these hosts with these rules: the files of its outcome, or the
/// fault line with its status. An error is a growth that was refused.
///
/// Beside what `merge` takes, it is one pass over the texts of the outcome.
pub fn merge_reply(
    alloc: Global,
    hosts: &[HostText],
    rules: &SiteRules<'_>,
) -> Result<Reply, AllocError>
    ensures { IfOk result (λ reply. Answers (IsMergeTold hosts.now rules.now) (reply_of reply)) }
{
    match merge(alloc, hosts, rules) {
        Ok(outcome) => Ok(Reply {
            text: outcome_text(alloc, hosts, &outcome)?,
            status: 0,
        }),
        Err(fault) => refused(alloc, &fault),
    }
}

/// What goes out for a merge of these hosts with these rules, with each host's own files: the files
/// of its outcome, and after them passwd.NAME and group.NAME of each host, one host after the
/// other; or the fault line with its status. An error is a growth that was refused.
///
/// Beside what `merge_hosts` takes, it is one pass over all these texts.
pub fn merge_hosts_reply(
    alloc: Global,
    hosts: &[HostText],
    rules: &SiteRules<'_>,
) -> Result<Reply, AllocError>
    ensures { IfOk result
        (λ reply. Answers (IsMergeWithHostsTold hosts.now rules.now) (reply_of reply)) }
{
    match merge_hosts(alloc, hosts, rules) {
        Ok(files) => Ok(Reply {
            text: site_text(alloc, hosts, &files)?,
            status: 0,
        }),
        Err(fault) => refused(alloc, &fault),
    }
}
