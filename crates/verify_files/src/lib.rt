//! The command `verify`: whether the files of a first inventory have the owners by name that they
//! had, in a second one or in the tree that is there, once the host's account files have new
//! numbers. What is found, and what is told of it, is proved in `kept_names`; here files are read,
//! and the reply is written.
#![tactic(auto)]

mod later;
mod reading;
mod refused;

use clap::ArgMatches;
use idtext::{Lines, decimal};
use kept_names::{Renumbering, VerifyReply, verify_reply};
use later::{LaterFiles, later_files};
use mtree_inv::Inventory;
use reading::{AccountTexts, read_account_texts, read_accounts, read_mtree};
use std::io;
use std::io::Write;
use unify_io::{FileFault, MOST_LINES, tell_hint, write_failed};

// Tells what was found: files on standard error, and how many on standard output.
fn tell_found(rt: &HostRuntime, reply: &VerifyReply) -> u8 {
    if rt.stderr().write_all(&reply.errors).is_err() {
        return write_failed(rt);
    }
    if io::writer(rt).write_all(&reply.output).is_err() {
        return write_failed(rt);
    }
    reply.status
}

// What is told where so many files are missing that another tree may have been looked at.
const OTHER_ROOT: &str =
    "unify: hint: most paths of BEFORE are not in AFTER; both have to be of the \
    same ROOT, which the first line of an inventory names";

// How many files a reply counts as missing.
fn missing_in(reply: &VerifyReply) -> usize {
    for line in Lines::new(&reply.output) {
        if let Some(digits) = line.strip_prefix(b"missing ") {
            return decimal(digits).unwrap_or(0) as usize;
        }
    }
    0
}

// Tells what may be wrong where more than half of the files of the first inventory are missing in
// the second. An inventory without files, and one that is not whole, are told of otherwise.
fn advise(rt: &HostRuntime, reply: &VerifyReply, before: &Inventory, after: &LaterFiles) {
    let has_files = !after.inventory.entries().is_empty();
    if after.is_whole && has_files && missing_in(reply) > before.entries().len() / 2 {
        tell_hint(rt, OTHER_ROOT);
    }
}

// Compares two inventories by the account files that each was made under.
fn compare(
    rt: &HostRuntime,
    renumbering: &Renumbering<'_>,
    before: &Inventory,
    after: &LaterFiles,
    most: usize,
) -> Result<u8, FileFault> {
    let reply = verify_reply(rt.alloc(), renumbering, before, &after.inventory, most)?;
    let status = tell_found(rt, &reply);
    advise(rt, &reply, before, after);
    Ok(status)
}

// Reads the second inventory, or walks the tree that is there in its place, and compares the first
// with it. Where a part of the tree could not be read, that is the status.
fn compare_with(
    rt: &HostRuntime,
    renumbering: &Renumbering<'_>,
    before: &Inventory,
    path: &str,
    most: usize,
) -> Result<u8, FileFault> {
    let after = later_files(rt, path)?;
    let status = compare(rt, renumbering, before, &after, most)?;
    Ok(if after.is_whole { status } else { 3 })
}

// How many files of a kind are told.
fn most_lines(matches: &ArgMatches<'_>) -> usize {
    if matches.get_flag("all") {
        usize::MAX
    } else {
        MOST_LINES
    }
}

// Reads both inventories.
fn verify_under(
    rt: &HostRuntime,
    matches: &ArgMatches<'_>,
    renumbering: &Renumbering<'_>,
) -> Result<u8, FileFault> {
    let before = read_mtree(rt, matches.get_str("BEFORE").unwrap_or(""))?;
    compare_with(
        rt,
        renumbering,
        &before,
        matches.get_str("AFTER").unwrap_or(""),
        most_lines(matches),
    )
}

// Reads the account files under the old numbers, and those under the new ones.
fn verify_texts<'t>(
    rt: &HostRuntime,
    matches: &ArgMatches<'_>,
    was: &'t AccountTexts<'_>,
    now: &'t AccountTexts<'_>,
) -> Result<u8, FileFault> {
    let before = read_accounts(rt, was)?;
    let after = read_accounts(rt, now)?;
    let renumbering = Renumbering { before, after };
    verify_under(rt, matches, &renumbering)
}

/// verify [--all] --was PASSWD GROUP --now PASSWD GROUP BEFORE AFTER
///
/// Answers the exit status: 0 where no file is missing, changed, unnamed or left an old number,
/// and else 1; 3 where a part of the tree could not be read, which is told, or standard error or
/// standard output takes no more of what is found.
///
/// # Errors
///
/// A `FileFault` where a file cannot be read or is refused, which is told, or where memory is
/// refused.
pub fn run_verify(rt: &HostRuntime, matches: &ArgMatches<'_>) -> Result<u8, FileFault> {
    let was = read_account_texts(rt, matches.get_strs("was").unwrap_or(&[]))?;
    let now = read_account_texts(rt, matches.get_strs("now").unwrap_or(&[]))?;
    verify_texts(rt, matches, &was, &now)
}
