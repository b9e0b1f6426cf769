//! Commands given in words.

use crate::inventories::{HostFiles, InventoryAt, LastInventory};
use crate::site_files::SiteFiles;
use clap::ArgMatches;
use idtext::ByteString;
use inventory_files::run_inventory;
use std::alloc::AllocError;
use unify_apply::run_apply;
use unify_bundle::{
    FilesAnswer, NoReply, check_answer, count_answer, merge_answer, rehearse_answer,
};
use unify_io::{
    FileFault, OutputDirectory, SiteInput, command_line, file_fault_told, internal_error,
    memory_refused, no_host, print_answer, read_file, tell_usage, warn_of_text,
};
use unify_merge::MergeFault;
use verify_files::run_verify;

// Prints what a command on files answers, and returns the exit status. After the refusal of a site
// it gives advice.
fn print_reply<T, F: LastInventory>(
    rt: &HostRuntime,
    files: &F,
    answer: &FilesAnswer<'_, T>,
    site: Option<&SiteInput<'_>>,
) -> Result<u8, FileFault> {
    let reply = match &answer.reply {
        Ok(reply) => reply,
        Err(NoReply::Failed(failed)) => return Ok(failed.status),
        Err(NoReply::TooLarge) => return Err(files.too_large()),
        Err(NoReply::Memory) => return Err(FileFault::Memory),
    };
    let status = print_answer(rt, reply.status, &reply.text);
    if let (Err(MergeFault::Refused(fault)), Some(site)) = (&answer.found, site) {
        site.advise(rt, fault);
    }
    Ok(status)
}

// Prints what a map costs on a site.
fn print_count(
    rt: &HostRuntime,
    matches: &ArgMatches<'_>,
    site: &SiteInput<'_>,
    map: &ByteString,
) -> Result<u8, FileFault> {
    if !site.is_quiet {
        warn_of_text(rt, matches.get_str("MAP").unwrap_or(""), map)?;
    }
    site.warn(rt, matches)?;
    let mut files = HostFiles::new(rt, site.words, site.is_quiet);
    let answer = count_answer(
        rt.alloc(),
        &mut files,
        &site.hosts,
        site.keep.bytes(),
        map.bytes(),
    );
    print_reply(rt, &files, &answer, Some(site))
}

// count [--quiet] [--keep FILE] MAP HOST...
fn run_count(rt: &HostRuntime, matches: &ArgMatches<'_>) -> Result<u8, FileFault> {
    let map = read_file(rt, matches.get_str("MAP").unwrap_or(""))?;
    let site = SiteInput::read(rt, matches, matches.get_strs("HOST").unwrap_or(&[]))?;
    print_count(rt, matches, &site, &map)
}

// Prints what a check of a certificate of a site gives.
fn print_check(
    rt: &HostRuntime,
    matches: &ArgMatches<'_>,
    site: &SiteInput<'_>,
    certificate: &ByteString,
) -> Result<u8, FileFault> {
    site.warn(rt, matches)?;
    let mut files = HostFiles::new(rt, site.words, site.is_quiet);
    let answer = check_answer(
        rt.alloc(),
        &mut files,
        &site.hosts,
        site.pins.bytes(),
        site.keep.bytes(),
        certificate.bytes(),
    );
    print_reply(rt, &files, &answer, Some(site))
}

// check [--quiet] [--pins FILE] [--keep FILE] CERTIFICATE HOST...
fn run_check(rt: &HostRuntime, matches: &ArgMatches<'_>) -> Result<u8, FileFault> {
    let certificate = read_file(rt, matches.get_str("CERTIFICATE").unwrap_or(""))?;
    let site = SiteInput::read(rt, matches, matches.get_strs("HOST").unwrap_or(&[]))?;
    print_check(rt, matches, &site, &certificate)
}

// rehearse PLAN MTREE
fn run_rehearse(rt: &HostRuntime, matches: &ArgMatches<'_>) -> Result<u8, FileFault> {
    let plan = read_file(rt, matches.get_str("PLAN").unwrap_or(""))?;
    let mut inventory = InventoryAt::new(rt, matches.get_str("MTREE").unwrap_or(""))?;
    let answer = rehearse_answer(rt.alloc(), &mut inventory, plan.bytes());
    print_reply(rt, &inventory, &answer, None)
}

// Merges a site into a directory, warns of what it gives, and prints what it costs.
fn merge_site(
    matches: &ArgMatches<'_>,
    directory: OutputDirectory<'_>,
    site: &SiteInput<'_>,
) -> Result<u8, FileFault> {
    let rt = directory.rt;
    site.warn(rt, matches)?;
    let mut files = SiteFiles::new(directory, site.is_quiet);
    let (pins, keep) = (site.pins.bytes(), site.keep.bytes());
    let answer = merge_answer(rt.alloc(), &mut files, &site.hosts, pins, keep);
    if answer.found.is_err() {
        files.discard();
    } else if !site.is_quiet {
        site.warn_of_output(rt, directory.path, files.file_lines());
    }
    print_reply(rt, &files, &answer, Some(site))
}

// Reads the hosts of a directory that is locked, and merges them into it.
fn merge_locked(matches: &ArgMatches<'_>, directory: OutputDirectory<'_>) -> Result<u8, FileFault> {
    let site = SiteInput::read(directory.rt, matches, directory.words)?;
    merge_site(matches, directory, &site)
}

// Merges the hosts that words name into a directory, which is looked at first, and is locked until
// all is written.
fn merge_into(
    rt: &HostRuntime,
    matches: &ArgMatches<'_>,
    path: &str,
    words: &[&str],
) -> Result<u8, FileFault> {
    let directory = OutputDirectory { rt, path, words };
    let locked = directory.open()?;
    let merged = merge_locked(matches, directory);
    drop(locked);
    merged
}

// A word and others after it.
fn with_first<'a>(
    rt: &HostRuntime,
    first: &'a str,
    others: &[&'a str],
) -> Result<Vec<&'a str>, AllocError> {
    let mut words = Vec::new(rt.alloc());
    words.push(first)?;
    words.extend_from_slice(others)?;
    Ok(words)
}

// Merges the hosts that a word and others name into the directory that -o names.
fn merge_into_named(
    rt: &HostRuntime,
    matches: &ArgMatches<'_>,
    directory: &str,
    first: &str,
    others: &[&str],
) -> Result<u8, FileFault> {
    let words = with_first(rt, first, others)?;
    merge_into(rt, matches, directory, &words)
}

// merge [--quiet] [--pins FILE] [--keep FILE] OUT HOST..., or the same with -o OUT HOST..., where
// the first word is that of a host too.
fn run_merge(rt: &HostRuntime, matches: &ArgMatches<'_>) -> Result<u8, FileFault> {
    let Some(first) = matches.get_str("OUT") else {
        return Err(no_host(rt));
    };
    let others = matches.get_strs("HOST").unwrap_or(&[]);
    match matches.get_str("output") {
        Some(directory) => merge_into_named(rt, matches, directory, first, others),
        None => merge_into(rt, matches, first, others),
    }
}

// Runs the command of that name.
fn run_subcommand(rt: &HostRuntime, name: &str, matches: &ArgMatches<'_>) -> Result<u8, FileFault> {
    match name {
        "count" => run_count(rt, matches),
        "merge" => run_merge(rt, matches),
        "check" => run_check(rt, matches),
        "rehearse" => run_rehearse(rt, matches),
        "inventory" => run_inventory(rt, matches),
        "apply" => run_apply(rt, matches),
        "verify" => run_verify(rt, matches),
        _ => Err(internal_error(rt, "no such command")),
    }
}

// Runs the command that the words name.
fn run_command(rt: &HostRuntime, matches: &ArgMatches<'_>) -> u8 {
    let ran = match matches.subcommand() {
        Some((name, matches)) => run_subcommand(rt, name, matches),
        None => Err(internal_error(rt, "no command")),
    };
    match ran {
        Ok(status) => status,
        Err(fault) => file_fault_told(rt, fault),
    }
}

// The words after the program's name, which is told as `unify` whatever the file is called.
fn named<'a>(rt: &HostRuntime, words: &'a [String]) -> Result<Vec<&'a str>, AllocError> {
    let mut named = Vec::new(rt.alloc());
    named.push("unify")?;
    for word in words {
        named.push(word.as_str())?;
    }
    Ok(named)
}

// Runs the command of words, the program's name first.
fn run_named(rt: &HostRuntime, words: &[&str]) -> u8 {
    let Ok(command) = command_line(rt.alloc()) else {
        return memory_refused(rt);
    };
    match command.try_get_matches_from(words) {
        Ok(matches) => run_command(rt, &matches),
        Err(error) => tell_usage(rt, &error),
    }
}

/// Tells the help.
pub fn tell_help(rt: &HostRuntime) -> u8 {
    run_named(rt, &["unify", "--help"])
}

/// Runs the command of the words after the program's name, and returns the exit status.
pub fn run_words(rt: &HostRuntime, words: &[String]) -> u8 {
    match named(rt, words) {
        Ok(words) => run_named(rt, &words),
        Err(_) => memory_refused(rt),
    }
}
