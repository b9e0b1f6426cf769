//! The command.

use crate::clock::time_text;
use crate::listing::{Listed, list_files};
use crate::output::Output;
use crate::roots::{NamedRoot, named_roots};
use crate::telling::{RootFault, root_refused};
use clap::ArgMatches;
use unify_io::{FileFault, MACHINE_NAME, read_file};

// The bytes before the first newline.
fn first_line(text: &[u8]) -> &[u8] {
    match text.split(|byte| *byte == b'\n').next() {
        Some(line) => line,
        None => text,
    }
}

// Writes the first line. Roots that do not fit into it are refused.
fn write_head(
    rt: &HostRuntime,
    output: &mut Output<'_>,
    roots: &[NamedRoot<'_>],
) -> Result<(), FileFault> {
    let host = read_file(rt, MACHINE_NAME)?;
    let time = time_text(rt)?;
    if output.head(first_line(host.bytes()), time.as_bytes(), roots)? {
        return Ok(());
    }
    let word = match roots.last() {
        Some(root) => root.word,
        None => "",
    };
    Err(root_refused(rt, word, RootFault::TooLong))
}

/// Writes the inventory of the files below each ROOT to standard output, and returns the exit
/// status: 3 where something was left out, which is told on standard error. The last line, without
/// which the inventory is refused, is written where each ROOT was listed.
pub fn run_inventory(rt: &HostRuntime, matches: &ArgMatches<'_>) -> Result<u8, FileFault> {
    let roots = named_roots(rt, matches.get_strs("ROOT").unwrap_or(&[]))?;
    let mut output = Output::new(rt)?;
    write_head(rt, &mut output, &roots)?;
    let stays = matches.get_flag("one-file-system");
    let listed = list_files(rt, &roots, stays, &mut output)?;
    if listed != Listed::NotEachRoot {
        output.last_line()?;
    }
    output.flush()?;
    Ok(if listed == Listed::All { 0 } else { 3 })
}
