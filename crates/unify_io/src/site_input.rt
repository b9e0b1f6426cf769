//! A site as words name it, but for its inventories.

use crate::advice::tell_advice;
use crate::files::{FileFault, read_hosts_tables, read_named};
use crate::merge_warnings::warn_of_merge;
use crate::warnings::{warn_of_hosts_tables, warn_of_text};
use clap::ArgMatches;
use hosts_join::HostText;
use idtext::ByteString;
use std::alloc::AllocError;
use unify_texts::Fault;

/// A site as words name it: its hosts but their inventories, and what they are merged by.
#[derive(Drop)]
pub struct SiteInput<'w> {
    /// The words that name the hosts.
    pub words: &'w [&'w str],
    /// The hosts.
    pub hosts: Vec<HostText>,
    /// The pins text.
    pub pins: ByteString,
    /// The keep text.
    pub keep: ByteString,
    /// Whether faults alone are to be told: no warning and no hint.
    pub is_quiet: bool,
}

impl<'w> SiteInput<'w> {
    /// Reads the site of the hosts that these words name.
    pub fn read(
        rt: &HostRuntime,
        matches: &ArgMatches<'_>,
        words: &'w [&'w str],
    ) -> Result<SiteInput<'w>, FileFault> {
        let pins = read_named(rt, matches, "pins")?;
        let keep = read_named(rt, matches, "keep")?;
        let hosts = read_hosts_tables(rt, words)?;
        Ok(SiteInput {
            words,
            hosts,
            pins,
            keep,
            is_quiet: matches.get_flag("quiet"),
        })
    }

    /// Warns of its texts.
    pub fn warn(&self, rt: &HostRuntime, matches: &ArgMatches<'_>) -> Result<(), AllocError> {
        if self.is_quiet {
            return Ok(());
        }
        warn_of_text(rt, matches.get_str("pins").unwrap_or(""), &self.pins)?;
        warn_of_text(rt, matches.get_str("keep").unwrap_or(""), &self.keep)?;
        warn_of_hosts_tables(rt, &self.hosts)
    }

    /// Tells what may be done about its refusal, where standard error is a terminal.
    pub fn advise(&self, rt: &HostRuntime, fault: &Fault<'_>) {
        if !self.is_quiet {
            tell_advice(rt, fault, self.pins.bytes());
        }
    }

    /// Warns of what its merge has written. The merge is done, also where that cannot be read
    /// again, or memory is refused.
    pub fn warn_of_output(&self, rt: &HostRuntime, directory: &str, file_lines: u64) {
        let (pins, keep) = (self.pins.bytes(), self.keep.bytes());
        if warn_of_merge(rt, &self.hosts, directory, pins, keep, file_lines).is_err() {
            let _ = rt.eprintln(
                "unify: warning: the merge is complete, but was not checked for warnings",
            );
        }
    }
}
