//! What `apply` is asked for.

use crate::beside::Beside;
use crate::progress::ProgressStyle;
use clap::ArgMatches;

/// Where a plan is carried out.
#[derive(Clone, Copy)]
pub struct Paths<'a> {
    /// The file of the plan.
    pub plan: &'a str,
    /// The directory that its paths begin at.
    pub root: &'a str,
    /// The file of its mark.
    pub mark: &'a str,
}

/// A run of the command, as its words want it.
#[derive(Clone, Copy)]
pub struct Run<'a> {
    /// The system that it is run on.
    pub rt: &'a HostRuntime,
    /// Where the plan is carried out.
    pub paths: Paths<'a>,
    /// What is beside the plan.
    pub beside: Beside,
    /// The host that is named, if one is.
    pub host: Option<&'a str>,
    /// How it is told how far the run is.
    pub style: ProgressStyle,
    /// Whether the files are only looked at.
    pub only_checks: bool,
    /// Whether the plan was begun before.
    pub was_begun: bool,
    /// Whether faults alone are told: no warning, no hint and no progress.
    pub quiet: bool,
}

impl<'a> Run<'a> {
    /// The run that the words of the command want.
    pub fn of(
        rt: &'a HostRuntime,
        matches: &'a ArgMatches<'_>,
        paths: Paths<'a>,
        beside: Beside,
    ) -> Run<'a> {
        let quiet = matches.get_flag("quiet");
        Run {
            rt,
            paths,
            beside,
            host: matches.get_str("host"),
            style: ProgressStyle::wanted(rt, quiet, matches.get_flag("progress")),
            only_checks: matches.get_flag("check"),
            was_begun: matches.get_flag("begun"),
            quiet,
        }
    }
}
