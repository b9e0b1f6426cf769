//! A plan that words name, carried out below a directory.
ghost use Rattle.std.specs.Prelude.{◌≡◌, [], IfOk, option_copied};
ghost use Rattle.std.specs.String.{string_bytes};
ghost use Rattle.unify_apply.specs.Told.{mark_at};

use crate::answers::records_text;
use crate::beside::Beside;
use crate::checking::check_below;
use crate::machine::{see_caller, see_host};
use crate::marked::warn_of_mark;
use crate::mounts::{path_of_root, see_mounts};
use crate::opening::{open_files, open_root};
use crate::progress::Telling;
use crate::run::{Paths, Run};
use crate::staying::warn_of_staying;
use crate::told::{no_plan, stopped};
use clap::ArgMatches;
use reown_files::{Root, apply};
use reown_plan::Plan;
use reown_reverse::reversed_text;
use std::alloc::{AllocError, Global};
use unify_io::{FileFault, print_answer, read_file};

// What the mark's file has after the name of the plan's.
const DONE: &str = ".done";

/// The path of the mark: the one that is named, or else that of the plan with `.done` after it. A
/// copy; `AllocError` where memory is refused.
pub fn mark_path(alloc: Global, named: Option<&str>, plan: &str) -> Result<String, AllocError>
    ensures { IfOk result
        (λ path. string_bytes path ≡ mark_at (option_copied named.entry) plan.now) }
{
    if let Some(path) = named {
        return String::from_str(alloc, path);
    }
    let mut path = String::from_str(alloc, plan)?;
    path.push_str(DONE)?;
    Ok(path)
}

// Carries a plan out on the files of a disk, from wherever an earlier run left them, and tells how
// far it is.
fn carry_out<'w>(run: Run<'w>, plan: &Plan<'_>, root: Root<'w>) -> Result<(), FileFault>
    requires { root.calls ≡ [] }
{
    let rt = run.rt;
    let disk = Telling::of(rt, run.style, plan.records().len(), root);
    let mut tree = open_files(run, plan, disk)?;
    let done = apply(plan, &mut tree);
    run.style.clear(rt);
    match done {
        Ok(()) => Ok(()),
        Err(_) => Err(stopped(rt, run.paths, plan.records(), tree.failure())),
    }
}

// Carries a plan out below a directory.
fn apply_below(run: Run<'_>, plan: &Plan<'_>, has_one_journal: bool) -> Result<u8, FileFault> {
    let mut root = open_root(run.rt, run.paths, has_one_journal)?;
    warn_of_mark(run, plan, &mut root)?;
    carry_out(run, plan, root)?;
    let text = records_text(run.rt.alloc(), plan.records().len())?;
    Ok(print_answer(run.rt, 0, &text))
}

// Sees the mounts below a directory, before it is opened.
fn see_mounts_of(rt: &HostRuntime, root: &str) -> Result<bool, FileFault> {
    let path = path_of_root(rt, root)?;
    see_mounts(rt, root, path.as_str())
}

// Looks at the files of a plan, or carries it out.
fn run_plan(run: Run<'_>, plan: &Plan<'_>) -> Result<u8, FileFault> {
    if run.only_checks {
        return check_below(run, plan);
    }
    let rt = run.rt;
    run.beside.see_directory(rt, run.paths.mark)?;
    see_host(rt, plan.host(), run.host, run.quiet)?;
    see_caller(rt)?;
    let has_one_journal = see_mounts_of(rt, run.paths.root)?;
    if !run.quiet {
        warn_of_staying(rt, plan)?;
    }
    apply_below(run, plan, has_one_journal)
}

// Looks at the files of the plan of a text, or carries it out.
fn run_text(run: Run<'_>, text: &[u8]) -> Result<u8, FileFault> {
    match Plan::read(run.rt.alloc(), text) {
        Ok(plan) => run_plan(run, &plan),
        Err(fault) => Err(no_plan(run.rt, fault)),
    }
}

// The text of the plan that takes the plan of a text back.
fn reverse_of(rt: &HostRuntime, text: &[u8]) -> Result<Vec<u8>, FileFault> {
    match Plan::read(rt.alloc(), text) {
        Ok(plan) => Ok(reversed_text(rt.alloc(), &plan)?),
        Err(fault) => Err(no_plan(rt, fault)),
    }
}

/// Answers `apply` with these words: it carries a plan out or takes it back, or counts its files.
/// What it refuses is told, and the status handed out. A mark that can be no file, and a plan that
/// a run itself would remove, as it has a name of the mark's, are refused before the plan is read,
/// and after the count of its files.
///
/// # Errors
///
/// A `FileFault` where the plan cannot be read, or it is not carried out to its end, which is told,
/// or where memory is refused.
pub fn run_apply(rt: &HostRuntime, matches: &ArgMatches<'_>) -> Result<u8, FileFault> {
    let plan = matches.get_str("PLAN").unwrap_or("");
    let mark = mark_path(rt.alloc(), matches.get_str("mark"), plan)?;
    let beside = Beside::look(rt, mark.as_str(), plan)?;
    let paths = Paths {
        plan,
        root: matches.get_str("ROOT").unwrap_or(""),
        mark: mark.as_str(),
    };
    let run = Run::of(rt, matches, paths, beside);
    if !run.only_checks {
        beside.see_paths(rt, paths)?;
    }
    let text = read_file(rt, plan)?;
    if matches.get_flag("reverse") {
        let back = reverse_of(rt, text.bytes())?;
        return run_text(run, &back);
    }
    run_text(run, text.bytes())
}
