//! The files of a plan, counted by what is seen of them, and whether a run of it would begin, with
//! nothing changed.
ghost use Rattle.std.specs.Prelude.{◌≡◌, [], IfOk};

use crate::answers::counts_text;
use crate::machine::see_host;
use crate::marked::warn_of_mark;
use crate::mounts::{count_mounts, path_of_root, see_mounts};
use crate::opening::{open_files, open_root};
use crate::preview::Preview;
use crate::progress::Telling;
use crate::run::Run;
use crate::staying::warn_of_staying;
use crate::told::not_opened;
use reown_files::{Disk, OwnerCounts, Root, count_owners};
use reown_plan::{Plan, Record};
use std::io::{self, Write};
use unify_io::{FileFault, write_failed};

// Prints how many files there are by what is seen of them, and how many mounts.
fn print_counts(rt: &HostRuntime, counts: OwnerCounts, mounts: usize) -> Result<(), FileFault> {
    let text = counts_text(rt.alloc(), counts, mounts)?;
    if io::writer(rt).write_all(&text).is_err() {
        return Err(FileFault::Told(write_failed(rt)));
    }
    Ok(())
}

// Counts the files of a plan.
fn count_files<D: Disk>(
    run: Run<'_>,
    disk: &mut D,
    records: &[Record<'_>],
) -> Result<OwnerCounts, FileFault> {
    let counted = count_owners(disk, records);
    run.style.clear(run.rt);
    match counted {
        Ok(counts) => Ok(counts),
        Err(fault) => Err(not_opened(run, records, fault)),
    }
}

// The files below the directory, of which none is synced where it is met: that is left to a sync of
// all, which nobody asks for.
fn files_below<'w>(
    run: Run<'w>,
    plan: &Plan<'_>,
) -> Result<Preview<Telling<'w, Root<'w>>>, FileFault>
    ensures { IfOk result (λ disk. disk ≡ []) }
{
    let mut root = open_root(run.rt, run.paths, true)?;
    warn_of_mark(run, plan, &mut root)?;
    let files = plan.records().len();
    Ok(Preview::of(Telling::of(run.rt, run.style, files, root)))
}

// Counts the files, and prints and warns of what a change of them touches.
fn count_below<D: Disk>(
    run: Run<'_>,
    plan: &Plan<'_>,
    disk: &mut D,
    mounts: usize,
) -> Result<(), FileFault> {
    let counts = count_files(run, disk, plan.records())?;
    print_counts(run.rt, counts, mounts)?;
    if !run.quiet {
        warn_of_staying(run.rt, plan)?;
    }
    Ok(())
}

// Sees what a run sees before it opens the directory, but for who calls.
fn see_way(run: Run<'_>, plan: &Plan<'_>, path: &str) -> Result<(), FileFault> {
    let rt = run.rt;
    run.beside.see_paths(rt, run.paths)?;
    run.beside.see_directory(rt, run.paths.mark)?;
    see_host(rt, plan.host(), run.host, run.quiet)?;
    see_mounts(rt, run.paths.root, path)?;
    Ok(())
}

// Counts the files of a plan in a directory with this path, below which there are so many mounts,
// and tells what a run would refuse.
fn check_at(run: Run<'_>, plan: &Plan<'_>, path: &str, mounts: usize) -> Result<u8, FileFault> {
    let mut disk = files_below(run, plan)?;
    count_below(run, plan, &mut disk, mounts)?;
    see_way(run, plan, path)?;
    open_files(run, plan, Preview::of(disk.into_disk()))?;
    Ok(0)
}

/// Counts the files of a plan by their owners and what else a change of it touches, and tells then
/// what a run would refuse before its first change, as far as looks tell.
pub fn check_below(run: Run<'_>, plan: &Plan<'_>) -> Result<u8, FileFault> {
    let path = path_of_root(run.rt, run.paths.root)?;
    let mounts = count_mounts(run.rt, path.as_str(), run.quiet)?;
    check_at(run, plan, path.as_str(), mounts)
}
