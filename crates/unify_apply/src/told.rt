//! Why a plan is not carried out, or only to a part of it.

ghost use Rattle.std.specs.Prelude.{◌≡◌};
ghost use Rattle.reown_plan.specs.declared.plan.PlanFault.TheVariants.{Memory};
ghost use Rattle.unify_io.specs.declared.files.FileFault.TheVariants as file_faults;
ghost use Rattle.unify_apply.specs.Told.{path_of_record, status_of};

use crate::run::{Paths, Run};
use idtext::ByteString;
use reown_files::{Failure, MODES_BEHIND, OpenFault, RootFault, Trouble};
use reown_plan::{Owner, PlanFault, Record};
use std::alloc::AllocError;
use std::io::Write;
use unify_io::{FileFault, Part, tell_hint, tell_of};
use unify_texts::{Fault, fault_line};

// What is said where a plan was begun that is not this one.
const OTHER_PLAN: &str = "another plan was started and is not finished; finish that one first \
    (the reverse of a plan is another plan)";

// What the system calls an error of a disk (EIO of errno(3)).
const DISK_ERROR: i32 = 5;

// Tells a fault that has a number.
fn fault_told(rt: &HostRuntime, fault: &Fault<'_>) -> FileFault {
    let Ok(line) = fault_line(rt.alloc(), fault) else {
        return FileFault::Memory;
    };
    let _ = rt.stderr().write_all(&line);
    FileFault::Told(fault.status())
}

/// Tells why a text is no plan.
pub fn no_plan(rt: &HostRuntime, fault: PlanFault) -> FileFault
    ensures { fault ≡ Memory → result ≡ file_faults.Memory }
{
    match fault {
        PlanFault::BadPlan(offset) => fault_told(rt, &Fault::BadPlan(offset as u64)),
        PlanFault::Memory => FileFault::Memory,
    }
}

// The path of a record, of those that are there.
fn path_at<'a>(records: &[Record<'a>], i: usize) -> &'a [u8]
    ensures { result.now ≡ path_of_record records.now i }
{
    match records.get(i) {
        Some(planned) => planned.path,
        None => b"",
    }
}

// A copy of the path of a record.
fn path_of(rt: &HostRuntime, records: &[Record<'_>], i: usize) -> Result<ByteString, AllocError> {
    ByteString::copy_of(rt.alloc(), path_at(records, i))
}

// What to see before a file is made in the place of one that is not there: a link on the way may be
// somebody's, and lead to another file.
const SEE_WAY: &str = "unify: hint: a directory on the way may be a link, or a file system not \
    mounted; see that first";

// What to do about a file with a third owner. Where the files of another plan are changed already,
// a host that is gathered again would have them counted under the names of others.
const SEE_FILE: &str = "if it is the file that was gathered, give it its old owner back, else take \
    back what the plans of this host have changed, and only then gather it again and merge anew";

// What to do about a file that has its new owner before the first run, and so is somebody else's.
const GATHER_ANEW: &str =
    "unify: hint: where a run of this plan was stopped and its .modes file is \
    gone, use --begun; else take back what other plans of this host have changed, and only then \
    gather it again and merge anew";

// Gives advice behind a fault.
fn advise(run: Run<'_>, advice: &str) {
    if !run.quiet {
        tell_hint(run.rt, advice);
    }
}

// Tells that the file of a record is not there.
fn missing(run: Run<'_>, records: &[Record<'_>], i: usize) -> FileFault {
    match path_of(run.rt, records, i) {
        Ok(path) => {
            let fault = fault_told(run.rt, &Fault::Missing(path));
            advise(run, SEE_WAY);
            fault
        }
        Err(_) => FileFault::Memory,
    }
}

// Tells what to do about a file with a third owner, and which that is. What cannot be told is not.
fn hint_of_owner(run: Run<'_>, found: Owner) {
    let Owner { uid, gid } = found;
    let alloc = run.rt.alloc();
    let hint = format!(in alloc; "unify: hint: the file has owner {uid}:{gid}; {SEE_FILE}");
    if let Ok(hint) = hint {
        advise(run, hint.as_str());
    }
}

// Tells that the file of a record has neither of its two owners, but this one.
fn foreign(run: Run<'_>, records: &[Record<'_>], i: usize, found: Owner) -> FileFault {
    match path_of(run.rt, records, i) {
        Ok(path) => {
            let fault = fault_told(run.rt, &Fault::Foreign(path));
            hint_of_owner(run, found);
            fault
        }
        Err(_) => FileFault::Memory,
    }
}

// Tells that the file of a record has its old owner, though the mark of the plan is there.
fn unfinished(rt: &HostRuntime, records: &[Record<'_>], i: usize) -> FileFault {
    match path_of(rt, records, i) {
        Ok(path) => fault_told(rt, &Fault::Unfinished(path)),
        Err(_) => FileFault::Memory,
    }
}

// Tells that the file of a record has its new owner, though the plan was not begun.
fn already_changed(run: Run<'_>, records: &[Record<'_>], i: usize) -> FileFault {
    match path_of(run.rt, records, i) {
        Ok(path) => {
            let fault = fault_told(run.rt, &Fault::AlreadyChanged(path));
            advise(run, GATHER_ANEW);
            fault
        }
        Err(_) => FileFault::Memory,
    }
}

// What is said of a failed call of the system, and what stands behind that.
fn system_parts(number: i32, behind: Part<'static>) -> [Part<'static>; 6] {
    let none = Part::Text("");
    [Part::System(number), behind, none, none, none, none]
}

// What is said of an owner that is not the one that the plan says, and what stands behind that.
fn owner_parts(found: Owner, behind: Part<'static>) -> [Part<'static>; 6] {
    [
        Part::Text("its owner is "),
        Part::Count(found.uid as usize),
        Part::Text(":"),
        Part::Count(found.gid as usize),
        Part::Text(", not the one that the plan says"),
        behind,
    ]
}

// What is said of trouble, and what stands behind that.
fn parts_of(trouble: Trouble, behind: &'static str) -> [Part<'static>; 6] {
    let (none, behind) = (Part::Text(""), Part::Text(behind));
    let part = Part::Text(match trouble {
        Trouble::System(number) => return system_parts(number, behind),
        Trouble::OfRoot(number) => return system_parts(number, behind),
        Trouble::OfModes(number) => return system_parts(number, behind),
        Trouble::Foreign(found) => return owner_parts(found, behind),
        Trouble::Memory => "memory",
        Trouble::BadPath => "no inventory has such a path, or it is too long",
        Trouble::NotText => "a name that is not UTF-8",
        Trouble::Gone => "does not exist, or is reached through a symbolic link",
        Trouble::Exchanged => "another file took its place",
        Trouble::OtherMount => "on another file system than the root",
        Trouble::LinkedElsewhere => "a hard link to the file is not in the plan",
        Trouble::LinkedOtherwise => "the plan gives another hard link of the file another owner",
        Trouble::NotDone => "the system call had no effect",
        Trouble::NotDirectory => "Not a directory",
        Trouble::Busy => "another command is at work there",
        Trouble::NoProc => "/proc is not available",
        Trouble::NotMark => "not the mark of a plan",
        Trouble::NotModes => "truncated, or not the modes of a plan",
        Trouble::OtherPlan => OTHER_PLAN,
        Trouble::TooManyModes => "there are more modes to write down than can be read back",
    });
    [part, behind, none, none, none, none]
}

// The exit status where trouble comes before anything was changed: 1 for what was found, and 3 for
// a call that failed.
fn status(trouble: Trouble) -> u8
    ensures { result ≡ status_of trouble }
{
    match trouble {
        Trouble::BadPath
        | Trouble::NotText
        | Trouble::OtherMount
        | Trouble::LinkedElsewhere
        | Trouble::LinkedOtherwise
        | Trouble::NotMark
        | Trouble::NotModes
        | Trouble::OtherPlan => 1,
        _ => 3,
    }
}

// Tells what is wrong with a file before anything was changed.
fn file_refused(rt: &HostRuntime, path: &[u8], trouble: Trouble) -> FileFault {
    if trouble == Trouble::Memory {
        return FileFault::Memory;
    }
    tell_of(rt, "file", path, &parts_of(trouble, ""), status(trouble))
}

/// Tells why a directory is not worked below.
pub fn root_refused(rt: &HostRuntime, paths: Paths<'_>, fault: RootFault) -> FileFault {
    match fault {
        RootFault::Root(Trouble::Memory) => FileFault::Memory,
        RootFault::Root(trouble) => {
            tell_of(rt, "root", paths.root.as_bytes(), &parts_of(trouble, ""), 2)
        }
        RootFault::Home(trouble) => file_refused(rt, b".", trouble),
    }
}

// Whether it is an error of the disk. Some file systems report one only once, so what is there has
// to be read anew.
fn is_of_disk(trouble: Trouble) -> bool {
    matches!(
        trouble,
        Trouble::System(DISK_ERROR) | Trouble::OfRoot(DISK_ERROR) | Trouble::OfModes(DISK_ERROR)
    )
}

// What stands after the reason of a stop. As long as the reason is there the same command stops at
// it again, or is refused before its first change.
fn way_on(trouble: Trouble) -> &'static str {
    if is_of_disk(trouble) {
        "; restart the machine, and then the same command goes on from there"
    } else {
        "; mend that, and the same command goes on from there"
    }
}

// Tells what is wrong with the file of the modes beside the mark.
fn tell_modes(rt: &HostRuntime, paths: Paths<'_>, parts: &[Part<'_>], status: u8) -> FileFault {
    let mark = paths.mark;
    match format!(in rt.alloc(); "{mark}{MODES_BEHIND}") {
        Ok(path) => tell_of(rt, "file", path.as_str().as_bytes(), parts, status),
        Err(_) => FileFault::Memory,
    }
}

// Tells what is wrong with a file, and behind that what is to be done; or with the root or the file
// of the modes, where the trouble is of these.
fn tell_trouble(
    rt: &HostRuntime,
    paths: Paths<'_>,
    path: &[u8],
    told: (Trouble, &'static str),
    status: u8,
) -> FileFault {
    let parts = parts_of(told.0, told.1);
    match told.0 {
        Trouble::OfRoot(_) => tell_of(rt, "root", paths.root.as_bytes(), &parts, status),
        Trouble::OfModes(_) => tell_modes(rt, paths, &parts, status),
        _ => tell_of(rt, "file", path, &parts, status),
    }
}

// What stands after the reason why a plan is not begun with. What an earlier run has changed is
// synced before that, so an error of the disk may be of such a sync.
fn before_begun(trouble: Trouble) -> &'static str {
    if is_of_disk(trouble) {
        way_on(trouble)
    } else {
        ""
    }
}

// Tells of a file why a plan is not begun with.
fn not_begun(rt: &HostRuntime, paths: Paths<'_>, path: &[u8], trouble: Trouble) -> FileFault {
    if trouble == Trouble::Memory {
        return FileFault::Memory;
    }
    let told = (trouble, before_begun(trouble));
    tell_trouble(rt, paths, path, told, status(trouble))
}

// Tells of the file of the modes beside the mark why a plan is not begun with.
fn modes_refused(rt: &HostRuntime, paths: Paths<'_>, trouble: Trouble) -> FileFault {
    if trouble == Trouble::Memory {
        return FileFault::Memory;
    }
    let parts = parts_of(trouble, before_begun(trouble));
    tell_modes(rt, paths, &parts, status(trouble))
}

/// Tells why the files of a plan are not begun with, or not counted. Nothing was changed but modes
/// that an earlier run had lost.
pub fn not_opened(run: Run<'_>, records: &[Record<'_>], fault: OpenFault) -> FileFault {
    let (rt, paths) = (run.rt, run.paths);
    match fault {
        OpenFault::Memory => FileFault::Memory,
        OpenFault::Missing(i) => missing(run, records, i),
        OpenFault::Foreign(i, found) => foreign(run, records, i, found),
        OpenFault::Unfinished(i) => unfinished(rt, records, i),
        OpenFault::AlreadyChanged(i) => already_changed(run, records, i),
        OpenFault::File(i, trouble) => not_begun(rt, paths, path_at(records, i), trouble),
        OpenFault::Disk(trouble) => not_begun(rt, paths, paths.mark.as_bytes(), trouble),
        OpenFault::Modes(trouble) => modes_refused(rt, paths, trouble),
    }
}

/// Tells where a run stopped, and why.
pub fn stopped(
    rt: &HostRuntime,
    paths: Paths<'_>,
    records: &[Record<'_>],
    failure: Option<Failure>,
) -> FileFault {
    let (path, trouble) = match failure {
        Some(failure) => (
            failure
                .place
                .map_or(paths.mark.as_bytes(), |i| path_at(records, i)),
            failure.trouble,
        ),
        None => (paths.mark.as_bytes(), Trouble::NotDone),
    };
    tell_trouble(rt, paths, path, (trouble, way_on(trouble)), 3)
}
