//! What goes by the numbers of users and groups and stands in no plan: processes, file
//! capabilities, access lists and quotas. A plan changes none of it, so it is told before anything
//! is changed.

use crate::sought::{Process, Sought, is_of_ended};
use idtext::decimal;
use reown_plan::Plan;
use std::alloc::AllocError;
use std::fs::ReadDir;
use std::{fs, io};
use unify_io::{Part, warn};

// Where the system has a directory for each process, whose name is its number (proc(5)).
const PROCESSES: &str = "/proc";

// What is said where processes were found.
const GO_ON: &str = "that run or may run under a number that the plan changes or gives";

// What is said where some were not seen. It begins as what is said where processes were found.
const NOT_SEEN: &str = "processes could not all be looked at; some may run under a number that the \
    plan changes or gives";

// What the system says of a process or a thread that has ended (ENOENT and ESRCH of errno(3)), and
// of a map of one that ends while it is opened (EINVAL).
const NO_ENTRY: i32 = 2;

const NO_PROCESS: i32 = 3;

const NOT_VALID: i32 = 22;

// What is said of what is no process.
const BY_NUMBER: &str =
    "a change of an owner clears file capabilities (getcap -r), and changes no number in access \
    lists (getfacl -R -n) or quotas (repquota -n)";

// The processes that were found.
#[derive(Clone, Copy)]
struct Running {
    count: usize,
    // The number of the first.
    first: usize,
    // Whether some could not be looked at.
    lacks_some: bool,
}

impl Running {
    // None were found.
    fn none() -> Running {
        Running {
            count: 0,
            first: 0,
            lacks_some: false,
        }
    }

    // One more is found.
    fn add(&mut self, number: usize) {
        if self.count == 0 {
            self.first = number;
        }
        self.count = self.count.saturating_add(1);
    }
}

// Whether a process or a thread has ended of which a file could not be read.
fn has_ended(error: &io::Error) -> bool {
    matches!(
        error.raw_os_error(),
        Some(NO_ENTRY | NO_PROCESS | NOT_VALID)
    )
}

// What the system tells in this file of a process.
fn read_told(rt: &HostRuntime, name: &str, file: &str) -> Result<io::Result<Vec<u8>>, AllocError> {
    let path = format!(in rt.alloc(); "{PROCESSES}/{name}/{file}")?;
    Ok(fs::read(rt, path.as_str()))
}

// Adds to a text what the system tells in this file of a process, and says whether that could be
// read. Where the process has ended it is nothing, and so it is where the system has no such file,
// as the maps are where there are no user namespaces.
fn add_told(
    rt: &HostRuntime,
    text: &mut Vec<u8>,
    name: &str,
    file: &str,
) -> Result<bool, AllocError> {
    match read_told(rt, name, file)? {
        Ok(told) => {
            text.extend_from_slice(&told)?;
            Ok(true)
        }
        Err(error) => Ok(has_ended(&error)),
    }
}

// The threads of a process, each a directory whose name is its number.
fn list_threads(rt: &HostRuntime, name: &str) -> Result<io::Result<ReadDir>, AllocError> {
    let path = format!(in rt.alloc(); "{PROCESSES}/{name}/task")?;
    Ok(fs::read_dir(rt, path.as_str()))
}

// Adds the status of a thread of a process. One that has ended, as a zombie, is left out: it has no
// memory and no open file, and makes none.
fn add_status(
    rt: &HostRuntime,
    text: &mut Vec<u8>,
    name: &str,
    thread: &str,
) -> Result<bool, AllocError> {
    let file = format!(in rt.alloc(); "task/{thread}/status")?;
    match read_told(rt, name, file.as_str())? {
        Ok(told) if is_of_ended(&told) => Ok(true),
        Ok(told) => {
            text.extend_from_slice(&told)?;
            Ok(true)
        }
        Err(error) => Ok(has_ended(&error)),
    }
}

// Adds the statuses of these threads of a process, and says whether all could be read.
fn add_statuses(
    rt: &HostRuntime,
    text: &mut Vec<u8>,
    name: &str,
    threads: ReadDir,
) -> Result<bool, AllocError> {
    let mut has_all = true;
    for thread in threads {
        let thread = match thread {
            Ok(thread) => thread,
            Err(error) => return Ok(has_all && has_ended(&error)),
        };
        if !add_status(rt, text, name, thread.file_name())? {
            has_all = false;
        }
    }
    Ok(has_all)
}

// Adds the statuses of all threads of a process. Each may have numbers of its own, as those of a
// file server have, by the bare call of the system (credentials(7)).
fn add_threads(rt: &HostRuntime, text: &mut Vec<u8>, name: &str) -> Result<bool, AllocError> {
    match list_threads(rt, name)? {
        Ok(threads) => add_statuses(rt, text, name, threads),
        Err(error) => Ok(has_ended(&error)),
    }
}

// What is known of the process with this number, and whether some of it cannot be read.
fn see_process(rt: &HostRuntime, name: &str) -> Result<(Process, bool), AllocError> {
    let mut process = Process {
        status: Vec::new(rt.alloc()),
        uid_map: Vec::new(rt.alloc()),
        gid_map: Vec::new(rt.alloc()),
    };
    let has_status = add_threads(rt, &mut process.status, name)?;
    // Where all its threads have ended nothing takes a number by a map.
    if has_status && process.status.is_empty() {
        return Ok((process, false));
    }
    let has_uid_map = add_told(rt, &mut process.uid_map, name, "uid_map")?;
    let has_gid_map = add_told(rt, &mut process.gid_map, name, "gid_map")?;
    Ok((process, !(has_status && has_uid_map && has_gid_map)))
}

// Adds the process with this number, where it has one of the numbers that are looked for, or may
// take one.
fn add_running(
    rt: &HostRuntime,
    found: &mut Running,
    name: &str,
    sought: &Sought,
) -> Result<(), AllocError> {
    let Some(number) = decimal(name.as_bytes()) else {
        return Ok(());
    };
    let (process, lacks_some) = see_process(rt, name)?;
    if sought.is_of(&process) {
        found.add(number as usize);
    } else if lacks_some {
        found.lacks_some = true;
    }
    Ok(())
}

// The processes that have one of the numbers that are looked for, or may take one, as far as they
// can be seen.
fn count_running(rt: &HostRuntime, sought: &Sought) -> Result<Running, AllocError> {
    let mut found = Running::none();
    let Ok(entries) = fs::read_dir(rt, PROCESSES) else {
        found.lacks_some = true;
        return Ok(found);
    };
    for entry in entries {
        let Ok(entry) = entry else {
            found.lacks_some = true;
            return Ok(found);
        };
        add_running(rt, &mut found, entry.file_name(), sought)?;
    }
    Ok(found)
}

// Warns of processes that were found, and of such as could not be seen.
fn warn_of_running(rt: &HostRuntime, found: Running) -> Result<(), AllocError> {
    if found.count > 0 {
        warn(
            rt,
            &[
                Part::Text("process"),
                Part::Count(found.first),
                Part::Text("is the first of"),
                Part::Count(found.count),
                Part::Text(GO_ON),
            ],
        )?;
    }
    if found.lacks_some {
        warn(rt, &[Part::Text(NOT_SEEN)])?;
    }
    Ok(())
}

/// Warns of what goes by numbers that a plan changes or gives, and is not changed by it.
pub fn warn_of_staying(rt: &HostRuntime, plan: &Plan<'_>) -> Result<(), AllocError> {
    let sought = Sought::of(rt.alloc(), plan.records())?;
    let found = count_running(rt, &sought)?;
    warn_of_running(rt, found)?;
    warn(rt, &[Part::Text(BY_NUMBER)])
}
