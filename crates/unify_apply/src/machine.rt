//! The machine that a plan is carried out on, and who does so.
ghost use Rattle.std.specs.Prelude.{◌≡◌, option_copied};
ghost use Rattle.unify_apply.specs.Machine.{name_in, is_called, fit_of};
ghost use Rattle.unify_apply.specs.Machine.{tells_root, is_of_root};

use idtext::{Lines, Words};
use std::alloc::AllocError;
use unify_io::{FileFault, MACHINE_NAME, Part, read_file, tell_of, warn};

// Where the system tells of this process (proc(5)).
const STATUS: &str = "/proc/self/status";

// The name of a machine, as a text of the system tells it.
fn machine_name(text: &[u8]) -> &[u8]
    ensures { result.now ≡ name_in text.now }
{
    text.strip_suffix(b"\n").unwrap_or(text)
}

// Whether a machine of this name is the host of a plan, whose name may stand before a dot in it.
#[tactic(auto, using(crate::proofs::HostName::dotted))]
fn is_host(machine: &[u8], host: &[u8]) -> bool
    ensures { result ≡ is_called host.now machine.now }
{
    machine == host
        || machine
            .strip_prefix(host)
            .is_some_and(|rest| rest.starts_with(b"."))
}

/// How a machine fits the host of a plan.
#[derive(Clone, Copy, Debug, PartialEq, Eq)]
pub enum HostFit {
    /// It is that host.
    Same,
    /// It is named as that host, and called otherwise.
    Named,
    /// It is another, or another is named.
    Other,
}

/// How the machine of this name fits the host of a plan, where a word may name its host. One pass
/// over the names.
pub fn host_fit(host: &[u8], named: Option<&[u8]>, machine: &[u8]) -> HostFit
    ensures { result ≡ fit_of host.now (option_copied named.entry) machine.now }
{
    match named {
        Some(name) if name != host => HostFit::Other,
        _ if is_host(machine, host) => HostFit::Same,
        Some(_) => HostFit::Named,
        None => HostFit::Other,
    }
}

// Tells that a plan is another host's.
fn other_host(rt: &HostRuntime, name: &[u8], host: &[u8]) -> FileFault {
    let parts = [Part::Text("the plan is of host "), Part::Name(host)];
    tell_of(rt, "host", name, &parts, 1)
}

// Warns that the machine has another name than the host that it is to be.
fn warn_of_name<'a>(rt: &HostRuntime, host: &'a [u8], machine: &'a [u8]) -> Result<(), AllocError> {
    let middle = Part::Text("is carried out on machine");
    warn(
        rt,
        &[
            Part::Text("the plan of host"),
            Part::Name(host),
            middle,
            Part::Name(machine),
        ],
    )
}

/// Sees that this machine is the host of a plan, or that the word for its host names that.
pub fn see_host(
    rt: &HostRuntime,
    host: &[u8],
    named: Option<&str>,
    quiet: bool,
) -> Result<(), FileFault> {
    let text = read_file(rt, MACHINE_NAME)?;
    let machine = machine_name(text.bytes());
    let named = named.map(|name| name.as_bytes());
    match host_fit(host, named, machine) {
        HostFit::Same => Ok(()),
        HostFit::Named if quiet => Ok(()),
        HostFit::Named => Ok(warn_of_name(rt, host, machine)?),
        HostFit::Other => Err(other_host(rt, named.unwrap_or(machine), host)),
    }
}

// Whether a line of a status tells that the effective user is 0. It is the second of four.
fn is_line_of_root(line: &[u8]) -> bool
    ensures { result ≡ tells_root line.now }
{
    let mut words = Words::new(line);
    let Some(head) = words.next() else {
        return false;
    };
    let Some(_) = words.next() else {
        return false;
    };
    let Some(effective) = words.next() else {
        return false;
    };
    head == b"Uid:".as_slice() && effective == b"0".as_slice()
}

/// Whether a text of /proc/PID/status is that of a process of root (proc(5)). One pass over it.
pub fn is_root(status: &[u8]) -> bool
    ensures { result ≡ is_of_root status.now }
{
    Lines::new(status).any(|line| is_line_of_root(line))
}

/// Sees that whoever calls may give files away.
pub fn see_caller(rt: &HostRuntime) -> Result<(), FileFault> {
    let status = read_file(rt, STATUS)?;
    if is_root(status.bytes()) {
        return Ok(());
    }
    let parts = [Part::Text("only root may give files other owners")];
    Err(tell_of(rt, "command", b"apply", &parts, 2))
}
