//! What may be done about a refusal.

use crate::report::tell_hint;
use hosts_join::{PairLine, Which, pair_line};
use idtext::{Lines, TextCode};
use unify_texts::Fault;

// What is told where the accounts of hosts are at fault.
const KEEP_ACCOUNTS: &str =
    "unify: hint: --keep FILE leaves accounts and numbers as they are on each host";

// What is told where a pin is not the number that a host pins the name to.
const PIN_AS_HOST: &str = "unify: hint: in the pins file give this name the number that it has on \
    this host, or take its line out";

// What is told where a pin is a number that another name is pinned to.
const PIN_APART: &str = "unify: hint: in the pins file give one of these names another number, or \
    take its line out";

// What is told where a pin is reserved.
const PIN_UNRESERVED: &str = "unify: hint: pin another number in the pins file, or see what the \
    keep file says of this one";

// What is told where a number is reserved that a host pins a name to.
const KEEP_NAME: &str =
    "unify: hint: a line for this name in the keep file leaves it too as it is on each host";

// Whether a line of a pins text pins a name.
fn is_pin_of(line: &[u8], kind: Which, name: &[u8]) -> bool {
    match pair_line(line) {
        PairLine::Given {
            which,
            name: pinned,
            ..
        } => which == kind && pinned.bytes() == name,
        _ => false,
    }
}

// Whether a pins text pins a name. One pass over it.
fn has_pin_of(pins: &[u8], kind: Which, name: &[u8]) -> bool {
    Lines::new(pins).any(|line| is_pin_of(line, kind, name))
}

// What may be done about pins, which this text has and the hosts' accounts.
fn advice_on_pins(fault: &Fault<'_>, pins: &[u8]) -> Option<&'static str> {
    match fault {
        Fault::PinDisagrees { first: None, .. } => Some(PIN_AS_HOST),
        Fault::PinDisagrees { .. } => Some(KEEP_ACCOUNTS),
        Fault::PinClash {
            kind,
            first,
            second,
            ..
        } => {
            let is_pinned = has_pin_of(pins, *kind, first.bytes())
                || has_pin_of(pins, *kind, second.bytes());
            Some(if is_pinned { PIN_APART } else { KEEP_ACCOUNTS })
        }
        Fault::PinReserved { kind, name, .. } => {
            let is_pinned = has_pin_of(pins, *kind, name.bytes());
            Some(if is_pinned { PIN_UNRESERVED } else { KEEP_NAME })
        }
        _ => None,
    }
}

// What may be done about the refusal of a site with this pins text, if anything is to be said of
// it.
fn advice_on(fault: &Fault<'_>, pins: &[u8]) -> Option<&'static str> {
    match fault {
        Fault::UnownedUid { .. } | Fault::UnownedGid { .. } => Some(KEEP_ACCOUNTS),
        Fault::PoolTooSmall { .. } => {
            Some("unify: hint: widen this range of numbers in the hosts' login.defs")
        }
        Fault::InventoryChanged(_) => {
            Some("unify: hint: the inventory was written to while it was read; merge again")
        }
        Fault::Line {
            fault: TextCode::CutInventory,
            ..
        } => Some("unify: hint: the inventory was cut; copy or make it again"),
        _ => advice_on_pins(fault, pins),
    }
}

/// Tells what may be done about the refusal of a site with this pins text, and which file is to be
/// mended, where standard error is a terminal.
pub(crate) fn tell_advice(rt: &HostRuntime, fault: &Fault<'_>, pins: &[u8]) {
    if let Some(advice) = advice_on(fault, pins) {
        tell_hint(rt, advice);
    }
}
