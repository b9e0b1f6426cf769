//! The time when an inventory is begun.

use jiff_core::civil::DateTime;
use std::alloc::AllocError;
use std::time::{SystemTime, UNIX_EPOCH};

// How many nanoseconds a second has.
const SECOND: i128 = 1_000_000_000;

// The time that the system tells in UTC, without the fraction of its second. None where it tells
// none, or one after the year 9999.
fn utc_now(rt: &HostRuntime) -> Option<DateTime> {
    let Ok(now) = SystemTime::now(rt) else {
        return None;
    };
    let Ok(since) = now.duration_since(UNIX_EPOCH) else {
        return None;
    };
    match DateTime::from_nanosecond(since.as_secs() as i128 * SECOND) {
        Ok(moment) => Some(moment),
        Err(_) => None,
    }
}

/// The time that it is, in UTC, as `YYYY-MM-DDTHH:MM:SSZ`; a hyphen where the system tells none.
///
/// # Errors
///
/// Where memory is refused.
pub fn time_text(rt: &HostRuntime) -> Result<String, AllocError> {
    let Some(DateTime { date, time }) = utc_now(rt) else {
        return String::from_str(rt.alloc(), "-");
    };
    let (year, month, day) = (date.year, date.month, date.day);
    let (hour, minute, second) = (time.hour, time.minute, time.second);
    format!(in rt.alloc(); "{year:04}-{month:02}-{day:02}T{hour:02}:{minute:02}:{second:02}Z")
}
